// A stream is split into items, in whatever pieces it comes.
ghost use Rattle.std.specs.Prelude.{◌≡◌, ◌↔◌, ◌<◌, ◌≤◌, ℕ, List, [], length, IsTrue, IfOk, IfErr, Some};
ghost use Rattle.der_core.specs.Items.{HasSequence};
ghost use Rattle.der_core.specs.Progress.{Sees, Declares, HasEnded, sequence_size};
ghost use Rattle.der_core.specs.Splitter.{Awaits, IsStep, IsFirstTag, IsHeadFault, Stands, StandsAfter};

use crate::fault::DerFault;
use crate::first_octets::FirstOctets;
use crate::head::read_head;
use crate::tags;
use std::marker::Model;

/// What a piece of a stream is to the item that has come so far. An item is a SEQUENCE (X.690,
/// section 8.9), or all that remains where none begins.
#[derive(Clone, Copy, Debug, PartialEq, Eq)]
pub enum Step {
    /// All of the piece belongs to the item, which goes on, or the piece is empty.
    More,

    /// The item is a SEQUENCE, and ends after so many octets of the piece, one at least.
    Ends(usize),

    /// No SEQUENCE begins with the item's octets, so that the item is all that remains.
    Rest,
}

/// Splits a stream into items, in whatever pieces it comes. It is seen as the item's first octets,
/// at most six, and, until `Rest`, the number of the item's octets. Six octets are all it keeps: as
/// many as tag and length take.
#[derive(Drop)]
pub struct Splitter {
    head: FirstOctets,
    count: Option<u64>,
}

impl Model for Splitter {
    ghost use Rattle.std.specs.Prelude.{List, ℕ};
    ghost use Rattle.der_core.specs.Progress.{Progress, Reaches};

    ghost Value = { Progress };

    ghost view = { λ s. record { head = s.head; count = s.count } };

    ghost invariant = { λ s. ∥ Reaches (record { head = s.head; count = s.count }) ∥₁ };
}

impl Splitter {
    /// A splitter that no octet has come to.
    pub fn new() -> Splitter
        ensures fresh { Sees result [] }
        ensures stream { Stands result [] [] [] }
    {
        Splitter {
            head: FirstOctets::new(),
            count: Some(0),
        }
    }

    // Whether the item has all octets that it declares.
    fn has_ended(&self) -> bool
        ensures { IsTrue result ↔ HasEnded self.now }
    {
        match sequence_head(self.head.octets()) {
            Ok((size, _)) => self.count == Some(size),
            Err(_) => false,
        }
    }

    // Takes octets of an item that has not ended yet.
    fn take(&mut self, piece: &[u8]) -> Step
        requires some { 0 < length piece.now }
        requires goes_on { HasEnded self.old → ⊥ }
        ensures within { (n : ℕ) → result ≡ Step.Ends n → (0 < n) × (n ≤ length piece.now) }
        ensures step { (so_far : List ℕ) → Sees self.old so_far → (HasSequence so_far → ⊥)
            → IsStep so_far piece.now self.new result }
    {
        self.head.keep(piece);
        let Some(count) = self.count else {
            return Step::Rest;
        };
        match sequence_head(self.head.octets()) {
            Ok((size, _)) => {
                let left = size.saturating_sub(count);
                if left > piece.len() as u64 {
                    self.count = Some(count + piece.len() as u64);
                    return Step::More;
                }
                self.head.cut(size);
                self.count = Some(size);
                Step::Ends(left as usize)
            }
            // Fewer than six octets, which are all kept.
            Err(DerFault::Short) => {
                self.count = Some(self.head.octets().len() as u64);
                Step::More
            }
            Err(DerFault::Malformed) => {
                self.count = None;
                Step::Rest
            }
        }
    }
}

/// Takes the next piece of the stream. An empty piece changes nothing, and is answered `More`.
/// After `Ends` the octets behind those that it counts are the next piece, and begin a new item.
/// After `Rest` each piece that isn't empty is answered `Rest`.
///
/// A loop over a stream keeps `Stands splitter read ended so_far`: `read` is what it has read,
/// `ended` the items that were answered `Ends`, and `so_far` what it has of the next one, empty
/// after `Ends`. `Splitter::new` begins that, and the clause `stream` keeps it at each answer. The
/// law `items_of_stream` says what the stream's items then are, at its end and before.
pub fn split_step(splitter: &mut Splitter, piece: &[u8]) -> Step
    ensures empty { piece.now ≡ [] → (result ≡ Step.More) × (splitter.new ≡ splitter.old) }
    ensures within { (n : ℕ) → result ≡ Step.Ends n → (0 < n) × (n ≤ length piece.now) }
    ensures step { 0 < length piece.now → (so_far : List ℕ) → Awaits splitter.old so_far
        → IsStep so_far piece.now splitter.new result }
    ensures stream { (stream : List ℕ) (ended : List (List ℕ)) (so_far : List ℕ)
        → Stands splitter.old stream ended so_far
        → StandsAfter stream ended so_far piece.now splitter.new result }
{
    if piece.is_empty() {
        return Step::More;
    }
    if splitter.has_ended() {
        *splitter = Splitter::new();
    }
    splitter.take(piece)
}

/// How many octets of contents the item declares (X.690, section 8.1.3); after `Ends` that of the
/// item that has ended, until the next octet comes. None exactly where what the item has so far
/// doesn't begin with tag 30 (hex) and a whole length.
pub fn declared(splitter: &Splitter) -> Option<u32>
    ensures declared { (item : List ℕ) → Sees splitter.now item
        → (size : ℕ) → (result ≡ Some size) ↔ Declares item size }
{
    match sequence_head(splitter.head.octets()) {
        Ok((_, size)) => Some(size),
        Err(_) => None,
    }
}

// The size of the SEQUENCE that begins so, and how much of it is contents.
fn sequence_head(octets: &[u8]) -> Result<(u64, u32), DerFault>
    ensures found { IfOk result (λ x. Declares octets.now x.1 × (x.0 ≡ sequence_size x.1)) }
    ensures fault { IfErr result (λ fault. IsHeadFault fault octets.now) }
{
    if !can_begin_sequence(octets) {
        return Err(DerFault::Malformed);
    }
    match read_head(octets) {
        Ok((_, size, contents)) => {
            let head = octets.len() - contents.len();
            Ok((head as u64 + u64::from(size), size))
        }
        Err(fault) => Err(fault),
    }
}

// Whether no other tag stands first.
fn can_begin_sequence(octets: &[u8]) -> bool
    ensures { IsTrue result ↔ IsFirstTag 0x30 octets.now }
{
    match octets {
        [] => true,
        [tag, ..] => *tag == tags::SEQUENCE,
    }
}
