ghost use Rattle.std.specs.Prelude.{◌≡◌, ◌<◌, ◌≤◌, ◌+◌, ◌++◌, ℕ, List, [], length, take, IfOk};
ghost use Rattle.std.specs.Prelude.{OnErr, IfSome, IsSome, Some, None, min};
ghost use Rattle.cms_signed.specs.declared.outline.Part.TheVariants.{Frame, Content};
ghost use Rattle.cms_signed.specs.Outline.{NoCut, Sees, IsOf, content_of, added, left_of};

use crate::cut::{Missing, find_cut};
use std::alloc::{AllocError, Global};
use std::marker::Model;

/// Which part of an item octets are.
#[derive(Clone, Copy, Debug, PartialEq, Eq)]
pub enum Part {
    /// What is kept.
    Frame,

    /// The value of eContent (RFC 5652, section 5.2).
    Content,
}

/// The front of a piece that is all of one part.
#[derive(Clone, Copy, Debug, PartialEq, Eq)]
pub struct Taken {
    /// How many octets it has.
    pub n: usize,
    pub part: Part,
}

/// An item as it comes, without its content. It is seen as its frame, its cut and the number of
/// octets of content so far.
#[derive(Drop)]
pub struct Outline {
    frame: Vec<u8>,
    cut: Option<(usize, u32)>,
    count: u32,
}

impl Model for Outline {
    ghost use Rattle.std.specs.Prelude.{◌≤◌, IfSome, length};
    ghost use Rattle.cms_signed.specs.Outline.{Seen};

    ghost Value = { Seen };

    ghost view = { λ o. record { frame = o.frame.items; cut = o.cut; count = o.count } };

    ghost invariant = { λ o. IfSome o.cut (λ cut. o.count ≤ cut.1) };
}

impl Outline {
    /// An outline of an item that no octet of has come.
    pub fn new(alloc: Global) -> Outline
        ensures fresh { Sees result [] }
    {
        Outline {
            frame: Vec::new(alloc),
            cut: None,
            count: 0,
        }
    }

    /// The octets so far that aren't content.
    pub fn frame(&self) -> &[u8]
        ensures value { result.now ≡ self.now.frame }
    {
        &self.frame
    }

    /// The content's place in the frame, and its length. None until the head is whole.
    pub fn cut(&self) -> Option<(usize, u32)>
        ensures value { result ≡ self.now.cut }
    {
        self.cut
    }

    // Takes octets that may end the head, and none behind it.
    fn take_head(&mut self, piece: &[u8]) -> Result<Taken, AllocError>
        requires { self.old.cut ≡ None }
        ensures seen { IfOk result (λ taken. (item : List ℕ) → Sees self.old item
            → Sees self.new (item ++ take taken.n piece.now)) }
        ensures within { IfOk result (λ taken. (taken.n ≤ length piece.now)
            × (0 < length piece.now → 0 < taken.n)) }
        ensures part { IfOk result (λ taken. (item : List ℕ) → Sees self.old item
            → (i : ℕ) → i < taken.n → IsOf taken.part (item ++ take i piece.now)) }
        ensures content { IfOk result (λ taken. (item : List ℕ) → Sees self.old item
            → content_of self.new.cut (item ++ take taken.n piece.now)
            ≡ content_of self.old.cut item ++ added taken.part (take taken.n piece.now)) }
        ensures frame { IfOk result (λ taken. taken.part ≡ Frame) }
        ensures err { OnErr result (self.new ≡ self.old) }
    {
        let n = before_head(&self.frame, piece);
        self.frame.extend_from_slice(&piece[..n])?;
        if let Ok(cut) = find_cut(&self.frame) {
            self.cut = Some(cut);
            self.count = 0;
        }
        Ok(Taken {
            n,
            part: Part::Frame,
        })
    }
}

// How many octets of the piece can't be behind the head that begins with these octets.
fn before_head(frame: &[u8], piece: &[u8]) -> usize
    ensures within { result ≤ length piece.now }
    ensures some { 0 < length piece.now → 0 < result }
    ensures none { NoCut frame.now → (i : ℕ) → i < result → NoCut (frame.now ++ take i piece.now) }
{
    match find_cut(frame) {
        Ok(_) => piece.len(),
        Err(Missing::More(least)) => least.min(piece.len()),
        Err(Missing::Never) => piece.len(),
    }
}

/// Takes the front of a piece, all of it of one part, and one octet at least where the piece isn't
/// empty. Until the head of a content is whole no octet is taken that may be content. Of the content
/// as much is taken as the piece has, and behind it the whole piece. The octets behind those that
/// are taken are the next piece. On want of memory nothing is taken.
pub fn outline_step(outline: &mut Outline, piece: &[u8]) -> Result<Taken, AllocError>
    ensures seen { IfOk result (λ taken. (item : List ℕ) → Sees outline.old item
        → Sees outline.new (item ++ take taken.n piece.now)) }
    ensures within { IfOk result (λ taken. (taken.n ≤ length piece.now)
        × (0 < length piece.now → 0 < taken.n)) }
    ensures part { IfOk result (λ taken. (item : List ℕ) → Sees outline.old item
        → (i : ℕ) → i < taken.n → IsOf taken.part (item ++ take i piece.now)) }
    ensures content { IfOk result (λ taken. (item : List ℕ) → Sees outline.old item
        → content_of outline.new.cut (item ++ take taken.n piece.now)
        ≡ content_of outline.old.cut item ++ added taken.part (take taken.n piece.now)) }

    // as much of the content as the piece has, and behind the content all of the piece
    ensures most { IfOk result (λ taken. taken.part ≡ Content
        → taken.n ≡ min (length piece.now) (left_of outline.old)) }
    ensures behind { IfOk result (λ taken. IsSome outline.old.cut → left_of outline.old ≡ 0
        → taken.n ≡ length piece.now) }

    // a cut that is known stays
    ensures stays { (cut : ℕ × ℕ) → outline.old.cut ≡ Some cut → outline.new.cut ≡ Some cut }
    ensures err { OnErr result (outline.new ≡ outline.old) }
{
    let Some((_, size)) = outline.cut else {
        return outline.take_head(piece);
    };
    if outline.count < size {
        let n = piece.len().min((size - outline.count) as usize);
        outline.count += n as u32;
        return Ok(Taken {
            n,
            part: Part::Content,
        });
    }
    outline.frame.extend_from_slice(piece)?;
    Ok(Taken {
        n: piece.len(),
        part: Part::Frame,
    })
}
