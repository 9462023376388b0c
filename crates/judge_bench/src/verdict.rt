// Verdicts on an item, whole and in pieces.
ghost use Rattle.std.specs.Prelude.{◌≡◌, ◌<◌, ℕ, List, Some, IfSome, IsTrue};
ghost use Rattle.cms_signed.specs.Outline.{Sees};
ghost use Rattle.module_record.specs.ModuleRecord.{HasLimits};

use cms_signed::laws::frame_has_cut;
use cms_signed::{Outline, Part, outline_step};
use config_table::State;
use der_core::{Condition, Moment};
use judge_core::{Cut, CutVerdict, Verdict, judge, judge_cut};
use module_record::{Module, read_module};
use package_attrs::{PackageName, image_of};
use sha2::{Digest, Sha256};
use std::alloc::Global;

/// A moment in all validities.
pub const AT: u64 = 20_250_101_000_000;

// How many octets a piece has.
const PIECE: usize = 61;

/// What an item is judged by: a module's record, what it has installed, its sequence number, and the
/// moment.
#[derive(Drop)]
pub struct Bench {
    pub record: Vec<u8>,
    pub state: State,
    pub sequence: u64,
    pub at: u64,
}

// The number of a refusal. A name stands beside the conditions from 20 on.
fn number_of(failing: Condition, name: Option<PackageName>) -> Option<u8> {
    let number = failing.number();
    if name.is_some() == (number >= 20) {
        Some(number)
    } else {
        None
    }
}

// The number of a verdict's condition, or 0.
fn number_whole(verdict: Verdict<'_>) -> Option<u8> {
    match verdict {
        Verdict::Accept { .. } => Some(0),
        Verdict::Refuse(failing, name) => number_of(failing, name),
    }
}

fn number_cut(verdict: CutVerdict<'_>) -> Option<u8> {
    match verdict {
        CutVerdict::Accept { .. } => Some(0),
        CutVerdict::Refuse(failing, name) => number_of(failing, name),
    }
}

/// The module of a record.
pub fn owner_of(alloc: Global, record: &[u8]) -> Option<Module>
    ensures limits { IfSome result (λ owner. HasLimits owner) }
{
    match read_module(alloc, record) {
        Ok(Some(owner)) => Some(owner),
        _ => None,
    }
}

// The verdict on the item as it is: the number of the condition, or 0.
fn whole(alloc: Global, bench: &Bench, item: &[u8]) -> Option<u8> {
    let at = Moment::new(bench.at)?;
    let owner = owner_of(alloc, &bench.record)?;
    match judge(alloc, &owner, &bench.state, bench.sequence, at, item) {
        Ok(verdict) => number_whole(verdict),
        Err(_) => None,
    }
}

// Feeds a piece, and keeps its octets of content.
fn feed(outline: &mut Outline, piece: &[u8], content: &mut Vec<u8>) -> bool
    ensures seen { IsTrue result → (item : List ℕ) → Sees outline.old item
        → (longer : List ℕ) × Sees outline.new longer }
{
    let mut rest = piece;
    for _ in 0..piece.len() {
        if rest.is_empty() {
            return true;
        }
        let Ok(taken) = outline_step(outline, rest) else {
            return false;
        };
        let (front, behind) = rest.split_at(taken.n);
        if taken.part == Part::Content && content.extend_from_slice(front).is_err() {
            return false;
        }
        rest = behind;
    }
    true
}

// An item that comes in pieces of so many octets: its outline, and its content.
fn outlined(alloc: Global, item: &[u8], size: usize) -> Option<(Outline, Vec<u8>)>
    requires some { 0 < size }
    ensures seen { IfSome result (λ fed. (item : List ℕ) × Sees fed.0 item) }
{
    let mut outline = Outline::new(alloc);
    let mut content = Vec::new(alloc);
    for piece in item.chunks(size) {
        if !feed(&mut outline, piece, &mut content) {
            return None;
        }
    }
    Some((outline, content))
}

fn digest_of(octets: &[u8]) -> [u8; 32] {
    let mut hasher = Sha256::new();
    hasher.update(octets);
    hasher.finalize()
}

// The cut of an outline with this content.
fn cut_of(outline: &Outline, content: &[u8]) -> Option<Cut>
    ensures place { IfSome result (λ cut. outline.now.cut ≡ Some (cut.place, cut.length)) }
{
    let (place, length) = outline.cut()?;
    Some(Cut {
        place,
        length,
        digest: digest_of(content),
        image: u32::try_from(image_of(content).len()).ok()?,
    })
}

// The verdict on the item without its content, where it comes in pieces of so many octets.
fn in_pieces(alloc: Global, bench: &Bench, item: &[u8], size: usize) -> Option<u8>
    requires some { 0 < size }
{
    frame_has_cut();
    let at = Moment::new(bench.at)?;
    let (outline, content) = outlined(alloc, item, size)?;
    let owner = owner_of(alloc, &bench.record)?;
    let cut = cut_of(&outline, &content);
    let frame = outline.frame();
    match judge_cut(alloc, &owner, &bench.state, bench.sequence, at, frame, cut) {
        Ok(verdict) => number_cut(verdict),
        Err(_) => None,
    }
}

/// The verdict on the item both ways: the number of the condition that fails first, or 0. None where
/// they differ.
pub fn verdict_by(alloc: Global, bench: &Bench, item: &[u8], size: usize) -> Option<u8>
    requires some { 0 < size }
{
    let number = whole(alloc, bench, item)?;
    if in_pieces(alloc, bench, item, size) == Some(number) {
        Some(number)
    } else {
        None
    }
}

/// The same in pieces of few octets.
pub fn verdict(alloc: Global, bench: &Bench, item: &[u8]) -> Option<u8> {
    verdict_by(alloc, bench, item, PIECE)
}

/// The same of an item that could be made.
pub fn verdict_of(alloc: Global, bench: &Bench, item: Option<Vec<u8>>) -> Option<u8> {
    match item {
        Some(item) => verdict(alloc, bench, &item),
        None => None,
    }
}
