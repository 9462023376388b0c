// A row: the verdict on an item by a module that has nothing installed.
ghost use Rattle.std.specs.Prelude.{◌≡◌, ℕ, List, IfOk, OnOk};
ghost use Rattle.cms_signed.specs.Outline.{Sees};
ghost use Rattle.module_record.specs.ModuleRecord.{HasLimits};

use crate::vectors::MODULE;
use attribute_set::read_attribute_set;
use cms_signed::laws::frame_has_cut;
use cms_signed::{Outline, outline_step};
use config_table::State;
use der_core::Moment;
use judge_core::{
    Cut, CutVerdict, Rehearsed, Verdict, judge, judge_cut, path_grant, rehearse_step,
};
use module_record::{Module, read_module};
use package_attrs::image_of;
use package_rules::HardwareModule;
use sha2::{Digest, Sha256};
use std::alloc::{AllocError, Global};
use std::test::Fail;

const AT: u64 = 20_260_101_000_000;

// How many octets a piece has.
const PIECE: usize = 100;

// The module of a record.
fn module_of(alloc: Global, record: &[u8]) -> Result<Module, Fail>
    ensures limits { IfOk result HasLimits }
{
    match read_module(alloc, record)? {
        Some(found) => Ok(found),
        None => Err(Fail::from("a module")),
    }
}

// The number of the condition that fails first, or 0 where none does.
fn number_of(verdict: &Verdict<'_>) -> u8 {
    match verdict {
        Verdict::Accept { .. } => 0,
        Verdict::Refuse(condition, _) => condition.number(),
    }
}

fn cut_number_of(verdict: &CutVerdict<'_>) -> u8 {
    match verdict {
        CutVerdict::Accept { .. } => 0,
        CutVerdict::Refuse(condition, _) => condition.number(),
    }
}

// The verdict of the module of a record, which is at this sequence number.
pub(crate) fn judged(alloc: Global, record: &[u8], sequence: u64, item: &[u8]) -> Result<u8, Fail> {
    judged_over(alloc, record, &State::new(alloc), sequence, item)
}

// The same where this is installed.
pub(crate) fn judged_over(
    alloc: Global,
    record: &[u8],
    state: &State,
    sequence: u64,
    item: &[u8],
) -> Result<u8, Fail> {
    let at = Moment::new(AT).ok_or("a moment")?;
    let owner = module_of(alloc, record)?;
    let verdict = judge(alloc, &owner, state, sequence, at, item)?;
    Ok(number_of(&verdict))
}

fn rehearsed_number_of(answer: &Rehearsed<'_>) -> u8 {
    match answer {
        Rehearsed::Accept(_) => 0,
        Rehearsed::Refuse(condition) => condition.number(),
    }
}

// The verdict of the rules alone on the attributes in a set.
pub(crate) fn rehearsed(alloc: Global, record: &[u8], set: &[u8]) -> Result<u8, Fail> {
    let owner = module_of(alloc, record)?;
    let hardware = HardwareModule {
        hw_type: &owner.hw_type,
        serial: &owner.serial,
        communities: owner.communities.as_slice(),
        kinds: owner.kinds.as_slice(),
    };
    match read_attribute_set(alloc, set)? {
        Some(attributes) => {
            let answer = rehearse_step(&hardware, &State::new(alloc), &attributes);
            Ok(rehearsed_number_of(&answer))
        }
        None => Err(Fail::from("attributes")),
    }
}

// How many certificates the path of an item has, the place of its anchor, and how many members have
// constraints.
pub(crate) fn granted(alloc: Global, item: &[u8]) -> Result<Option<(usize, usize, usize)>, Fail> {
    let owner = module_of(alloc, MODULE)?;
    match path_grant(alloc, &owner, item)? {
        Some(told) => Ok(Some((told.certificates, told.anchor, told.grant.member_count()))),
        None => Ok(None),
    }
}

// A front, and then so many zeros.
pub(crate) fn with_zeros(alloc: Global, front: &[u8], count: usize) -> Result<Vec<u8>, AllocError> {
    let mut octets = front.to_vec(alloc)?;
    octets.extend_from_slice(&vec![in alloc; 0; count]?)?;
    Ok(octets)
}

// Gives a piece to an outline.
fn feed(outline: &mut Outline, piece: &[u8]) -> Result<(), AllocError>
    ensures sees { OnOk result ((item : List ℕ) → Sees outline.old item
        → (more : List ℕ) × Sees outline.new more) }
{
    let mut rest = piece;
    while !rest.is_empty() {
        let taken = outline_step(outline, rest)?;
        rest = &rest[taken.n..];
    }
    Ok(())
}

// The outline of an item that comes in pieces.
fn outlined(alloc: Global, item: &[u8]) -> Result<Outline, AllocError>
    ensures sees { IfOk result (λ outline. (octets : List ℕ) × Sees outline octets) }
{
    let mut outline = Outline::new(alloc);
    for piece in item.chunks(PIECE) {
        feed(&mut outline, piece)?;
    }
    Ok(outline)
}

fn digest_of(octets: &[u8]) -> [u8; 32] {
    let mut hasher = Sha256::new();
    hasher.update(octets);
    hasher.finalize()
}

// What is told of an item's content, whose place and length these are.
fn cut_of(item: &[u8], place: usize, length: u32) -> Cut
    ensures place { result.place ≡ place }
    ensures length { result.length ≡ length }
{
    let behind = item.get(place..).unwrap_or(&[]);
    let content = behind.get(..length as usize).unwrap_or(behind);
    let digest = digest_of(content);
    Cut {
        place,
        length,
        digest,
        image: u32::try_from(image_of(content).len()).unwrap_or(0),
    }
}

// The same of the outline of an item in pieces.
pub(crate) fn judged_cut(
    alloc: Global,
    record: &[u8],
    sequence: u64,
    item: &[u8],
) -> Result<u8, Fail> {
    let at = Moment::new(AT).ok_or("a moment")?;
    let owner = module_of(alloc, record)?;
    let outline = outlined(alloc, item)?;
    frame_has_cut();
    let cut = match outline.cut() {
        Some((place, length)) => Some(cut_of(item, place, length)),
        None => None,
    };
    let state = State::new(alloc);
    let verdict = judge_cut(alloc, &owner, &state, sequence, at, outline.frame(), cut)?;
    Ok(cut_number_of(&verdict))
}
