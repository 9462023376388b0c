ghost use Rattle.std.specs.Prelude.{◌≡◌, ◌<◌, ◌≤◌, ◌^◌, ◌+◌, ◌-◌, ◌++◌, ℕ, List, length, IfOk};
ghost use Rattle.std.specs.Prelude.{IfErr, MatchResult, Ok, Err, bytes_eq, is_some, true};
ghost use Rattle.der_core.specs.LeafReading.{integer_of};
ghost use Rattle.cms_signed.specs.Cut.{before_content, HasCut, signed_data, firmware_package};
ghost use Rattle.cms_signed.specs.CutReading.{open_at, contents_of, has_at, parts_at, CanCome};

use crate::content_types::{FIRMWARE_PACKAGE, SIGNED_DATA};
use der_core::{DerFault, read_head, read_int_octets, tags};

// Why octets don't begin with a head.
#[derive(Clone, Copy, Debug, PartialEq, Eq)]
pub(crate) enum Missing {
    // A head isn't whole before so many more octets have come.
    More(usize),

    // None is, whatever comes.
    Never,
}

#[tactic(auto, unfolding(crate::specs::CutReading::open_at))]
fn open(bytes: &[u8], left: usize, tag: u8) -> Result<(usize, &[u8]), Missing>
    ensures within { IfOk result (λ x. (length x.1.now ≤ length bytes.now)
        × ((length bytes.now - length x.1.now) + x.0 ≤ left)) }
    ensures exact { MatchResult result
        (λ x. open_at tag left bytes.now ≡ Ok (x.0, x.1.now)) (λ m. open_at tag left bytes.now ≡ Err m) }
{
    match read_head(bytes) {
        Ok((found, size, rest)) => {
            let end = bytes.len() - rest.len() + size as usize;
            if found == tag && end <= left {
                Ok((size as usize, rest))
            } else {
                Err(Missing::Never)
            }
        }
        Err(DerFault::Short) => Err(Missing::More(1)),
        Err(DerFault::Malformed) => Err(Missing::Never),
    }
}

#[tactic(auto, unfolding(crate::specs::CutReading::contents_of))]
fn contents(bytes: &[u8], left: usize, tag: u8) -> Result<(&[u8], &[u8]), Missing>
    ensures within { IfOk result (λ x. (length x.1.now ≤ length bytes.now)
        × (length bytes.now - length x.1.now ≤ left)) }
    ensures exact { MatchResult result
        (λ x. contents_of tag left bytes.now ≡ Ok (x.0.now, x.1.now))
        (λ m. contents_of tag left bytes.now ≡ Err m) }
{
    let (size, rest) = open(bytes, left, tag)?;
    if rest.len() < size {
        return Err(Missing::More(size - rest.len()));
    }
    Ok(rest.split_at(size))
}

#[tactic(auto, unfolding(crate::specs::CutReading::has_at))]
fn identifier<'a>(bytes: &'a [u8], left: usize, wanted: &[u8]) -> Result<(usize, &'a [u8]), Missing>
    ensures { MatchResult result
        (λ x. has_at 6 (bytes_eq wanted.now) left bytes.now ≡ Ok (x.0, x.1.now))
        (λ m. has_at 6 (bytes_eq wanted.now) left bytes.now ≡ Err m) }
{
    let (found, rest) = contents(bytes, left, tags::OBJECT_IDENTIFIER)?;
    if wanted == found {
        Ok((left - (bytes.len() - rest.len()), rest))
    } else {
        Err(Missing::Never)
    }
}

#[tactic(auto, unfolding(crate::specs::CutReading::has_at))]
fn integer(bytes: &[u8], left: usize) -> Result<(usize, &[u8]), Missing>
    ensures { MatchResult result
        (λ x. has_at 2 (λ c. is_some (integer_of c)) left bytes.now ≡ Ok (x.0, x.1.now))
        (λ m. has_at 2 (λ c. is_some (integer_of c)) left bytes.now ≡ Err m) }
{
    let (found, rest) = contents(bytes, left, tags::INTEGER)?;
    if read_int_octets(found).is_some() {
        Ok((left - (bytes.len() - rest.len()), rest))
    } else {
        Err(Missing::Never)
    }
}

#[tactic(auto, unfolding(crate::specs::CutReading::has_at))]
fn set(bytes: &[u8], left: usize) -> Result<(usize, &[u8]), Missing>
    ensures { MatchResult result
        (λ x. has_at 49 (λ c. true) left bytes.now ≡ Ok (x.0, x.1.now))
        (λ m. has_at 49 (λ c. true) left bytes.now ≡ Err m) }
{
    let (_, rest) = contents(bytes, left, tags::SET)?;
    Ok((left - (bytes.len() - rest.len()), rest))
}

// The length of the content, and what follows its head.
fn head(bytes: &[u8]) -> Result<(usize, &[u8]), Missing>
    ensures { MatchResult result
        (λ x. parts_at before_content (2 ^ 33) bytes.now ≡ Ok (x.0, x.1.now))
        (λ m. parts_at before_content (2 ^ 33) bytes.now ≡ Err m) }
{
    let (left, rest) = open(bytes, 1 << 33, tags::SEQUENCE)?;
    let (left, rest) = identifier(rest, left, &SIGNED_DATA)?;
    let (left, rest) = open(rest, left, tags::CONSTRUCTED_0)?;
    let (left, rest) = open(rest, left, tags::SEQUENCE)?;
    let (left, rest) = integer(rest, left)?;
    let (left, rest) = set(rest, left)?;
    let (left, rest) = open(rest, left, tags::SEQUENCE)?;
    let (left, rest) = identifier(rest, left, &FIRMWARE_PACKAGE)?;
    let (left, rest) = open(rest, left, tags::CONSTRUCTED_0)?;
    let (left, rest) = open(rest, left, tags::OCTET_STRING)?;
    Ok((left, rest))
}

// The place of the content behind the head at the front of the octets, and its length.
pub(crate) fn find_cut(bytes: &[u8]) -> Result<(usize, u32), Missing>
    ensures found { IfOk result (λ x. HasCut bytes.now x.0 x.1) }
    ensures missing { IfErr result (λ missing. (more : List ℕ) (place size : ℕ)
        → HasCut (bytes.now ++ more) place size → CanCome missing (length more)) }
    ensures some { IfErr result (λ missing. CanCome missing 0 → ⊥) }
{
    match head(bytes) {
        Ok((size, rest)) => Ok((bytes.len() - rest.len(), size as u32)),
        Err(missing) => Err(missing),
    }
}
