// The lines of a certificate recipe, by their words.
ghost use Rattle.std.specs.Prelude.{◌≡◌, ◌∷◌, [], IfOk, codes};
ghost use Rattle.der_core.specs.Reads.{Answers};
ghost use Rattle.recipe_text.specs.CertReading.{kind_named};
ghost use Rattle.recipe_text.specs.CertRecipe.{IsPathWord, uses_word, IsHardwareText};
ghost use Rattle.recipe_text.specs.Words.{Exactly};

use crate::cut::{cut_at, is_word};
use crate::oid_word::oid_in;
use crate::words::hex64_in;
use der_core::{Octets64, Oid, read_decimal_u128};
use packager::{Authority, KeyUses};
use std::alloc::{AllocError, Global};

// A kind of line.
#[derive(Clone, Copy)]
pub(crate) enum CertKind {
    Serial,
    Issuer,
    Subject,
    From,
    To,
    Public,
    SubjectKey,
    AuthorityKey,
    Ca,
    Usage,
    Constraint,
    Hardware,
}

// The kind of the line that begins with this word.
#[tactic(auto, unfolding(crate::specs::CertReading::kind_named))]
pub(crate) fn kind_named(name: &[u8]) -> Option<CertKind>
    ensures exact { Answers (λ kind. kind) result (kind_named name.now) }
{
    if is_word(name, b"serial") {
        Some(CertKind::Serial)
    } else if is_word(name, b"issuer") {
        Some(CertKind::Issuer)
    } else if is_word(name, b"subject") {
        Some(CertKind::Subject)
    } else if is_word(name, b"from") {
        Some(CertKind::From)
    } else if is_word(name, b"to") {
        Some(CertKind::To)
    } else if is_word(name, b"public") {
        Some(CertKind::Public)
    } else if is_word(name, b"subjectkey") {
        Some(CertKind::SubjectKey)
    } else if is_word(name, b"authoritykey") {
        Some(CertKind::AuthorityKey)
    } else if is_word(name, b"ca") {
        Some(CertKind::Ca)
    } else if is_word(name, b"usage") {
        Some(CertKind::Usage)
    } else if is_word(name, b"constraint") {
        Some(CertKind::Constraint)
    } else if is_word(name, b"hardware") {
        Some(CertKind::Hardware)
    } else {
        None
    }
}

// How many certificates may stand below an authority.
pub(crate) fn authority_in(text: &[u8]) -> Option<Authority>
    ensures exact { Exactly (λ a. IsPathWord text.now a.path_len) result }
{
    if text == b"-".as_slice() {
        return Some(Authority { path_len: None });
    }
    let number = read_decimal_u128(text)?;
    Some(Authority {
        path_len: Some(number),
    })
}

// What a key may be used for.
pub(crate) fn uses_in(text: &[u8]) -> Option<KeyUses>
    ensures exact { Exactly (λ uses. text.now ≡ uses_word uses) result }
{
    match text {
        b"sign" => Some(KeyUses::Sign),
        b"certsign" => Some(KeyUses::CertSign),
        b"both" => Some(KeyUses::Both),
        _ => None,
    }
}

// A hardware type and a serial number.
pub(crate) fn hardware_in(alloc: Global, text: &[u8]) -> Result<Option<(Oid, Octets64)>, AllocError>
    ensures exact { IfOk result (λ hardware. Exactly (IsHardwareText text.now) hardware) }
{
    let Some((oid, hex)) = cut_at(text, b' ') else {
        return Ok(None);
    };
    let Some(hw_type) = oid_in(alloc, oid)? else {
        return Ok(None);
    };
    let Some(serial) = hex64_in(alloc, hex)? else {
        return Ok(None);
    };
    Ok(Some((hw_type, serial)))
}
