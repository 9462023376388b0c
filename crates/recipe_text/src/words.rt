// The words of lines, and the values that they stand for.
ghost use Rattle.std.specs.Prelude.{◌≡◌, ◌↔◌, ◌≤◌, IsTrue, IfOk, option_map, length};
ghost use Rattle.der_core.specs.Integer.{IsInteger};
ghost use Rattle.packager.specs.PackagePlan.{IsCertificateText};
ghost use Rattle.recipe_text.specs.Lines.{IsHex};
ghost use Rattle.recipe_text.specs.Words.{Exactly, IsHex64, IsSerialWord, IsKeyWord};
ghost use Rattle.recipe_text.specs.Words.{AreConstraintsText, IsConstraintsWord, IsCertificateWord};

use crate::key_line::octets_in;
use cert_fields::{read_ccc, read_cert};
use der_core::{Octets64, read_int_octets};
use hex::FromHexError;
use hss_chain::{HssKey, hss_key};
use std::alloc::{AllocError, Global};

// The octets of HEX, of any number.
pub(crate) fn hex_in(alloc: Global, word: &[u8]) -> Result<Option<Vec<u8>>, AllocError>
    ensures exact { IfOk result (λ octets. Exactly (IsHex word.now) (option_map (λ o. o.items) octets)) }
{
    if word.is_empty() {
        return Ok(None);
    }
    match hex::decode(alloc, word) {
        Ok(octets) => Ok(Some(octets)),
        Err(FromHexError::OutOfMemory) => Err(AllocError),
        Err(_) => Ok(None),
    }
}

// HEX of 1 to 64 octets.
pub(crate) fn hex64_in(alloc: Global, word: &[u8]) -> Result<Option<Octets64>, AllocError>
    ensures exact { IfOk result (λ octets. Exactly (IsHex64 word.now) octets) }
{
    match hex_in(alloc, word)? {
        Some(octets) => Ok(Octets64::some(&octets)),
        None => Ok(None),
    }
}

// HEX of the contents of an INTEGER of at most 20 octets.
pub(crate) fn serial_in(alloc: Global, word: &[u8]) -> Result<Option<Vec<u8>>, AllocError>
    ensures exact { IfOk result (λ octets. Exactly (IsSerialWord word.now) (option_map (λ o. o.items) octets)) }
{
    let Some(octets) = hex_in(alloc, word)? else {
        return Ok(None);
    };
    if !is_serial(&octets) {
        return Ok(None);
    }
    Ok(Some(octets))
}

// Whether the octets are the contents of an INTEGER, and 20 at most.
fn is_serial(octets: &[u8]) -> bool
    ensures { IsTrue result ↔ (IsInteger octets.now × (length octets.now ≤ 20)) }
{
    octets.len() <= 20 && read_int_octets(octets).is_some()
}

// HEX of an HSS key.
pub(crate) fn hss_key_in(word: &[u8]) -> Option<HssKey>
    ensures exact { Exactly (IsKeyWord word.now) result }
{
    let octets = octets_in::<60>(word)?;
    hss_key(&octets)
}

// HEX of one text of content constraints.
pub(crate) fn constraints_in(alloc: Global, word: &[u8]) -> Result<Option<Vec<u8>>, AllocError>
    ensures exact { IfOk result (λ octets. Exactly (IsConstraintsWord word.now) (option_map (λ o. o.items) octets)) }
{
    let Some(octets) = hex_in(alloc, word)? else {
        return Ok(None);
    };
    let are = are_constraints(alloc, &octets)?;
    if !are {
        return Ok(None);
    }
    Ok(Some(octets))
}

// Whether the octets are a text of content constraints, all of them.
fn are_constraints(alloc: Global, octets: &[u8]) -> Result<bool, AllocError>
    ensures { IfOk result (λ are. IsTrue are ↔ AreConstraintsText octets.now) }
{
    Ok(read_ccc(alloc, octets)?.is_some())
}

// HEX of a certificate.
pub(crate) fn certificate_in(alloc: Global, word: &[u8]) -> Result<Option<Vec<u8>>, AllocError>
    ensures exact { IfOk result (λ octets. Exactly (IsCertificateWord word.now) (option_map (λ o. o.items) octets)) }
{
    let Some(octets) = hex_in(alloc, word)? else {
        return Ok(None);
    };
    if !is_certificate(&octets) {
        return Ok(None);
    }
    Ok(Some(octets))
}

// Whether the octets are a certificate, all of them.
fn is_certificate(octets: &[u8]) -> bool
    ensures { IsTrue result ↔ IsCertificateText octets.now }
{
    read_cert(octets).is_some()
}
