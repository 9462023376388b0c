// Names of one commonName.
ghost use Rattle.std.specs.Prelude.{◌≡◌, ◌↔◌, ◌≤◌, IsTrue, IfOk, option_map, length, slice_index, EachIndex};
ghost use Rattle.recipe_text.specs.Words.{Exactly, IsNameWord, name_of};

use der_core::tags;
use der_write::put_tlv;
use std::alloc::{AllocError, Global};

// The contents of 2.5.4.3, id-at-commonName (RFC 5280, appendix A.1).
const COMMON_NAME: [u8; 3] = [0x55, 0x04, 0x03];

// The Name that 1 to 64 characters stand for, a whole element.
pub(crate) fn name_in(alloc: Global, word: &[u8]) -> Result<Option<Vec<u8>>, AllocError>
    ensures exact { IfOk result (λ name. Exactly (IsNameWord word.now) (option_map (λ o. o.items) name)) }
{
    if word.is_empty() || word.len() > 64 || !are_visible(word) {
        return Ok(None);
    }
    Ok(Some(name(alloc, word)?))
}

// Whether the characters are from 21 to 7E.
fn are_visible(characters: &[u8]) -> bool
    ensures { IsTrue result ↔ EachIndex characters.now (λ k.
        (0x21 ≤ slice_index characters.now k) × (slice_index characters.now k ≤ 0x7E)) }
{
    characters.iter().all(|c| *c >= 0x21 && *c <= 0x7e)
}

// The Name with one commonName, a UTF8String (RFC 5280, section 4.1.2.4).
fn name(alloc: Global, characters: &[u8]) -> Result<Vec<u8>, AllocError>
    requires short { length characters.now ≤ 64 }
    ensures text { IfOk result (λ name. name.items ≡ name_of characters.now) }
{
    let mut attribute = Vec::new(alloc);
    put_tlv(alloc, &mut attribute, tags::OBJECT_IDENTIFIER, &COMMON_NAME)?;
    put_tlv(alloc, &mut attribute, tags::UTF8_STRING, characters)?;
    let mut relative = Vec::new(alloc);
    put_tlv(alloc, &mut relative, tags::SEQUENCE, &attribute)?;
    let mut names = Vec::new(alloc);
    put_tlv(alloc, &mut names, tags::SET, &relative)?;
    let mut whole = Vec::new(alloc);
    put_tlv(alloc, &mut whole, tags::SEQUENCE, &names)?;
    Ok(whole)
}
