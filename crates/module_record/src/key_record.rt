// Reading and writing key records.
ghost use Rattle.std.specs.Prelude.{◌≡◌, ◌++◌, ◌↔◌, ◌≤◌, ℕ, List, Some, length, OnOk, OnErr};
ghost use Rattle.std.specs.Prelude.{IfOk, IfSome};
ghost use Rattle.der_core.specs.Reads.{Answers};
ghost use Rattle.lms_sign.specs.PublicKeys.{IsSignKey};
ghost use Rattle.lms_verify.specs.Kinds.{height};
ghost use Rattle.module_record.specs.KeyRecord.{key_fields_text, key_text, key_record_text};
ghost use Rattle.module_record.specs.KeyRecord.{BeginsWithKeyRecord};
ghost use Rattle.module_record.specs.Reading.{view, sized, tree_kind_of, ots_kind_of, fields_of};
ghost use Rattle.module_record.specs.Reading.{key_at, record_of, key_record_at};

use der_core::{Cursor, read_u128, tags};
use der_write::{put_tlv, put_u128};
use lms_sign::SignKey;
use lms_verify::{LmsKind, OtsKind};
use std::alloc::{AllocError, Global};

// What makes a record one of a key, and not of a module.
const KEY_RECORD: u128 = 2;

// The kind of a signing key's tree, by its typecode.
#[tactic(auto, using(crate::proofs::KindLaws::big_tree, crate::proofs::KindLaws::unknown_tree))]
fn tree_kind(number: u128) -> Option<LmsKind>
    ensures exact { Answers (λ kind. kind) result (tree_kind_of number) }
    ensures low { IfSome result (λ kind. height kind ≤ 10) }
{
    let Ok(typecode) = u32::try_from(number) else {
        return None;
    };
    let kind = LmsKind::from_number(typecode)?;
    if kind.height() > 10 {
        return None;
    }
    Some(kind)
}

// The kind of one-time keys, by its typecode.
#[tactic(auto, using(crate::proofs::KindLaws::big_ots, crate::proofs::KindLaws::ots_answers))]
fn ots_kind(number: u128) -> Option<OtsKind>
    ensures exact { Answers (λ ots. ots) result (ots_kind_of number) }
{
    let Ok(typecode) = u32::try_from(number) else {
        return None;
    };
    OtsKind::from_number(typecode)
}

// The octets, where there are so many.
pub(crate) fn array_of<const N: usize>(octets: &[u8]) -> Option<[u8; N]>
    ensures exact { Answers (λ octets. octets) result (sized N octets.now) }
{
    if octets.len() != N {
        return None;
    }
    let mut array = [0u8; N];
    array.copy_from_slice(octets);
    Some(array)
}

// The key whose fields the octets are.
#[tactic(auto, unfolding(crate::specs::Reading::fields_of))]
fn read_fields(fields: &[u8]) -> Option<SignKey>
    ensures exact { Answers view result (fields_of fields.now) }
{
    let mut parts = Cursor::new(fields);
    let kind = tree_kind(read_u128(parts.tagged(tags::INTEGER)?)?)?;
    let ots = ots_kind(read_u128(parts.tagged(tags::INTEGER)?)?)?;
    let seed = array_of(parts.tagged(tags::OCTET_STRING)?)?;
    let id = array_of(parts.tagged(tags::OCTET_STRING)?)?;
    if !parts.at_end() {
        return None;
    }
    Some(SignKey {
        seed,
        id,
        kind,
        ots,
    })
}

// The key at the front.
#[tactic(auto, unfolding(crate::specs::Reading::key_at))]
pub(crate) fn read_key(fields: &mut Cursor<'_>) -> Option<SignKey>
    ensures exact { Answers (λ key. (view key, fields.new)) result (key_at fields.old) }
{
    read_fields(fields.tagged(tags::SEQUENCE)?)
}

// The key that a record holds.
#[tactic(auto, unfolding(crate::specs::Reading::record_of))]
fn read_contents(contents: &[u8]) -> Option<SignKey>
    ensures exact { Answers view result (record_of contents.now) }
{
    let mut fields = Cursor::new(contents);
    if read_u128(fields.tagged(tags::INTEGER)?)? != KEY_RECORD {
        return None;
    }
    let key = read_key(&mut fields)?;
    if !fields.at_end() {
        return None;
    }
    Some(key)
}

// The key of the record at the front, and the octets are passed up to its end.
#[tactic(auto, unfolding(crate::specs::Reading::key_record_at))]
fn read_front(octets: &mut Cursor<'_>) -> Option<SignKey>
    ensures exact { Answers (λ key. (view key, octets.new)) result (key_record_at octets.old) }
{
    read_contents(octets.tagged(tags::SEQUENCE)?)
}

/// The key of the key record at the front of the octets. What follows isn't looked at.
pub fn read_key_record(bytes: &[u8]) -> Option<SignKey>
    ensures spelled { (key : SignKey) → (result ≡ Some key) ↔ BeginsWithKeyRecord bytes.now key }
{
    read_front(&mut Cursor::new(bytes))
}

// Appends a key's fields, without what makes them a SEQUENCE.
fn put_fields(alloc: Global, out: &mut Vec<u8>, key: &SignKey) -> Result<(), AllocError>
    ensures ok { OnOk result (out.new.items ≡ out.old.items ++ key_fields_text key.now) }
    ensures valid { OnOk result (IsSignKey key.now) }
{
    put_u128(alloc, out, u128::from(key.kind.number()))?;
    put_u128(alloc, out, u128::from(key.ots.number()))?;
    put_tlv(alloc, out, tags::OCTET_STRING, &key.seed)?;
    put_tlv(alloc, out, tags::OCTET_STRING, &key.id)
}

// The text of a key.
pub(crate) fn key_octets(alloc: Global, key: &SignKey) -> Result<Vec<u8>, AllocError>
    ensures ok { IfOk result (λ octets. octets.items ≡ key_text key.now) }
    ensures size { IfOk result (λ octets. length octets.items ≡ 60) }
    ensures valid { OnOk result (IsSignKey key.now) }
{
    let mut fields = Vec::new(alloc);
    put_fields(alloc, &mut fields, key)?;
    let mut octets = Vec::new(alloc);
    put_tlv(alloc, &mut octets, tags::SEQUENCE, &fields)?;
    Ok(octets)
}

/// Appends the key record of a key.
pub fn put_key_record(alloc: Global, out: &mut Vec<u8>, key: &SignKey) -> Result<(), AllocError>
    ensures ok { OnOk result (out.new.items ≡ out.old.items ++ key_record_text key.now) }
    ensures valid { OnOk result (IsSignKey key.now) }
    ensures err { OnErr result (out.new.items ≡ out.old.items) }
{
    let mut contents = Vec::new(alloc);
    put_u128(alloc, &mut contents, KEY_RECORD)?;
    contents.extend_from_slice(&key_octets(alloc, key)?)?;
    put_tlv(alloc, out, tags::SEQUENCE, &contents)
}
