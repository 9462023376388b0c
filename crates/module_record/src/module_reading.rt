// Reading module records.
ghost use Rattle.std.specs.Prelude.{◌≡◌, ◌↔◌, ◌≤◌, List, ℕ, IfOk, Some, length};
ghost use Rattle.der_core.specs.Reads.{Answers};
ghost use Rattle.module_record.specs.ModuleRecord.{BeginsWithModuleRecord};
ghost use Rattle.module_record.specs.ModuleReading.{oid_at, number_at, serial_at, one_at, capacity_at, sequence_at};
ghost use Rattle.module_record.specs.ModuleReading.{few, lists_of, module_of, module_at, ModuleParts, HasModuleParts};
ghost use Rattle.module_record.specs.ModuleView.{list_parts, module_parts};
ghost use Rattle.module_record.specs.declared.module.Module.{Module};

use crate::anchor_reading::read_anchors;
use crate::key_record::read_key;
use crate::limits::{MOST_ANCHORS, MOST_CAPACITY, MOST_LISTED};
use crate::lists::{Anchors, Kinds, Oids};
use crate::module::Module;
use der_core::{Cursor, Octets64, Oid, read_oid, read_u128, tags};
use lms_sign::SignKey;
use std::alloc::{AllocError, Global};

// What makes a record one of a module, and not of a key.
pub(crate) const MODULE_RECORD: u128 = 1;

// The lists of a module record, as octets, and what stands between and behind them.
#[derive(Drop)]
pub(crate) struct Lists<'a> {
    pub communities: &'a [u8],
    pub kinds: &'a [u8],
    pub capacity: u32,
    pub anchors: &'a [u8],
    pub key: SignKey,
}

// What a module record holds.
#[derive(Drop)]
pub(crate) struct Fields<'a> {
    pub hw_type: Oid,
    pub serial: Octets64,
    pub lists: Lists<'a>,
}

#[tactic(auto, unfolding(crate::specs::ModuleReading::oid_at))]
fn read_type(items: &mut Cursor<'_>) -> Option<Oid>
    ensures exact { Answers (λ oid. (oid, items.new)) result (oid_at items.old) }
{
    read_oid(items.tagged(tags::OBJECT_IDENTIFIER)?)
}

#[tactic(auto, unfolding(crate::specs::ModuleReading::number_at))]
fn read_kind(items: &mut Cursor<'_>) -> Option<u128>
    ensures exact { Answers (λ kind. (kind, items.new)) result (number_at items.old) }
{
    read_u128(items.tagged(tags::INTEGER)?)
}

#[tactic(auto, unfolding(crate::specs::ModuleReading::serial_at))]
fn read_serial(fields: &mut Cursor<'_>) -> Option<Octets64>
    ensures exact { Answers (λ serial. (serial, fields.new)) result (serial_at fields.old) }
{
    Octets64::some(fields.tagged(tags::OCTET_STRING)?)
}

// The number that stands first in a module record.
#[tactic(auto, unfolding(crate::specs::ModuleReading::one_at))]
fn read_one(fields: &mut Cursor<'_>) -> Option<u128>
    ensures exact { Answers (λ n. (n, fields.new)) result (one_at fields.old) }
{
    let number = read_u128(fields.tagged(tags::INTEGER)?)?;
    if number != MODULE_RECORD {
        return None;
    }
    Some(number)
}

#[tactic(auto, unfolding(crate::specs::ModuleReading::capacity_at))]
fn read_capacity(fields: &mut Cursor<'_>) -> Option<u32>
    ensures exact { Answers (λ n. (n, fields.new)) result (capacity_at fields.old) }
{
    let number = read_u128(fields.tagged(tags::INTEGER)?)?;
    if number < 1 || number > u128::from(MOST_CAPACITY) {
        return None;
    }
    Some(number as u32)
}

// The contents of the SEQUENCE at the front.
#[tactic(auto, unfolding(crate::specs::ModuleReading::sequence_at))]
fn read_sequence<'a>(fields: &mut Cursor<'a>) -> Option<&'a [u8]>
    ensures exact { Answers (λ contents. (contents.now, fields.new)) result
        (sequence_at fields.old) }
{
    fields.tagged(tags::SEQUENCE)
}

// The lists, which are all that is left.
#[tactic(auto, unfolding(crate::specs::ModuleReading::lists_of))]
fn read_lists<'a>(fields: &mut Cursor<'a>) -> Option<Lists<'a>>
    ensures exact { Answers list_parts result (lists_of fields.old) }
{
    let communities = read_sequence(fields)?;
    let kinds = read_sequence(fields)?;
    let capacity = read_capacity(fields)?;
    let anchors = read_sequence(fields)?;
    let key = read_key(fields)?;
    if !fields.at_end() {
        return None;
    }
    Some(Lists {
        communities,
        kinds,
        capacity,
        anchors,
        key,
    })
}

// What a record's contents hold.
#[tactic(auto, unfolding(crate::specs::ModuleReading::module_of))]
fn read_fields(contents: &[u8]) -> Option<Fields<'_>>
    ensures exact { Answers module_parts result (module_of contents.now) }
{
    let mut fields = Cursor::new(contents);
    read_one(&mut fields)?;
    let hw_type = read_type(&mut fields)?;
    let serial = read_serial(&mut fields)?;
    let Some(lists) = read_lists(&mut fields) else {
        return None;
    };
    Some(Fields {
        hw_type,
        serial,
        lists,
    })
}

// What the record at the front holds, and the octets are passed up to its end.
#[tactic(auto, unfolding(crate::specs::ModuleReading::module_at))]
fn read_front<'a>(octets: &mut Cursor<'a>) -> Option<Fields<'a>>
    ensures exact { Answers (λ fields. (module_parts fields, octets.new)) result
        (module_at octets.old) }
{
    let contents = octets.tagged(tags::SEQUENCE)?;
    match read_fields(contents) {
        Some(fields) => Some(fields),
        None => None,
    }
}

// The identifiers that the octets are, 64 at most.
fn read_oids(alloc: Global, contents: &[u8]) -> Result<Option<Oids>, AllocError>
    ensures exact { IfOk result (λ oids. Answers (λ list. list) oids (few oid_at contents.now)) }
{
    let mut items = Cursor::new(contents);
    let mut oids = Vec::new(alloc);
    while !items.at_end() {
        let Some(oid) = read_type(&mut items) else {
            return Ok(None);
        };
        oids.push(oid)?;
    }
    if oids.len() > MOST_LISTED {
        return Ok(None);
    }
    Ok(Some(Oids::new(oids)))
}

// The package types that the octets are, 64 at most.
fn read_kinds(alloc: Global, contents: &[u8]) -> Result<Option<Kinds>, AllocError>
    ensures exact { IfOk result (λ kinds.
        Answers (λ list. list) kinds (few number_at contents.now)) }
{
    let mut items = Cursor::new(contents);
    let mut kinds = Vec::new(alloc);
    while !items.at_end() {
        let Some(kind) = read_kind(&mut items) else {
            return Ok(None);
        };
        kinds.push(kind)?;
    }
    if kinds.len() > MOST_LISTED {
        return Ok(None);
    }
    Ok(Some(Kinds::new(kinds)))
}

// The module with these parts.
fn make_module(alloc: Global, fields: Fields<'_>) -> Result<Option<Module>, AllocError>
    ensures { IfOk result (λ answer. (m : Module) → (answer ≡ Some m)
        ↔ HasModuleParts m (module_parts fields.entry)) }
{
    let Fields {
        hw_type,
        serial,
        lists,
    } = fields;
    let Some(communities) = read_oids(alloc, lists.communities)? else {
        return Ok(None);
    };
    let Some(kinds) = read_kinds(alloc, lists.kinds)? else {
        return Ok(None);
    };
    let Some(anchors) = read_anchors(alloc, lists.anchors)? else {
        return Ok(None);
    };
    let count = anchors.as_slice().len();
    if count == 0 || count > MOST_ANCHORS {
        return Ok(None);
    }
    Ok(Some(Module {
        hw_type,
        serial,
        communities,
        kinds,
        capacity: lists.capacity,
        anchors,
        key: lists.key,
    }))
}

/// The module of the module record at the front of the octets. What follows isn't looked at. It
/// takes memory for the lists and the anchors, and to see that no type stands twice in an anchor's
/// constraints.
pub fn read_module(alloc: Global, bytes: &[u8]) -> Result<Option<Module>, AllocError>
    ensures spelled { IfOk result (λ answer. (m : Module) → (answer ≡ Some m)
        ↔ BeginsWithModuleRecord bytes.now m) }
{
    let Some(fields) = read_front(&mut Cursor::new(bytes)) else {
        return Ok(None);
    };
    make_module(alloc, fields)
}
