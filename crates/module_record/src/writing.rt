// Writing module records.
ghost use Rattle.std.specs.Prelude.{◌≡◌, ◌++◌, ◌+◌, ◌≤◌, length, OnOk, OnErr, IfOk, IfSome, option_map};
ghost use Rattle.std.specs.List.{flat_map};
ghost use Rattle.der_core.specs.Element.{enc, HasRoom};
ghost use Rattle.der_core.specs.Shapes.{text_if};
ghost use Rattle.cert_fields.specs.View.{part_view};
ghost use Rattle.module_record.specs.KeyRecord.{key_text};
ghost use Rattle.module_record.specs.ModuleRecord.{number_text, oid_text, anchor_contents, anchor_text};
ghost use Rattle.module_record.specs.ModuleRecord.{module_contents, module_lists, module_text};
ghost use Rattle.module_record.specs.ModuleRecord.{HasLimits, HasShortSubjects};

use crate::key_record::key_octets;
use crate::module::Module;
use crate::module_reading::MODULE_RECORD;
use cert_fields::Anchor;
use der_core::{Oid, tags};
use der_write::{put_oid, put_tlv, put_u128};
use std::alloc::{AllocError, Global};

// Identifiers one after the other.
fn oid_octets(alloc: Global, oids: &[Oid]) -> Result<Vec<u8>, AllocError>
    ensures ok { IfOk result (λ all. all.items ≡ flat_map oid_text oids.now) }
{
    let mut all = Vec::new(alloc);
    for oid in oids {
        put_oid(alloc, &mut all, oid)?;
    }
    Ok(all)
}

// Numbers one after the other.
fn number_octets(alloc: Global, numbers: &[u128]) -> Result<Vec<u8>, AllocError>
    ensures ok { IfOk result (λ all. all.items ≡ flat_map number_text numbers.now) }
{
    let mut all = Vec::new(alloc);
    for number in numbers {
        put_u128(alloc, &mut all, *number)?;
    }
    Ok(all)
}

// Appends constraints in [0], where there are any.
fn put_constraints(alloc: Global, out: &mut Vec<u8>, text: Option<&[u8]>) -> Result<(), AllocError>
    requires room { IfSome (part_view text) HasRoom }
    ensures ok { OnOk result (out.new.items
        ≡ out.old.items ++ text_if (enc 0xA0) (part_view text.entry)) }
    ensures err { OnErr result (out.new.items ≡ out.old.items) }
{
    match text {
        Some(text) => put_tlv(alloc, out, tags::CONSTRUCTED_0, text),
        None => Ok(()),
    }
}

// Appends an anchor.
fn put_anchor(alloc: Global, out: &mut Vec<u8>, anchor: &Anchor) -> Result<(), AllocError>
    requires room { HasRoom (anchor_contents anchor.now) }
    ensures ok { OnOk result (out.new.items ≡ out.old.items ++ anchor_text anchor.now) }
{
    let mut contents = Vec::new(alloc);
    contents.extend_from_slice(anchor.subject())?;
    put_tlv(
        alloc,
        &mut contents,
        tags::OCTET_STRING,
        anchor.key_id().octets(),
    )?;
    put_tlv(alloc, &mut contents, tags::OCTET_STRING, anchor.key())?;
    put_constraints(alloc, &mut contents, anchor.constraints_text())?;
    put_tlv(alloc, out, tags::SEQUENCE, &contents)
}

// Anchors one after the other.
fn anchor_octets(alloc: Global, anchors: &[Anchor]) -> Result<Vec<u8>, AllocError>
    requires room { HasRoom (flat_map anchor_text anchors.now) }
    ensures ok { IfOk result (λ all. all.items ≡ flat_map anchor_text anchors.now) }
{
    let mut all = Vec::new(alloc);
    for anchor in anchors {
        put_anchor(alloc, &mut all, anchor)?;
    }
    Ok(all)
}

// Appends the lists, and what stands between and behind them.
fn put_lists(alloc: Global, out: &mut Vec<u8>, holder: &Module) -> Result<(), AllocError>
    requires room { HasRoom (module_lists holder.now) }
    ensures ok { OnOk result (out.new.items ≡ out.old.items ++ module_lists holder.now) }
{
    let communities = oid_octets(alloc, holder.communities.as_slice())?;
    put_tlv(alloc, out, tags::SEQUENCE, &communities)?;
    let kinds = number_octets(alloc, holder.kinds.as_slice())?;
    put_tlv(alloc, out, tags::SEQUENCE, &kinds)?;
    put_u128(alloc, out, u128::from(holder.capacity))?;
    let anchors = anchor_octets(alloc, holder.anchors.as_slice())?;
    put_tlv(alloc, out, tags::SEQUENCE, &anchors)?;
    out.extend_from_slice(&key_octets(alloc, &holder.key)?)
}

// What a record holds.
fn contents(alloc: Global, holder: &Module) -> Result<Vec<u8>, AllocError>
    requires room { HasRoom (module_contents holder.now) }
    ensures ok { IfOk result (λ contents. contents.items ≡ module_contents holder.now) }
{
    let mut contents = Vec::new(alloc);
    put_u128(alloc, &mut contents, MODULE_RECORD)?;
    put_oid(alloc, &mut contents, &holder.hw_type)?;
    put_tlv(
        alloc,
        &mut contents,
        tags::OCTET_STRING,
        holder.serial.octets(),
    )?;
    put_lists(alloc, &mut contents, holder)?;
    Ok(contents)
}

/// Appends the module record of a module. The contents of an element are shorter than 2^32 octets.
pub fn put_module(alloc: Global, out: &mut Vec<u8>, holder: &Module) -> Result<(), AllocError>
    requires room { HasRoom (module_contents holder.now) }
    ensures ok { OnOk result (out.new.items ≡ out.old.items ++ module_text holder.now) }
    ensures most { HasLimits holder.now → HasShortSubjects holder.now
        → OnOk result (length out.new.items ≤ length out.old.items + 65536) }
    ensures err { OnErr result (out.new.items ≡ out.old.items) }
{
    let contents = contents(alloc, holder)?;
    put_tlv(alloc, out, tags::SEQUENCE, &contents)
}
