// Reading a manifest.
ghost use Rattle.std.specs.Prelude.{◌≡◌, ◌↔◌, Some, IfOk};
ghost use Rattle.der_core.specs.Reads.{Answers};
ghost use Rattle.bank_layout.specs.Manifest.{BeginsWithManifest, Manifest};
ghost use Rattle.bank_layout.specs.Reading.{format_from, format_at, sequence_at, manifest_of, manifest_at};
ghost use Rattle.bank_layout.specs.ReadingView.{manifest_parts};
ghost use Rattle.bank_layout.specs.Tables.{found_manifest};

use crate::format::Format;
use crate::named::pool_of;
use crate::package::read_list;
use crate::tables::{read_packages, read_stale};
use config_table::State;
use der_core::{Cursor, read_u128, tags};
use module_record::MOST_CAPACITY;
use std::alloc::{AllocError, Global};

// The greatest sequence number.
const MOST_SEQUENCE: u128 = 0xffff_ffff_ffff_ffff;

// What a manifest's SEQUENCE holds; its lists are octets.
#[derive(Drop)]
pub(crate) struct Fields<'a> {
    pub format: Format,
    pub sequence: u64,
    pub packages: &'a [u8],
    pub stale: &'a [u8],
}

// The format of a number.
#[tactic(auto, unfolding(crate::specs::Reading::format_from))]
fn format_of(number: u128) -> Option<Format>
    ensures exact { Answers (λ format. format) result (format_from number) }
{
    match number {
        1 => Some(Format::One),
        2 => Some(Format::Two),
        _ => None,
    }
}

#[tactic(auto, unfolding(crate::specs::Reading::format_at))]
fn read_format(fields: &mut Cursor<'_>) -> Option<Format>
    ensures exact { Answers (λ format. (format, fields.new)) result (format_at fields.old) }
{
    format_of(read_u128(fields.tagged(tags::INTEGER)?)?)
}

#[tactic(auto, unfolding(crate::specs::Reading::sequence_at))]
fn read_sequence(fields: &mut Cursor<'_>) -> Option<u64>
    ensures exact { Answers (λ n. (n, fields.new)) result (sequence_at fields.old) }
{
    let number = read_u128(fields.tagged(tags::INTEGER)?)?;
    if number == 0 || number > MOST_SEQUENCE {
        return None;
    }
    Some(number as u64)
}

// What octets hold, all of them.
#[tactic(auto, unfolding(crate::specs::Reading::manifest_of))]
fn read_fields(contents: &[u8]) -> Option<Fields<'_>>
    ensures exact { Answers manifest_parts result (manifest_of contents.now) }
{
    let mut fields = Cursor::new(contents);
    let format = read_format(&mut fields)?;
    let sequence = read_sequence(&mut fields)?;
    let packages = read_list(&mut fields)?;
    let stale = read_list(&mut fields)?;
    if !fields.at_end() {
        return None;
    }
    Some(Fields {
        format,
        sequence,
        packages,
        stale,
    })
}

// What the manifest at the front holds, and the octets are passed up to its end.
#[tactic(auto, unfolding(crate::specs::Reading::manifest_at))]
fn read_front<'a>(octets: &mut Cursor<'a>) -> Option<Fields<'a>>
    ensures exact { Answers (λ fields. (manifest_parts fields, octets.new)) result
        (manifest_at octets.old) }
{
    let contents = octets.tagged(tags::SEQUENCE)?;
    match read_fields(contents) {
        Some(fields) => Some(fields),
        None => None,
    }
}

/// The sequence and the state of the manifest at the front of the octets, of format 1 or 2, where it
/// is valid for a module of this capacity; for a capacity that isn't 1 to 4,096 none is. What follows
/// isn't looked at. A package of format 1 has no type and no needs.
pub fn read_manifest(
    alloc: Global,
    bytes: &[u8],
    capacity: u32,
) -> Result<Option<(u64, State)>, AllocError>
    ensures spelled { IfOk result (λ found. (m : Manifest) → (found_manifest found ≡ Some m)
        ↔ BeginsWithManifest capacity bytes.now m) }
{
    if capacity < 1 || capacity > MOST_CAPACITY {
        return Ok(None);
    }
    let Some(fields) = read_front(&mut Cursor::new(bytes)) else {
        return Ok(None);
    };
    let Some(packages) = read_packages(alloc, fields.format, fields.packages)? else {
        return Ok(None);
    };
    let Some(state) = read_stale(fields.stale, packages)? else {
        return Ok(None);
    };
    let Some(_) = pool_of(alloc, &state, capacity)? else {
        return Ok(None);
    };
    Ok(Some((fields.sequence, state)))
}
