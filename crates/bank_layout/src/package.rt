// Reading a package of a manifest.
ghost use Rattle.std.specs.Prelude.{◌≡◌, ◌*◌, ◌==◌, ◌&&◌, nat_lt, length, IfOk};
ghost use Rattle.package_attrs.specs.Image.{blocks_for};
ghost use Rattle.der_core.specs.Reads.{Answers};
ghost use Rattle.module_record.specs.Reading.{sized};
ghost use Rattle.package_attrs.specs.ListReading.{kind_at};
ghost use Rattle.config_table.specs.Stored.{entry_of};
ghost use Rattle.bank_layout.specs.Reading.{digest_at, length_at, blocks_at, list_at, nothing_of, info_of, added_of, parts_of, parts_at, numbers_in, needs_of, entry_from, entry_at};
ghost use Rattle.bank_layout.specs.ReadingView.{package_parts};

use crate::format::Format;
use config_table::{BlockNumbers, Installed};
use der_core::{Cursor, read_u128, tags};
use package_attrs::{MOST_DEPENDENCIES, Names, PackageName, blocks_for, read_name};
use std::alloc::{AllocError, Global};

// The greatest length that an image's number has.
const MOST_LENGTH: u128 = 0xffff_ffff;

// What a package's SEQUENCE holds; its blocks and its needs are octets.
#[derive(Drop)]
pub(crate) struct Parts<'a> {
    pub name: PackageName,
    pub digest: [u8; 32],
    pub length: u32,
    pub blocks: &'a [u8],
    pub kind: Option<u128>,
    pub needs: &'a [u8],
}

// The octets, where there are 32.
fn digest_of(octets: &[u8]) -> Option<[u8; 32]>
    ensures exact { Answers (λ octets. octets) result (sized 32 octets.now) }
{
    if octets.len() != 32 {
        return None;
    }
    let mut digest = [0u8; 32];
    digest.copy_from_slice(octets);
    Some(digest)
}

#[tactic(auto, unfolding(crate::specs::Reading::digest_at))]
fn read_digest(fields: &mut Cursor<'_>) -> Option<[u8; 32]>
    ensures exact { Answers (λ digest. (digest, fields.new)) result (digest_at fields.old) }
{
    digest_of(fields.tagged(tags::OCTET_STRING)?)
}

#[tactic(auto, unfolding(crate::specs::Reading::length_at))]
fn read_length(fields: &mut Cursor<'_>) -> Option<u32>
    ensures exact { Answers (λ n. (n, fields.new)) result (length_at fields.old) }
{
    let number = read_u128(fields.tagged(tags::INTEGER)?)?;
    if number > MOST_LENGTH {
        return None;
    }
    Some(number as u32)
}

#[tactic(auto, unfolding(crate::specs::Reading::blocks_at))]
fn read_blocks<'a>(fields: &mut Cursor<'a>) -> Option<&'a [u8]>
    ensures exact { Answers (λ octets. (octets.now, fields.new)) result (blocks_at fields.old) }
{
    fields.tagged(tags::OCTET_STRING)
}

// The contents of the SEQUENCE at the front.
#[tactic(auto, unfolding(crate::specs::Reading::list_at))]
pub(crate) fn read_list<'a>(fields: &mut Cursor<'a>) -> Option<&'a [u8]>
    ensures exact { Answers (λ octets. (octets.now, fields.new)) result (list_at fields.old) }
{
    fields.tagged(tags::SEQUENCE)
}

#[tactic(auto, unfolding(package_attrs::specs::ListReading::kind_at))]
fn read_kind(fields: &mut Cursor<'_>) -> Option<u128>
    ensures exact { Answers (λ kind. (kind, fields.new)) result (kind_at fields.old) }
{
    read_u128(fields.tagged(tags::INTEGER)?)
}

// Neither a type nor needs, where nothing is left.
#[tactic(auto, unfolding(crate::specs::Reading::nothing_of))]
fn read_nothing<'a>(fields: &mut Cursor<'a>) -> Option<(Option<u128>, &'a [u8])>
    ensures exact { Answers (λ x. (x.0, x.1.now)) result (nothing_of fields.old) }
{
    if !fields.at_end() {
        return None;
    }
    Some((None, fields.rest()))
}

// The type, where it is there, and the needs.
#[tactic(auto, unfolding(crate::specs::Reading::info_of))]
fn read_info<'a>(fields: &mut Cursor<'a>) -> Option<(Option<u128>, &'a [u8])>
    ensures exact { Answers (λ x. (x.0, x.1.now)) result (info_of fields.old) }
{
    let mut kind = None;
    if fields.is_at(tags::INTEGER) {
        kind = Some(read_kind(fields)?);
    }
    let needs = read_list(fields)?;
    if !fields.at_end() {
        return None;
    }
    Some((kind, needs))
}

// What stands behind the blocks in a format.
fn read_added<'a>(format: Format, fields: &mut Cursor<'a>) -> Option<(Option<u128>, &'a [u8])>
    ensures exact { Answers (λ x. (x.0, x.1.now)) result (added_of format fields.old) }
{
    match format {
        Format::One => read_nothing(fields),
        Format::Two => read_info(fields),
    }
}

// The parts that octets are.
#[tactic(auto, unfolding(crate::specs::Reading::parts_of))]
fn read_parts(format: Format, contents: &[u8]) -> Option<Parts<'_>>
    ensures exact { Answers package_parts result (parts_of format contents.now) }
{
    let mut fields = Cursor::new(contents);
    let name = read_name(&mut fields)?;
    let digest = read_digest(&mut fields)?;
    let length = read_length(&mut fields)?;
    let blocks = read_blocks(&mut fields)?;
    let (kind, needs) = read_added(format, &mut fields)?;
    Some(Parts {
        name,
        digest,
        length,
        blocks,
        kind,
        needs,
    })
}

// The parts of the package at the front.
#[tactic(auto, unfolding(crate::specs::Reading::parts_at))]
fn read_front<'a>(format: Format, items: &mut Cursor<'a>) -> Option<Parts<'a>>
    ensures exact { Answers (λ parts. (package_parts parts, items.new)) result
        (parts_at format items.old) }
{
    let contents = items.tagged(tags::SEQUENCE)?;
    match read_parts(format, contents) {
        Some(parts) => Some(parts),
        None => None,
    }
}

// The block numbers that octets are, two octets each, high first.
fn read_numbers(alloc: Global, octets: &[u8]) -> Result<Vec<u16>, AllocError>
    ensures exact { IfOk result (λ numbers. numbers.items ≡ numbers_in octets.now) }
{
    let mut numbers = Vec::with_capacity(alloc, octets.len() / 2)?;
    let mut rest = octets;
    while let [high, low, more @ ..] = rest {
        numbers.push(u16::from(*high) * 256 + u16::from(*low))?;
        rest = more;
    }
    Ok(numbers)
}

// The names that octets are, where they are 8 at most.
fn read_needs(alloc: Global, octets: &[u8]) -> Result<Option<Names>, AllocError>
    ensures exact { IfOk result (λ names. Answers (λ list. list) names (needs_of octets.now)) }
{
    let mut items = Cursor::new(octets);
    let mut names = Vec::new(alloc);
    while !items.at_end() {
        let Some(name) = read_name(&mut items) else {
            return Ok(None);
        };
        names.push(name)?;
    }
    if names.len() > MOST_DEPENDENCIES {
        return Ok(None);
    }
    Ok(Some(Names::new(names)))
}

// Whether there is an image, and two octets for each block that it needs.
fn has_its_blocks(size: u32, blocks: &[u8]) -> bool
    ensures exact { result ≡ (nat_lt 0 size && (length blocks.now == 2 * blocks_for size)) }
{
    size > 0 && blocks.len() == 2 * blocks_for(size) as usize
}

// The package with these parts.
#[tactic(auto, unfolding(crate::specs::Reading::entry_from))]
fn make_package(alloc: Global, parts: Parts<'_>) -> Result<Option<Installed>, AllocError>
    ensures exact { IfOk result (λ found.
        Answers entry_of found (entry_from (package_parts parts.entry))) }
{
    if !has_its_blocks(parts.length, parts.blocks) {
        return Ok(None);
    }
    let Some(needs) = read_needs(alloc, parts.needs)? else {
        return Ok(None);
    };
    let blocks = BlockNumbers::new(read_numbers(alloc, parts.blocks)?);
    Ok(Some(Installed {
        name: parts.name,
        digest: parts.digest,
        length: parts.length,
        blocks,
        kind: parts.kind,
        needs,
    }))
}

// The package at the front.
#[tactic(auto, unfolding(crate::specs::Reading::entry_at))]
pub(crate) fn read_package(
    alloc: Global,
    format: Format,
    items: &mut Cursor<'_>,
) -> Result<Option<Installed>, AllocError>
    ensures exact { IfOk result (λ found. Answers
        (λ installed. (entry_of installed, items.new)) found (entry_at format items.old)) }
{
    let Some(parts) = read_front(format, items) else {
        return Ok(None);
    };
    make_package(alloc, parts)
}
