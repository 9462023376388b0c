// Writing a manifest.
ghost use Rattle.std.specs.Prelude.{◌≡◌, ◌++◌, OnOk, OnErr, IfOk};
ghost use Rattle.std.specs.List.{flat_map};
ghost use Rattle.der_core.specs.Element.{enc, HasRoom};
ghost use Rattle.der_core.specs.Shapes.{text_if};
ghost use Rattle.package_attrs.specs.Identifier.{name_text};
ghost use Rattle.package_attrs.specs.Information.{kind_text};
ghost use Rattle.config_table.specs.Stored.{entry_of};
ghost use Rattle.bank_layout.specs.declared.format.Format.TheVariants.{Two};
ghost use Rattle.bank_layout.specs.Manifest.{blocks_contents, entry_contents, entry_text, manifest_contents, manifest_text, stale_entry_text};

use config_table::{Installed, State};
use der_core::tags;
use der_write::{put_tlv, put_u128};
use name_write::put_name;
use package_attrs::PackageName;
use std::alloc::{AllocError, Global};

// The format that is written.
const WRITTEN_FORMAT: u128 = 2;

// Each block number in two octets, high first.
fn block_octets(alloc: Global, blocks: &[u16]) -> Result<Vec<u8>, AllocError>
    ensures ok { IfOk result (λ octets. octets.items ≡ blocks_contents blocks.now) }
{
    let mut octets = Vec::with_capacity(alloc, 2 * blocks.len())?;
    for block in blocks {
        octets.push((*block / 256) as u8)?;
        octets.push((*block % 256) as u8)?;
    }
    Ok(octets)
}

fn put_blocks(alloc: Global, out: &mut Vec<u8>, blocks: &[u16]) -> Result<(), AllocError>
    requires room { HasRoom (blocks_contents blocks.now) }
    ensures ok { OnOk result
        (out.new.items ≡ out.old.items ++ enc 0x04 (blocks_contents blocks.now)) }
{
    let octets = block_octets(alloc, blocks)?;
    put_tlv(alloc, out, tags::OCTET_STRING, &octets)
}

// The names one after the other.
fn name_octets(alloc: Global, names: &[PackageName]) -> Result<Vec<u8>, AllocError>
    ensures ok { IfOk result (λ octets. octets.items ≡ flat_map name_text names.now) }
{
    let mut octets = Vec::new(alloc);
    for name in names {
        put_name(alloc, &mut octets, name)?;
    }
    Ok(octets)
}

// A package's type, where it has one, and what it needs.
fn put_info(
    alloc: Global,
    out: &mut Vec<u8>,
    kind: Option<u128>,
    needs: &[PackageName],
) -> Result<(), AllocError>
    requires room { HasRoom (flat_map name_text needs.now) }
    ensures ok { OnOk result (out.new.items ≡ out.old.items
        ++ (text_if kind_text kind ++ enc 0x30 (flat_map name_text needs.now))) }
{
    let needs = name_octets(alloc, needs)?;
    if let Some(kind) = kind {
        put_u128(alloc, out, kind)?;
    }
    put_tlv(alloc, out, tags::SEQUENCE, &needs)
}

// What a package's SEQUENCE holds.
fn package_contents(alloc: Global, installed: &Installed) -> Result<Vec<u8>, AllocError>
    requires room { HasRoom (entry_contents Two (entry_of installed.now)) }
    ensures ok { IfOk result (λ contents. contents.items
        ≡ entry_contents Two (entry_of installed.now)) }
{
    let mut contents = Vec::new(alloc);
    put_name(alloc, &mut contents, &installed.name)?;
    put_tlv(alloc, &mut contents, tags::OCTET_STRING, &installed.digest)?;
    put_u128(alloc, &mut contents, u128::from(installed.length))?;
    put_blocks(alloc, &mut contents, installed.blocks.as_slice())?;
    put_info(
        alloc,
        &mut contents,
        installed.kind,
        installed.needs.as_slice(),
    )?;
    Ok(contents)
}

fn put_package(alloc: Global, out: &mut Vec<u8>, installed: &Installed) -> Result<(), AllocError>
    requires room { HasRoom (entry_contents Two (entry_of installed.now)) }
    ensures ok { OnOk result
        (out.new.items ≡ out.old.items ++ entry_text Two (entry_of installed.now)) }
{
    let contents = package_contents(alloc, installed)?;
    put_tlv(alloc, out, tags::SEQUENCE, &contents)
}

// The packages in order of first installation, one after the other.
fn packages_contents(alloc: Global, state: &State) -> Result<Vec<u8>, AllocError>
    requires room { HasRoom (flat_map (entry_text Two) state.now.packages) }
    ensures ok { IfOk result (λ contents. contents.items
        ≡ flat_map (entry_text Two) state.now.packages) }
{
    let mut contents = Vec::new(alloc);
    for place in 0..state.packages() {
        let Some(installed) = state.package(place) else {
            unreachable!();
        };
        put_package(alloc, &mut contents, installed)?;
    }
    Ok(contents)
}

// The stale entries in order of first mention, one after the other.
fn stale_contents(alloc: Global, state: &State) -> Result<Vec<u8>, AllocError>
    ensures ok { IfOk result (λ contents. contents.items
        ≡ flat_map stale_entry_text state.now.stale) }
{
    let mut contents = Vec::new(alloc);
    for place in 0..state.stale_entries() {
        let Some(entry) = state.stale_entry(place) else {
            unreachable!();
        };
        put_name(alloc, &mut contents, &entry.last())?;
    }
    Ok(contents)
}

// What the manifest's SEQUENCE holds.
fn contents_of(alloc: Global, sequence: u64, state: &State) -> Result<Vec<u8>, AllocError>
    requires room { HasRoom
        (manifest_contents Two (record { sequence = sequence; state = state.now })) }
    ensures ok { IfOk result (λ contents. contents.items
        ≡ manifest_contents Two (record { sequence = sequence; state = state.now })) }
{
    let packages = packages_contents(alloc, state)?;
    let stale = stale_contents(alloc, state)?;
    let mut contents = Vec::new(alloc);
    put_u128(alloc, &mut contents, WRITTEN_FORMAT)?;
    put_u128(alloc, &mut contents, u128::from(sequence))?;
    put_tlv(alloc, &mut contents, tags::SEQUENCE, &packages)?;
    put_tlv(alloc, &mut contents, tags::SEQUENCE, &stale)?;
    Ok(contents)
}

/// Appends the manifest, of format 2, of a sequence and a state. An element must have room for it,
/// as it has for each state that a module can keep: `manifests_fit` says so.
pub fn put_manifest(
    alloc: Global,
    out: &mut Vec<u8>,
    sequence: u64,
    state: &State,
) -> Result<(), AllocError>
    requires room { HasRoom
        (manifest_contents Two (record { sequence = sequence; state = state.now })) }
    ensures ok { OnOk result (out.new.items ≡ out.old.items
        ++ manifest_text Two (record { sequence = sequence; state = state.now })) }
    ensures err { OnErr result (out.new.items ≡ out.old.items) }
{
    let contents = contents_of(alloc, sequence, state)?;
    put_tlv(alloc, out, tags::SEQUENCE, &contents)
}
