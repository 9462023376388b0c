// The lines of a package recipe, by their words.
ghost use Rattle.std.specs.Prelude.{◌≡◌, ◌↔◌, ◌++◌, ◌∷◌, [], true, false, IfOk, IsTrue, option_map, length, nat_lt};
ghost use Rattle.der_core.specs.Reads.{Answers};
ghost use Rattle.recipe_text.specs.PackageReading.{kind_named, IsNameOf, IsStaleOf, IsSingle, IsBlock};
ghost use Rattle.recipe_text.specs.PackageReading.{AddsCommunity, community_named};
ghost use Rattle.recipe_text.specs.PackageRecipe.{IsSerialText, IsImageWord};
ghost use Rattle.recipe_text.specs.Words.{Exactly, IsPair, IsOidWord, IsHex64};

use crate::cut::{cut_at, is_word};
use crate::oid_word::oid_in;
use crate::words::{hex_in, hex64_in};
use attribute_write::NamedCommunity;
use der_core::{Octets64, Oid, read_decimal_u128};
use package_attrs::{PackageName, SerialEntry, Stale};
use std::alloc::{AllocError, Global};

// The most communities of a package.
const COMMUNITIES: usize = 64;

// The most octets of an image.
const IMAGE_MOST: usize = 16_777_216;

// A kind of line.
#[derive(Clone, Copy)]
pub(crate) enum PackageKind {
    Package,
    Legacy,
    Stale,
    LegacyStale,
    Target,
    Community,
    Module,
    Type,
    Depends,
    DependsLegacy,
    Certificate,
    Signer,
    Wrap,
    Image,
}

// The kind of the line that begins with this word.
#[tactic(auto, unfolding(crate::specs::PackageReading::kind_named))]
pub(crate) fn kind_named(name: &[u8]) -> Option<PackageKind>
    ensures exact { Answers (λ kind. kind) result (kind_named name.now) }
{
    if is_word(name, b"package") {
        Some(PackageKind::Package)
    } else if is_word(name, b"legacy") {
        Some(PackageKind::Legacy)
    } else if is_word(name, b"stale") {
        Some(PackageKind::Stale)
    } else if is_word(name, b"legacystale") {
        Some(PackageKind::LegacyStale)
    } else if is_word(name, b"target") {
        Some(PackageKind::Target)
    } else if is_word(name, b"community") {
        Some(PackageKind::Community)
    } else if is_word(name, b"module") {
        Some(PackageKind::Module)
    } else if is_word(name, b"type") {
        Some(PackageKind::Type)
    } else if is_word(name, b"depends") {
        Some(PackageKind::Depends)
    } else if is_word(name, b"dependslegacy") {
        Some(PackageKind::DependsLegacy)
    } else if is_word(name, b"certificate") {
        Some(PackageKind::Certificate)
    } else if is_word(name, b"signer") {
        Some(PackageKind::Signer)
    } else if is_word(name, b"wrap") {
        Some(PackageKind::Wrap)
    } else if is_word(name, b"image") {
        Some(PackageKind::Image)
    } else {
        None
    }
}

// A preferred name: an identifier and a version.
pub(crate) fn preferred_in(alloc: Global, text: &[u8]) -> Result<Option<PackageName>, AllocError>
    ensures exact { IfOk result (λ name. Exactly (IsNameOf true text.now) name) }
{
    let Some((oid, number)) = cut_at(text, b' ') else {
        return Ok(None);
    };
    let Some(id) = oid_in(alloc, oid)? else {
        return Ok(None);
    };
    let Some(version) = read_decimal_u128(number) else {
        return Ok(None);
    };
    Ok(Some(PackageName::Preferred { id, version }))
}

// A legacy name.
pub(crate) fn legacy_in(alloc: Global, text: &[u8]) -> Result<Option<PackageName>, AllocError>
    ensures exact { IfOk result (λ name. Exactly (IsNameOf false text.now) name) }
{
    let Some(octets) = hex64_in(alloc, text)? else {
        return Ok(None);
    };
    Ok(Some(PackageName::Legacy(octets)))
}

// The greatest version that is stale.
pub(crate) fn upto_in(text: &[u8]) -> Option<Stale>
    ensures exact { Exactly (IsStaleOf true text.now) result }
{
    let number = read_decimal_u128(text)?;
    Some(Stale::Upto(number))
}

// A legacy stale value.
pub(crate) fn legacy_stale_in(alloc: Global, text: &[u8]) -> Result<Option<Stale>, AllocError>
    ensures exact { IfOk result (λ stale. Exactly (IsStaleOf false text.now) stale) }
{
    let Some(octets) = hex64_in(alloc, text)? else {
        return Ok(None);
    };
    Ok(Some(Stale::Legacy(octets)))
}

// The community of an identifier, or the modules of a hardware type.
fn community(id: Oid, serial: Option<SerialEntry>) -> NamedCommunity
    ensures { result ≡ community_named id serial }
{
    match serial {
        None => NamedCommunity::Group(id),
        Some(serial) => NamedCommunity::Modules {
            hw_type: id,
            serial,
        },
    }
}

// Adds a community where there are fewer than 64, and says whether it did.
fn add_community(
    list: &mut Vec<NamedCommunity>,
    id: Oid,
    serial: Option<SerialEntry>,
) -> Result<bool, AllocError>
    ensures adds { IfOk result (λ added. added ≡ nat_lt (length list.old.items) 64) }
    ensures put { IfOk result (λ added. IsTrue added
        → list.new.items ≡ list.old.items ++ community_named id serial ∷ []) }
{
    if list.len() >= COMMUNITIES {
        return Ok(false);
    }
    list.push(community(id, serial))?;
    Ok(true)
}

// Adds the community of an identifier.
pub(crate) fn add_group(
    alloc: Global,
    list: &mut Vec<NamedCommunity>,
    text: &[u8],
) -> Result<bool, AllocError>
    ensures adds { IfOk result (AddsCommunity true text.now list.old.items list.new.items) }
{
    let Some(id) = oid_in(alloc, text)? else {
        return Ok(false);
    };
    add_community(list, id, None)
}

// Adds modules of a hardware type, by their serial numbers.
pub(crate) fn add_modules(
    alloc: Global,
    list: &mut Vec<NamedCommunity>,
    text: &[u8],
) -> Result<bool, AllocError>
    ensures adds { IfOk result (AddsCommunity false text.now list.old.items list.new.items) }
{
    let Some(modules) = modules_in(alloc, text)? else {
        return Ok(false);
    };
    let (hw_type, serial) = modules;
    add_community(list, hw_type, Some(serial))
}

// A hardware type, and which serial numbers.
fn modules_in(alloc: Global, text: &[u8]) -> Result<Option<(Oid, SerialEntry)>, AllocError>
    ensures exact { IfOk result (λ modules. Exactly (IsPair IsOidWord IsSerialText text.now) modules) }
{
    let Some((oid, which)) = cut_at(text, b' ') else {
        return Ok(None);
    };
    let Some(hw_type) = oid_in(alloc, oid)? else {
        return Ok(None);
    };
    let Some(serial) = serial_entry_in(alloc, which)? else {
        return Ok(None);
    };
    Ok(Some((hw_type, serial)))
}

// The serial numbers of modules.
fn serial_entry_in(alloc: Global, text: &[u8]) -> Result<Option<SerialEntry>, AllocError>
    ensures exact { IfOk result (λ serial. Exactly (IsSerialText text.now) serial) }
{
    if is_word(text, b"all") {
        return Ok(Some(SerialEntry::All));
    }
    let Some((word, rest)) = cut_at(text, b' ') else {
        return Ok(None);
    };
    if is_word(word, b"single") {
        return single_in(alloc, rest);
    }
    if is_word(word, b"block") {
        return block_in(alloc, rest);
    }
    Ok(None)
}

// One serial number.
fn single_in(alloc: Global, text: &[u8]) -> Result<Option<SerialEntry>, AllocError>
    ensures exact { IfOk result (λ serial. Exactly (IsSingle text.now) serial) }
{
    let Some(serial) = hex64_in(alloc, text)? else {
        return Ok(None);
    };
    Ok(Some(SerialEntry::Single(serial)))
}

// A block of serial numbers.
fn block_in(alloc: Global, text: &[u8]) -> Result<Option<SerialEntry>, AllocError>
    ensures exact { IfOk result (λ serial. Exactly (IsBlock text.now) serial) }
{
    let Some(ends) = ends_in(alloc, text)? else {
        return Ok(None);
    };
    let (low, high) = ends;
    Ok(Some(SerialEntry::Block { low, high }))
}

// The two ends of a block of serial numbers.
fn ends_in(alloc: Global, text: &[u8]) -> Result<Option<(Octets64, Octets64)>, AllocError>
    ensures exact { IfOk result (λ ends. Exactly (IsPair IsHex64 IsHex64 text.now) ends) }
{
    let Some((first, last)) = cut_at(text, b' ') else {
        return Ok(None);
    };
    let Some(low) = hex64_in(alloc, first)? else {
        return Ok(None);
    };
    let Some(high) = hex64_in(alloc, last)? else {
        return Ok(None);
    };
    Ok(Some((low, high)))
}

// The octets of an image.
pub(crate) fn image_in(alloc: Global, word: &[u8]) -> Result<Option<Vec<u8>>, AllocError>
    ensures exact { IfOk result (λ image. Exactly (IsImageWord word.now) (option_map (λ o. o.items) image)) }
{
    let Some(octets) = hex_in(alloc, word)? else {
        return Ok(None);
    };
    if octets.len() > IMAGE_MOST {
        return Ok(None);
    }
    Ok(Some(octets))
}
