// Whether a package is for a module.
ghost use Rattle.std.specs.Prelude.{◌≡◌, ◌↔◌, IsTrue, bytes_eq, nat_eq};
ghost use Rattle.std.specs.List.{list_any};
ghost use Rattle.package_attrs.specs.Description.{description};
ghost use Rattle.package_rules.specs.Communities.{is_up_to, is_in_block, names_serial, holds_module};
ghost use Rattle.package_rules.specs.Rules.{IsForHardware, IsInCommunity, IsOfListedKind};

use crate::HardwareModule;
use der_core::{Octets64, Oid};
use package_attrs::{Communities, Community, Package, SerialEntries, SerialEntry, Targets};

/// Whether the module's hardware type is among the package's targets (RFC 4108, section 2.2.4).
pub fn is_for_hardware(hardware: &HardwareModule<'_>, offered: &Package<'_>) -> bool
    ensures exact { IsTrue result ↔ IsForHardware hardware.now (description offered.now) }
{
    lists_hardware(&offered.targets, hardware.hw_type)
}

/// Whether the package has no communities, or one that holds the module (RFC 4108, section 2.2.8).
pub fn is_in_community(hardware: &HardwareModule<'_>, offered: &Package<'_>) -> bool
    ensures exact { IsTrue result ↔ IsInCommunity hardware.now (description offered.now) }
{
    match &offered.communities {
        Some(communities) => is_in_one(hardware, communities),
        None => true,
    }
}

/// Whether the package has no type, or one that the module lists (RFC 4108, section 2.2.9).
pub fn is_of_listed_kind(hardware: &HardwareModule<'_>, offered: &Package<'_>) -> bool
    ensures exact { IsTrue result ↔ IsOfListedKind hardware.now (description offered.now) }
{
    match &offered.info.kind {
        Some(kind) => is_listed(hardware, *kind),
        None => true,
    }
}

fn lists_hardware(targets: &Targets<'_>, hw_type: &Oid) -> bool
    ensures listed { result ≡ list_any (λ target. bytes_eq target hw_type.now) targets.now }
{
    targets.iter().any(|target| target == *hw_type)
}

fn is_listed(hardware: &HardwareModule<'_>, kind: u128) -> bool
    ensures listed { result ≡ list_any (λ listed. nat_eq listed kind) hardware.now.kinds }
{
    hardware.kinds.contains(&kind)
}

fn is_in_one(hardware: &HardwareModule<'_>, communities: &Communities<'_>) -> bool
    ensures one { result ≡ list_any (holds_module hardware.now) communities.now }
{
    let mut rest = communities.iter();
    while let Some(community) = rest.next() {
        if holds_module(hardware, &community) {
            return true;
        }
    }
    false
}

fn holds_module(hardware: &HardwareModule<'_>, community: &Community<'_>) -> bool
    ensures holds { result ≡ holds_module hardware.now community.now }
{
    match community {
        Community::Group(group) => hardware.communities.contains(group),
        Community::Modules { hw_type, serials } => {
            *hw_type == *hardware.hw_type && is_named(hardware.serial, serials)
        }
    }
}

fn is_named(serial: &Octets64, entries: &SerialEntries<'_>) -> bool
    ensures named { result ≡ list_any (names_serial serial.now) entries.now }
{
    entries.iter().any(|entry| names_serial(serial, &entry))
}

fn names_serial(serial: &Octets64, entry: &SerialEntry) -> bool
    ensures names { result ≡ names_serial serial.now entry.now }
{
    match entry {
        SerialEntry::All => true,
        SerialEntry::Single(one) => *one == *serial,
        SerialEntry::Block { low, high } => {
            is_in_block(serial.octets(), low.octets(), high.octets())
        }
    }
}

// Whether the serial number is as long as the two and between them, both included.
fn is_in_block(serial: &[u8], low: &[u8], high: &[u8]) -> bool
    ensures within { result ≡ is_in_block serial.now low.now high.now }
{
    low.len() == serial.len()
        && high.len() == serial.len()
        && low.cmp(&serial).is_le()
        && serial.cmp(&high).is_le()
}
