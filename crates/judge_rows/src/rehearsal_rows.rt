// What `rehearse_step` says of attribute sets (RFC 5652, section 5.3; RFC 4108, section 2.2).
use attribute_set::read_attribute_set;
use config_table::{BlockNumbers, State};
use der_core::{Octets64, Oid, read_oid};
use der_write::sorted_contents;
use judge_bench::octets::{element, element_of};
use judge_core::{Rehearsed, rehearse_step};
use package_attrs::{Package, PackageName};
use package_rules::HardwareModule;
use std::alloc::Global;

// The types of the attributes, and the values of those that all packages have: the hardware type 1.2.3,
// the content's type, and a digest of octets 00.
const TARGETS: &[u8] = b"\x06\x0b\x2a\x86\x48\x86\xf7\x0d\x01\x09\x10\x02\x24";

const CONTENT: &[u8] = b"\x30\x1a\x06\x09\x2a\x86\x48\x86\xf7\x0d\x01\x09\x03\x31\x0d\x06\x0b\
    \x2a\x86\x48\x86\xf7\x0d\x01\x09\x10\x01\x10";

const PACKAGE_ID: &[u8] = b"\x06\x0b\x2a\x86\x48\x86\xf7\x0d\x01\x09\x10\x02\x23";

const PACKAGE_INFO: &[u8] = b"\x06\x0b\x2a\x86\x48\x86\xf7\x0d\x01\x09\x10\x02\x2a";

const DIGEST: &[u8] = b"\x30\x2f\x06\x09\x2a\x86\x48\x86\xf7\x0d\x01\x09\x04\x31\x22\x04\x20\
    \x00\x00\x00\x00\x00\x00\x00\x00\x00\x00\x00\x00\x00\x00\x00\x00\
    \x00\x00\x00\x00\x00\x00\x00\x00\x00\x00\x00\x00\x00\x00\x00\x00";

// The package 1.2.3.ID in a version, with a stale number, and with a need of 1.2.3.ID in a version; and
// the last number of the hardware type.
#[derive(Clone, Copy)]
struct Offered {
    id: u8,
    version: u8,
    stale: Option<u8>,
    need: Option<(u8, u8)>,
    hardware: u8,
}

const fn plain(id: u8, version: u8) -> Offered {
    Offered {
        id,
        version,
        stale: None,
        need: None,
        hardware: 3,
    }
}

const fn stale(version: u8, number: u8) -> Offered {
    Offered {
        id: 1,
        version,
        stale: Some(number),
        need: None,
        hardware: 3,
    }
}

const fn with_need(id: u8, version: u8, need: (u8, u8)) -> Offered {
    Offered {
        id,
        version,
        stale: None,
        need: Some(need),
        hardware: 3,
    }
}

// An attribute of a type with one value.
fn attribute(alloc: Global, kind: &[u8], value: &[u8]) -> Option<Vec<u8>> {
    let values = element(alloc, 0x31, value)?;
    element_of(alloc, 0x30, &[kind, &values])
}

// The name 1.2.3.ID in a version.
fn name(alloc: Global, id: u8, version: u8) -> Option<Vec<u8>> {
    element_of(
        alloc,
        0x30,
        &[b"\x06\x03\x2a\x03", &[id], b"\x02\x01", &[version]],
    )
}

fn identifier(alloc: Global, offered: &Offered) -> Option<Vec<u8>> {
    let name = name(alloc, offered.id, offered.version)?;
    let value = match offered.stale {
        Some(number) => element_of(alloc, 0x30, &[&name, b"\x02\x01", &[number]])?,
        None => element(alloc, 0x30, &name)?,
    };
    attribute(alloc, PACKAGE_ID, &value)
}

fn information(alloc: Global, need: (u8, u8)) -> Option<Vec<u8>> {
    let name = name(alloc, need.0, need.1)?;
    let names = element(alloc, 0x30, &name)?;
    let value = element(alloc, 0x30, &names)?;
    attribute(alloc, PACKAGE_INFO, &value)
}

fn targets(alloc: Global, hardware: u8) -> Option<Vec<u8>> {
    let value = element_of(alloc, 0x30, &[b"\x06\x02\x2a", &[hardware]])?;
    attribute(alloc, TARGETS, &value)
}

// The package's attributes, in their order.
fn set_of(alloc: Global, offered: &Offered) -> Option<Vec<u8>> {
    let mut parts = Vec::new(alloc);
    parts.push(CONTENT.to_vec(alloc).ok()?).ok()?;
    parts.push(DIGEST.to_vec(alloc).ok()?).ok()?;
    parts.push(identifier(alloc, offered)?).ok()?;
    parts.push(targets(alloc, offered.hardware)?).ok()?;
    if let Some(need) = offered.need {
        parts.push(information(alloc, need)?).ok()?;
    }
    sorted_contents(alloc, &parts).ok()
}

// What is rehearsed so far.
#[derive(Drop)]
struct Rehearsal {
    alloc: Global,
    hw_type: Oid,
    serial: Octets64,
    communities: [Oid; 1],
    kinds: [u128; 1],
    state: State,
}

impl Rehearsal {
    // The module 1.2.3 with serial number 00 01, of the community 1.2.3.100, that takes type 1.
    fn new(alloc: Global) -> Option<Rehearsal> {
        Some(Rehearsal {
            alloc,
            hw_type: read_oid(&[0x2a, 3])?,
            serial: Octets64::new(&[0, 1])?,
            communities: [read_oid(&[0x2a, 3, 100])?],
            kinds: [1],
            state: State::new(alloc),
        })
    }

    // The condition that fails first, or 0, and then the package goes in.
    fn takes(&mut self, offered: &Offered) -> Option<u8> {
        let set = set_of(self.alloc, offered)?;
        self.takes_set(&set)
    }

    fn takes_set(&mut self, set: &[u8]) -> Option<u8> {
        let Ok(Some(attributes)) = read_attribute_set(self.alloc, set) else {
            return None;
        };
        let hardware = HardwareModule {
            hw_type: &self.hw_type,
            serial: &self.serial,
            communities: &self.communities,
            kinds: &self.kinds,
        };
        match rehearse_step(&hardware, &self.state, &attributes) {
            Rehearsed::Refuse(failing) => Some(failing.number()),
            Rehearsed::Accept(package) => self.enter(&package),
        }
    }

    fn enter(&mut self, package: &Package<'_>) -> Option<u8> {
        let state = self.state.copy().ok()?;
        let blocks = BlockNumbers::new(Vec::new(self.alloc));
        self.state = state.with_package(package, [0; 32], 0, blocks).ok()?;
        Some(0)
    }

    // The last number and the version of the package at a place.
    fn at(&self, place: usize) -> Option<(u8, u128)> {
        match &self.state.package(place)?.name {
            PackageName::Preferred { id, version } => Some((*id.octets().last()?, *version)),
            PackageName::Legacy(_) => None,
        }
    }
}

// Whether the verdict on a package, which then goes in, is the condition that is wanted, or 0.
fn takes(so_far: &mut Rehearsal, offered: &Offered, wanted: u8) -> bool {
    so_far.takes(offered) == Some(wanted)
}

// Whether so many packages are there, and the last numbers and versions of the first two are these.
fn holds(
    so_far: &Rehearsal,
    count: usize,
    first: Option<(u8, u128)>,
    second: Option<(u8, u128)>,
) -> bool {
    so_far.state.packages() == count && so_far.at(0) == first && so_far.at(1) == second
}

// The package for other hardware.
const OTHER: Offered = Offered {
    id: 1,
    version: 7,
    stale: None,
    need: None,
    hardware: 4,
};

// A package, the same again, one for other hardware, one with a need that isn't met, and no attributes.
fn packages(so_far: &mut Rehearsal) -> bool {
    takes(so_far, &plain(1, 7), 0)
        && takes(so_far, &plain(1, 7), 0)
        && takes(so_far, &OTHER, 30)
        && takes(so_far, &with_need(1, 7, (9, 1)), 34)
        && holds(so_far, 1, Some((1, 7)), None)
        && so_far.takes_set(b"") == Some(19)
}

// A stale number goes up to 9, and a smaller one lowers nothing.
fn stale_versions(so_far: &mut Rehearsal) -> bool {
    takes(so_far, &stale(7, 9), 0)
        && takes(so_far, &stale(9, 3), 33)
        && takes(so_far, &stale(10, 3), 0)
        && holds(so_far, 1, Some((1, 10)), None)
        && so_far.state.stale_entries() == 1
}

// A need that is met must stay so.
fn needs(so_far: &mut Rehearsal) -> bool {
    takes(so_far, &plain(2, 4), 0)
        && takes(so_far, &with_need(3, 1, (2, 4)), 0)
        && takes(so_far, &plain(2, 3), 36)
        && takes(so_far, &plain(2, 5), 0)
        && holds(so_far, 2, Some((2, 5)), Some((3, 1)))
}

// The package that is replaced isn't asked, nor is a need that isn't met.
fn other_needs(so_far: &mut Rehearsal) -> bool {
    takes(so_far, &plain(1, 2), 0)
        && takes(so_far, &with_need(1, 1, (1, 2)), 0)
        && takes(so_far, &plain(4, 1), 0)
        && holds(so_far, 2, Some((1, 1)), Some((4, 1)))
}

// What is rehearsed from nothing on.
#[derive(Clone, Copy)]
enum Sets {
    Packages,
    StaleVersions,
    Needs,
    OtherNeeds,
}

fn sets_pass(so_far: &mut Rehearsal, sets: Sets) -> bool {
    match sets {
        Sets::Packages => packages(so_far),
        Sets::StaleVersions => stale_versions(so_far),
        Sets::Needs => needs(so_far),
        Sets::OtherNeeds => other_needs(so_far),
    }
}

fn pass(alloc: Global, sets: Sets) -> bool {
    match Rehearsal::new(alloc) {
        Some(mut so_far) => sets_pass(&mut so_far, sets),
        None => false,
    }
}

#[test]
fn sets_are_rehearsed(rt: HostRuntime) {
    let a = rt.alloc();
    assert!(rt; pass(a, Sets::Packages) && pass(a, Sets::StaleVersions));
    assert!(rt; pass(a, Sets::Needs) && pass(a, Sets::OtherNeeds));
}
