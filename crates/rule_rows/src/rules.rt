// A module and packages, by octets worked by hand from RFC 4108, section 2.2, and X.690.
use config_table::{BlockNumbers, Installed, State};
use der_core::{Octets64, Oid, read_oid};
use package_attrs::{
    Identifier, Names, Package, PackageName, Stale, read_communities, read_info, read_targets,
};
use package_rules::{HardwareModule, first_overflow, first_refusal, is_in_community};
use std::alloc::Global;

// 1.2.3 and the octet.
fn oid(octet: u8) -> Option<Oid> {
    read_oid(&[0x2a, 3, octet])
}

// 1.2.3 and the octet in this version.
fn preferred(octet: u8, version: u128) -> Option<PackageName> {
    let id = oid(octet)?;
    Some(PackageName::Preferred { id, version })
}

fn identifier(name: PackageName) -> Identifier {
    Identifier { name, stale: None }
}

// A package for this hardware, with these communities, where octets are given, and with this
// information.
fn package<'a>(
    identifier: Identifier,
    targets: &'a [u8],
    communities: &'a [u8],
    info: &'a [u8],
) -> Option<Package<'a>> {
    Some(Package {
        content: oid(0)?,
        digest: [0; 32],
        identifier,
        targets: read_targets(targets)?,
        communities: read_communities(communities),
        info: read_info(info)?,
    })
}

// Whether a package of this name is taken, with this need.
fn is_put(
    alloc: Global,
    state: &mut State,
    name: Option<PackageName>,
    need: Option<PackageName>,
) -> bool {
    let Some(name) = name else {
        return false;
    };
    let Some(need) = need else {
        return false;
    };
    let Ok(needs) = vec![in alloc; need] else {
        return false;
    };
    let installed = Installed {
        name,
        digest: [0; 32],
        length: 1,
        blocks: BlockNumbers::new(Vec::new(alloc)),
        kind: None,
        needs: Names::new(needs),
    };
    state.replace(installed).is_ok()
}

// 1.2.3.20 version 4 needs 1.2.3.29, which isn't there, and 1.2.3.21 needs 1.2.3.20 version 4.
fn has_two(alloc: Global, state: &mut State) -> bool {
    is_put(alloc, state, preferred(20, 4), preferred(29, 1))
        && is_put(alloc, state, preferred(21, 1), preferred(20, 4))
}

// The hardware 1.2.3.1 and 1.2.3.2, the community 1.2.3.5, and the type 7 with the dependency
// 1.2.3.21 in version 1.
const HARDWARE: &[u8] = b"\x30\x05\x06\x03\x2a\x03\x01";

const OTHER_HARDWARE: &[u8] = b"\x30\x05\x06\x03\x2a\x03\x02";

const GROUP: &[u8] = b"\x30\x05\x06\x03\x2a\x03\x05";

const KIND: &[u8] = b"\x30\x0f\x02\x01\x07\x30\x0a\x30\x08\x06\x03\x2a\x03\x15\x02\x01\x01";

// The condition that 1.2.3.20 in this version fails at the hardware 1.2.3.1 with the serial number
// 01 02, in the community 1.2.3.5, which takes the type 7.
fn refused(state: &State, version: u128, targets: &[u8]) -> Option<Option<u8>> {
    let offered = package(identifier(preferred(20, version)?), targets, GROUP, KIND)?;
    let hardware = HardwareModule {
        hw_type: &oid(1)?,
        serial: &Octets64::new(&[1, 2])?,
        communities: &[oid(5)?],
        kinds: &[7],
    };
    match first_refusal(&hardware, state, &offered) {
        Some(condition) => Some(Some(condition.number())),
        None => Some(None),
    }
}

// Whether there is room for a package of a legacy name, which makes another one stale.
fn has_room(state: &State) -> Option<bool> {
    let identifier = Identifier {
        name: PackageName::Legacy(Octets64::new(&[1])?),
        stale: Some(Stale::Legacy(Octets64::new(&[2])?)),
    };
    let offered = package(identifier, HARDWARE, b"", b"\x30\x00")?;
    Some(first_overflow(state, &offered).is_none())
}

// The last one would leave 1.2.3.21 without what it needs.
#[test]
fn conditions_are_told(rt: HostRuntime) {
    let mut state = State::new(rt.alloc());
    assert!(rt; has_two(rt.alloc(), &mut state));
    assert!(rt; refused(&state, 5, HARDWARE) == Some(None));
    assert!(rt; refused(&state, 3, OTHER_HARDWARE) == Some(Some(30)));
    assert!(rt; refused(&state, 3, HARDWARE) == Some(Some(36)));
    assert!(rt; has_room(&state) == Some(true));
}

// Whether communities hold a module of the hardware 1.2.3.1 with the serial number 01 02.
fn holds(communities: &[u8]) -> Option<bool> {
    let name = preferred(1, 1)?;
    let offered = package(identifier(name), HARDWARE, communities, b"\x30\x00")?;
    let hardware = HardwareModule {
        hw_type: &oid(1)?,
        serial: &Octets64::new(&[1, 2])?,
        communities: &[],
        kinds: &[],
    };
    Some(is_in_community(&hardware, &offered))
}

// Each is modules of 1.2.3.1 with one serial entry: all, a single one, a block that ends with it,
// and a block of another length that would hold it by the order of octets alone.
#[test]
fn communities_hold_serial_numbers(rt: HostRuntime) {
    let all = b"\x30\x0b\x30\x09\x06\x03\x2a\x03\x01\x30\x02\x05\x00";
    let single = b"\x30\x0d\x30\x0b\x06\x03\x2a\x03\x01\x30\x04\x04\x02\x01\x02";
    let high_end = b"\x30\x13\x30\x11\x06\x03\x2a\x03\x01\x30\x0a\x30\x08\
        \x04\x02\x00\x09\x04\x02\x01\x02";
    let shorter = b"\x30\x11\x30\x0f\x06\x03\x2a\x03\x01\x30\x08\x30\x06\
        \x04\x01\x01\x04\x01\x02";
    assert!(rt; holds(all) == Some(true));
    assert!(rt; holds(single) == Some(true));
    assert!(rt; holds(high_end) == Some(true));
    assert!(rt; holds(shorter) == Some(false));
}
