use config_table::{BlockNumbers, Installed, State};
use dependency_check::{Unmet, broken_by, unmet};
use der_core::read_oid;
use package_attrs::{Identifier, Names, Package, PackageName, read_info, read_targets};
use std::alloc::Global;

// 1.2.3 and the octet in this version.
fn preferred(octet: u8, version: u128) -> Option<PackageName> {
    let id = read_oid(&[0x2a, 3, octet])?;
    Some(PackageName::Preferred { id, version })
}

fn is_put(
    alloc: Global,
    state: &mut State,
    name: Option<PackageName>,
    need: Option<PackageName>,
) -> bool {
    let Some(name) = name else {
        return false;
    };
    let Some(need) = need else {
        return false;
    };
    let Ok(needs) = vec![in alloc; need] else {
        return false;
    };
    let installed = Installed {
        name,
        digest: [0; 32],
        length: 1,
        blocks: BlockNumbers::new(Vec::new(alloc)),
        kind: None,
        needs: Names::new(needs),
    };
    state.replace(installed).is_ok()
}

// 1.2.3.2 version 4 needs 1.2.3.9, which isn't there, and 1.2.3.3 needs 1.2.3.2 version 4.
fn has_two(alloc: Global, state: &mut State) -> bool {
    is_put(alloc, state, preferred(2, 4), preferred(9, 1))
        && is_put(alloc, state, preferred(3, 1), preferred(2, 4))
}

// A package of this name with the dependencies in these octets.
fn package(name: PackageName, info: &[u8]) -> Option<Package<'_>> {
    Some(Package {
        content: read_oid(&[0x2a])?,
        digest: [0; 32],
        identifier: Identifier { name, stale: None },
        targets: read_targets(b"\x30\x00")?,
        communities: None,
        info: read_info(info)?,
    })
}

// The place of the first that 1.2.3.2 breaks in this version.
fn breaks(state: &State, version: u128) -> Option<usize> {
    broken_by(state, &package(preferred(2, version)?, b"\x30\x00")?)
}

// What a package with the dependencies in these octets lacks.
fn lacks(state: &State, info: &[u8]) -> Option<Option<Unmet>> {
    Some(unmet(state, &package(preferred(8, 1)?, info)?))
}

// 1.2.3.2 version 4; then 1.2.3.3 version 2 behind it.
const ONE: &[u8] = b"\x30\x0c\x30\x0a\x30\x08\x06\x03\x2a\x03\x02\x02\x01\x04";

const TWO: &[u8] = b"\x30\x16\x30\x14\x30\x08\x06\x03\x2a\x03\x02\x02\x01\x04\
    \x30\x08\x06\x03\x2a\x03\x03\x02\x01\x02";

#[test]
fn tells_what_is_broken_and_unmet(rt: HostRuntime) {
    let mut state = State::new(rt.alloc());
    assert!(rt; has_two(rt.alloc(), &mut state));
    assert!(rt; breaks(&state, 3) == Some(1));
    assert!(rt; breaks(&state, 5) == None);
    assert!(rt; lacks(&state, ONE) == Some(None));
    assert!(rt; lacks(&state, TWO) == Some(Some(Unmet::TooOld(1))));
}
