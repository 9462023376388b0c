use config_table::{BlockNumbers, Installed, StaleEntry, State};
use der_core::{Oid, read_oid};
use package_attrs::{Identifier, Names, Package, PackageName, Stale, read_info, read_targets};
use std::alloc::Global;

// 1.2.3.6 in version 2, which makes version 1 stale, has type 9 and needs 1.2.3.4.
fn offered() -> Option<Package<'static>> {
    let id = read_oid(b"\x2a\x03\x06")?;
    let identifier = Identifier {
        name: PackageName::Preferred { id, version: 2 },
        stale: Some(Stale::Upto(1)),
    };
    let info = b"\x30\x0f\x02\x01\x09\x30\x0a\x30\x08\x06\x03\x2a\x03\x04\x02\x01\x01";
    Some(Package {
        content: id,
        digest: [0; 32],
        identifier,
        targets: read_targets(b"\x30\x00")?,
        communities: None,
        info: read_info(info)?,
    })
}

// The package's length and type, how many blocks and needs it has, and its stale number.
type Told = (u32, Option<u128>, usize, usize, u128);

fn told(state: &State) -> Option<Told> {
    let one = state.package(0)?;
    let (blocks, needs) = (one.blocks.as_slice().len(), one.needs.as_slice().len());
    Some((
        one.length,
        one.kind,
        blocks,
        needs,
        state.stale_of(&one.name)?,
    ))
}

fn told_by_a_copy(state: &State) -> Option<Told> {
    match state.copy() {
        Ok(copy) => told(&copy),
        Err(_) => None,
    }
}

fn told_of(alloc: Global) -> Option<Told> {
    let offered = offered()?;
    let Ok(blocks) = vec![in alloc; 3] else {
        return None;
    };
    let blocks = BlockNumbers::new(blocks);
    match State::new(alloc).with_package(&offered, [1; 32], 5, blocks) {
        Ok(state) => told_by_a_copy(&state),
        Err(_) => None,
    }
}

// Memory is left, so the package is taken, and the state can be copied.
#[test]
fn takes_an_accepted_package(rt: HostRuntime) {
    assert!(rt; told_of(rt.alloc()) == Some((5, Some(9), 1, 1, 1)));
}

// 1.2.3.6 in version 3, in no blocks.
fn installed(alloc: Global, id: Oid) -> Installed {
    Installed {
        name: PackageName::Preferred { id, version: 3 },
        digest: [7; 32],
        length: 0,
        blocks: BlockNumbers::new(Vec::new(alloc)),
        kind: None,
        needs: Names::new(Vec::new(alloc)),
    }
}

// It is stale up to 9, and then a smaller number changes nothing.
fn is_raised(state: &mut State, id: Oid) -> bool {
    let name = PackageName::Preferred { id, version: 3 };
    state.raise_stale(&name, &Stale::Upto(9)).is_ok()
        && state
            .take_stale(StaleEntry::Preferred { id, upto: 4 })
            .is_ok()
}

fn told_once_raised(alloc: Global) -> Option<Told> {
    let id = read_oid(b"\x2a\x03\x06")?;
    let mut state = State::new(alloc);
    if state.replace(installed(alloc, id)).is_ok() && is_raised(&mut state, id) {
        told(&state)
    } else {
        None
    }
}

#[test]
fn takes_a_package_and_stale_entries(rt: HostRuntime) {
    assert!(rt; told_once_raised(rt.alloc()) == Some((0, None, 0, 0, 9)));
}
