// Verdicts over what is installed.

use crate::row::{granted, judged, judged_over, rehearsed, with_zeros};
use crate::vectors as items;
use config_table::{BlockNumbers, Installed, State};
use der_core::read_oid;
use package_attrs::{Names, PackageName};
use std::alloc::Global;
use std::test::Fail;

// 1.2.3 and the octet in this version.
fn name(octet: u8, version: u128) -> Option<PackageName> {
    let id = read_oid(&[0x2a, 3, octet])?;
    Some(PackageName::Preferred { id, version })
}

// Installs a package whose image has so many octets, and which needs these.
fn install(
    state: &mut State,
    name: PackageName,
    length: u32,
    needs: Vec<PackageName>,
    blocks: Vec<u16>,
) -> Result<(), Fail> {
    state.replace(Installed {
        name,
        digest: [7; 32],
        length,
        blocks: BlockNumbers::new(blocks),
        kind: None,
        needs: Names::new(needs),
    })?;
    Ok(())
}

// The verdict of the module of a record where one package is installed.
fn beside(
    alloc: Global,
    record: &[u8],
    octet: u8,
    version: u128,
    length: u32,
    item: &[u8],
) -> Result<u8, Fail> {
    let mut state = State::new(alloc);
    let name = name(octet, version).ok_or("a name")?;
    install(&mut state, name, length, Vec::new(alloc), Vec::new(alloc))?;
    judged_over(alloc, record, &state, 0, item)
}

// 1.2.3.9 in another version than the package needs, and in its own; an image beside the package's
// and one in its place, where there is one block.
#[test]
fn rules_see_what_is_installed(rt: HostRuntime) -> Result<(), Fail> {
    let alloc = rt.alloc();
    assert_eq!(rt;
        beside(alloc, items::MODULE, 9, 1, 0, items::WITH_RULES)?,
        35
    );
    assert_eq!(rt;
        beside(alloc, items::MODULE, 9, 2, 0, items::WITH_RULES)?,
        0
    );
    assert_eq!(rt; beside(alloc, items::SMALL, 2, 1, 1, items::BY_ANCHOR)?, 38);
    assert_eq!(rt;
        beside(alloc, items::SMALL, 1, 9, 4096, items::BY_ANCHOR)?,
        0
    );
    Ok(())
}

// What a path permits is told whether or not its package is accepted; the rules ask no signature.
#[test]
fn grants_and_rules_alone(rt: HostRuntime) -> Result<(), Fail> {
    let alloc = rt.alloc();
    assert_eq!(rt; granted(alloc, items::GOOD)?, Some((1, 0, 1)));
    assert_eq!(rt; granted(alloc, items::BY_ANCHOR)?, Some((0, 0, 0)));
    assert_eq!(rt; granted(alloc, items::FAILS_23)?, None);
    assert_eq!(rt; granted(alloc, items::FAILS_24)?, Some((1, 0, 1)));
    assert_eq!(rt; rehearsed(alloc, items::MODULE, items::ATTRIBUTES)?, 0);
    assert_eq!(rt;
        rehearsed(alloc, items::OTHER_HARDWARE, items::ATTRIBUTES)?,
        30
    );
    assert_eq!(rt; rehearsed(alloc, items::MODULE, items::NO_TARGETS)?, 19);
    Ok(())
}

// An item of too many octets, one with too many behind its content, and one whose signature is bent in
// its last octet.
#[test]
fn long_and_bent_items(rt: HostRuntime) -> Result<(), Fail> {
    let alloc = rt.alloc();
    let long = with_zeros(alloc, b"\x30\x84\x01\x10\x00\x01", 17_825_793)?;
    assert_eq!(rt; judged(alloc, items::MODULE, 0, &long)?, 2);
    let behind = with_zeros(alloc, items::FRONT_11, 1_048_577)?;
    assert_eq!(rt; judged(alloc, items::MODULE, 0, &behind)?, 11);
    let mut bent = items::BY_ANCHOR.to_vec(alloc)?;
    if let Some(last) = bent.last_mut() {
        *last ^= 1;
    }
    assert_eq!(rt; judged(alloc, items::MODULE, 0, &bent)?, 29);
    Ok(())
}
