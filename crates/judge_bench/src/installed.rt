// What a module has installed.
use config_table::{BlockNumbers, Installed, StaleEntry, State};
use der_core::{Octets64, Oid, read_oid};
use package_attrs::{Names, PackageName};
use std::alloc::Global;

// 1.2.3 and the octet.
fn identifier(octet: u8) -> Option<Oid> {
    read_oid(&[0x2a, 3, octet])
}

// The same in this version.
fn preferred(octet: u8, version: u128) -> Option<PackageName> {
    let id = identifier(octet)?;
    Some(PackageName::Preferred { id, version })
}

// The legacy name of this octet.
fn legacy(octet: u8) -> Option<Octets64> {
    Octets64::new(&[octet])
}

// A package with an image of so many octets.
fn put(
    alloc: Global,
    state: &mut State,
    name: PackageName,
    length: u32,
    needs: Names,
) -> Option<()> {
    let installed = Installed {
        name,
        digest: [0; 32],
        length,
        blocks: BlockNumbers::new(Vec::new(alloc)),
        kind: None,
        needs,
    };
    state.replace(installed).ok()
}

/// A package 1.2.3 and an octet, without needs.
pub fn put_plain(
    alloc: Global,
    state: &mut State,
    octet: u8,
    version: u128,
    length: u32,
) -> Option<()> {
    let name = preferred(octet, version)?;
    put(alloc, state, name, length, Names::new(Vec::new(alloc)))
}

/// One of an octet that needs another of this octet in this version.
pub fn needing(alloc: Global, state: &mut State, octet: u8, need: (u8, u128)) -> Option<()> {
    let name = preferred(octet, 1)?;
    let needed = preferred(need.0, need.1)?;
    match [needed].as_slice().to_vec(alloc) {
        Ok(needs) => put(alloc, state, name, 1, Names::new(needs)),
        Err(_) => None,
    }
}

/// Packages of so many legacy names, each of one block.
pub fn fill(alloc: Global, state: &mut State, count: u8) -> Option<()> {
    for octet in 0..count {
        let name = PackageName::Legacy(legacy(octet)?);
        put(alloc, state, name, 1, Names::new(Vec::new(alloc)))?;
    }
    Some(())
}

/// 1.2.3 and the octet is stale up to a version.
pub fn put_stale(state: &mut State, octet: u8, upto: u128) -> Option<()> {
    let id = identifier(octet)?;
    state.take_stale(StaleEntry::Preferred { id, upto }).ok()
}

/// So many legacy names are stale.
pub fn put_stales(state: &mut State, count: u16) -> Option<()> {
    for octet in 0..count {
        let name = legacy((octet % 256) as u8)?;
        state.take_stale(StaleEntry::Legacy(name)).ok()?;
    }
    Some(())
}
