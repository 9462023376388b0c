// Texts of answers, worked by hand from RFC 4108, sections 3.1.3 and 4.1.3.
use config_table::{BlockNumbers, Installed, State};
use der_core::{Condition, Octets64, read_oid};
use module_record::{Module, read_module};
use package_attrs::{Names, PackageName};
use receipt_writer::{put_error, put_receipt};
use std::alloc::Global;

// The record of a module 1.2.3 with serial number 00 01, which has one anchor.
const RECORD: &[u8] =
    b"\x30\x81\x95\x02\x01\x01\x06\x02\x2a\x03\x04\x02\x00\x01\x30\x00\x30\x00\x02\x01\x10\
    \x30\x45\x30\x43\x30\x00\x04\x01\xa1\x04\x3c\x00\x00\x00\x01\x00\x00\x00\x05\x00\x00\x00\x03\
    \x00\x00\x00\x00\x00\x00\x00\x00\x00\x00\x00\x00\x00\x00\x00\x00\
    \x00\x00\x00\x00\x00\x00\x00\x00\x00\x00\x00\x00\x00\x00\x00\x00\
    \x00\x00\x00\x00\x00\x00\x00\x00\x00\x00\x00\x00\x00\x00\x00\x00\
    \x30\x3a\x02\x01\x05\x02\x01\x03\
    \x04\x20\x00\x00\x00\x00\x00\x00\x00\x00\x00\x00\x00\x00\x00\x00\x00\x00\
    \x00\x00\x00\x00\x00\x00\x00\x00\x00\x00\x00\x00\x00\x00\x00\x00\
    \x04\x10\x00\x00\x00\x00\x00\x00\x00\x00\x00\x00\x00\x00\x00\x00\x00\x00";

pub(crate) fn owner(alloc: Global) -> Option<Module> {
    match read_module(alloc, RECORD) {
        Ok(Some(owner)) => Some(owner),
        _ => None,
    }
}

// 1.2.3 and the octet in a version.
fn named(octet: u8, version: u128) -> Option<PackageName> {
    let id = read_oid(&[0x2a, 3, octet])?;
    Some(PackageName::Preferred { id, version })
}

// Whether the receipt for 1.2.3.1 in version 7 is this text.
fn is_receipt(alloc: Global, text: &[u8]) -> bool {
    let Some(name) = named(1, 7) else {
        return false;
    };
    let Some(anchor_key) = Octets64::new(&[0xa1]) else {
        return false;
    };
    let Some(owner) = owner(alloc) else {
        return false;
    };
    let mut out = Vec::new(alloc);
    put_receipt(alloc, &mut out, &owner, &name, &anchor_key).is_ok() && out.as_slice() == text
}

// Installs a package of this name and type.
fn puts(alloc: Global, state: &mut State, name: Option<PackageName>, kind: Option<u128>) -> bool {
    let Some(name) = name else {
        return false;
    };
    let installed = Installed {
        name,
        digest: [0; 32],
        length: 1,
        blocks: BlockNumbers::new(Vec::new(alloc)),
        kind,
        needs: Names::new(Vec::new(alloc)),
    };
    state.replace(installed).is_ok()
}

// Whether the error by a condition is this text, where the module has this state.
fn is_error(
    alloc: Global,
    state: &State,
    number: u8,
    name: Option<PackageName>,
    text: &[u8],
) -> bool {
    if state.packages() > 64 || name.is_some() != (number >= 20) {
        return false;
    }
    let Some(failed) = Condition::new(number) else {
        return false;
    };
    let Some(owner) = owner(alloc) else {
        return false;
    };
    let mut out = Vec::new(alloc);
    put_error(alloc, &mut out, &owner, state, failed, name.as_ref()).is_ok()
        && out.as_slice() == text
}

// 1.2.3.2 in version 4 is installed, and then 1.2.3.3 in version 1, which has type 1.
fn errors_of_two(alloc: Global, state: &mut State) -> bool {
    puts(alloc, state, named(2, 4), None)
        && is_error(
            alloc,
            state,
            34,
            named(1, 7),
            b"\x30\x26\x06\x02\x2a\x03\x04\x02\x00\x01\x0a\x01\x1f\x02\x01\x22\
            \x30\x08\x06\x03\x2a\x03\x01\x02\x01\x07\
            \xa1\x0c\x30\x0a\x30\x08\x06\x03\x2a\x03\x02\x02\x01\x04",
        )
        && puts(alloc, state, named(3, 1), Some(1))
        && is_error(
            alloc,
            state,
            36,
            named(2, 3),
            b"\x30\x35\x06\x02\x2a\x03\x04\x02\x00\x01\x0a\x01\x24\x02\x01\x24\
            \x30\x08\x06\x03\x2a\x03\x02\x02\x01\x03\
            \xa1\x1b\x30\x0a\x30\x08\x06\x03\x2a\x03\x02\x02\x01\x04\
            \x30\x0d\x02\x01\x01\x30\x08\x06\x03\x2a\x03\x03\x02\x01\x01",
        )
}

// No element, a ContentInfo of another shape, a package that needs what isn't there, and one that is stale.
fn errors_of_none(alloc: Global, state: &State) -> bool {
    is_error(
        alloc,
        state,
        1,
        None,
        b"\x30\x0e\x06\x02\x2a\x03\x04\x02\x00\x01\x0a\x01\x01\x02\x01\x01",
    ) && is_error(
        alloc,
        state,
        3,
        None,
        b"\x30\x0e\x06\x02\x2a\x03\x04\x02\x00\x01\x0a\x01\x02\x02\x01\x03",
    ) && is_error(
        alloc,
        state,
        34,
        named(1, 7),
        b"\x30\x1a\x06\x02\x2a\x03\x04\x02\x00\x01\x0a\x01\x1f\x02\x01\x22\
        \x30\x08\x06\x03\x2a\x03\x01\x02\x01\x07\xa1\x00",
    ) && is_error(
        alloc,
        state,
        33,
        named(1, 7),
        b"\x30\x18\x06\x02\x2a\x03\x04\x02\x00\x01\x0a\x01\x1c\x02\x01\x21\
        \x30\x08\x06\x03\x2a\x03\x01\x02\x01\x07",
    )
}

fn errors_are_told(alloc: Global) -> bool {
    let mut state = State::new(alloc);
    errors_of_none(alloc, &state) && errors_of_two(alloc, &mut state)
}

#[test]
fn answers_are_told(rt: HostRuntime) {
    assert!(rt;
        is_receipt(
            rt.alloc(),
            b"\x30\x15\x06\x02\x2a\x03\x04\x02\x00\x01\
        \x30\x08\x06\x03\x2a\x03\x01\x02\x01\x07\x04\x01\xa1",
        )
    );
    assert!(rt; errors_are_told(rt.alloc()));
}
