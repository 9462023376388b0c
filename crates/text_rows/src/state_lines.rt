use config_table::{BlockNumbers, Installed, StaleEntry, State};
use der_core::{Octets64, read_oid};
use package_attrs::{Names, PackageName};
use report_text::put_state;
use std::alloc::Global;

// SHA-256 of no octets (FIPS 180-4).
const EMPTY: [u8; 32] = [
    0xe3, 0xb0, 0xc4, 0x42, 0x98, 0xfc, 0x1c, 0x14, 0x9a, 0xfb, 0xf4, 0xc8, 0x99, 0x6f, 0xb9, 0x24,
    0x27, 0xae, 0x41, 0xe4, 0x64, 0x9b, 0x93, 0x4c, 0xa4, 0x95, 0x99, 0x1b, 0x78, 0x52, 0xb8, 0x55,
];

const LINES: &[u8] = b"package preferred 1.2.3.1 7 length 0 sha256 \
    e3b0c44298fc1c149afbf4c8996fb92427ae41e4649b934ca495991b7852b855\n\
    package legacy 00ff length 4294967295 sha256 \
    e3b0c44298fc1c149afbf4c8996fb92427ae41e4649b934ca495991b7852b855\n\
    stale preferred 1.2.3.1 9\n\
    stale legacy 0a\n";

fn is_installed(alloc: Global, state: &mut State, name: &PackageName, length: u32) -> bool {
    let installed = Installed {
        name: *name,
        digest: EMPTY,
        length,
        blocks: BlockNumbers::new(Vec::new(alloc)),
        kind: None,
        needs: Names::new(Vec::new(alloc)),
    };
    state.replace(installed).is_ok()
}

// Packages and stale entries of both kinds.
fn has_both(alloc: Global, state: &mut State) -> bool {
    let Some(id) = read_oid(&[0x2a, 3, 1]) else {
        return false;
    };
    let Some(legacy) = Octets64::new(&[0x00, 0xff]) else {
        return false;
    };
    let Some(old) = Octets64::new(&[0x0a]) else {
        return false;
    };
    let preferred = PackageName::Preferred { id, version: 7 };
    let named = PackageName::Legacy(legacy);
    is_installed(alloc, state, &preferred, 0)
        && is_installed(alloc, state, &named, u32::MAX)
        && state
            .take_stale(StaleEntry::Preferred { id, upto: 9 })
            .is_ok()
        && state.take_stale(StaleEntry::Legacy(old)).is_ok()
}

fn is_put(alloc: Global, state: &State, lines: &[u8]) -> bool {
    let mut out = Vec::new(alloc);
    put_state(alloc, &mut out, state).is_ok() && out.as_slice() == lines
}

#[test]
fn puts_packages_and_then_stale_entries(rt: HostRuntime) {
    let mut state = State::new(rt.alloc());
    assert!(rt; has_both(rt.alloc(), &mut state));
    assert!(rt; is_put(rt.alloc(), &state, LINES));
}
