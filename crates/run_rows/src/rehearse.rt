// Rows of `rehearse`, over sets of attributes.
use crate::package_set::{Offered, needing, plain, sets_of, stale};
use crate::row::answers;
use fwload_top::Status;
use std::alloc::{AllocError, Global};

// The lines of a rehearsal: of its verdicts, of the packages of these names, parted by commas, and
// of a stale entry. The SHA-256 is that of no octets.
fn lines_of(
    alloc: Global,
    verdicts: &str,
    packages: &str,
    stale: &str,
) -> Result<String, AllocError> {
    let mut lines = String::from_str(alloc, "rehearsal at 20250101000000\n")?;
    lines.push_str(verdicts)?;
    for package in packages.split(',') {
        if !package.is_empty() {
            lines.push_str("package preferred ")?;
            lines.push_str(package)?;
            lines.push_str(" length 0 sha256 ")?;
            lines.push_str("e3b0c44298fc1c149afbf4c8996fb924")?;
            lines.push_str("27ae41e4649b934ca495991b7852b855\n")?;
        }
    }
    lines.push_str(stale)?;
    Ok(lines)
}

// Whether the rehearsal of an input ends so, with these lines.
fn says(
    alloc: Global,
    input: &[u8],
    wanted: Status,
    verdicts: &str,
    packages: &str,
    stale: &str,
) -> bool {
    match lines_of(alloc, verdicts, packages, stale) {
        Ok(lines) => answers(alloc, "f rehearse 20250101000000", input, wanted, &lines),
        Err(_) => false,
    }
}

// Sets that are all accepted, and what is installed then.
fn accepts(alloc: Global, sets: &[Offered], verdicts: &str, packages: &str) -> bool {
    match sets_of(alloc, sets, &[]) {
        Ok(input) => says(alloc, &input, Status::Done, verdicts, packages, ""),
        Err(_) => false,
    }
}

// Sets, and what is behind them, of which something is refused.
fn refuses(
    alloc: Global,
    sets: &[Offered],
    rest: &[u8],
    verdicts: &str,
    packages: &str,
    stale: &str,
) -> bool {
    match sets_of(alloc, sets, rest) {
        Ok(input) => says(
            alloc,
            &input,
            Status::SomeRefused,
            verdicts,
            packages,
            stale,
        ),
        Err(_) => false,
    }
}

const FIRST: &str = "accepted preferred 1.2.3.1 7\n";

const TWICE: &str = "accepted preferred 1.2.3.1 7\naccepted preferred 1.2.3.1 7\n";

const DOWN: &str = "accepted preferred 1.2.3.1 2\naccepted preferred 1.2.3.1 1\n\
    accepted preferred 1.2.3.4 1\n";

// No set, a package, the same again, and one that needs an older version of itself.
fn sets_are_accepted(a: Global) -> bool {
    let down = [plain(1, 2), needing(1, 1, 1, 2), plain(4, 1)];
    accepts(a, &[], "", "")
        && accepts(a, &[plain(1, 7)], FIRST, "1.2.3.1 7")
        && accepts(a, &[plain(1, 7), plain(1, 7)], TWICE, "1.2.3.1 7")
        && accepts(a, &down, DOWN, "1.2.3.1 1,1.2.3.4 1")
}

#[test]
fn accepts_sets(rt: HostRuntime) {
    assert!(rt; sets_are_accepted(rt.alloc()));
}

const BEHIND: &str = "accepted preferred 1.2.3.1 7\nrefused 1 1\n";

const OLDER: &str = "accepted preferred 1.2.3.1 7\nrefused 33 28\naccepted preferred 1.2.3.1 10\n";

const BROKEN: &str = "accepted preferred 1.2.3.2 4\naccepted preferred 1.2.3.3 1\nrefused 36 36\n\
    accepted preferred 1.2.3.2 5\n";

// An octet behind a set, an empty set, a stale version, a need of a package that isn't there, and
// one that another package would no longer meet.
fn sets_are_refused(a: Global) -> bool {
    let old = [stale(7, 9), stale(9, 3), stale(10, 3)];
    let less = [plain(2, 4), needing(3, 1, 2, 4), plain(2, 3), plain(2, 5)];
    let stale_line = "stale preferred 1.2.3.1 9\n";
    refuses(a, &[plain(1, 7)], &[0xff], BEHIND, "1.2.3.1 7", "")
        && refuses(a, &[], &[0x31, 0x00], "refused 19 7\n", "", "")
        && refuses(a, &old, &[], OLDER, "1.2.3.1 10", stale_line)
        && refuses(a, &[needing(1, 7, 9, 1)], &[], "refused 34 31\n", "", "")
        && refuses(a, &less, &[], BROKEN, "1.2.3.2 5,1.2.3.3 1", "")
}

#[test]
fn refuses_sets(rt: HostRuntime) {
    assert!(rt; sets_are_refused(rt.alloc()));
}

fn refuses_with(alloc: Global, input: &mut [u8], at: usize, octet: u8, verdict: &str) -> bool {
    match input.get_mut(at) {
        Some(changed) => {
            *changed = octet;
            says(alloc, input, Status::SomeRefused, verdict, "", "")
        }
        None => false,
    }
}

// The set of a package with the octet at a position changed.
fn refuses_changed(alloc: Global, at: usize, octet: u8, verdict: &str) -> bool {
    match sets_of(alloc, &[plain(1, 7)], &[]) {
        Ok(mut input) => refuses_with(alloc, &mut input, at, octet, verdict),
        Err(_) => false,
    }
}

// It is for another hardware type, its digest is no OCTET STRING, its first attribute is none, and
// it is cut off.
fn changed_sets_are_refused(a: Global) -> bool {
    refuses_changed(a, 25, 0x04, "refused 30 27\n")
        && refuses_changed(a, 98, 0x05, "refused 19 7\n")
        && refuses_changed(a, 4, 0x16, "refused 16 7\n")
        && refuses_changed(a, 2, 0x82, "refused 1 1\n")
}

#[test]
fn refuses_changed_sets(rt: HostRuntime) {
    assert!(rt; changed_sets_are_refused(rt.alloc()));
}
