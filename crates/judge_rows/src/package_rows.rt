// Packages of an anchor's key, with other names, images, needs and communities, and what is installed
// (RFC 4108, section 2).
use der_core::Moment;
use judge_bench::case::{HELLO, plain_bench};
use judge_bench::installed::{needing, put_plain, put_stale};
use judge_bench::signer::{package, recipe};
use judge_bench::vector::PLAIN;
use judge_bench::verdict::{AT, Bench, owner_of, verdict, verdict_of};
use judge_core::{Verdict, judge};
use std::alloc::Global;

// Whether a package by these lines, whose image is one octet, has this verdict.
fn says(alloc: Global, bench: &Bench, lines: &str, wanted: u8) -> bool {
    match [lines, "signer a1\nimage 68\n"].concat(alloc) {
        Ok(lines) => verdict_of(alloc, bench, package(alloc, 1, &lines, &[])) == Some(wanted),
        Err(_) => false,
    }
}

// The same for a module on which nothing is installed.
fn says_plainly(alloc: Global, lines: &str, wanted: u8) -> bool {
    match plain_bench(alloc) {
        Some(bench) => says(alloc, &bench, lines, wanted),
        None => false,
    }
}

fn matches_image(verdict: &Verdict<'_>, wanted: &[u8]) -> bool {
    match verdict {
        Verdict::Accept { image, .. } => *image == wanted,
        Verdict::Refuse(..) => false,
    }
}

// Whether the item is accepted with this image.
fn has_image(alloc: Global, bench: &Bench, item: &[u8], wanted: &[u8]) -> bool {
    let Some(at) = Moment::new(AT) else {
        return false;
    };
    let Some(owner) = owner_of(alloc, &bench.record) else {
        return false;
    };
    match judge(alloc, &owner, &bench.state, bench.sequence, at, item) {
        Ok(verdict) => matches_image(&verdict, wanted),
        Err(_) => false,
    }
}

fn is_accepted(alloc: Global, item: &[u8], wanted: &[u8]) -> bool {
    match plain_bench(alloc) {
        Some(bench) => {
            verdict(alloc, &bench, item) == Some(0) && has_image(alloc, &bench, item, wanted)
        }
        None => false,
    }
}

// Whether a package of these lines is accepted both ways, with this image.
fn installs(alloc: Global, lines: &str, wanted: &[u8]) -> bool {
    match package(alloc, 1, lines, &[]) {
        Some(item) => is_accepted(alloc, &item, wanted),
        None => false,
    }
}

// Whether these octets are the package that another implementation made.
fn is_theirs(alloc: Global, ours: &[u8]) -> bool {
    match hex::decode(alloc, PLAIN.as_bytes()) {
        Ok(theirs) => ours == theirs.as_slice(),
        Err(_) => false,
    }
}

fn makes_theirs(alloc: Global) -> bool {
    match package(alloc, 1, HELLO, &[]) {
        Some(ours) => is_theirs(alloc, &ours),
        None => false,
    }
}

// The packager makes what another implementation does.
#[test]
fn a_package_is_as_another_makes_it(rt: HostRuntime) {
    assert!(rt; makes_theirs(rt.alloc()));
}

// One octet, raw, in an OCTET STRING.
const RAW: &str = "package 1.2.3.1 7\ntarget 1.2.3\nsigner a1\nimage 040141\n";

const WRAPPED: &str = "package 1.2.3.1 7\ntarget 1.2.3\nsigner a1\nwrap\nimage 68656c6c6f\n";

#[test]
fn an_image_is_unwrapped(rt: HostRuntime) {
    let a = rt.alloc();
    assert!(rt; installs(a, HELLO, b"hello") && installs(a, WRAPPED, b"hello"));
    assert!(rt; installs(a, RAW, b"A"));
}

// Version 5 is stale, and 6 isn't, whether or not it is installed.
fn stale_rows(a: Global, bench: &mut Bench) -> bool {
    put_plain(a, &mut bench.state, 1, 4, 1).is_some()
        && put_stale(&mut bench.state, 1, 5).is_some()
        && says(a, bench, "package 1.2.3.1 5\ntarget 1.2.3\n", 33)
        && says(a, bench, "package 1.2.3.1 6\ntarget 1.2.3\n", 0)
        && put_plain(a, &mut bench.state, 1, 6, 1).is_some()
        && says(a, bench, "package 1.2.3.1 6\ntarget 1.2.3\n", 0)
}

// 1.2.3.2 alone is installed, in version 4.
fn need_rows(a: Global, bench: &mut Bench) -> bool {
    put_plain(a, &mut bench.state, 2, 4, 1).is_some()
        && says(
            a,
            bench,
            "package 1.2.3.1 7\ntarget 1.2.3\ndepends 1.2.3.9 1\n",
            34,
        )
        && says(
            a,
            bench,
            "package 1.2.3.1 7\ntarget 1.2.3\ndepends 1.2.3.2 5\n",
            35,
        )
        && says(
            a,
            bench,
            "package 1.2.3.1 7\ntarget 1.2.3\ndepends 1.2.3.2 4\n",
            0,
        )
}

// 1.2.3.3 needs 1.2.3.2 in version 4, which is installed.
fn met_rows(a: Global, bench: &mut Bench) -> bool {
    put_plain(a, &mut bench.state, 2, 4, 1).is_some()
        && needing(a, &mut bench.state, 3, (2, 4)).is_some()
        && says(a, bench, "package 1.2.3.2 3\ntarget 1.2.3\n", 36)
        && says(a, bench, "package 1.2.3.2 5\ntarget 1.2.3\n", 0)
}

// A package may need the version of itself that it replaces.
fn own_rows(a: Global, bench: &mut Bench) -> bool {
    put_plain(a, &mut bench.state, 1, 2, 1).is_some()
        && says(
            a,
            bench,
            "package 1.2.3.1 1\ntarget 1.2.3\ndepends 1.2.3.1 2\n",
            0,
        )
}

// What is installed, beside which packages are judged.
#[derive(Clone, Copy)]
enum Beside {
    Stale,
    Needed,
    Needing,
    Itself,
    Large,
}

fn rows_beside(a: Global, bench: &mut Bench, beside: Beside) -> bool {
    match beside {
        Beside::Stale => stale_rows(a, bench),
        Beside::Needed => need_rows(a, bench),
        Beside::Needing => met_rows(a, bench),
        Beside::Itself => own_rows(a, bench),
        Beside::Large => large_rows(a, bench),
    }
}

// Whether the rows hold that begin with a plain module.
fn hold_beside(alloc: Global, beside: Beside) -> bool {
    match plain_bench(alloc) {
        Some(mut bench) => rows_beside(alloc, &mut bench, beside),
        None => false,
    }
}

#[test]
fn a_greater_version_is_not_stale(rt: HostRuntime) {
    assert!(rt; hold_beside(rt.alloc(), Beside::Stale));
}

#[test]
fn needs_are_installed(rt: HostRuntime) {
    assert!(rt; hold_beside(rt.alloc(), Beside::Needed));
}

#[test]
fn needs_stay_met(rt: HostRuntime) {
    let a = rt.alloc();
    assert!(rt; hold_beside(a, Beside::Needing) && hold_beside(a, Beside::Itself));
}

// Packages of a community of serial numbers in a block.
const WITHIN: &str = "package 1.2.3.1 7\ntarget 1.2.3\nmodule 1.2.3 block 0001 0001\n";

const ABOVE: &str = "package 1.2.3.1 7\ntarget 1.2.3\nmodule 1.2.3 block 0002 0009\n";

const SHORTER: &str = "package 1.2.3.1 7\ntarget 1.2.3\nmodule 1.2.3 block 00 ff\n";

// The module's serial number is 00 01: a block holds it with its ends, in numbers of its length alone.
#[test]
fn communities_hold_serial_numbers(rt: HostRuntime) {
    let a = rt.alloc();
    assert!(rt; says_plainly(a, WITHIN, 0) && says_plainly(a, ABOVE, 31));
    assert!(rt; says_plainly(a, SHORTER, 31));
}

// A package of 1.2.3.1 with an image of 65,536 octets.
fn large(alloc: Global) -> Option<Vec<u8>> {
    let image = vec![in alloc; 0u8; 65_536].ok()?;
    let lines = recipe(
        alloc,
        "package 1.2.3.1 7\ntarget 1.2.3\nsigner a1\n",
        "image",
        &image,
    )?;
    package(alloc, 1, &lines, &[])
}

fn has_room(alloc: Global, bench: &Bench) -> bool {
    verdict_of(alloc, bench, large(alloc)) == Some(0)
}

// It takes all 16 blocks, also where it replaces one that does, and no other has room beside it.
fn large_rows(a: Global, bench: &mut Bench) -> bool {
    has_room(a, bench)
        && put_plain(a, &mut bench.state, 1, 7, 65_536).is_some()
        && has_room(a, bench)
        && says(a, bench, "package 1.2.3.2 1\ntarget 1.2.3\n", 38)
}

#[test]
fn images_share_the_blocks(rt: HostRuntime) {
    assert!(rt; hold_beside(rt.alloc(), Beside::Large));
}
