// The conditions 30 to 41, in the same way: the rules of a module over what it has installed (RFC 4108,
// section 2.2, and this project's own).
use crate::row::Bend;
use config_table::State;
use judge_bench::case::{Case, plain_bench};
use judge_bench::installed::{fill, needing, put_plain, put_stale, put_stales};
use judge_bench::module::{LISTED, record};
use judge_bench::octets::bent;
use judge_bench::signer::package;
use std::alloc::Global;

// The lines of a package that asks something of each rule, with an image and with an empty one.
const ASKING: &str = "package 1.2.3.1 7\nstale 3\ntarget 1.2.3\ncommunity 1.2.3.100\ntype 1\n\
    depends 1.2.3.9 1\ndepends 1.2.3.10 1\nsigner a1\nimage 68656c6c6f\n";

const EMPTY: &str = "package 1.2.3.1 7\nstale 3\ntarget 1.2.3\ncommunity 1.2.3.100\ntype 1\n\
    depends 1.2.3.9 1\ndepends 1.2.3.10 1\nsigner a1\nimage 0400\n";

// A package of these lines, for a module that has nothing installed.
fn asking(alloc: Global, lines: &str) -> Option<Case> {
    let item = package(alloc, 1, lines, &[])?;
    let mut bench = plain_bench(alloc)?;
    bench.record = record(alloc, LISTED)?;
    Some(Case { alloc, bench, item })
}

// Installs 1.2.3 and the octet in a version, with an image of so many octets.
fn puts(case: &mut Case, octet: u8, version: u128, length: u32) -> bool {
    put_plain(case.alloc, &mut case.bench.state, octet, version, length).is_some()
}

// Installs what the package needs.
fn fits(case: &mut Case) -> bool {
    puts(case, 9, 1, 1) && puts(case, 10, 1, 1)
}

// Installs 1.2.3.1 in version 8, and a package that needs it so.
fn is_needed(case: &mut Case) -> bool {
    puts(case, 1, 8, 1) && needing(case.alloc, &mut case.bench.state, 3, (1, 8)).is_some()
}

// 1.2.3.1 is stale up to a version.
fn stales(case: &mut Case, upto: u128) -> bool {
    put_stale(&mut case.bench.state, 1, upto).is_some()
}

// So many legacy names are installed, and so many stale.
fn fills(case: &mut Case, count: u8) -> bool {
    fill(case.alloc, &mut case.bench.state, count).is_some()
}

fn stales_names(case: &mut Case, count: u16) -> bool {
    put_stales(&mut case.bench.state, count).is_some()
}

// Whether the package has this verdict.
fn says(case: &Case, wanted: u8) -> bool {
    case.says(&case.item) == Some(wanted)
}

fn says_after(case: &mut Case, sequence: u64, wanted: u8) -> bool {
    case.bench.sequence = sequence;
    says(case, wanted)
}

// The module's record has other octets in place of these from here on.
fn turns(case: &mut Case, bend: Bend<'_>) -> bool {
    match bent(case.alloc, &case.bench.record, bend.0, bend.1) {
        Some(record) => {
            case.bench.record = record;
            true
        }
        None => false,
    }
}

// The package is one of these lines from here on.
fn becomes(case: &mut Case, lines: &str) -> bool {
    match package(case.alloc, 1, lines, &[]) {
        Some(item) => {
            case.item = item;
            true
        }
        None => false,
    }
}

// Another hardware type, community and type in the module's record.
const HARDWARE: Bend<'_> = (b"\x06\x02\x2a\x03\x04\x02", b"\x06\x02\x2a\x04\x04\x02");

const COMMUNITY: Bend<'_> = (b"\x2a\x03\x64", b"\x2a\x03\x65");

const KIND: Bend<'_> = (b"\x30\x03\x02\x01\x01", b"\x30\x03\x02\x01\x02");

// The verdict where the module's record alone is another.
fn turned(case: &mut Case, bend: Bend<'_>, wanted: u8) -> bool {
    fits(case) && turns(case, bend) && says(case, wanted)
}

// Each rule on its own, where all others hold.
fn each_rule(case: &mut Case) -> bool {
    if !fits(case) || !says(case, 0) || !puts(case, 9, 0, 1) || !says(case, 35) {
        return false;
    }
    case.bench.state = State::new(case.alloc);
    puts(case, 9, 1, 1) && says(case, 34)
}

// A stale version, and one that isn't.
fn stale_versions(case: &mut Case) -> bool {
    fits(case) && stales(case, 6) && says(case, 0) && stales(case, 7) && says(case, 33)
}

// A need of another package that is met by version 8 alone.
fn broken_needs(case: &mut Case) -> bool {
    fits(case) && puts(case, 1, 8, 1) && says(case, 0) && is_needed(case) && says(case, 36)
}

// 127 blocks, of which the package needs one, which it has where it replaces one; and an empty image.
fn room(case: &mut Case) -> bool {
    fits(case)
        && puts(case, 9, 1, 125 * 4096)
        && says(case, 0)
        && puts(case, 9, 1, 125 * 4096 + 1)
        && says(case, 38)
        && puts(case, 9, 1, 125 * 4096)
        && puts(case, 1, 6, 4096)
        && says(case, 0)
        && becomes(case, EMPTY)
        && says(case, 37)
}

// The most packages, and one more.
fn most_packages(case: &mut Case) -> bool {
    fits(case) && fills(case, 61) && says(case, 0) && fills(case, 62) && says(case, 39)
}

// The most stale entries and the last sequence number, and one more of each.
fn most_stale_entries(case: &mut Case) -> bool {
    fits(case)
        && stales_names(case, 255)
        && says_after(case, u64::MAX - 1, 0)
        && says_after(case, u64::MAX, 41)
        && stales_names(case, 256)
        && says_after(case, 0, 40)
}

// From the last condition on, each time one more fails, before all others that do.
fn last_rules(case: &mut Case) -> bool {
    fits(case)
        && says_after(case, u64::MAX, 41)
        && stales_names(case, 256)
        && says(case, 40)
        && fills(case, 62)
        && says(case, 39)
        && puts(case, 9, 1, 127 * 4096)
        && says(case, 38)
        && becomes(case, EMPTY)
        && says(case, 37)
        && is_needed(case)
        && says(case, 36)
        && puts(case, 9, 0, 1)
        && says(case, 35)
}

// Another leaf number in the signature.
const LEAF: Bend<'_> = (
    b"\x04\x82\x09\x30\x00\x00\x00\x00\x00\x00\x00\x00",
    b"\x04\x82\x09\x30\x00\x00\x00\x00\x00\x00\x00\x01",
);

// The same from the dependencies up to the signature.
fn first_rules(case: &mut Case) -> bool {
    becomes(case, EMPTY)
        && is_needed(case)
        && puts(case, 9, 0, 1)
        && says(case, 34)
        && stales(case, 7)
        && says(case, 33)
        && turns(case, KIND)
        && says(case, 32)
        && turns(case, COMMUNITY)
        && says(case, 31)
        && turns(case, HARDWARE)
        && says(case, 30)
        && case.bends(LEAF.0, LEAF.1) == Some(29)
}

// Rows of one package that asks something of each rule.
#[derive(Clone, Copy)]
enum Rows<'a> {
    Turned(Bend<'a>, u8),
    EachRule,
    StaleVersions,
    BrokenNeeds,
    Room,
    MostPackages,
    MostStaleEntries,
    LastRules,
    FirstRules,
}

fn rows_hold(case: &mut Case, rows: Rows<'_>) -> bool {
    match rows {
        Rows::Turned(bend, wanted) => turned(case, bend, wanted),
        Rows::EachRule => each_rule(case),
        Rows::StaleVersions => stale_versions(case),
        Rows::BrokenNeeds => broken_needs(case),
        Rows::Room => room(case),
        Rows::MostPackages => most_packages(case),
        Rows::MostStaleEntries => most_stale_entries(case),
        Rows::LastRules => last_rules(case),
        Rows::FirstRules => first_rules(case),
    }
}

fn hold(alloc: Global, rows: Rows<'_>) -> bool {
    match asking(alloc, ASKING) {
        Some(mut case) => rows_hold(&mut case, rows),
        None => false,
    }
}

#[test]
fn each_rule_is_asked(rt: HostRuntime) {
    let a = rt.alloc();
    assert!(rt; hold(a, Rows::Turned(HARDWARE, 30)) && hold(a, Rows::Turned(COMMUNITY, 31)));
    assert!(rt; hold(a, Rows::Turned(KIND, 32)) && hold(a, Rows::EachRule));
    assert!(rt; hold(a, Rows::StaleVersions) && hold(a, Rows::BrokenNeeds));
}

#[test]
fn images_and_tables_have_room(rt: HostRuntime) {
    let a = rt.alloc();
    assert!(rt; hold(a, Rows::Room) && hold(a, Rows::MostPackages));
    assert!(rt; hold(a, Rows::MostStaleEntries));
}

#[test]
fn the_first_rule_is_told(rt: HostRuntime) {
    let a = rt.alloc();
    assert!(rt; hold(a, Rows::LastRules) && hold(a, Rows::FirstRules));
}
