// Rows of `ident`.
use crate::row::{answers, answers_hex, ends};
use edge_board::{MemBoard, MemSource, Source};
use fwload_top::Status;
use std::alloc::Global;

// The most octets of input that it takes.
const LIMIT: usize = 67_108_864;

// Its answer to an input.
fn says(alloc: Global, input: &str, line: &str) -> bool {
    answers_hex(alloc, "f ident", input, Status::Done, line)
}

// Its answer to an input that is no identifier's text.
fn refuses(alloc: Global, input: &str) -> bool {
    answers_hex(alloc, "f ident", input, Status::Refused, "refused input\n")
}

// Identifiers of RFC 4108, section 2.2.3, in DER.
fn identifiers_are_printed(a: Global) -> bool {
    let greatest = "3019301706022a03021100ffffffffffffffffffffffffffffffff";
    let line = "preferred 1.2.3 340282366920938463463374607431768211455\n";
    says(
        a,
        "300c300706022a03020107020105",
        "preferred 1.2.3 7 stale 5\n",
    ) && says(a, "30050403414243", "legacy 414243\n")
        && says(a, greatest, line)
}

#[test]
fn prints_an_identifier(rt: HostRuntime) {
    assert!(rt; identifiers_are_printed(rt.alloc()));
}

// A version of 2^128, a length in its longer form, an octet too many, and no octet.
fn others_are_refused(a: Global) -> bool {
    let greater = "3019301706022a0302110100000000000000000000000000000000";
    refuses(a, greater)
        && refuses(a, "30810c300706022a03020107020105")
        && refuses(a, "300c300706022a0302010702010500")
        && refuses(a, "")
}

#[test]
fn refuses_other_octets(rt: HostRuntime) {
    assert!(rt; others_are_refused(rt.alloc()));
}

// Its answer to so many octets 00.
fn ends_over(alloc: Global, size: usize, wanted: Status, line: &str) -> bool {
    match vec![in alloc; 0; size] {
        Ok(input) => answers(alloc, "f ident", &input, wanted, line),
        Err(_) => false,
    }
}

#[test]
fn reads_the_longest_input(rt: HostRuntime) {
    assert!(rt; ends_over(rt.alloc(), LIMIT, Status::Refused, "refused input\n"));
}

#[test]
fn one_octet_more_is_too_many(rt: HostRuntime) {
    assert!(rt; ends_over(rt.alloc(), LIMIT + 1, Status::InputTooLong, ""));
}

// The source's input is too long, and it has so many octets left then.
fn leaves(alloc: Global, source: &mut MemSource, left: usize) -> bool {
    let done = match MemBoard::new(alloc, 1, Vec::new(alloc), 100, 4096) {
        Ok(mut board) => ends(
            alloc,
            "f ident",
            source,
            &mut board,
            Status::InputTooLong,
            "",
        ),
        Err(_) => false,
    };
    let mut rest = [0; 8192];
    done && source.read(&mut rest) == Ok(left)
}

// Of a longer input the octet behind the limit is taken, and no other.
fn the_rest_is_left(alloc: Global) -> bool {
    match vec![in alloc; 0; LIMIT + 4096] {
        Ok(input) => leaves(alloc, &mut MemSource::new(input, Vec::new(alloc)), 4095),
        Err(_) => false,
    }
}

#[test]
fn stops_behind_the_limit(rt: HostRuntime) {
    assert!(rt; the_rest_is_left(rt.alloc()));
}
