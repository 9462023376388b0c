// Rows of `sigcheck`.
use crate::row::answers;
use crate::two_levels::TWO_LEVELS;
use fwload_top::Status;
use std::alloc::Global;

fn changes(
    alloc: Global,
    input: &mut [u8],
    at: usize,
    octet: u8,
    wanted: Status,
    line: &str,
) -> bool {
    match input.get_mut(at) {
        Some(changed) => {
            *changed = octet;
            answers(alloc, "f sigcheck", input, wanted, line)
        }
        None => false,
    }
}

// Its answer to the vector with the octet at a position changed.
fn says_of(alloc: Global, at: usize, octet: u8, wanted: Status, line: &str) -> bool {
    match hex::decode(alloc, TWO_LEVELS) {
        Ok(mut input) => changes(alloc, &mut input, at, octet, wanted, line),
        Err(_) => false,
    }
}

// A signature of two levels (RFC 8554, section 6) as it is, and with one octet changed: its last,
// the leaf of the upper key, which has 32, C of the lower key's signature, and the message.
fn signatures_hold_or_not(a: Global) -> bool {
    says_of(a, 3, 0xa0, Status::Done, "good\n")
        && says_of(a, 2723, 0, Status::SomeRefused, "bad\n")
        && says_of(a, 87, 32, Status::SomeRefused, "bad\n")
        && says_of(a, 92, 0, Status::SomeRefused, "bad\n")
        && says_of(a, 68, b'F', Status::SomeRefused, "bad\n")
}

#[test]
fn tells_whether_a_signature_holds(rt: HostRuntime) {
    assert!(rt; signatures_hold_or_not(rt.alloc()));
}

// The count of levels is 9, the key's length is one less, and its tag is that of a NULL.
fn other_keys_are_refused(a: Global) -> bool {
    says_of(a, 9, 9, Status::Refused, "refused key\n")
        && says_of(a, 5, 59, Status::Refused, "refused input\n")
        && says_of(a, 4, 5, Status::Refused, "refused input\n")
}

#[test]
fn refuses_other_keys(rt: HostRuntime) {
    assert!(rt; other_keys_are_refused(rt.alloc()));
}

// Appends what the octets have from a position on.
fn push_from(out: &mut Vec<u8>, octets: &[u8], from: usize) -> bool {
    match octets.get(from..) {
        Some(rest) => out.extend_from_slice(rest).is_ok(),
        None => false,
    }
}

// Whether these octets, and those of the triple from a position on, are refused.
fn refuses_with(alloc: Global, front: &[u8], triple: &[u8], from: usize, line: &str) -> bool {
    match front.to_vec(alloc) {
        Ok(mut input) => {
            push_from(&mut input, triple, from)
                && answers(alloc, "f sigcheck", &input, Status::Refused, line)
        }
        Err(_) => false,
    }
}

// The same with the vector's.
fn refuses(alloc: Global, front: &[u8], from: usize, line: &str) -> bool {
    match hex::decode(alloc, TWO_LEVELS) {
        Ok(triple) => refuses_with(alloc, front, &triple, from, line),
        Err(_) => false,
    }
}

// A key of 59 octets, and an empty SEQUENCE.
fn other_inputs_are_refused(a: Global) -> bool {
    refuses(a, b"\x30\x82\x0a\x9f\x04\x3b", 7, "refused key\n")
        && refuses(a, b"\x30\x00", 2724, "refused input\n")
}

#[test]
fn refuses_other_inputs(rt: HostRuntime) {
    assert!(rt; other_inputs_are_refused(rt.alloc()));
}

// The vector with an octet behind it.
fn an_octet_more_is_refused(alloc: Global) -> bool {
    match hex::decode(alloc, TWO_LEVELS) {
        Ok(mut longer) => {
            longer.push(0).is_ok()
                && answers(
                    alloc,
                    "f sigcheck",
                    &longer,
                    Status::Refused,
                    "refused input\n",
                )
        }
        Err(_) => false,
    }
}

#[test]
fn refuses_an_octet_too_many(rt: HostRuntime) {
    assert!(rt; an_octet_more_is_refused(rt.alloc()));
}
