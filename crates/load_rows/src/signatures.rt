// Signatures that don't hold (RFC 8554, sections 5.4.2 and 6.3). Their refusals aren't signed.
use crate::flash::{BLOCKS, CALLS, FRESH, ROOM, board_with};
use crate::row::{Sent, loads, loads_on};
use crate::vectors::{LEVELS, LEVELS_KEY, RECEIPT};
use fwload_top::Status;
use judge_bench::case::Case;
use judge_bench::module::{LISTS, record_of};
use std::alloc::Global;

const NOTHING: &str = "module 1.2.3 0001 capacity 16\nsequence 0\nspent 0 of 32\n";

// The answer to the package 1.2.3.1 version 7 where its signature doesn't hold.
const NO_SIGNATURE: &str = "3029060b2a864886f70d0109100112a01a301806022a03040200010a010f02011d\
     300806032a0301020107";

// Bends the octet of an item that stands so many octets before its end.
fn is_bent(item: &mut [u8], back: usize, bends: u8) -> bool {
    match item.iter_mut().rev().nth(back) {
        Some(octet) => {
            *octet ^= bends;
            true
        }
        None => false,
    }
}

// The leaf number 32, where a key of H5 has the numbers up to 31: a signature of H5 and W4 ends the
// package, and has 2,344 octets behind that number.
fn refuses_a_leaf(alloc: Global) -> bool {
    match Case::plain(alloc) {
        Some(mut case) => {
            is_bent(&mut case.item, 2344, 32)
                && loads(
                    alloc,
                    FRESH,
                    &case.item,
                    Status::SomeRefused,
                    Sent::Hex(NO_SIGNATURE),
                    NOTHING,
                )
        }
        None => false,
    }
}

#[test]
fn a_leaf_number_is_below_the_count_of_leaves(rt: HostRuntime) {
    assert!(rt; refuses_a_leaf(rt.alloc()));
}

const HELLO_LISTED: &str = "module 1.2.3 0001 capacity 16\nsequence 1\nspent 1 of 32\n\
     package preferred 1.2.3.1 7 length 5 \
     sha256 2cf24dba5fb0a30e26e83b2ac5b9e29e1b161e5c1fa7425e73043362938b9824\n";

// Whether a module whose anchor has the key of two levels ends so over the package, sends this, and lists
// the rest.
fn answers(
    alloc: Global,
    key: &[u8],
    item: &[u8],
    wanted: Status,
    sent: &str,
    listed: &str,
) -> bool {
    let board = match record_of(alloc, LISTS, key, b"") {
        Some(record) => board_with(alloc, BLOCKS, &record, FRESH, CALLS, ROOM),
        None => None,
    };
    match board {
        Some(mut board) => loads_on(alloc, item, &mut board, wanted, Sent::Hex(sent), listed),
        None => false,
    }
}

// The octets behind the lower key's signature have 1,292 octets of H5 and W8, and 56 of the key; of that
// signature 8 octets are before its randomizer, and 1,283 behind the randomizer's first octet.
fn levels_are_verified(alloc: Global, key: &[u8], item: &mut [u8]) -> bool {
    answers(alloc, key, item, Status::Done, RECEIPT, HELLO_LISTED)
        && is_bent(item, 1292 + 56 + 1283, 1)
        && answers(alloc, key, item, Status::SomeRefused, NO_SIGNATURE, NOTHING)
}

fn both_are_verified(alloc: Global) -> bool {
    match (
        hex::decode(alloc, LEVELS_KEY.as_bytes()),
        hex::decode(alloc, LEVELS.as_bytes()),
    ) {
        (Ok(key), Ok(mut item)) => levels_are_verified(alloc, &key, &mut item),
        _ => false,
    }
}

#[test]
fn both_levels_are_verified(rt: HostRuntime) {
    assert!(rt; both_are_verified(rt.alloc()));
}
