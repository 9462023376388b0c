// Runs of many packages.
use crate::flash::FRESH;
use crate::row::{Sent, loads};
use crate::vectors::{BENT_ANSWERS, SPENT_ANSWERS};
use fwload_top::Status;
use judge_bench::case::Case;
use std::alloc::Global;

// The package so many times, with another last octet each where it is bent.
fn repeated(alloc: Global, times: usize, bends: u8) -> Option<Vec<u8>> {
    let mut case = Case::plain(alloc)?;
    if let Some(last) = case.item.last_mut() {
        *last ^= bends;
    }
    case.item.repeat(alloc, times).ok()
}

// Whether a module that loads it so many times ends so, sends this, and lists the rest.
fn repeats(
    alloc: Global,
    times: usize,
    bends: u8,
    wanted: Status,
    sent: &str,
    listed: &str,
) -> bool {
    match repeated(alloc, times, bends) {
        Some(items) => loads(alloc, FRESH, &items, wanted, Sent::Digest(sent), listed),
        None => false,
    }
}

const SPENT: &str = "module 1.2.3 0001 capacity 16\nsequence 33\nspent 32 of 32\n\
     package preferred 1.2.3.1 7 length 5 \
     sha256 2cf24dba5fb0a30e26e83b2ac5b9e29e1b161e5c1fa7425e73043362938b9824\n";

// A receipt is signed as long as a leaf is left, and one more isn't.
#[test]
fn receipts_are_signed_as_often_as_there_are_leaves(rt: HostRuntime) {
    assert!(rt; repeats(rt.alloc(), 33, 0, Status::Done, SPENT_ANSWERS, SPENT));
}

const NOTHING: &str = "module 1.2.3 0001 capacity 16\nsequence 0\nspent 0 of 32\n";

// Packages that the anchor's key didn't sign cost no leaf.
#[test]
fn a_stranger_spends_no_leaf(rt: HostRuntime) {
    assert!(rt;
        repeats(
            rt.alloc(),
            1000,
            1,
            Status::SomeRefused,
            BENT_ANSWERS,
            NOTHING
        )
    );
}
