// Reads and sends that fail.
use crate::flash::{CALLS, FRESH, module_board, stopping_board};
use crate::row::{LOAD, Sent, ends, lists, says, source_of};
use crate::vectors::RECEIPT;
use edge_board::MemBoard;
use fwload_top::Status;
use judge_bench::case::Case;
use std::alloc::Global;

const HELLO_LISTED: &str = "module 1.2.3 0001 capacity 16\nsequence 1\nspent 1 of 32\n\
     package preferred 1.2.3.1 7 length 5 \
     sha256 2cf24dba5fb0a30e26e83b2ac5b9e29e1b161e5c1fa7425e73043362938b9824\n";

// The source fails at the read behind these octets, and what came whole was answered.
fn is_broken_off(alloc: Global, octets: &[u8], board: &mut MemBoard) -> bool {
    match source_of(alloc, octets, &[1]) {
        Some(mut source) => {
            let sent = Sent::Hex(RECEIPT);
            ends(alloc, LOAD, &mut source, board, Status::SourceFault, sent)
                && lists(alloc, board, HELLO_LISTED)
        }
        None => false,
    }
}

// A package, and the first octet of another item.
fn with_another_begun(alloc: Global) -> Option<Vec<u8>> {
    let mut case = Case::plain(alloc)?;
    match case.item.push(0x30) {
        Ok(()) => Some(case.item),
        Err(_) => None,
    }
}

fn breaks_off(alloc: Global) -> bool {
    match (with_another_begun(alloc), module_board(alloc, FRESH)) {
        (Some(octets), Some(mut board)) => is_broken_off(alloc, &octets, &mut board),
        _ => false,
    }
}

#[test]
fn a_read_that_fails_ends_the_run(rt: HostRuntime) {
    assert!(rt; breaks_off(rt.alloc()));
}

// The board has room for no octet.
fn sends_nothing(alloc: Global) -> bool {
    match stopping_board(alloc, FRESH, CALLS, 0) {
        Some(mut board) => says(
            alloc,
            LOAD,
            b"\x30",
            &mut board,
            Status::DeviceFault,
            Sent::Hex(""),
        ),
        None => false,
    }
}

#[test]
fn a_send_that_fails_ends_the_run(rt: HostRuntime) {
    assert!(rt; sends_nothing(rt.alloc()));
}
