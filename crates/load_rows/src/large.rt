// A package whose image takes half of a large module's blocks.
use crate::flash::{FRESH, begins, board_with};
use crate::row::{LOAD, Sent, loads_on, source_of, status_of};
use crate::vectors::{LARGE_BEHIND, LARGE_FRONT, RECEIPT};
use edge_board::MemBoard;
use fwload_top::Status;
use judge_bench::module::record;
use std::alloc::Global;

// No communities, no types, and a capacity of 2,048 blocks.
const LISTS: &[u8] = b"\x30\x00\x30\x00\x02\x02\x08\x00";

// The octets of the image, each 5A.
const SIZE: usize = 4_194_304;

const LISTED: &str = "module 1.2.3 0001 capacity 2048\nsequence 1\nspent 1 of 32\n\
     package preferred 1.2.3.1 7 length 4194304 \
     sha256 4656153f1921ea9f09001428d189084d3db94509dd71990a8a971cfa02998087\n";

// The board of that module.
fn board(alloc: Global) -> Option<MemBoard> {
    match record(alloc, LISTS) {
        Some(record) => board_with(alloc, 84 + 4096, &record, FRESH, 10_000, SIZE + 10_000),
        None => None,
    }
}

// The package that another implementation made, whose signer has a key of H10 under two certificates.
fn put_package(alloc: Global, front: &[u8], behind: &[u8]) -> Option<Vec<u8>> {
    match vec![in alloc; 0x5au8; SIZE] {
        Ok(image) => [front, &image, behind].concat(alloc).ok(),
        Err(_) => None,
    }
}

fn package(alloc: Global) -> Option<Vec<u8>> {
    match (
        hex::decode(alloc, LARGE_FRONT.as_bytes()),
        hex::decode(alloc, LARGE_BEHIND.as_bytes()),
    ) {
        (Ok(front), Ok(behind)) => put_package(alloc, &front, &behind),
        _ => None,
    }
}

// It takes the image blocks 0 to 1,023.
fn is_loaded(alloc: Global, board: &mut MemBoard, item: &[u8]) -> bool {
    let sent = Sent::Hex(RECEIPT);
    loads_on(alloc, item, board, Status::Done, sent, LISTED)
        && begins(board, 84, &[0x5a; 4096])
        && begins(board, 1107, &[0x5a; 4096])
}

fn loads_it(alloc: Global) -> bool {
    match (package(alloc), board(alloc)) {
        (Some(item), Some(mut board)) => is_loaded(alloc, &mut board, &item),
        _ => false,
    }
}

#[test]
fn a_large_image_is_loaded(rt: HostRuntime) {
    assert!(rt; loads_it(rt.alloc()));
}

// A read that fails behind 16 pieces of at most 65,536 octets finds blocks erased for the image.
fn is_streamed(alloc: Global, board: &mut MemBoard, item: &[u8]) -> bool {
    match source_of(alloc, item, &[16]) {
        Some(mut source) => {
            let before = board.erase_count();
            status_of(alloc, LOAD, &mut source, board) == Some(Status::SourceFault)
                && board.erase_count() > before
                && board.sent_octets().is_empty()
        }
        None => false,
    }
}

fn streams(alloc: Global) -> bool {
    match (package(alloc), board(alloc)) {
        (Some(item), Some(mut board)) => is_streamed(alloc, &mut board, &item),
        _ => false,
    }
}

#[test]
fn streams_while_reading(rt: HostRuntime) {
    assert!(rt; streams(rt.alloc()));
}
