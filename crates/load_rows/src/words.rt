// Words that are no run of `load`, and boards that no module holds.
use crate::flash::BLOCKS;
use crate::row::{LOAD, Sent, ends, source_of};
use edge_board::MemBoard;
use fwload_top::Status;
use std::alloc::Global;

// Whether the words end so on an erased board and send nothing, over a source that fails at its first read.
fn ends_unread(alloc: Global, words: &str, wanted: Status) -> bool {
    match MemBoard::new(alloc, BLOCKS, Vec::new(alloc), 100, 0) {
        Ok(mut board) => is_unread(alloc, words, &mut board, wanted),
        Err(_) => false,
    }
}

fn is_unread(alloc: Global, words: &str, board: &mut MemBoard, wanted: Status) -> bool {
    match source_of(alloc, b"", &[0]) {
        Some(mut source) => ends(alloc, words, &mut source, board, wanted, Sent::Hex("")),
        None => false,
    }
}

// A moment is a whole one, with a month of the year, and stands there once.
#[test]
fn a_run_has_a_moment(rt: HostRuntime) {
    let a = rt.alloc();
    assert!(rt;
        ends_unread(a, "f load 2025", Status::Usage)
            && ends_unread(a, "f load 20251301000000", Status::Usage)
            && ends_unread(a, "f load", Status::Usage)
            && ends_unread(a, "f load 20250101000000 now", Status::Usage)
    );
}

#[test]
fn an_erased_board_loads_nothing(rt: HostRuntime) {
    assert!(rt; ends_unread(rt.alloc(), LOAD, Status::NotAModule));
}
