// What no clause says: that the calls succeed with ample memory, and what the rules give on rows.
use edge_board::{
    Board, Failed, MemBoard, MemSource, Pick, Source, StdSource, SureBoard, SureSource, send_all,
};
use std::alloc::Global;

// Whether a read into so many octets of 0 answers this and gives these.
fn gives<S: Source, const N: usize>(
    source: &mut S,
    answer: Result<usize, Failed>,
    octets: [u8; N],
) -> bool {
    let mut into = [0; N];
    source.read(&mut into) == answer && into == octets
}

fn is_planned(source: &mut MemSource) -> bool {
    gives(source, Ok(2), [1, 2, 0, 0])
        && gives(source, Err(Failed), [0, 0, 0, 0])
        && gives(source, Ok(2), [3, 4, 0, 0])
        && gives(source, Ok(1), [5, 0, 0, 0])
        && gives(source, Err(Failed), [0, 0, 0, 0])
        && gives(source, Ok(0), [0, 0, 0, 0])
}

// A source of 5 octets in pieces of 2, of which reads 1 and 4 fail.
fn reads_by_plan(alloc: Global) -> bool {
    match ([1, 2, 3, 4, 5].to_vec(alloc), [1, 4].to_vec(alloc)) {
        (Ok(octets), Ok(failing)) => is_planned(&mut MemSource::pieces(octets, failing, 2)),
        _ => false,
    }
}

// Without a size of pieces a read gives all that fits and is left.
fn is_whole<S: Source>(source: &mut S) -> bool {
    gives(source, Ok(2), [7, 8]) && gives(source, Ok(1), [9, 0]) && gives(source, Ok(0), [0, 0])
}

fn reads_whole(alloc: Global) -> bool {
    match [7, 8, 9].to_vec(alloc) {
        Ok(octets) => is_whole(&mut MemSource::new(octets, Vec::new(alloc))),
        Err(_) => false,
    }
}

fn surely_reads_whole(alloc: Global) -> bool {
    match [7, 8, 9].to_vec(alloc) {
        Ok(octets) => is_whole(&mut SureSource::new(octets)),
        Err(_) => false,
    }
}

#[test]
fn sources_give_what_they_have(rt: HostRuntime) {
    assert!(rt; reads_by_plan(rt.alloc()));
    assert!(rt; reads_whole(rt.alloc()) && surely_reads_whole(rt.alloc()));
    assert!(rt; gives(&mut StdSource::new(&rt), Ok(0), []));
}

// A call of the rows below. A program, and a send, has so many octets.
#[derive(Clone, Copy)]
enum Call {
    Read,
    Erase,
    Program(usize),
    Blank,
    Sync,
    Send(usize),
}

// Makes it, and answers how many octets were sent, or that it failed.
fn make(board: &mut MemBoard, call: Call) -> Result<usize, Failed> {
    let octets = [7; 8];
    match call {
        Call::Read => board.read(0, &mut [0; 4]).map(|()| 0),
        Call::Erase => board.erase(0).map(|()| 0),
        Call::Program(count) => board.program(0, &octets[..count.min(8)]).map(|()| 0),
        Call::Blank => board.blank(4095).map(|()| 0),
        Call::Sync => board.sync().map(|()| 0),
        Call::Send(count) => board.send(&octets[..count.min(8)]),
    }
}

fn gives_so_many(board: &mut MemBoard, call: Call, count: usize) -> bool {
    make(board, call) == Ok(count)
}

fn fails(board: &mut MemBoard, call: Call) -> bool {
    make(board, call) == Err(Failed)
}

fn fails_by_plan(board: &mut MemBoard) -> bool {
    gives_so_many(board, Call::Program(2), 0)
        && fails(board, Call::Sync)
        && fails(board, Call::Program(4))
        && gives_so_many(board, Call::Send(0), 0)
        && gives_so_many(board, Call::Program(1), 0)
        && gives_so_many(board, Call::Send(4), 2)
        && fails(board, Call::Send(1))
        && gives_so_many(board, Call::Send(0), 0)
        && gives_so_many(board, Call::Program(0), 0)
        && gives_so_many(board, Call::Erase, 0)
        && gives_so_many(board, Call::Blank, 0)
        && fails(board, Call::Read)
        && fails(board, Call::Send(0))
}

// Call 1 is to fail, and all from 11 on; 5 octets of room.
fn board_fails_by_plan(alloc: Global) -> bool {
    let Ok(failing) = [1].to_vec(alloc) else {
        return false;
    };
    match MemBoard::new(alloc, 1, failing, 11, 5) {
        Ok(mut board) => {
            fails_by_plan(&mut board)
                && board.sent_octets() == [7, 7].as_slice()
                && board.erase_count() == 1
        }
        Err(_) => false,
    }
}

#[test]
fn calls_fail_by_plan(rt: HostRuntime) {
    assert!(rt; board_fails_by_plan(rt.alloc()));
}

// Writes 01 02 and makes sure of them, and leaves a blank at 0 and 09 at 2 pending.
fn is_written(board: &mut MemBoard) -> bool {
    board.program(0, &[1, 2]) == Ok(())
        && board.sync() == Ok(())
        && board.blank(0) == Ok(())
        && board.program(2, &[9]) == Ok(())
        && board.send(&[4]) == Ok(1)
}

fn holds(board: &mut MemBoard, octets: [u8; 4]) -> bool {
    let mut held = [0; 4];
    board.read(0, &mut held) == Ok(()) && held == octets
}

fn holds_when_stopped(alloc: Global, board: MemBoard, pick: Pick, octets: [u8; 4]) -> bool {
    match board.stopped(alloc, pick, 1, 0) {
        Ok(mut next) => holds(&mut next, octets),
        Err(_) => false,
    }
}

// Whether a power cut there leaves these octets at the front.
fn leaves(alloc: Global, pick: Pick, octets: [u8; 4]) -> bool {
    match MemBoard::new(alloc, 1, Vec::new(alloc), 8, 8) {
        Ok(mut board) => {
            let written = is_written(&mut board);
            holds_when_stopped(alloc, board, pick, octets) && written
        }
        Err(_) => false,
    }
}

#[test]
fn leaves_what_is_picked(rt: HostRuntime) {
    assert!(rt; leaves(rt.alloc(), Pick::Keep, [0, 2, 9, 0xff]));
    assert!(rt; leaves(rt.alloc(), Pick::Before, [1, 2, 0xff, 0xff]));
    assert!(rt; leaves(rt.alloc(), Pick::Fill(0xa5), [0xa5, 2, 0xa5, 0xff]));
}

// The SHA-256 of "abc", as FIPS 180-4's example has it.
const DIGEST: [u8; 32] = [
    0xba, 0x78, 0x16, 0xbf, 0x8f, 0x01, 0xcf, 0xea, 0x41, 0x41, 0x40, 0xde, 0x5d, 0xae, 0x22, 0x23,
    0xb0, 0x03, 0x61, 0xa3, 0x96, 0x17, 0x7a, 0x9c, 0xb4, 0x10, 0xff, 0x61, 0xf2, 0x00, 0x15, 0xad,
];

// A room of 3 octets.
fn sends_what_fits(alloc: Global) -> bool {
    match MemBoard::new(alloc, 1, Vec::new(alloc), 2, 3) {
        Ok(mut board) => {
            send_all(&mut board, b"abc") == Ok(())
                && send_all(&mut board, b"d") == Err(Failed)
                && board.sent_octets() == b"abc".as_slice()
        }
        Err(_) => false,
    }
}

fn digests_what_was_sent(alloc: Global) -> bool {
    match SureBoard::new(alloc, 1) {
        Ok(mut board) => {
            let sent = send_all(&mut board, b"abc") == Ok(());
            board.digest() == DIGEST && sent
        }
        Err(_) => false,
    }
}

#[test]
fn sends_all(rt: HostRuntime) {
    assert!(rt; sends_what_fits(rt.alloc()) && digests_what_was_sent(rt.alloc()));
}
