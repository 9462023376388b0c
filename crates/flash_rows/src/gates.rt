// A bank is written over a board that stops at each call, and read after a power cut there.
ghost use Rattle.std.specs.Prelude.{◌≡◌, ◌<◌, ◌≤◌};
ghost use Rattle.edge_board.specs.Board.{IsSettled};

use bank_gate::{Fault, Idle, Place, is_open};
use edge_board::{Board, MemBoard, Pick};
use std::alloc::Global;

// gate 18, manifest 19 to 50, area 84 to 99
const PLACE: Place = Place {
    gate: 18,
    manifest: 19,
    manifest_blocks: 32,
    area: 84,
    area_blocks: 16,
};

const GATE: u32 = 18 * 4096;

const BODY: u32 = 84 * 4096;

const OCTETS: [u8; 5] = [1, 2, 3, 4, 5];

// Goes from the first state to the last one.
fn write_bank<B: Board>(board: &mut B) -> Result<Place, Fault>
    requires blocks { 100 ≤ (B.view board.old).blocks }
    requires idle { B.tells_cells → IsSettled (B.view board.old) }
    ensures { (B.view board.new).blocks ≡ (B.view board.old).blocks }
{
    let closed = Idle::new(PLACE).close(board)?;
    let wiped = closed.wipe(board)?;
    let erased = wiped.erase(board, 84)?;
    let put = erased.put(board, BODY, &OCTETS)?;
    let sealed = put.seal(board)?;
    let armed = sealed.rearm(board)?;
    let opened = armed.open(board)?;
    Ok(opened.done())
}

// Writes the bank where the gate's octet was this one before. The board may stop on the way.
fn is_begun(board: &mut MemBoard, start: u8) -> bool {
    if board.blocks() < 100 {
        return false;
    }
    let Ok(()) = board.program(GATE, &[start]) else {
        return false;
    };
    let Ok(()) = board.sync() else {
        return false;
    };
    let _ = write_bank(board);
    true
}

// What the gate reads, and whether the five octets stand.
fn read_bank(board: &mut MemBoard) -> Option<(u8, bool)> {
    if board.blocks() < 100 {
        return None;
    }
    let mut gate = [0u8; 1];
    let Ok(()) = board.read(GATE, &mut gate) else {
        return None;
    };
    let mut octets = [0u8; 5];
    let Ok(()) = board.read(BODY, &mut octets) else {
        return None;
    };
    Some((gate[0], octets == OCTETS))
}

fn read_stopped(alloc: Global, board: MemBoard, pick: Pick) -> Option<(u8, bool)> {
    match board.stopped(alloc, pick, 2, 0) {
        Ok(mut board) => read_bank(&mut board),
        Err(_) => None,
    }
}

// The same after a power cut behind so many calls, where the gate's octet was this one before them.
fn read_after(alloc: Global, start: u8, calls: u64, pick: Pick) -> Option<(u8, bool)> {
    match MemBoard::new(alloc, 100, Vec::new(alloc), calls.saturating_add(2), 7) {
        Ok(mut board) => {
            let begun = is_begun(&mut board, start);
            let read = read_stopped(alloc, board, pick);
            if begun { read } else { None }
        }
        Err(_) => None,
    }
}

// Where nothing is open before, the calls are a read, 33 erases, a program, a sync, an erase, a
// sync, a program and a sync. The gate's block is erased by the 37th.
fn opens_over_its_body(alloc: Global, calls: u64, pick: Pick) -> bool {
    match read_after(alloc, 0xff, calls, pick) {
        Some((0x0f, whole)) => calls >= 37 && whole,
        Some(_) => calls < 40,
        None => false,
    }
}

// Where the gate is open before, a blank and a sync come second and third.
fn shuts_first(alloc: Global, calls: u64, pick: Pick) -> bool {
    match read_after(alloc, 0x0f, calls, pick) {
        Some((0x0f, whole)) => calls < 3 || calls > 38 && whole,
        Some(_) => calls > 1 && calls < 42,
        None => false,
    }
}

fn opens_over_its_body_after(alloc: Global, calls: u64) -> bool {
    opens_over_its_body(alloc, calls, Pick::Keep)
        && opens_over_its_body(alloc, calls, Pick::Before)
        && opens_over_its_body(alloc, calls, Pick::Fill(0x0f))
        && opens_over_its_body(alloc, calls, Pick::Fill(0))
}

fn shuts_first_after(alloc: Global, calls: u64) -> bool {
    shuts_first(alloc, calls, Pick::Keep)
        && shuts_first(alloc, calls, Pick::Before)
        && shuts_first(alloc, calls, Pick::Fill(0x0f))
        && shuts_first(alloc, calls, Pick::Fill(0))
}

#[test]
fn opens_over_its_body_alone(rt: HostRuntime) {
    for calls in 0..=40 {
        assert!(rt; opens_over_its_body_after(rt.alloc(), calls));
    }
}

#[test]
fn shuts_an_open_gate_first(rt: HostRuntime) {
    for calls in 0..=42 {
        assert!(rt; shuts_first_after(rt.alloc(), calls));
    }
}

// The gate's octet alone tells, and it is read as it stands.
fn is_read_so(board: &mut MemBoard, octets: &[u8; 2], open: bool) -> bool {
    board.blocks() >= 100
        && board.program(GATE, octets) == Ok(())
        && is_open(board, PLACE) == Ok(open)
}

fn reads_its_octet(alloc: Global) -> bool {
    match MemBoard::new(alloc, 100, Vec::new(alloc), 4, 4) {
        Ok(mut board) => {
            is_read_so(&mut board, &[0x0e, 0x0f], false)
                && is_read_so(&mut board, &[0x0f, 0x0e], true)
        }
        Err(_) => false,
    }
}

#[test]
fn reads_the_gate(rt: HostRuntime) {
    assert!(rt; reads_its_octet(rt.alloc()));
}
