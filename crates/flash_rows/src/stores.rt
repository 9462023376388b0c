// Boards in memory that are formatted, cut off and opened.
ghost use Rattle.std.specs.Prelude.{◌≡◌};

use bank_store::{FormatFault, KeyFault, format, format_key, is_held, open_key};
use edge_board::{Board, MemBoard, Pick};
use key_state::ROW;
use lms_sign::SignKey;
use lms_verify::{LmsKind, OtsKind};
use module_record::read_module;
use std::alloc::{AllocError, Global};

// what the key's record begins with: its length, 2, the length of the key, 5 for H5, 3 for W4, and
// the length of SEED (X.690, section 8.1; RFC 8554, sections 4.1 and 5.1)
const HEAD: [u8; 15] = [
    0x30, 0x3f, 0x02, 0x01, 0x02, 0x30, 0x3a, 0x02, 0x01, 0x05, 0x02, 0x01, 0x03, 0x04, 0x20,
];

fn key_of(seed: u8) -> SignKey {
    SignKey {
        seed: [seed; 32],
        id: [2; 16],
        kind: LmsKind::H5,
        ots: OtsKind::W4,
    }
}

fn is_key(read: &SignKey) -> bool {
    read.seed == [1; 32]
        && read.id == [2; 16]
        && read.kind == LmsKind::H5
        && read.ots == OtsKind::W4
}

// Whether the board is held by the key, or by none.
fn opens_as(board: &mut MemBoard, held: bool) -> bool {
    match open_key(board) {
        Ok(read) => held && is_key(&read),
        Err(KeyFault::NotAKey) => !held,
        Err(KeyFault::Fault) => false,
    }
}

// The same after a power cut.
fn opens_when_stopped(alloc: Global, board: MemBoard, pick: Pick, held: bool) -> bool {
    match board.stopped(alloc, pick, 3, 0) {
        Ok(mut board) => opens_as(&mut board, held),
        Err(_) => false,
    }
}

// Whether it is to be held where so many calls of a format weren't made. The gate's octet may be 0F
// where its block was erased without a sync, and where it was programmed.
fn is_to_hold(pick: Pick, left: u64) -> bool {
    match pick {
        Pick::Keep => left < 2,
        Pick::Fill(0x0f) => left < 2 || left == 3,
        _ => left == 0,
    }
}

fn has_gate(board: &mut MemBoard, gate: u8) -> bool {
    board.program(0, &[gate]) == Ok(()) && board.sync() == Ok(())
}

// Whether a format that is cut off behind so many calls, with so many left, answers a fault, or Ok
// where none is left, and what is read after the cut is as it is to be. The gate's octet was this one.
fn is_cut_off(alloc: Global, gate: u8, calls: u64, left: u64, pick: Pick) -> bool {
    match MemBoard::new(alloc, 18, Vec::new(alloc), calls.saturating_add(2), 67) {
        Ok(mut board) => {
            let begun = has_gate(&mut board, gate);
            let done = format_key(alloc, &mut board, &key_of(1)) == Ok(());
            opens_when_stopped(alloc, board, pick, is_to_hold(pick, left))
                && begun
                && done == (left == 0)
        }
        Err(_) => false,
    }
}

fn is_cut_off_after(alloc: Global, gate: u8, calls: u64, left: u64) -> bool {
    is_cut_off(alloc, gate, calls, left, Pick::Keep)
        && is_cut_off(alloc, gate, calls, left, Pick::Before)
        && is_cut_off(alloc, gate, calls, left, Pick::Fill(0x0f))
        && is_cut_off(alloc, gate, calls, left, Pick::Fill(0))
}

// The calls of a format are a sync and a read for a key, the same for a module, then the closing's
// read, 16 erases, a program, an erase and a sync, and then an erase, a sync, a program and a sync.
// Where the gate is open, the record is read too for both, and a blank and a sync close it.
#[test]
fn is_nobodys_or_formatted(rt: HostRuntime) {
    for calls in 0..=28 {
        assert!(rt; is_cut_off_after(rt.alloc(), 0xff, calls, 28u64.saturating_sub(calls)));
    }
    for calls in 0..=32 {
        assert!(rt; is_cut_off_after(rt.alloc(), 0x0f, calls, 32u64.saturating_sub(calls)));
    }
}

// Leaves are spent on the board, so many.
fn spends(board: &mut MemBoard, octets: &[u8; 3]) -> bool {
    board.blocks() >= 18 && board.program(ROW, octets) == Ok(())
}

fn row_reads(board: &mut MemBoard, octets: [u8; 4]) -> bool {
    let mut row = [0; 4];
    board.blocks() >= 18 && board.read(ROW, &mut row) == Ok(()) && row == octets
}

fn is_formatted_once(alloc: Global, board: &mut MemBoard) -> bool {
    spends(board, &[0, 0, 0])
        && is_held(alloc, board) == Ok(false)
        && format_key(alloc, board, &key_of(1)) == Ok(())
        && is_held(alloc, board) == Ok(true)
        && row_reads(board, [0xff; 4])
        && spends(board, &[0, 0xff, 0xff])
        && format_key(alloc, board, &key_of(3)) == Err(FormatFault::AlreadyHeld)
        && opens_as(board, true)
        && row_reads(board, [0, 0xff, 0xff, 0xff])
        && board.erase_count() == 18
}

fn formats_a_key_once(alloc: Global) -> bool {
    match MemBoard::new(alloc, 18, Vec::new(alloc), 100, 100) {
        Ok(mut board) => is_formatted_once(alloc, &mut board),
        Err(_) => false,
    }
}

fn refuses_17_blocks(alloc: Global) -> bool {
    match MemBoard::new(alloc, 17, Vec::new(alloc), 100, 100) {
        Ok(mut board) => {
            format_key(alloc, &mut board, &key_of(1)) == Err(FormatFault::TooSmall)
                && opens_as(&mut board, false)
                && board.erase_count() == 0
        }
        Err(_) => false,
    }
}

#[test]
fn formats_a_board_once(rt: HostRuntime) {
    assert!(rt; formats_a_key_once(rt.alloc()));
    assert!(rt; refuses_17_blocks(rt.alloc()));
}

// The record of this number.
fn record_of(number: u8) -> [u8; 66] {
    let mut record = [0x01; 66];
    record[..15].copy_from_slice(&HEAD);
    record[4] = number;
    record[47..49].copy_from_slice(&[0x04, 0x10]);
    record[49..65].copy_from_slice(&[0x02; 16]);
    record[65] = 0;
    record
}

// Whether a key, or none, holds the board that has this octet for its gate, and this record, one
// octet too far or not, with 00 behind it.
fn holds(board: &mut MemBoard, gate: u8, moved: bool, record: &[u8; 66], held: bool) -> bool {
    let place = if moved { 4097 } else { 4096 };
    board.blocks() >= 18
        && board.program(0, &[gate]) == Ok(())
        && board.program(place, record) == Ok(())
        && opens_as(board, held)
}

fn reads_as(alloc: Global, gate: u8, moved: bool, number: u8, held: bool) -> bool {
    match MemBoard::new(alloc, 18, Vec::new(alloc), 10, 100) {
        Ok(mut board) => holds(&mut board, gate, moved, &record_of(number), held),
        Err(_) => false,
    }
}

#[test]
fn reads_gate_and_record(rt: HostRuntime) {
    let alloc = rt.alloc();
    assert!(rt; reads_as(alloc, 0x0f, false, 2, true));
    assert!(rt; reads_as(alloc, 0x0e, false, 2, false) && reads_as(alloc, 0xff, false, 2, false));
    assert!(rt; reads_as(alloc, 0x0f, true, 2, false) && reads_as(alloc, 0x0f, false, 1, false));
}

// The module 1.2.3 with serial number 0001 and capacity 16, whose anchor is the name root with the
// key identifier A1 and a key of H5 and W4, and whose own key is of H5 and W4 with SEED and I
// 01 .. 01 (X.690, section 8.1; RFC 8554, sections 4.1, 5.1 and 6.1).
const MODULE: [u8; 59] = *b"\x30\x81\xa4\x02\x01\x01\x06\x02\x2a\x03\x04\x02\x00\x01\x30\x00\
    \x30\x00\x02\x01\x10\x30\x54\x30\x52\
    \x30\x0f\x31\x0d\x30\x0b\x06\x03\x55\x04\x03\x0c\x04root\x04\x01\xa1\x04\x3c\
    \x00\x00\x00\x01\x00\x00\x00\x05\x00\x00\x00\x03";

fn module_record() -> [u8; 167] {
    let mut record = [0x01; 167];
    record[..59].copy_from_slice(&MODULE);
    record[59..107].copy_from_slice(&[0x07; 48]);
    record[107..117].copy_from_slice(b"\x30\x3a\x02\x01\x05\x02\x01\x03\x04\x20");
    record[149..151].copy_from_slice(&[0x04, 0x10]);
    record
}

// What a format for the module answers.
fn format_module(
    alloc: Global,
    board: &mut MemBoard,
) -> Result<Option<Result<(), FormatFault>>, AllocError>
    ensures blocks { board.new.blocks ≡ board.old.blocks }
{
    let record = module_record();
    let Some(holder) = read_module(alloc, &record)? else {
        return Ok(None);
    };
    Ok(Some(format(alloc, board, &holder)))
}

fn answers_of_module(alloc: Global, board: &mut MemBoard, answer: Result<(), FormatFault>) -> bool {
    match format_module(alloc, board) {
        Ok(Some(formatted)) => formatted == answer,
        Ok(None) => false,
        Err(_) => false,
    }
}

// The gate of bank 0 is open before, over no manifest: nobody holds the board.
fn has_an_open_bank(board: &mut MemBoard) -> bool {
    board.blocks() >= 116
        && board.program(0, &[0x0f]) == Ok(())
        && board.program(4096, &module_record()) == Ok(())
        && board.program(18 * 4096, &[0x0f]) == Ok(())
}

fn is_formatted_for_a_module(alloc: Global, board: &mut MemBoard) -> bool {
    has_an_open_bank(board)
        && spends(board, &[0, 0, 0])
        && is_held(alloc, board) == Ok(false)
        && answers_of_module(alloc, board, Ok(()))
        && is_held(alloc, board) == Ok(true)
        && answers_of_module(alloc, board, Err(FormatFault::AlreadyHeld))
        && opens_as(board, false)
        && row_reads(board, [0xff; 4])
        && board.erase_count() == 20
}

fn formats_for_a_module(alloc: Global) -> bool {
    match MemBoard::new(alloc, 116, Vec::new(alloc), 100, 1000) {
        Ok(mut board) => is_formatted_for_a_module(alloc, &mut board),
        Err(_) => false,
    }
}

fn refuses_115_blocks(alloc: Global) -> bool {
    match MemBoard::new(alloc, 115, Vec::new(alloc), 100, 1000) {
        Ok(mut board) => {
            answers_of_module(alloc, &mut board, Err(FormatFault::TooSmall))
                && board.erase_count() == 0
        }
        Err(_) => false,
    }
}

#[test]
fn formats_a_board_for_a_module(rt: HostRuntime) {
    assert!(rt; formats_for_a_module(rt.alloc()));
    assert!(rt; refuses_115_blocks(rt.alloc()));
}
