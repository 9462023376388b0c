// Rows of spending leaves on a board in memory, step by step.
ghost use Rattle.std.specs.Prelude.{◌≡◌, ◌≤◌};
ghost use Rattle.key_state.specs.KeyBlock.{IsLeafCount};
ghost use Rattle.edge_board.specs.MemBoard.{mem_view};

use edge_board::{Board, MemBoard, Pick};
use key_state::{ROW, SpendFault, spend, spent};
use std::alloc::Global;

// Whether the next of so many leaves is this one, or there is none for this reason.
fn gives<B: Board>(board: &mut B, leaves: u32, given: Result<u32, SpendFault>) -> bool
    requires leaves { IsLeafCount leaves }
    requires blocks { 18 ≤ (B.view board.old).blocks }
    ensures blocks { (B.view board.new).blocks ≡ (B.view board.old).blocks }
{
    match spend(board, leaves) {
        Ok(leaf) => given == Ok(leaf.number()),
        Err(fault) => given == Err(fault),
    }
}

// Whether so many of the leaves are spent.
fn counts<B: Board>(board: &mut B, leaves: u32, number: u32) -> bool
    requires leaves { IsLeafCount leaves }
    requires blocks { 18 ≤ (B.view board.old).blocks }
    ensures blocks { (B.view board.new).blocks ≡ (B.view board.old).blocks }
{
    match spent(board, leaves) {
        Ok(count) => count == number,
        Err(_) => false,
    }
}

// Whether the row and two octets behind that of 32 leaves are these.
fn reads<B: Board>(board: &mut B, row: &[u8; 34]) -> bool
    requires blocks { 18 ≤ (B.view board.old).blocks }
    ensures blocks { (B.view board.new).blocks ≡ (B.view board.old).blocks }
{
    let mut octets = [0u8; 34];
    board.read(ROW, &mut octets).is_ok() && octets == *row
}

// Whether 32 leaves are given in their order.
fn gives_each<B: Board>(board: &mut B) -> bool
    requires blocks { 18 ≤ (B.view board.old).blocks }
    ensures blocks { 18 ≤ (B.view board.new).blocks }
{
    for number in 0..32u32 {
        if !gives(board, 32, Ok(number)) {
            return false;
        }
    }
    true
}

// The row where 32 leaves are spent.
fn row_of_all() -> [u8; 34] {
    let mut row = [0; 34];
    row[32] = 0xff;
    row[33] = 0xff;
    row
}

// The row whose first octet alone was written.
fn row_of_one(octet: u8) -> [u8; 34] {
    let mut row = [0xff; 34];
    row[0] = octet;
    row
}

// And then none; the longer row goes on.
fn gives_each_once<B: Board>(board: &mut B) -> bool
    requires blocks { 18 ≤ (B.view board.old).blocks }
{
    gives_each(board)
        && gives(board, 32, Err(SpendFault::AllSpent))
        && reads(board, &row_of_all())
        && counts(board, 1024, 32)
        && gives(board, 1024, Ok(32))
}

fn each_is_given_once(alloc: Global) -> bool {
    match MemBoard::new(alloc, 18, Vec::new(alloc), 200, 0) {
        Ok(mut board) => gives_each_once(&mut board),
        Err(_) => false,
    }
}

// Whether a spend whose sync fails leaves the octet 00.
fn fails<B: Board>(board: &mut B) -> bool
    requires blocks { 18 ≤ (B.view board.old).blocks }
    ensures blocks { (B.view board.new).blocks ≡ (B.view board.old).blocks }
{
    gives(board, 32, Err(SpendFault::Fault)) && reads(board, &row_of_one(0))
}

// Whether a power cut leaves an octet of its choice there.
fn is_picked(alloc: Global, board: MemBoard) -> bool
    requires blocks { 18 ≤ (mem_view board).blocks }
{
    match board.stopped(alloc, Pick::Fill(0x55), 1, 0) {
        Ok(mut board) => reads(&mut board, &row_of_one(0x55)),
        Err(_) => false,
    }
}

// The same on a board whose calls of these numbers fail.
fn fails_and_is_picked(alloc: Global, failing: Vec<u64>) -> bool {
    match MemBoard::new(alloc, 18, failing, 10, 0) {
        Ok(mut board) => {
            let failed = fails(&mut board);
            let picked = is_picked(alloc, board);
            failed && picked
        }
        Err(_) => false,
    }
}

// The calls are a read, a blank and a sync.
fn a_failed_one_is_pending(alloc: Global) -> bool {
    match vec![in alloc; 2u64; 1] {
        Ok(failing) => fails_and_is_picked(alloc, failing),
        Err(_) => false,
    }
}

// Whether the octets are written from the row's first place on.
fn writes<B: Board>(board: &mut B, octets: [u8; 5]) -> bool
    requires blocks { 18 ≤ (B.view board.old).blocks }
    ensures blocks { (B.view board.new).blocks ≡ (B.view board.old).blocks }
{
    board.program(ROW, &octets).is_ok()
}

// The octets before the first FF are counted.
fn the_first_ff_ends_the_count(alloc: Global) -> bool {
    match MemBoard::new(alloc, 18, Vec::new(alloc), 3, 5) {
        Ok(mut board) => writes(&mut board, [0, 0, 0xff, 0, 0xff]) && counts(&mut board, 32, 2),
        Err(_) => false,
    }
}

#[test]
fn leaves_are_spent(rt: HostRuntime) {
    assert!(rt; each_is_given_once(rt.alloc()));
    assert!(rt; a_failed_one_is_pending(rt.alloc()));
    assert!(rt; the_first_ff_ends_the_count(rt.alloc()));
}
