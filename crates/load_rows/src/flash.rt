// Boards of a module, put together from octets, and what stands on them.
ghost use Rattle.std.specs.Prelude.{◌≤◌};

use edge_board::{BLOCK, Board, Failed, MemBoard, Pick};
use judge_bench::module::{LISTS, record};
use std::alloc::Global;

// What a module's flash holds: whether every leaf is spent, and the manifest of bank 0, in hex, where
// that runs.
#[derive(Clone, Copy)]
pub(crate) struct Flash<'a> {
    pub spent: bool,
    pub manifest: &'a str,
}

// A module on which nothing was installed.
pub(crate) const FRESH: Flash<'static> = Flash {
    spent: false,
    manifest: "",
};

// One with this manifest, each of whose leaves is spent, or none.
pub(crate) const fn spent_with(manifest: &str) -> Flash<'_> {
    Flash {
        spent: true,
        manifest,
    }
}

pub(crate) const fn holding(manifest: &str) -> Flash<'_> {
    Flash {
        spent: false,
        manifest,
    }
}

// The blocks of a module's board.
pub(crate) const BLOCKS: u32 = 116;

// More calls, and more octets, than a run of a few packages takes.
pub(crate) const CALLS: u64 = 10_000;

pub(crate) const ROOM: usize = 200_000;

// The leaves of a key of H5, each spent.
const SPENT: [u8; 32] = [0; 32];

// Puts octets at the front of a block.
fn put(board: &mut MemBoard, block: u32, octets: &[u8]) -> Result<(), Failed> {
    if block > 52 || octets.len() > 131_072 || board.blocks() < 84 {
        return Err(Failed);
    }
    board.program(BLOCK * block, octets)
}

// Puts a module's record behind an open gate, and what the flash holds.
fn put_flash(
    board: &mut MemBoard,
    record: &[u8],
    spent: bool,
    manifest: &[u8],
) -> Result<(), Failed> {
    put(board, 0, &[0x0f])?;
    put(board, 1, record)?;
    if spent {
        put(board, 17, &SPENT)?;
    }
    if !manifest.is_empty() {
        put(board, 18, &[0x0f])?;
        put(board, 19, manifest)?;
    }
    board.sync()
}

fn is_put(alloc: Global, board: &mut MemBoard, record: &[u8], flash: Flash<'_>) -> bool {
    match hex::decode(alloc, flash.manifest.as_bytes()) {
        Ok(manifest) => put_flash(board, record, flash.spent, &manifest).is_ok(),
        Err(_) => false,
    }
}

// A board of so many blocks with this record and flash.
fn put_board(alloc: Global, blocks: u32, record: &[u8], flash: Flash<'_>) -> Option<MemBoard>
    requires least { 1 ≤ blocks }
    requires most { blocks ≤ 8276 }
{
    match MemBoard::new(alloc, blocks, Vec::new(alloc), CALLS, ROOM) {
        Ok(mut board) => {
            let done = is_put(alloc, &mut board, record, flash);
            if done { Some(board) } else { None }
        }
        Err(_) => None,
    }
}

// The same after a restart, which stops behind so many calls, or octets.
pub(crate) fn board_with(
    alloc: Global,
    blocks: u32,
    record: &[u8],
    flash: Flash<'_>,
    calls: u64,
    room: usize,
) -> Option<MemBoard>
    requires least { 1 ≤ blocks }
    requires most { blocks ≤ 8276 }
{
    put_board(alloc, blocks, record, flash)?
        .stopped(alloc, Pick::Keep, calls, room)
        .ok()
}

// The module's board, which stops behind so many calls, or octets.
pub(crate) fn stopping_board(
    alloc: Global,
    flash: Flash<'_>,
    calls: u64,
    room: usize,
) -> Option<MemBoard> {
    match record(alloc, LISTS) {
        Some(record) => board_with(alloc, BLOCKS, &record, flash, calls, room),
        None => None,
    }
}

// The same, on which nothing fails.
pub(crate) fn module_board(alloc: Global, flash: Flash<'_>) -> Option<MemBoard> {
    stopping_board(alloc, flash, CALLS, ROOM)
}

// Whether a block begins with these octets.
pub(crate) fn begins(board: &mut MemBoard, block: u32, wanted: &[u8]) -> bool {
    let mut octets = [0u8; 4096];
    if block >= board.blocks() || board.read(BLOCK * block, &mut octets).is_err() {
        return false;
    }
    octets.starts_with(wanted)
}

// The same of octets in hex.
pub(crate) fn begins_hex(alloc: Global, board: &mut MemBoard, block: u32, digits: &str) -> bool {
    match hex::decode(alloc, digits.as_bytes()) {
        Ok(octets) => begins(board, block, &octets),
        Err(_) => false,
    }
}
