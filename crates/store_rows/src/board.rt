// A module's board, put together from octets.
ghost use Rattle.std.specs.Prelude.{◌≡◌, ◌≤◌, length, IfOk};
ghost use Rattle.edge_board.specs.MemBoard.{mem_view};

use edge_board::{Board, Failed, MemBoard};
use std::alloc::{AllocError, Global};

// The record of 1.2.3 with the serial number 0001 up to its capacity, by its ASN.1.
const MODULE: [u8; 20] = [
    0x30, 0x81, 0xa4, 0x02, 0x01, 0x01, 0x06, 0x02, 0x2a, 0x03, 0x04, 0x02, 0x00, 0x01, 0x30, 0x00,
    0x30, 0x00, 0x02, 0x01,
];

// Behind the capacity: the anchor, whose name is root, with the key identifier A1 and the key of one
// level of H5 and W4, whose T[1] is of octets 07; then the module's key of H5 and W4, whose SEED and I
// are of octets 01.
const BEHIND: [u8; 146] = *b"\x30\x54\x30\x52\x30\x0f\x31\x0d\x30\x0b\x06\x03\x55\x04\x03\x0c\
    \x04root\x04\x01\xa1\x04\x3c\0\0\0\x01\0\0\0\x05\0\0\0\x03\
    \x07\x07\x07\x07\x07\x07\x07\x07\x07\x07\x07\x07\x07\x07\x07\x07\
    \x07\x07\x07\x07\x07\x07\x07\x07\x07\x07\x07\x07\x07\x07\x07\x07\
    \x07\x07\x07\x07\x07\x07\x07\x07\x07\x07\x07\x07\x07\x07\x07\x07\
    \x30\x3a\x02\x01\x05\x02\x01\x03\x04\x20\
    \x01\x01\x01\x01\x01\x01\x01\x01\x01\x01\x01\x01\x01\x01\x01\x01\
    \x01\x01\x01\x01\x01\x01\x01\x01\x01\x01\x01\x01\x01\x01\x01\x01\
    \x04\x10\x01\x01\x01\x01\x01\x01\x01\x01\x01\x01\x01\x01\x01\x01\x01\x01";

// The manifest of 1.2.3.1 version 7 with sequence number 1, whose image of 5 octets stands in block 0.
const SHORT_MANIFEST: [u8; 67] =
    *b"\x30\x41\x02\x01\x02\x02\x01\x01\x30\x37\x30\x35\x30\x08\x06\x03\
    \x2a\x03\x01\x02\x01\x07\x04\x20\x2c\xf2\x4d\xba\x5f\xb0\xa3\x0e\
    \x26\xe8\x3b\x2a\xc5\xb9\xe2\x9e\x1b\x16\x1e\x5c\x1f\xa7\x42\x5e\
    \x73\x04\x33\x62\x93\x8b\x98\x24\x02\x01\x05\x04\x02\x00\x00\x30\
    \x00\x30\x00";

// The same of an image of 5,000 octets in blocks 0 and 1.
const LONG_MANIFEST: [u8; 70] = *b"\x30\x44\x02\x01\x02\x02\x01\x01\x30\x3a\x30\x38\x30\x08\x06\x03\
    \x2a\x03\x01\x02\x01\x07\x04\x20\x2c\xf2\x4d\xba\x5f\xb0\xa3\x0e\
    \x26\xe8\x3b\x2a\xc5\xb9\xe2\x9e\x1b\x16\x1e\x5c\x1f\xa7\x42\x5e\
    \x73\x04\x33\x62\x93\x8b\x98\x24\x02\x02\x13\x88\x04\x04\x00\x00\
    \x00\x01\x30\x00\x30\x00";

// The first in this format, and with this sequence number and block.
pub(crate) fn manifest(format: u8, sequence: u8, block: u8) -> [u8; 67] {
    let mut octets = SHORT_MANIFEST;
    octets[4] = format;
    octets[7] = sequence;
    octets[62] = block;
    octets
}

// The second with this sequence number.
pub(crate) fn long_manifest(sequence: u8) -> [u8; 70] {
    let mut octets = LONG_MANIFEST;
    octets[7] = sequence;
    octets
}

// What a bank is made of: the octet of its gate, and its manifest.
#[derive(Clone, Copy)]
pub(crate) struct Part<'a> {
    pub gate: u8,
    pub manifest: &'a [u8],
}

// A bank that was never written.
pub(crate) const EMPTY: Part<'static> = Part {
    gate: 0xff,
    manifest: b"",
};

// A bank whose gate is open over this manifest.
pub(crate) const fn open_over(manifest: &[u8]) -> Part<'_> {
    Part {
        gate: 0x0f,
        manifest,
    }
}

// Puts the record of a module of this capacity behind an open gate.
fn put_record<B: Board>(board: &mut B, capacity: u8) -> Result<(), Failed>
    requires blocks { 84 ≤ (B.view board.old).blocks }
    ensures blocks { (B.view board.new).blocks ≡ (B.view board.old).blocks }
{
    board.program(0, &[0x0f])?;
    board.program(4096, &MODULE)?;
    board.program(4116, &[capacity])?;
    board.program(4117, &BEHIND)
}

fn put_bank<B: Board>(board: &mut B, gate: u32, part: Part<'_>) -> Result<(), Failed>
    requires gate { gate ≤ 51 }
    requires blocks { 84 ≤ (B.view board.old).blocks }
    ensures blocks { (B.view board.new).blocks ≡ (B.view board.old).blocks }
{
    if part.manifest.len() > 131_072 {
        return Err(Failed);
    }
    board.program(4096 * gate, &[part.gate])?;
    board.program(4096 * gate + 4096, part.manifest)
}

// How many calls put a board.
pub(crate) const PUT: u64 = 10;

// The banks' parts, and what stands from image block 0 on.
fn put_module<B: Board>(
    board: &mut B,
    capacity: u8,
    parts: [Part<'_>; 2],
    image: &[u8],
) -> Result<(), Failed>
    requires blocks { 84 ≤ (B.view board.old).blocks }
{
    put_record(board, capacity)?;
    let [zero, one] = parts;
    put_bank(board, 18, zero)?;
    put_bank(board, 51, one)?;
    if board.blocks() < 86 || image.len() > 8192 {
        return Err(Failed);
    }
    board.program(4096 * 84, image)?;
    board.sync()
}

// More octets than the rows program.
const MOST_OCTETS: usize = 50_000;

// The list of this number, where there is one, and else of none.
fn list_of(alloc: Global, number: Option<u64>) -> Result<Vec<u64>, AllocError> {
    match number {
        Some(number) => vec![in alloc; number; 1],
        None => Ok(Vec::new(alloc)),
    }
}

// The board of a module of this capacity with these banks and this image, which fails at the call of
// one number where there is one, and behind so many calls. None on want of memory, or where it isn't
// put.
pub(crate) fn stopping_board(
    alloc: Global,
    capacity: u8,
    parts: [Part<'_>; 2],
    image: &[u8],
    failing: Option<u64>,
    calls: u64,
) -> Option<MemBoard> {
    let blocks = 84 + 2 * u32::from(capacity);
    let failing = list_of(alloc, failing).ok()?;
    let mut board = MemBoard::new(alloc, blocks, failing, calls, MOST_OCTETS).ok()?;
    if put_module(&mut board, capacity, parts, image).is_ok() {
        Some(board)
    } else {
        None
    }
}

// The same without an image, on which nothing fails.
pub(crate) fn module_board(
    alloc: Global,
    capacity: u8,
    zero: Part<'_>,
    one: Part<'_>,
) -> Option<MemBoard> {
    stopping_board(alloc, capacity, [zero, one], b"", None, 2_000)
}
