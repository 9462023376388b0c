// What no clause says: that blocks come with ample memory, and how a wrapped content is cut.
ghost use Rattle.std.specs.Prelude.{◌≡◌, ◌+◌, ◌≤◌, ◌<◌, ◌^◌, length, min, vec_len, IfOk};
ghost use Rattle.edge_board.specs.MemBoard.{mem_view};

use block_pool::{Blocks, Pool};
use content_stream::{ContentStream, Streamed, abandon, feed, finish, image_length};
use edge_board::{Board, MemBoard};
use sha2::{Digest, Sha256};
use std::alloc::{AllocError, Global};

// Whether a content of this size with this front has an image of so many octets.
fn is_cut(size: u32, front: &[u8], image: u32) -> bool
    requires { length front.now ≡ min 6 size }
{
    image_length(size, front) == image
}

// Both sides of each form of the length (X.690, section 8.1.3).
fn short_forms_are_cut() -> bool {
    is_cut(0, &[], 0)
        && is_cut(2, &[4, 0], 0)
        && is_cut(3, &[4, 1, 0x41], 1)
        && is_cut(4, &[4, 1, 0x41, 0], 4)
        && is_cut(129, &[4, 127, 0, 0, 0, 0], 127)
}

fn long_forms_are_cut() -> bool {
    is_cut(131, &[4, 0x81, 128, 0, 0, 0], 128)
        && is_cut(130, &[4, 0x81, 127, 0, 0, 0], 130)
        && is_cut(8196, &[4, 0x82, 0x20, 0, 1, 2], 8192)
        && is_cut(16_777_222, &[4, 0x84, 1, 0, 0, 0], 16_777_216)
        && is_cut(16_777_221, &[4, 0x84, 1, 0, 0, 0], 16_777_221)
}

#[test]
fn images_are_cut_by_the_front(rt: HostRuntime) {
    assert!(rt; short_forms_are_cut() && long_forms_are_cut());
}

// 8,192 octets 07 behind tag and length.
fn wrapped(alloc: Global) -> Result<Vec<u8>, AllocError>
    ensures { IfOk result (λ content. vec_len content ≡ 8196) }
{
    let mut content = vec![in alloc; 7u8; 8196]?;
    content[0] = 4;
    content[1] = 0x82;
    content[2] = 0x20;
    content[3] = 0;
    Ok(content)
}

// Streams a content in two pieces.
fn stream_two<B: Board>(
    alloc: Global,
    pool: &mut Pool,
    board: &mut B,
    content: &[u8],
    cut: usize,
) -> Option<Streamed>
    requires few { length content.now < 2 ^ 32 }
    requires cut { cut ≤ length content.now }
    requires lies { 84 + length pool.old ≤ (B.view board.old).blocks }
{
    let front = &content[..content.len().min(6)];
    let Ok(mut stream) = ContentStream::new(alloc, pool, 84, content.len() as u32, front) else {
        return None;
    };
    let Ok(()) = feed(&mut stream, board, &content[..cut]) else {
        return None;
    };
    let Ok(()) = feed(&mut stream, board, &content[cut..]) else {
        return None;
    };
    finish(stream, board).ok()
}

// Whether these are the blocks; no number asks for none.
fn has_blocks(blocks: &Option<Blocks>, numbers: &[u16]) -> bool {
    match blocks {
        Some(blocks) => !numbers.is_empty() && blocks.numbers() == numbers,
        None => numbers.is_empty(),
    }
}

// Whether this was streamed of the wrapped content.
fn is_image_of(streamed: &Streamed, content: &[u8]) -> bool
    requires { length content.now ≡ 8196 }
{
    streamed.length == 8192
        && streamed.content_digest == Sha256::digest(content)
        && streamed.image_digest == Sha256::digest(&content[4..])
        && has_blocks(&streamed.blocks, &[0, 1])
}

fn is_stored(alloc: Global, pool: &mut Pool, board: &mut MemBoard, content: &[u8]) -> bool
    requires size { length content.now ≡ 8196 }
    requires lies { 84 + length pool.old ≤ (mem_view board.old).blocks }
{
    match stream_two(alloc, pool, board, content, 5000) {
        Some(streamed) => is_image_of(&streamed, content),
        None => false,
    }
}

fn is_stored_on_a_board(alloc: Global, pool: &mut Pool, content: &[u8]) -> bool
    requires size { length content.now ≡ 8196 }
    requires pool { length pool.old ≡ 32 }
{
    match MemBoard::new(alloc, 116, Vec::new(alloc), 100, 100_000) {
        Ok(mut board) => { is_stored(alloc, pool, &mut board, content) && board.erase_count() == 2 }
        Err(_) => false,
    }
}

fn is_stored_from_a_pool(alloc: Global, content: &[u8]) -> bool
    requires { length content.now ≡ 8196 }
{
    match Pool::new(alloc, 32) {
        Ok(mut pool) => is_stored_on_a_board(alloc, &mut pool, content),
        Err(_) => false,
    }
}

fn stores_a_wrapped_image(alloc: Global) -> bool {
    match wrapped(alloc) {
        Ok(content) => is_stored_from_a_pool(alloc, &content),
        Err(_) => false,
    }
}

// Whether a stream that is abandoned hands these blocks back.
fn is_handed_back(stream: ContentStream, board: &mut MemBoard, numbers: &[u16]) -> bool {
    match abandon(stream, board) {
        Ok(blocks) => has_blocks(&blocks, numbers),
        Err(_) => false,
    }
}

// The same of the stream of so many octets. The pool's blocks stay live.
fn hands_back(
    alloc: Global,
    pool: &mut Pool,
    board: &mut MemBoard,
    size: u32,
    numbers: &[u16],
) -> bool
    requires { 6 ≤ size }
{
    match ContentStream::new(alloc, pool, 84, size, &[0; 6]) {
        Ok(stream) => is_handed_back(stream, board, numbers),
        Err(_) => false,
    }
}

fn hands_back_on_a_board(alloc: Global, pool: &mut Pool) -> bool {
    match MemBoard::new(alloc, 86, Vec::new(alloc), 10, 10) {
        Ok(mut board) => {
            hands_back(alloc, pool, &mut board, 8192, &[0, 1])
                && hands_back(alloc, pool, &mut board, 4096, &[])
        }
        Err(_) => false,
    }
}

// A stream that is abandoned hands its blocks back; where too few are free it has none.
fn hands_blocks_back(alloc: Global) -> bool {
    match Pool::new(alloc, 2) {
        Ok(mut pool) => hands_back_on_a_board(alloc, &mut pool),
        Err(_) => false,
    }
}

#[test]
fn a_wrapped_image_is_stored_or_handed_back(rt: HostRuntime) {
    assert!(rt; stores_a_wrapped_image(rt.alloc()));
    assert!(rt; hands_blocks_back(rt.alloc()));
}
