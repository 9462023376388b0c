// Rounds on one store that is kept in memory: a stream that is given up and given back, a stream and an
// install. From the second round on both gates are open, until an install closes one of them.
ghost use Rattle.std.specs.Prelude.{◌≡◌, ◌+◌, ◌≤◌, ◌<◌, ◌^◌, [], length, unwrap_or, Some, IfSome, IsTrue};
ghost use Rattle.edge_board.specs.MemBoard.{mem_view};
ghost use Rattle.edge_board.specs.Board.{IsSettled};
ghost use Rattle.package_attrs.specs.Description.{description};
ghost use Rattle.module_store.specs.Store.{HasBlocks, IsReady, IsStoreOf};
ghost use Rattle.store_rows.specs.Plain.{IsPlain};
ghost use Rattle.store_rows.specs.InStep.{IsInStep, StreamsInto};

use crate::board::PUT;
use crate::cuts::{Found, LONG, NOTHING, PICKS, found_after, with_banks};
use crate::run::{package, stream_image, takes_in};
use bank_layout::FIRST_IMAGE_BLOCK;
use block_pool::{
    Blocks, Pool, free_blocks_are_apart, giving_undoes_taking, taken_blocks_are_live_too,
};
use content_stream::{ContentStream, abandon, feed};
use edge_board::{MemBoard, Pick};
use module_store::{Ready, Store, install, open, prepare, streams_have_no_say};
use package_attrs::Package;
use std::alloc::Global;

// Streams most of an image into free blocks of the pool, and gives it up: its blocks, which stay live.
fn stream_most(alloc: Global, pool: &mut Pool, board: &mut MemBoard, image: &[u8]) -> Option<Blocks>
    requires few { length image.now < 2 ^ 32 }
    requires lies { 84 + length pool.old ≤ (mem_view board.old).blocks }
    ensures streams { IfSome result (λ blocks. StreamsInto pool.old pool.new (Some blocks)
        (mem_view board.old) (mem_view board.new)) }
{
    let front = &image[..image.len().min(6)];
    let size = image.len() as u32;
    let Ok(mut stream) = ContentStream::new(alloc, pool, FIRST_IMAGE_BLOCK, size, front) else {
        return None;
    };
    let Ok(()) = feed(&mut stream, board, &image[..image.len() / 8 * 7]) else {
        return None;
    };
    match abandon(stream, board) {
        Ok(Some(blocks)) => Some(blocks),
        Ok(None) | Err(_) => None,
    }
}

// Streams most of an image to the store's board, and gives the blocks back: whether it is done.
fn gives_back(alloc: Global, store: &mut Store, board: &mut MemBoard, image: &[u8]) -> bool
    requires few { length image.now < 2 ^ 32 }
    requires in_step { IsInStep store.old (mem_view board.old) }
    ensures in_step { IsTrue result → IsInStep store.new (mem_view board.new) }
{
    streams_have_no_say::<MemBoard>();
    free_blocks_are_apart();
    taken_blocks_are_live_too();
    giving_undoes_taking();
    match stream_most(alloc, &mut store.pool, board, image) {
        Some(blocks) => {
            store.pool.give(blocks);
            true
        }
        None => false,
    }
}

// Streams an image to the store's board, and makes the install of its package ready.
fn stream_ready(
    alloc: Global,
    store: &mut Store,
    board: &mut MemBoard,
    offered: &Package<'_>,
    image: &[u8],
) -> Option<Ready>
    requires plain { IsPlain (description offered.now) }
    requires few { length image.now < 2 ^ 32 }
    requires in_step { IsInStep store.old (mem_view board.old) }
    ensures ready { IfSome result (IsReady store.new) }
    ensures blocks { IfSome result (λ _. HasBlocks store.new (mem_view board.new).blocks) }
    ensures settled { IfSome result (λ _. IsSettled (mem_view board.new)) }
    ensures holds { IfSome result (λ _. IsStoreOf store.new (mem_view board.new).cells) }
{
    streams_have_no_say::<MemBoard>();
    free_blocks_are_apart();
    taken_blocks_are_live_too();
    let Some(streamed) = stream_image(alloc, &mut store.pool, board, image) else {
        return None;
    };
    if !takes_in(alloc, store, offered, &streamed) {
        return None;
    }
    match prepare(alloc, store, offered, streamed) {
        Ok(ready) => Some(ready),
        Err(_) => None,
    }
}

// Streams an image to the store's board, and installs its package: whether it is done.
fn installs(
    alloc: Global,
    store: &mut Store,
    board: &mut MemBoard,
    offered: &Package<'_>,
    image: &[u8],
) -> bool
    requires plain { IsPlain (description offered.now) }
    requires few { length image.now < 2 ^ 32 }
    requires in_step { IsInStep store.old (mem_view board.old) }
    ensures in_step { IsTrue result → IsInStep store.new (mem_view board.new) }
{
    match stream_ready(alloc, store, board, offered, image) {
        Some(ready) => install(store, board, ready).is_ok(),
        None => false,
    }
}

// A round with this image: whether it is done.
fn is_round(alloc: Global, store: &mut Store, board: &mut MemBoard, image: &[u8]) -> bool
    requires few { length image.now < 2 ^ 32 }
    requires in_step { IsInStep store.old (mem_view board.old) }
    ensures in_step { IsTrue result → IsInStep store.new (mem_view board.new) }
{
    match package(1, 7) {
        Some(offered) => {
            gives_back(alloc, store, board, image) && installs(alloc, store, board, &offered, image)
        }
        None => false,
    }
}

// A round with a long image, each of whose octets is this one: whether it is done.
fn is_filled_round(alloc: Global, store: &mut Store, board: &mut MemBoard, octet: u8) -> bool
    requires in_step { IsInStep store.old (mem_view board.old) }
    ensures in_step { IsTrue result → IsInStep store.new (mem_view board.new) }
{
    match vec![in alloc; octet; LONG] {
        Ok(image) => is_round(alloc, store, board, &image),
        Err(_) => false,
    }
}

// How many of three rounds are done, the images of which are of octets 1, 2 and 3.
fn rounds_on(alloc: Global, store: &mut Store, board: &mut MemBoard) -> u8
    requires in_step { IsInStep store.old (mem_view board.old) }
{
    if !is_filled_round(alloc, store, board, 1) {
        return 0;
    }
    if !is_filled_round(alloc, store, board, 2) {
        return 1;
    }
    if is_filled_round(alloc, store, board, 3) {
        3
    } else {
        2
    }
}

// The same on the store that the board is opened to.
fn rounds(alloc: Global, board: &mut MemBoard) -> u8 {
    match open(alloc, board) {
        Ok(mut store) => rounds_on(alloc, &mut store, board),
        Err(_) => 0,
    }
}

// What the cells recover to after so many rounds.
fn found_behind(rounds: u8) -> Found {
    if rounds == 0 {
        NOTHING
    } else {
        (u64::from(rounds), LONG, rounds)
    }
}

// How many rounds are done where they are stopped behind so many calls. None where the cells recover
// neither to what the last of them left, nor to what the next one installs.
fn rounds_stopped(alloc: Global, calls: u64, pick: Pick) -> Option<u8> {
    match with_banks(alloc, None, 0, None, PUT.saturating_add(calls)) {
        Some(mut board) => {
            let done = rounds(alloc, &mut board);
            let after = found_after(alloc, board, pick);
            if after == Some(found_behind(done))
                || after == Some(found_behind(done.saturating_add(1)))
            {
                Some(done)
            } else {
                None
            }
        }
        None => None,
    }
}

// More calls than three rounds make.
const MOST_CALLS: u64 = 175;

// Whether that is so behind each number of calls, with each pick, and all three of the last are done.
fn rounds_stop_anywhere(alloc: Global) -> bool {
    let mut done = 0;
    for calls in 0..=MOST_CALLS {
        for pick in PICKS {
            match rounds_stopped(alloc, calls, pick) {
                Some(last) => done = last,
                None => return false,
            }
        }
    }
    done == 3
}

#[test]
fn one_store_is_kept_over_rounds(rt: HostRuntime) {
    assert!(rt; rounds_stop_anywhere(rt.alloc()));
}
