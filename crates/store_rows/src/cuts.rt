// What the cells recover to where an install is stopped at one of its calls, or where one fails.
use crate::board::{EMPTY, PUT, long_manifest, manifest, open_over, stopping_board};
use crate::run::install_image;
use bank_layout::{Bank, FIRST_IMAGE_BLOCK};
use edge_board::{BLOCK, Board, MemBoard, Pick};
use module_store::{Store, open};
use std::alloc::Global;

pub(crate) const PICKS: [Pick; 4] = [Pick::Keep, Pick::Before, Pick::Fill(0x0f), Pick::Fill(0)];

// Octets of an image of one block, and of two.
const SHORT: usize = 5;

pub(crate) const LONG: usize = 5_000;

// More calls than an install makes.
const MOST_CALLS: u64 = 62;

// What the cells recover to: the sequence number, the size of the one image, and the octet that each of
// its octets is.
pub(crate) type Found = (u64, usize, u8);

// Where nothing was installed.
pub(crate) const NOTHING: Found = (0, 0, 0);

// The octets of an image block, where each of the first ones is this one.
fn is_filled(board: &mut MemBoard, block: u16, size: usize, octet: u8) -> bool {
    let mut octets = [0u8; 4096];
    let at = FIRST_IMAGE_BLOCK + u32::from(block);
    if at >= board.blocks() || board.read(BLOCK * at, &mut octets).is_err() {
        return false;
    }
    octets.iter().take(size).all(|read| *read == octet)
}

// Whether the image in these blocks is so many octets, each of which is this one.
fn is_image(board: &mut MemBoard, blocks: &[u16], size: usize, octet: u8) -> bool {
    let mut left = size;
    for block in blocks {
        if !is_filled(board, *block, left, octet) {
            return false;
        }
        left = left.saturating_sub(4096);
    }
    left == 0
}

// What the board's store says, where its image has the octet of its sequence number.
fn found_in(store: &Store, board: &mut MemBoard) -> Option<Found> {
    let octet = u8::try_from(store.sequence).ok()?;
    if store.state.packages() == 0 {
        return Some((store.sequence, 0, 0));
    }
    let installed = store.state.package(0)?;
    let size = installed.length as usize;
    if store.state.packages() == 1 && is_image(board, installed.blocks.as_slice(), size, octet) {
        Some((store.sequence, size, octet))
    } else {
        None
    }
}

// What the board recovers to.
fn found(alloc: Global, board: &mut MemBoard) -> Option<Found> {
    match open(alloc, board) {
        Ok(store) => found_in(&store, board),
        Err(_) => None,
    }
}

// The same after a power cut.
pub(crate) fn found_after(alloc: Global, board: MemBoard, pick: Pick) -> Option<Found> {
    match board.stopped(alloc, pick, 20, 0) {
        Ok(mut board) => found(alloc, &mut board),
        Err(_) => None,
    }
}

// Installs 1.2.3.1 version 7 with an image of so many octets, each of which is this one.
fn install_filled(alloc: Global, board: &mut MemBoard, octet: u8, size: usize) -> bool {
    match vec![in alloc; octet; size] {
        Ok(image) => size < 8192 && install_image(alloc, board, 1, 7, &image).is_some(),
        Err(_) => false,
    }
}

// The banks where this one runs, over an image of the size in block 0, and block 1 where it is long.
pub(crate) fn with_banks(
    alloc: Global,
    bank: Option<Bank>,
    size: usize,
    failing: Option<u64>,
    calls: u64,
) -> Option<MemBoard> {
    let (short, long) = (manifest(2, 1, 0), long_manifest(1));
    let part = if size == LONG {
        open_over(&long)
    } else {
        open_over(&short)
    };
    let parts = match bank {
        None => [EMPTY, EMPTY],
        Some(Bank::Zero) => [part, EMPTY],
        Some(Bank::One) => [EMPTY, part],
    };
    let image = [1; LONG];
    stopping_board(alloc, 4, parts, &image[..size.min(LONG)], failing, calls)
}

// Whether an install answered Ok. None where the cells don't recover to what it installs, nor, without
// Ok, to what was there.
fn is_lawful(done: bool, after: Option<Found>, before: Found, next: Found) -> Option<bool> {
    if after == Some(next) || !done && after == Some(before) {
        Some(done)
    } else {
        None
    }
}

// Whether an install of an image of the new size answers Ok where it is stopped behind so many calls.
// None where the cells don't recover to what it installs, nor, without Ok, to what was there.
fn stops(
    alloc: Global,
    bank: Option<Bank>,
    old: usize,
    new: usize,
    calls: u64,
    pick: Pick,
) -> Option<bool> {
    let (before, next) = if bank.is_none() {
        (NOTHING, 1)
    } else {
        ((1, old, 1), 2)
    };
    match with_banks(alloc, bank, old, None, PUT.saturating_add(calls)) {
        Some(mut board) => {
            let done = install_filled(alloc, &mut board, next, new);
            let after = found_after(alloc, board, pick);
            is_lawful(done, after, before, (u64::from(next), new, next))
        }
        None => None,
    }
}

// Whether that is so behind each number of calls, with each pick, and the last answers Ok.
fn stops_anywhere(alloc: Global, bank: Option<Bank>, old: usize, new: usize) -> bool {
    let mut done = false;
    for calls in 0..=MOST_CALLS {
        for pick in PICKS {
            match stops(alloc, bank, old, new, calls, pick) {
                Some(last) => done = last,
                None => return false,
            }
        }
    }
    done
}

// Nothing was installed before, or bank 0 or bank 1 runs; the new image is as long as the one that it
// replaces, longer or shorter.
fn each_stops_anywhere(alloc: Global) -> bool {
    let (zero, one) = (Some(Bank::Zero), Some(Bank::One));
    stops_anywhere(alloc, None, 0, LONG)
        && stops_anywhere(alloc, zero, LONG, LONG)
        && stops_anywhere(alloc, zero, SHORT, LONG)
        && stops_anywhere(alloc, zero, LONG, SHORT)
        && stops_anywhere(alloc, one, LONG, LONG)
        && stops_anywhere(alloc, one, SHORT, LONG)
        && stops_anywhere(alloc, one, LONG, SHORT)
}

#[test]
fn a_stopped_install_leaves_old_or_new(rt: HostRuntime) {
    assert!(rt; each_stops_anywhere(rt.alloc()));
}

// Whether two installs on a module without packages answer Ok, where they are stopped behind so many
// calls, or one call fails. None where the cells don't recover to what the last one that was begun
// installs, nor, without its Ok, to what was there before it.
fn installs_two(alloc: Global, failing: Option<u64>, calls: u64, pick: Pick) -> Option<bool> {
    match with_banks(alloc, None, 0, failing, calls) {
        Some(mut board) => {
            let first = install_filled(alloc, &mut board, 1, LONG);
            let second = first && install_filled(alloc, &mut board, 2, SHORT);
            let after = found_after(alloc, board, pick);
            if first {
                is_lawful(second, after, (1, LONG, 1), (2, SHORT, 2))
            } else {
                is_lawful(false, after, NOTHING, (1, LONG, 1))
            }
        }
        None => None,
    }
}

// Two installs that are stopped behind so many calls, and two of whose calls the one of this number
// fails: whether all four answer Ok.
fn two_are_lawful(alloc: Global, calls: u64, pick: Pick) -> Option<bool> {
    let number = PUT.saturating_add(calls);
    let stopped = installs_two(alloc, None, number, pick)?;
    let failed = installs_two(alloc, Some(number), 1_000, pick)?;
    Some(stopped && failed)
}

// Whether that is so behind each number of calls, with each pick, and all four of the last answer Ok.
fn two_are_lawful_anywhere(alloc: Global) -> bool {
    let mut done = false;
    for calls in 0..=2 * MOST_CALLS {
        for pick in PICKS {
            match two_are_lawful(alloc, calls, pick) {
                Some(last) => done = last,
                None => return false,
            }
        }
    }
    done
}

#[test]
fn two_installs_leave_one_or_the_other(rt: HostRuntime) {
    assert!(rt; two_are_lawful_anywhere(rt.alloc()));
}
