// Rows of `make` and `list`, over boards in memory that fail, or are cut off and listed.
ghost use Rattle.std.specs.Prelude.{◌≤◌};

use crate::row::{ends, says};
use edge_board::{MemBoard, MemSource, Pick};
use fwload_top::Status;
use std::alloc::{AllocError, Global};

// A module that trusts the public key of its own key, whose SEED and I are of octets 01.
const RECIPE: &str = "hwtype 1.2.3\nserial 0001\ncapacity 16\n\
     key H5 W4 0101010101010101010101010101010101010101010101010101010101010101 \
     01010101010101010101010101010101\n\
     anchor root a1 00000001000000050000000301010101010101010101010101010101\
     66bf6f5816eee4bbf33c50acb480e09b4169ebb533372959bc4315c388e501ac -\n";

// Its key and the key's name, as `tests/lms_vectors.py` at the top of the repository prints them.
const MADE: &str = "made 00000001000000050000000301010101010101010101010101010101\
     66bf6f5816eee4bbf33c50acb480e09b4169ebb533372959bc4315c388e501ac \
     9e24e304e0b833083b09c8c46f3c6dfacb469cb8\n";

const LIST: &str = "module 1.2.3 0001 capacity 16\nsequence 0\nspent 0 of 32\n";

// The key of that module, as the recipe of a key board.
const KEY: &str = "key H5 W4 0101010101010101010101010101010101010101010101010101010101010101 \
     01010101010101010101010101010101\n";

// The line of that key board.
const KEY_MADE: &str = "key 00000001000000050000000301010101010101010101010101010101\
     66bf6f5816eee4bbf33c50acb480e09b4169ebb533372959bc4315c388e501ac \
     9e24e304e0b833083b09c8c46f3c6dfacb469cb8\n";

// How many calls of the board `make` has on an erased one, and `list` on a new module's.
const MAKE_CALLS: u64 = 35;

const LIST_CALLS: u64 = 7;

// What is said of a board that is held.
const HELD: &str = "refused module\n";

// An erased board of so many blocks.
fn erased(alloc: Global, blocks: u32) -> Result<MemBoard, AllocError>
    requires least { 1 ≤ blocks }
    requires most { blocks ≤ 8276 }
{
    MemBoard::new(alloc, blocks, Vec::new(alloc), 1000, 10_000)
}

// The board after a restart, where the words end so over a source that fails at its first read.
fn unread(
    alloc: Global,
    words: &str,
    board: MemBoard,
    wanted: Status,
    line: &str,
) -> Option<MemBoard> {
    match board.stopped(alloc, Pick::Keep, 1000, 10_000) {
        Ok(mut board) => {
            let ended = is_unread(alloc, words, &mut board, wanted, line);
            if ended { Some(board) } else { None }
        }
        Err(_) => None,
    }
}

fn is_unread(alloc: Global, words: &str, board: &mut MemBoard, wanted: Status, line: &str) -> bool {
    match [0].to_vec(alloc) {
        Ok(reads) => {
            let mut source = MemSource::new(Vec::new(alloc), reads);
            ends(alloc, words, &mut source, board, wanted, line)
        }
        Err(_) => false,
    }
}

// The board of a new module.
fn made(alloc: Global) -> Option<MemBoard> {
    match erased(alloc, 116) {
        Ok(mut board) => {
            let done = says(
                alloc,
                "f make",
                RECIPE.as_bytes(),
                &mut board,
                Status::Done,
                MADE,
            );
            if done { Some(board) } else { None }
        }
        Err(_) => None,
    }
}

// A module's board is made once, and then is no key's, whether or not the source can be read.
fn a_module_is_held(a: Global) -> Option<MemBoard> {
    let board = unread(a, "f list", made(a)?, Status::Done, LIST)?;
    let board = unread(a, "f make", board, Status::Refused, HELD)?;
    let board = unread(a, "f key-new", board, Status::Refused, HELD)?;
    let board = unread(a, "f issue", board, Status::NotAModule, "")?;
    let board = unread(a, "f pack", board, Status::NotAModule, "")?;
    unread(a, "f list", board, Status::Done, LIST)
}

#[test]
fn makes_a_module_once(rt: HostRuntime) {
    assert!(rt; a_module_is_held(rt.alloc()).is_some());
}

fn is_made_a_key_board(alloc: Global, board: &mut MemBoard) -> bool {
    says(alloc, "f list", b"", board, Status::NotAModule, "")
        && says(
            alloc,
            "f key-new",
            KEY.as_bytes(),
            board,
            Status::Done,
            KEY_MADE,
        )
}

// A board of a key that was no module's before.
fn key_board(alloc: Global) -> Option<MemBoard> {
    match erased(alloc, 116) {
        Ok(mut board) => {
            let done = is_made_a_key_board(alloc, &mut board);
            if done { Some(board) } else { None }
        }
        Err(_) => None,
    }
}

// A key's board is no module's, and stays.
fn a_key_board_stays(a: Global) -> Option<MemBoard> {
    let board = unread(a, "f list", key_board(a)?, Status::NotAModule, "")?;
    unread(a, "f make", board, Status::Refused, HELD)
}

#[test]
fn a_key_board_is_no_module(rt: HostRuntime) {
    assert!(rt; a_key_board_stays(rt.alloc()).is_some());
}

// Whether a recipe is refused with this line on an erased board of so many blocks, of which none is
// erased then.
fn refuses(alloc: Global, blocks: u32, recipe: &str, line: &str) -> bool
    requires least { 1 ≤ blocks }
    requires most { blocks ≤ 8276 }
{
    match erased(alloc, blocks) {
        Ok(mut board) => {
            says(
                alloc,
                "f make",
                recipe.as_bytes(),
                &mut board,
                Status::Refused,
                line,
            ) && board.erase_count() == 0
        }
        Err(_) => false,
    }
}

fn all_are_refused(alloc: Global) -> bool {
    let odd = "hwtype 1.2.3\nserial 0\n";
    refuses(alloc, 116, odd, "refused line 2\n")
        && refuses(alloc, 116, "", "refused line 1\n")
        && refuses(alloc, 115, odd, "refused line 2\n")
        && refuses(alloc, 115, RECIPE, "refused board\n")
        && refuses(alloc, 17, RECIPE, "refused board\n")
}

#[test]
fn refuses_recipes_and_small_boards(rt: HostRuntime) {
    assert!(rt; all_are_refused(rt.alloc()));
}

// What `list` says of a board after a restart, of which the calls from this number on fail.
fn lists(
    alloc: Global,
    board: MemBoard,
    pick: Pick,
    calls: u64,
    wanted: Status,
    line: &str,
) -> bool {
    match board.stopped(alloc, pick, calls, 10_000) {
        Ok(mut board) => says(alloc, "f list", b"", &mut board, wanted, line),
        Err(_) => false,
    }
}

// ---- calls that fail

// Each call of `list` fails, of which the first is a sync, and the last the send.
fn each_call_fails(alloc: Global) -> bool {
    for call in 0..LIST_CALLS {
        let Some(board) = made(alloc) else {
            return false;
        };
        if !lists(alloc, board, Pick::Keep, call, Status::DeviceFault, "") {
            return false;
        }
    }
    true
}

#[test]
fn a_call_that_fails_ends_a_list(rt: HostRuntime) {
    assert!(rt; each_call_fails(rt.alloc()));
}

// ---- a power cut

// Whether `make` ends as it should that is cut off behind so many calls.
fn is_cut(alloc: Global, board: &mut MemBoard, calls: u64) -> bool {
    let recipe = RECIPE.as_bytes();
    if calls == MAKE_CALLS {
        says(alloc, "f make", recipe, board, Status::Done, MADE)
    } else {
        says(alloc, "f make", recipe, board, Status::DeviceFault, "")
    }
}

fn is_left(alloc: Global, board: MemBoard, pick: Pick, holds: bool) -> bool {
    if holds {
        lists(alloc, board, pick, 1000, Status::Done, LIST)
    } else {
        lists(alloc, board, pick, 1000, Status::NotAModule, "")
    }
}

// The same, and whether a module is left then.
fn cut_off(alloc: Global, calls: u64, pick: Pick, holds: bool) -> bool {
    match MemBoard::new(alloc, 116, Vec::new(alloc), calls, 10_000) {
        Ok(mut board) => {
            let cut = is_cut(alloc, &mut board, calls);
            let left = is_left(alloc, board, pick, holds);
            cut && left
        }
        Err(_) => false,
    }
}

// A module is left from so many calls on, and behind one smaller number of calls, where it is told.
fn holds_from(alloc: Global, pick: Pick, from: u64, also: Option<u64>) -> bool {
    for calls in 0..=MAKE_CALLS {
        if !cut_off(alloc, calls, pick, calls >= from || also == Some(calls)) {
            return false;
        }
    }
    true
}

// The last three calls open the gate, program it and make sure of it, and then the line is sent.
// The gate may be open once its block was erased, or programmed, without a sync.
#[test]
fn a_cut_keeps_or_undoes_pending_cells(rt: HostRuntime) {
    assert!(rt; holds_from(rt.alloc(), Pick::Keep, MAKE_CALLS - 2, None));
    assert!(rt; holds_from(rt.alloc(), Pick::Before, MAKE_CALLS - 1, None));
}

#[test]
fn a_cut_fills_pending_cells(rt: HostRuntime) {
    let erased = Some(MAKE_CALLS - 4);
    assert!(rt; holds_from(rt.alloc(), Pick::Fill(0x0f), MAKE_CALLS - 2, erased));
    assert!(rt; holds_from(rt.alloc(), Pick::Fill(0), MAKE_CALLS - 1, None));
}
