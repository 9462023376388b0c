// Rows of `key-new`, over boards in memory that fail, or are cut off and opened.
ghost use Rattle.std.specs.Prelude.{◌≤◌};
ghost use Rattle.edge_board.specs.MemBoard.{mem_view};

use crate::row::{answers, ends, source_of};
use bank_store::{KeyFault, open_key};
use edge_board::{MemBoard, Pick};
use fwload_top::Status;
use key_state::spend;
use lms_sign::{SignKey, key_octets, leaf_count, public, sign, signature_size};
use std::alloc::{AllocError, Global};

// The recipe of a key with SEED and I of octets 01.
const RECIPE: &str = "key H5 W4 0101010101010101010101010101010101010101010101010101010101010101 \
     01010101010101010101010101010101\n";

// The same with a tree of 15 levels.
const TALL: &str = "key H15 W4 0101010101010101010101010101010101010101010101010101010101010101 \
     01010101010101010101010101010101\n";

// Its key and the key's name, as `tests/lms_vectors.py` at the top of the repository prints them.
const MADE: &str = "key 00000001000000050000000301010101010101010101010101010101\
     66bf6f5816eee4bbf33c50acb480e09b4169ebb533372959bc4315c388e501ac \
     9e24e304e0b833083b09c8c46f3c6dfacb469cb8\n";

// Whether `key-new` ends so on a recipe, of which the reads of these numbers fail, and this is sent.
fn says(
    alloc: Global,
    recipe: &str,
    reads: &[u64],
    board: &mut MemBoard,
    wanted: Status,
    line: &str,
) -> bool {
    match source_of(alloc, recipe.as_bytes(), reads) {
        Ok(mut source) => ends(alloc, "f key-new", &mut source, board, wanted, line),
        Err(_) => false,
    }
}

// The board after a restart, where it is held then.
fn held_again(alloc: Global, board: MemBoard, reads: &[u64]) -> Option<MemBoard> {
    match board.stopped(alloc, Pick::Keep, 1000, 10_000) {
        Ok(mut board) => {
            let held = says(
                alloc,
                RECIPE,
                reads,
                &mut board,
                Status::Refused,
                "refused module\n",
            );
            if held { Some(board) } else { None }
        }
        Err(_) => None,
    }
}

// A key board of 18 blocks.
fn key_board(alloc: Global) -> Option<MemBoard> {
    match MemBoard::new(alloc, 18, Vec::new(alloc), 1000, 1000) {
        Ok(mut board) => {
            let made = says(alloc, RECIPE, &[], &mut board, Status::Done, MADE);
            if made { Some(board) } else { None }
        }
        Err(_) => None,
    }
}

// An erased board is made a key board once: then it is held, whether or not the source can be read.
fn a_key_board_is_held(alloc: Global) -> bool {
    let Some(board) = key_board(alloc) else {
        return false;
    };
    let Some(board) = held_again(alloc, board, &[]) else {
        return false;
    };
    held_again(alloc, board, &[0]).is_some()
}

#[test]
fn makes_a_key_board_once(rt: HostRuntime) {
    assert!(rt; a_key_board_is_held(rt.alloc()));
}

// Whether a recipe is refused with this line on an erased board of so many blocks, of which none is
// erased then.
fn refuses(alloc: Global, blocks: u32, recipe: &str, line: &str) -> bool
    requires least { 1 ≤ blocks }
    requires most { blocks ≤ 8276 }
{
    match MemBoard::new(alloc, blocks, Vec::new(alloc), 1000, 1000) {
        Ok(mut board) => {
            says(alloc, recipe, &[], &mut board, Status::Refused, line) && board.erase_count() == 0
        }
        Err(_) => false,
    }
}

fn all_are_refused(alloc: Global) -> bool {
    refuses(alloc, 18, TALL, "refused line 1\n")
        && refuses(alloc, 17, TALL, "refused line 1\n")
        && refuses(alloc, 17, RECIPE, "refused board\n")
}

#[test]
fn refuses_recipes_and_small_boards(rt: HostRuntime) {
    assert!(rt; all_are_refused(rt.alloc()));
}

// ---- what a new key signs

// The signature of the message "firmware" with the board's next leaf.
fn signature_of(alloc: Global, board: &mut MemBoard, key: &SignKey) -> Option<Vec<u8>>
    requires { 18 ≤ (mem_view board.old).blocks }
{
    let leaf = spend(board, leaf_count(key)).ok()?;
    match vec![in alloc; 0u8; signature_size(key)] {
        Ok(mut signature) => {
            sign(key, leaf, b"firmware", b"", &mut signature);
            Some(signature)
        }
        Err(_) => None,
    }
}

// The input of `sigcheck`, whose key has a length and octets: the message and the signature with it.
fn put_signed(
    out: &mut Vec<u8>,
    front: &[u8],
    key: &[u8],
    signature: &[u8],
) -> Result<(), AllocError> {
    out.extend_from_slice(front)?;
    out.extend_from_slice(key)?;
    out.extend_from_slice(b"\x04\x08firmware\x04\x82\x09\x30")?;
    out.extend_from_slice(signature)
}

// What `sigcheck` says of it.
fn checks(
    alloc: Global,
    front: &[u8],
    key: &[u8],
    signature: &[u8],
    wanted: Status,
    line: &str,
) -> bool {
    let mut input = Vec::new(alloc);
    put_signed(&mut input, front, key, signature).is_ok()
        && answers(alloc, "f sigcheck", &input, wanted, line)
}

// The octets up to a key of 60 octets, and up to one that lacks an octet.
const WHOLE: &[u8] = b"\x30\x82\x09\x7c\x04\x3c";

const SHORT: &[u8] = b"\x30\x82\x09\x7b\x04\x3b";

fn changes_last(octets: &mut [u8]) -> bool {
    match octets.last_mut() {
        Some(last) => {
            *last = last.wrapping_add(1);
            true
        }
        None => false,
    }
}

// What `sigcheck` says of the signature as it is, where the key lacks an octet, and with another last
// octet.
fn is_checked(alloc: Global, key: &[u8; 60], signature: &mut [u8]) -> bool {
    checks(alloc, WHOLE, key, signature, Status::Done, "good\n")
        && checks(
            alloc,
            SHORT,
            &key[1..],
            signature,
            Status::Refused,
            "refused key\n",
        )
        && changes_last(signature)
        && checks(alloc, WHOLE, key, signature, Status::SomeRefused, "bad\n")
}

fn signs(alloc: Global, board: &mut MemBoard, key: &SignKey) -> bool
    requires { 18 ≤ (mem_view board.old).blocks }
{
    match signature_of(alloc, board, key) {
        Some(mut signature) => is_checked(alloc, &key_octets(&public(key)), &mut signature),
        None => false,
    }
}

fn a_new_key_signs(alloc: Global) -> bool {
    match key_board(alloc) {
        Some(mut board) => match open_key(&mut board) {
            Ok(key) => signs(alloc, &mut board, &key),
            Err(_) => false,
        },
        None => false,
    }
}

#[test]
fn what_a_new_key_signs_is_good(rt: HostRuntime) {
    assert!(rt; a_new_key_signs(rt.alloc()));
}

// ---- one call that fails

// Whether `key-new` ends so where the only call that fails is that of a number, counted from 0.
fn ends_at(alloc: Global, call: u64, wanted: Status, line: &str) -> bool {
    let Ok(failing) = vec![in alloc; call; 1] else {
        return false;
    };
    match MemBoard::new(alloc, 18, failing, 1000, 1000) {
        Ok(mut board) => says(alloc, RECIPE, &[], &mut board, wanted, line),
        Err(_) => false,
    }
}

// Each of the 33 calls fails alone, and is not tried again.
fn each_call_fails(alloc: Global) -> bool {
    for call in 0..33 {
        if !ends_at(alloc, call, Status::DeviceFault, "") {
            return false;
        }
    }
    ends_at(alloc, 33, Status::Done, MADE)
}

#[test]
fn a_call_that_fails_ends_it(rt: HostRuntime) {
    assert!(rt; each_call_fails(rt.alloc()));
}

// ---- a power cut

// What is read of a key after a power cut. None on want of memory.
fn read_after(alloc: Global, board: MemBoard, pick: Pick) -> Option<Result<(), KeyFault>> {
    match board.stopped(alloc, pick, 3, 0) {
        Ok(mut board) => match open_key(&mut board) {
            Ok(_) => Some(Ok(())),
            Err(fault) => Some(Err(fault)),
        },
        Err(_) => None,
    }
}

// What is read where `key-new` is cut off behind so many calls or octets, and ends so. None where it
// ends otherwise.
fn cut_off(
    alloc: Global,
    calls: u64,
    room: usize,
    pick: Pick,
    wanted: Status,
    sent: &str,
) -> Option<Result<(), KeyFault>> {
    match MemBoard::new(alloc, 18, Vec::new(alloc), calls, room) {
        Ok(mut board) => {
            let ended = says(alloc, RECIPE, &[], &mut board, wanted, sent);
            let read = read_after(alloc, board, pick);
            if ended { read } else { None }
        }
        Err(_) => None,
    }
}

// Whether a key holds the board that is cut off behind so many calls; where none does, nobody.
fn holds(alloc: Global, calls: u64, pick: Pick, wanted: bool) -> bool {
    let (status, sent) = if calls == 33 {
        (Status::Done, MADE)
    } else {
        (Status::DeviceFault, "")
    };
    match cut_off(alloc, calls, 1000, pick, status, sent) {
        Some(Ok(())) => wanted,
        Some(Err(KeyFault::NotAKey)) => !wanted,
        Some(Err(_)) => false,
        None => false,
    }
}

// A key holds the board from so many calls on, and behind one smaller number of calls, where it is
// told.
fn holds_from(alloc: Global, pick: Pick, from: u64, also: Option<u64>) -> bool {
    for calls in 0..=33 {
        if !holds(alloc, calls, pick, calls >= from || also == Some(calls)) {
            return false;
        }
    }
    true
}

// The first calls ask for a key and for a module, a sync and a read each; then come 28 of the
// format, which asks again, and the send. The gate may be open once its block was erased, or
// programmed, without a sync.
#[test]
fn a_cut_leaves_a_key_or_none(rt: HostRuntime) {
    assert!(rt; holds_from(rt.alloc(), Pick::Keep, 31, None));
    assert!(rt; holds_from(rt.alloc(), Pick::Before, 32, None));
    assert!(rt; holds_from(rt.alloc(), Pick::Fill(0x0f), 31, Some(29)));
    assert!(rt; holds_from(rt.alloc(), Pick::Fill(0), 32, None));
}

// The record's 65 octets and the gate's are kept, and one of the line.
fn tells(alloc: Global, pick: Pick) -> bool {
    cut_off(alloc, 1000, 67, pick, Status::DeviceFault, "k") == Some(Ok(()))
}

#[test]
fn one_octet_tells_of_a_key(rt: HostRuntime) {
    let alloc = rt.alloc();
    assert!(rt; tells(alloc, Pick::Keep) && tells(alloc, Pick::Before));
    assert!(rt; tells(alloc, Pick::Fill(0x0f)) && tells(alloc, Pick::Fill(0)));
}
