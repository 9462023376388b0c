// What installs without a stop leave in the store and on the board.
use crate::board::{EMPTY, module_board, open_over};
use crate::run::{Told, block_at, install_image, told};
use bank_layout::Bank;
use edge_board::{Board, MemBoard};
use module_store::{Store, open};
use package_attrs::PackageName;
use std::alloc::Global;

// What the store says that a board is opened to.
fn opened(alloc: Global, board: &mut MemBoard) -> Option<Told> {
    match open(alloc, board) {
        Ok(store) => Some(told(&store)),
        Err(_) => None,
    }
}

// Installs "hello" as 1.2.3.1 version 7 so many times: what the last store says, where that is what
// the one says that is opened afterwards.
fn installed_again(alloc: Global, board: &mut MemBoard, times: u8) -> Option<Told> {
    for _ in 1..times {
        let _ = install_image(alloc, board, 1, 7, b"hello")?;
    }
    let kept = install_image(alloc, board, 1, 7, b"hello")?;
    if opened(alloc, board) == Some(kept) {
        Some(kept)
    } else {
        None
    }
}

// Whether the last of so many installs has this sequence number, and takes this block and this bank.
fn takes(alloc: Global, times: u8, sequence: u64, block: u16, bank: Bank) -> bool {
    let told = match module_board(alloc, 2, EMPTY, EMPTY) {
        Some(mut board) => installed_again(alloc, &mut board, times),
        None => None,
    };
    match told {
        Some((number, running, first, _)) => {
            number == sequence && running == Some(bank) && first == Some(block)
        }
        None => false,
    }
}

fn the_least_free_are_taken(alloc: Global) -> bool {
    takes(alloc, 1, 1, 0, Bank::Zero)
        && takes(alloc, 2, 2, 1, Bank::One)
        && takes(alloc, 3, 3, 0, Bank::Zero)
}

#[test]
fn an_install_takes_the_least_free_block(rt: HostRuntime) {
    assert!(rt; the_least_free_are_taken(rt.alloc()));
}

// The manifest of format 1 with sequence number 6 and two packages, each with an image of 5 octets:
// 1.2.3.2 version 4 in block 0, and 1.2.3.3 version 1 in block 1.
const TWO: [u8; 118] = *b"\x30\x74\x02\x01\x01\x02\x01\x06\x30\x6a\
    \x30\x33\x30\x08\x06\x03\x2a\x03\x02\x02\x01\x04\x04\x20\
    \0\0\0\0\0\0\0\0\0\0\0\0\0\0\0\0\0\0\0\0\0\0\0\0\0\0\0\0\0\0\0\0\
    \x02\x01\x05\x04\x02\0\0\
    \x30\x33\x30\x08\x06\x03\x2a\x03\x03\x02\x01\x01\x04\x20\
    \0\0\0\0\0\0\0\0\0\0\0\0\0\0\0\0\0\0\0\0\0\0\0\0\0\0\0\0\0\0\0\0\
    \x02\x01\x05\x04\x02\0\x01\x30\0";

// The same with three: 1.2.3.2 version 4 in block 16, 1.2.3.3 version 1 in block 17, and 1.2.3.4
// version 1 in block 18.
const THREE: [u8; 173] = *b"\x30\x81\xaa\x02\x01\x01\x02\x01\x06\x30\x81\x9f\
    \x30\x33\x30\x08\x06\x03\x2a\x03\x02\x02\x01\x04\x04\x20\
    \0\0\0\0\0\0\0\0\0\0\0\0\0\0\0\0\0\0\0\0\0\0\0\0\0\0\0\0\0\0\0\0\
    \x02\x01\x05\x04\x02\0\x10\
    \x30\x33\x30\x08\x06\x03\x2a\x03\x03\x02\x01\x01\x04\x20\
    \0\0\0\0\0\0\0\0\0\0\0\0\0\0\0\0\0\0\0\0\0\0\0\0\0\0\0\0\0\0\0\0\
    \x02\x01\x05\x04\x02\0\x11\
    \x30\x33\x30\x08\x06\x03\x2a\x03\x04\x02\x01\x01\x04\x20\
    \0\0\0\0\0\0\0\0\0\0\0\0\0\0\0\0\0\0\0\0\0\0\0\0\0\0\0\0\0\0\0\0\
    \x02\x01\x05\x04\x02\0\x12\x30\0";

// Whether the package at this place has this version, no type and no needs.
fn has_version(store: &Store, place: usize, wanted: u128) -> bool {
    match store.state.package(place) {
        Some(installed) => {
            let plain = installed.kind.is_none() && installed.needs.as_slice().is_empty();
            match installed.name {
                PackageName::Preferred { version, .. } => plain && version == wanted,
                PackageName::Legacy(_) => false,
            }
        }
        None => false,
    }
}

// Whether the first two packages have these versions, as the board is opened.
fn has_versions(alloc: Global, board: &mut MemBoard, first: u128, second: u128) -> bool {
    match open(alloc, board) {
        Ok(store) => has_version(&store, 0, first) && has_version(&store, 1, second),
        Err(_) => false,
    }
}

// The same, where bank 1 of a module with a capacity of 16 runs with this manifest.
fn reads(alloc: Global, manifest: &[u8], first: u128, second: u128) -> bool {
    match module_board(alloc, 16, EMPTY, open_over(manifest)) {
        Some(mut board) => has_versions(alloc, &mut board, first, second),
        None => false,
    }
}

// Whether bank 0 has a manifest of format 2 with sequence number 7.
fn is_written(board: &mut MemBoard) -> bool {
    let mut head = [0; 9];
    board.blocks() >= 84
        && board.read(4096 * 19, &mut head) == Ok(())
        && head[3..] == [0x02, 0x01, 0x02, 0x02, 0x01, 0x07]
}

// Whether bank 0 runs with sequence number 7, and these are the blocks of the first four packages.
fn has_blocks(store: &Store, blocks: [Option<u16>; 4]) -> bool {
    store.sequence == 7
        && store.running == Some(Bank::Zero)
        && block_at(store, 0) == blocks[0]
        && block_at(store, 1) == blocks[1]
        && block_at(store, 2) == blocks[2]
        && block_at(store, 3) == blocks[3]
}

fn installs_beside(alloc: Global, board: &mut MemBoard, blocks: [Option<u16>; 4]) -> bool {
    if install_image(alloc, board, 9, 1, b"hello").is_none() || !is_written(board) {
        return false;
    }
    match open(alloc, board) {
        Ok(store) => has_blocks(&store, blocks),
        Err(_) => false,
    }
}

// Whether 1.2.3.9 is installed beside the packages of this manifest, which runs in bank 1 before, and
// these are the blocks then.
fn writes(alloc: Global, manifest: &[u8], blocks: [Option<u16>; 4]) -> bool {
    match module_board(alloc, 16, EMPTY, open_over(manifest)) {
        Some(mut board) => installs_beside(alloc, &mut board, blocks),
        None => false,
    }
}

fn both_formats_stand(alloc: Global) -> bool {
    reads(alloc, &TWO, 4, 1)
        && writes(alloc, &TWO, [Some(0), Some(1), Some(2), None])
        && writes(alloc, &THREE, [Some(16), Some(17), Some(18), Some(0)])
}

#[test]
fn format_1_is_read_and_format_2_is_written(rt: HostRuntime) {
    assert!(rt; both_formats_stand(rt.alloc()));
}

// How many blocks the stream and the install of 1.2.3.1 erase that are the last of 16, of which the
// others install 1.2.3.1 to 1.2.3.15.
fn erased_last(alloc: Global, board: &mut MemBoard) -> Option<u64> {
    for id in 1..=15 {
        let _ = install_image(alloc, board, id, 1, b"hello")?;
    }
    let before = board.erase_count();
    let _ = install_image(alloc, board, 1, 1, b"hello")?;
    board.erase_count().checked_sub(before)
}

// Whether they are no more than this.
fn erases(alloc: Global, most: u64) -> bool {
    let erased = match module_board(alloc, 16, EMPTY, EMPTY) {
        Some(mut board) => erased_last(alloc, &mut board),
        None => None,
    };
    match erased {
        Some(erased) => erased <= most,
        None => false,
    }
}

#[test]
fn an_install_erases_few_blocks(rt: HostRuntime) {
    assert!(rt; erases(rt.alloc(), 35));
}
