// Images (RFC 4108, section 2.1.1): with and without an OCTET STRING around them, empty, too large, and
// such that don't come to their end.
use crate::flash::{FRESH, begins, module_board};
use crate::row::{LOAD, NO_ELEMENT, Sent, lists, loads, loads_on, says};
use crate::vectors::{BENT_BEHIND, EMPTY_ANSWER, RECEIPT, ROOM_ANSWERS};
use edge_board::{MemBoard, Pick};
use fwload_top::Status;
use judge_bench::case::{Case, HELLO};
use judge_bench::signer::{package, recipe};
use std::alloc::Global;

// ---- what is installed

// Whether the module's board that loads these octets has this image in image block 0 then.
fn is_installed(
    alloc: Global,
    octets: &[u8],
    wanted: Status,
    sent: Sent<'_>,
    listed: &str,
    image: &[u8],
) -> bool {
    match module_board(alloc, FRESH) {
        Some(mut board) => {
            loads_on(alloc, octets, &mut board, wanted, sent, listed)
                && begins(&mut board, 84, image)
        }
        None => false,
    }
}

// The same of the package by these lines, which is accepted.
fn installs(alloc: Global, lines: &str, listed: &str, image: &[u8]) -> bool {
    match package(alloc, 1, lines, &[]) {
        Some(item) => is_installed(
            alloc,
            &item,
            Status::Done,
            Sent::Hex(RECEIPT),
            listed,
            image,
        ),
        None => false,
    }
}

const WRAPPED: &str = "package 1.2.3.1 7\ntarget 1.2.3\nsigner a1\nwrap\nimage 68656c6c6f\n";

const HELLO_LISTED: &str = "module 1.2.3 0001 capacity 16\nsequence 1\nspent 1 of 32\n\
     package preferred 1.2.3.1 7 length 5 \
     sha256 2cf24dba5fb0a30e26e83b2ac5b9e29e1b161e5c1fa7425e73043362938b9824\n";

// One octet, raw, in an OCTET STRING.
const RAW: &str = "package 1.2.3.1 7\ntarget 1.2.3\nsigner a1\nimage 040141\n";

const RAW_LISTED: &str = "module 1.2.3 0001 capacity 16\nsequence 1\nspent 1 of 32\n\
     package preferred 1.2.3.1 7 length 1 \
     sha256 559aead08264d5795d3909718cdd05abd49572e84fe55590eef31a88a08fdffd\n";

// The same in an OCTET STRING more.
const TWICE: &str = "package 1.2.3.1 7\ntarget 1.2.3\nsigner a1\nwrap\nimage 040141\n";

const TWICE_LISTED: &str = "module 1.2.3 0001 capacity 16\nsequence 1\nspent 1 of 32\n\
     package preferred 1.2.3.1 7 length 3 \
     sha256 ae002bbfb92c5a182ea9c98cd9fe4a15f157091a69986984adba9636b0487259\n";

#[test]
fn an_image_is_unwrapped_once(rt: HostRuntime) {
    let a = rt.alloc();
    assert!(rt; installs(a, HELLO, HELLO_LISTED, b"hello"));
    assert!(rt; installs(a, WRAPPED, HELLO_LISTED, b"hello"));
    assert!(rt; installs(a, RAW, RAW_LISTED, b"A"));
    assert!(rt; installs(a, TWICE, TWICE_LISTED, b"\x04\x01A"));
}

// ---- what isn't

// The package, and behind it the same with another last octet, whose image finds another block.
fn with_another_behind(alloc: Global, item: &[u8]) -> Option<Vec<u8>> {
    let mut both = [item, item].concat(alloc).ok()?;
    let last = both.last_mut()?;
    *last ^= 1;
    Some(both)
}

fn keeps_the_first(alloc: Global) -> bool {
    let both = match Case::plain(alloc) {
        Some(case) => with_another_behind(alloc, &case.item),
        None => None,
    };
    match both {
        Some(both) => is_installed(
            alloc,
            &both,
            Status::SomeRefused,
            Sent::Digest(BENT_BEHIND),
            HELLO_LISTED,
            b"hello",
        ),
        None => false,
    }
}

#[test]
fn a_refused_image_leaves_the_others(rt: HostRuntime) {
    assert!(rt; keeps_the_first(rt.alloc()));
}

// An empty image.
const EMPTY: &str = "package 1.2.3.1 7\ntarget 1.2.3\nsigner a1\nimage 0400\n";

const ANSWERED: &str = "module 1.2.3 0001 capacity 16\nsequence 0\nspent 1 of 32\n";

fn refuses_an_empty_one(alloc: Global) -> bool {
    match package(alloc, 1, EMPTY, &[]) {
        Some(item) => loads(
            alloc,
            FRESH,
            &item,
            Status::SomeRefused,
            Sent::Digest(EMPTY_ANSWER),
            ANSWERED,
        ),
        None => false,
    }
}

#[test]
fn an_empty_image_is_refused(rt: HostRuntime) {
    assert!(rt; refuses_an_empty_one(rt.alloc()));
}

// ---- many octets

// The package 1.2.3.1 version 7 with an image of so many octets of one kind.
fn filled(alloc: Global, octet: u8, size: usize) -> Option<Vec<u8>> {
    let image = vec![in alloc; octet; size].ok()?;
    let head = "package 1.2.3.1 7\ntarget 1.2.3\nsigner a1\n";
    let lines = recipe(alloc, head, "image", &image)?;
    package(alloc, 1, &lines, &[])
}

// The package 1.2.3.2 version 1, whose image is one octet.
const SMALL: &str = "package 1.2.3.2 1\ntarget 1.2.3\nsigner a1\nimage 68\n";

const FULL_LISTED: &str = "module 1.2.3 0001 capacity 16\nsequence 1\nspent 2 of 32\n\
     package preferred 1.2.3.1 7 length 65536 \
     sha256 de2f256064a0af797747c2b97505dc0b9f3df0de4f489eac731c23ae9ca9cc31\n";

// One that takes all blocks, and then one that finds none.
fn fill_all(alloc: Global, first: &[u8], second: &[u8]) -> bool {
    match [first, second].concat(alloc) {
        Ok(both) => loads(
            alloc,
            FRESH,
            &both,
            Status::SomeRefused,
            Sent::Digest(ROOM_ANSWERS),
            FULL_LISTED,
        ),
        Err(_) => false,
    }
}

fn all_are_filled(alloc: Global) -> bool {
    match (filled(alloc, 0, 65_536), package(alloc, 1, SMALL, &[])) {
        (Some(first), Some(second)) => fill_all(alloc, &first, &second),
        _ => false,
    }
}

#[test]
fn images_have_as_many_blocks_as_there_are(rt: HostRuntime) {
    assert!(rt; all_are_filled(rt.alloc()));
}

// ---- an input that ends early

const NOTHING: &str = "module 1.2.3 0001 capacity 16\nsequence 0\nspent 0 of 32\n";

// Whether the board after a power cut lists nothing, and has kept the octets that came in two blocks.
fn is_kept(alloc: Global, board: MemBoard) -> bool {
    match board.stopped(alloc, Pick::Fill(0), 100, 1000) {
        Ok(mut board) => {
            lists(alloc, &mut board, NOTHING)
                && begins(&mut board, 84, &[0x5a; 4096])
                && begins(&mut board, 85, &[0x5a; 4096])
        }
        Err(_) => false,
    }
}

// The first octets of a package are answered as what is no element, and nothing is pending then.
fn is_abandoned(alloc: Global, front: &[u8]) -> bool {
    match module_board(alloc, FRESH) {
        Some(mut board) => {
            let wanted = Status::SomeRefused;
            let sent = Sent::Hex(NO_ELEMENT);
            let refused = says(alloc, LOAD, front, &mut board, wanted, sent);
            let kept = is_kept(alloc, board);
            refused && kept
        }
        None => false,
    }
}

fn ends_early(alloc: Global) -> bool {
    match filled(alloc, 0x5a, 20_000) {
        Some(item) => match item.get(..10_000) {
            Some(front) => is_abandoned(alloc, front),
            None => false,
        },
        None => false,
    }
}

#[test]
fn an_input_that_ends_in_an_image_leaves_nothing_pending(rt: HostRuntime) {
    assert!(rt; ends_early(rt.alloc()));
}
