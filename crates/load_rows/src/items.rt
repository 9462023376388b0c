// Items and their answers (RFC 5652, section 3; RFC 4108, sections 4.1 and 4.2).
use crate::flash::{BLOCKS, FRESH, begins, begins_hex, module_board};
use crate::row::{
    LOAD, NO_ELEMENT, Sent, ends, lists, loads, loads_on, says, source_of, status_of,
};
use crate::vectors::RECEIPT;
use edge_board::{MemBoard, MemSource};
use fwload_top::Status;
use judge_bench::case::{Case, HELLO};
use judge_bench::octets::bent;
use judge_bench::parts::{behind_content, item_of};
use judge_bench::vector::PLAIN;
use std::alloc::Global;

// What `list` tells of the module before anything was loaded.
const NOTHING: &str = "module 1.2.3 0001 capacity 16\nsequence 0\nspent 0 of 32\n";

// The same with the package 1.2.3.1 version 7 whose image is `hello`, and its answer.
const HELLO_LISTED: &str = "module 1.2.3 0001 capacity 16\nsequence 1\nspent 1 of 32\n\
     package preferred 1.2.3.1 7 length 5 \
     sha256 2cf24dba5fb0a30e26e83b2ac5b9e29e1b161e5c1fa7425e73043362938b9824\n";

// ---- a package

// The recipe of the module.
const MODULE: &str = "hwtype 1.2.3\nserial 0001\ncapacity 16\n\
     key H5 W4 0000000000000000000000000000000000000000000000000000000000000000 \
     00000000000000000000000000000000\n\
     anchor root a1 00000001000000050000000301010101010101010101010101010101\
     66bf6f5816eee4bbf33c50acb480e09b4169ebb533372959bc4315c388e501ac -\n";

// The manifest with which it is installed: of format 2 with sequence number 1, in image block 0.
const MANIFEST: &str = "3041020102020101303730353008\
     06032a03010201070420\
     2cf24dba5fb0a30e26e83b2ac5b9e29e1b161e5c1fa7425e73043362938b9824\
     0201050402000030003000";

fn is_made(alloc: Global, board: &mut MemBoard) -> bool {
    match source_of(alloc, MODULE.as_bytes(), &[]) {
        Some(mut source) => status_of(alloc, "f make", &mut source, board) == Some(Status::Done),
        None => false,
    }
}

// A module that is made by its recipe loads the package of another implementation, and answers as that
// does; the manifest and the image stand in their blocks.
fn is_loaded(alloc: Global, board: &mut MemBoard, item: &[u8]) -> bool {
    is_made(alloc, board)
        && loads_on(
            alloc,
            item,
            board,
            Status::Done,
            Sent::Hex(RECEIPT),
            HELLO_LISTED,
        )
        && begins_hex(alloc, board, 19, MANIFEST)
        && begins(board, 84, b"hello")
}

fn loads_theirs(alloc: Global) -> bool {
    match (
        hex::decode(alloc, PLAIN.as_bytes()),
        MemBoard::new(alloc, BLOCKS, Vec::new(alloc), 1000, 20_000),
    ) {
        (Ok(item), Ok(mut board)) => is_loaded(alloc, &mut board, &item),
        _ => false,
    }
}

#[test]
fn a_package_is_loaded(rt: HostRuntime) {
    assert!(rt; loads_theirs(rt.alloc()));
}

// ---- what is no package

// Whether these octets, on which the module installs nothing and spends no leaf, are answered so.
fn refuses(alloc: Global, octets: &[u8], sent: &str) -> bool {
    loads(
        alloc,
        FRESH,
        octets,
        Status::SomeRefused,
        Sent::Hex(sent),
        NOTHING,
    )
}

// The answers to two empty elements, and to an octet behind them.
const THREE: &str = "301f060b2a864886f70d0109100112a010300e06022a03040200010a0102020103\
     301f060b2a864886f70d0109100112a010300e06022a03040200010a0102020103\
     301f060b2a864886f70d0109100112a010300e06022a03040200010a0101020101";

// An element of type id-data, and its answer.
const DATA: &[u8] = b"\x30\x0f\x06\x09\x2a\x86\x48\x86\xf7\x0d\x01\x07\x01\xa0\x02\x04\x00";

const NOT_SIGNED: &str = "301f060b2a864886f70d0109100112a010300e06022a03040200010a0102020104";

// No item; one that is no element; three; and one that isn't signed data.
#[test]
fn each_item_has_an_answer(rt: HostRuntime) {
    let a = rt.alloc();
    assert!(rt; loads(a, FRESH, b"", Status::Done, Sent::Hex(""), NOTHING));
    assert!(rt; refuses(a, b"\x30", NO_ELEMENT) && refuses(a, b"\x30\0\x30\0\xff", THREE));
    assert!(rt; refuses(a, DATA, NOT_SIGNED));
}

// The content `hello` of type id-encryptedData, and its answer; the type id-ct-compressedData in place
// of a package's, and its answer.
const ENCRYPTED: &[u8] =
    b"\x30\x14\x06\x09\x2a\x86\x48\x86\xf7\x0d\x01\x07\x06\xa0\x07\x04\x05hello";

const NO_KEY: &str = "301f060b2a864886f70d0109100112a010300e06022a03040200010a0116020107";

const COMPRESSED: (&[u8], &[u8]) = (b"\x10\x01\x10\xa0\x07", b"\x10\x01\x09\xa0\x07");

const NO_ALGORITHM: &str = "301f060b2a864886f70d0109100112a010300e06022a03040200010a0118020108";

fn refuses_of(alloc: Global, item: Option<Vec<u8>>, sent: &str) -> bool {
    match item {
        Some(item) => refuses(alloc, &item, sent),
        None => false,
    }
}

// The package with another content.
fn with_content(case: &Case, content: &[u8]) -> Option<Vec<u8>> {
    item_of(case.alloc, content, behind_content(&case.item)?)
}

fn types_are_refused(alloc: Global) -> bool {
    match Case::plain(alloc) {
        Some(case) => {
            let compressed = bent(alloc, &case.item, COMPRESSED.0, COMPRESSED.1);
            refuses_of(alloc, with_content(&case, ENCRYPTED), NO_KEY)
                && refuses_of(alloc, compressed, NO_ALGORITHM)
        }
        None => false,
    }
}

#[test]
fn encrypted_and_compressed_content_is_refused(rt: HostRuntime) {
    assert!(rt; types_are_refused(rt.alloc()));
}

// ---- pieces, and several packages

// A source that gives an octet at a time.
fn one_by_one(alloc: Global, board: &mut MemBoard, item: Vec<u8>) -> bool {
    let mut source = MemSource::pieces(item, Vec::new(alloc), 1);
    ends(
        alloc,
        LOAD,
        &mut source,
        board,
        Status::Done,
        Sent::Hex(RECEIPT),
    ) && lists(alloc, board, HELLO_LISTED)
}

fn loads_one_by_one(alloc: Global) -> bool {
    match (Case::plain(alloc), module_board(alloc, FRESH)) {
        (Some(case), Some(mut board)) => one_by_one(alloc, &mut board, case.item),
        _ => false,
    }
}

#[test]
fn pieces_of_one_octet_are_loaded(rt: HostRuntime) {
    assert!(rt; loads_one_by_one(rt.alloc()));
}
