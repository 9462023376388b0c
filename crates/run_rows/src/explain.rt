// Rows of `explain`, over a module's board in memory, and packages that were signed before.
use crate::row::{ends, says, source_of, status_of};
use edge_board::{MemBoard, Pick};
use fwload_top::Status;
use std::alloc::{AllocError, Global};

// A module that trusts its own public key, whose SEED and I are of octets 01.
const MODULE: &str = "hwtype 1.2.3\nserial 0001\ncapacity 16\n\
     key H5 W4 0101010101010101010101010101010101010101010101010101010101010101 \
     01010101010101010101010101010101\n\
     anchor root a1 00000001000000050000000301010101010101010101010101010101\
     66bf6f5816eee4bbf33c50acb480e09b4169ebb533372959bc4315c388e501ac -\n";

// The recipe of that key, which signs whatever is signed here.
const KEY: &str = "key H5 W4 0101010101010101010101010101010101010101010101010101010101010101 \
     01010101010101010101010101010101\n";

// The certificate of an authority, but for what it may sign.
const AUTHORITY: &str = "serial 01\nissuer root\nsubject authority\nfrom 20200101000000\n\
     to 20491231235959\npublic 00000001000000050000000301010101010101010101010101010101\
     66bf6f5816eee4bbf33c50acb480e09b4169ebb533372959bc4315c388e501ac\n\
     subjectkey c1\nauthoritykey a1\nca -\nusage certsign\n";

// The certificate of a signer under it, but for what it may sign.
const SIGNER: &str = "serial 02\nissuer authority\nsubject signer\nfrom 20200101000000\n\
     to 20491231235959\npublic 00000001000000050000000301010101010101010101010101010101\
     66bf6f5816eee4bbf33c50acb480e09b4169ebb533372959bc4315c388e501ac\n\
     subjectkey b1\nauthoritykey c1\nusage sign\n";

// What an authority and a signer under it may sign, and the line of the attributes with which a
// firmware package may then be signed.
pub(crate) struct Grants {
    pub(crate) authority: &'static str,
    pub(crate) signer: &'static str,
    pub(crate) attributes: &'static str,
}

// What is told of each path: before those attributes, and behind them.
const FRONT: &str = "path 2 anchor 0\nallow 1.2.840.113549.1.9.16.1.16\n";

const BEHIND: &str = "deny other\n";

const AT: &str = "f explain 20300101000000";

// What the words send over a text, where they end with Done. None where they don't.
fn sent(alloc: Global, words: &str, text: &str, board: &mut MemBoard) -> Option<Vec<u8>> {
    let before = board.sent_octets().len();
    let status = match source_of(alloc, text.as_bytes(), &[]) {
        Ok(mut source) => status_of(alloc, words, &mut source, board),
        Err(_) => None,
    };
    if status != Some(Status::Done) {
        return None;
    }
    board.sent_octets().get(before..)?.to_vec(alloc).ok()
}

// Appends the line of a certificate in the recipe of a package.
fn push_certificate(alloc: Global, recipe: &mut String, octets: &[u8]) -> Result<(), AllocError> {
    recipe.push_str("certificate ")?;
    match hex::encode(alloc, octets) {
        Ok(digits) => recipe.push_str(&digits)?,
        Err(fault) => return Err(fault),
    }
    recipe.push_str("\n")
}

// The same of the certificate that a board issues by these lines and what it may sign.
fn push_issued(
    alloc: Global,
    recipe: &mut String,
    lines: &str,
    constraint: &str,
    board: &mut MemBoard,
) -> bool {
    let issued = match [lines, constraint].concat(alloc) {
        Ok(text) => sent(alloc, "f issue", &text, board),
        Err(_) => None,
    };
    match issued {
        Some(octets) => push_certificate(alloc, recipe, &octets).is_ok(),
        None => false,
    }
}

// Writes the recipe of a package of these lines, signed by the signer, with its path.
fn put_recipe(
    alloc: Global,
    recipe: &mut String,
    grants: &Grants,
    lines: &str,
    board: &mut MemBoard,
) -> bool {
    recipe.push_str(lines).is_ok()
        && recipe.push_str("signer b1\nimage 68656c6c6f\n").is_ok()
        && push_issued(alloc, recipe, SIGNER, grants.signer, board)
        && push_issued(alloc, recipe, AUTHORITY, grants.authority, board)
}

// The package, on a board where a key is made first.
fn packed(alloc: Global, grants: &Grants, lines: &str, board: &mut MemBoard) -> Option<Vec<u8>> {
    let made = sent(alloc, "f key-new", KEY, board).is_some();
    let mut recipe = String::new(alloc);
    if made && put_recipe(alloc, &mut recipe, grants, lines, board) {
        sent(alloc, "f pack", &recipe, board)
    } else {
        None
    }
}

fn package(alloc: Global, grants: &Grants, lines: &str) -> Option<Vec<u8>> {
    match MemBoard::new(alloc, 18, Vec::new(alloc), 1000, 40_000) {
        Ok(mut board) => packed(alloc, grants, lines, &mut board),
        Err(_) => None,
    }
}

// The module's board after a restart.
fn module(alloc: Global) -> Option<MemBoard> {
    let made = match MemBoard::new(alloc, 116, Vec::new(alloc), 1000, 10_000) {
        Ok(mut board) => {
            let done = sent(alloc, "f make", MODULE, &mut board).is_some();
            if done { Some(board) } else { None }
        }
        Err(_) => None,
    };
    made?.stopped(alloc, Pick::Keep, 1000, 10_000).ok()
}

// What the module says of an input.
fn explained(alloc: Global, input: &[u8], wanted: Status, answer: &str) -> bool {
    match module(alloc) {
        Some(mut board) => says(alloc, AT, input, &mut board, wanted, answer),
        None => false,
    }
}

fn put_answer(out: &mut String, grants: &Grants, verdict: &str) -> Result<(), AllocError> {
    out.push_str(FRONT)?;
    out.push_str(grants.attributes)?;
    out.push_str(BEHIND)?;
    out.push_str(verdict)
}

fn explained_of(
    alloc: Global,
    grants: &Grants,
    input: &[u8],
    wanted: Status,
    verdict: &str,
) -> bool {
    let mut answer = String::new(alloc);
    put_answer(&mut answer, grants, verdict).is_ok() && explained(alloc, input, wanted, &answer)
}

// The same of a package by these lines, whose path of two grants what it does.
fn explains(alloc: Global, grants: &Grants, lines: &str, wanted: Status, verdict: &str) -> bool {
    match package(alloc, grants, lines) {
        Some(input) => explained_of(alloc, grants, &input, wanted, verdict),
        None => false,
    }
}

// The package is permitted.
pub(crate) fn permits(alloc: Global, grants: &Grants, lines: &str) -> bool {
    explains(alloc, grants, lines, Status::Done, "verdict accepted\n")
}

// It isn't, though its path permits others.
pub(crate) fn refuses(alloc: Global, grants: &Grants, lines: &str) -> bool {
    explains(
        alloc,
        grants,
        lines,
        Status::SomeRefused,
        "verdict refused 28 11\n",
    )
}

// On an erased board, over a source that fails at its first read.
fn is_no_module(alloc: Global, board: &mut MemBoard) -> bool {
    match source_of(alloc, b"", &[0]) {
        Ok(mut source) => ends(alloc, AT, &mut source, board, Status::NotAModule, ""),
        Err(_) => false,
    }
}

fn no_module_explains(alloc: Global) -> bool {
    match MemBoard::new(alloc, 116, Vec::new(alloc), 1000, 10_000) {
        Ok(mut board) => is_no_module(alloc, &mut board),
        Err(_) => false,
    }
}

// No path is told of what is no package, and no verdict where there is no module.
fn no_path_is_told(alloc: Global) -> bool {
    let refused = "verdict refused 1 1\n";
    explained(alloc, b"", Status::SomeRefused, refused)
        && explained(alloc, b"\x30\x00\x00", Status::SomeRefused, refused)
        && explained(
            alloc,
            b"\x30\x00",
            Status::SomeRefused,
            "verdict refused 3 2\n",
        )
        && no_module_explains(alloc)
}

#[test]
fn what_is_no_package_has_no_path(rt: HostRuntime) {
    assert!(rt; no_path_is_told(rt.alloc()));
}
