// Runs of `load` and `list` over a source and a module's board in memory.
use crate::flash::{Flash, module_board};
use edge_board::{MemBoard, MemSource};
use fwload_top::{Status, run};
use judge_bench::signer::package;
use sha2::{Digest, Sha256};
use std::alloc::{AllocError, Global};

// The words of a run, at a moment in all validities.
pub(crate) const LOAD: &str = "f load 20250101000000";

// The octets of the answer to an item that is no element, in hex.
pub(crate) const NO_ELEMENT: &str =
    "301f060b2a864886f70d0109100112a010300e06022a03040200010a0101020101";

// The words as the program hands them over, parted by spaces.
fn words_of(alloc: Global, text: &str) -> Result<Vec<String>, AllocError> {
    let mut words = Vec::new(alloc);
    for word in text.split(' ') {
        words.push(String::from_str(alloc, word)?)?;
    }
    Ok(words)
}

// How the words end. None on want of memory for them.
pub(crate) fn status_of(
    alloc: Global,
    words: &str,
    source: &mut MemSource,
    board: &mut MemBoard,
) -> Option<Status> {
    match words_of(alloc, words) {
        Ok(words) => Some(run(alloc, &words, source, board)),
        Err(_) => None,
    }
}

// What is sent, in hex: the octets, or the SHA-256 of all of them.
#[derive(Clone, Copy)]
pub(crate) enum Sent<'a> {
    Hex(&'a str),
    Digest(&'a str),
}

fn is_hex(alloc: Global, octets: &[u8], digits: &str) -> bool {
    match hex::encode(alloc, octets) {
        Ok(text) => text.as_str() == digits,
        Err(_) => false,
    }
}

fn digest_of(octets: &[u8]) -> [u8; 32] {
    let mut hasher = Sha256::new();
    hasher.update(octets);
    hasher.finalize()
}

// Whether the octets are these.
pub(crate) fn is_sent(alloc: Global, octets: &[u8], wanted: Sent<'_>) -> bool {
    match wanted {
        Sent::Hex(digits) => is_hex(alloc, octets, digits),
        Sent::Digest(digits) => is_hex(alloc, &digest_of(octets), digits),
    }
}

// Whether a run over the source ends so, and sends this.
pub(crate) fn ends(
    alloc: Global,
    words: &str,
    source: &mut MemSource,
    board: &mut MemBoard,
    wanted: Status,
    sent: Sent<'_>,
) -> bool {
    let before = board.sent_octets().len();
    if status_of(alloc, words, source, board) != Some(wanted) {
        return false;
    }
    match board.sent_octets().get(before..) {
        Some(octets) => is_sent(alloc, octets, sent),
        None => false,
    }
}

// A source of these octets, of which the reads of these numbers fail.
pub(crate) fn source_of(alloc: Global, octets: &[u8], reads: &[u64]) -> Option<MemSource> {
    match (octets.to_vec(alloc), reads.to_vec(alloc)) {
        (Ok(octets), Ok(reads)) => Some(MemSource::new(octets, reads)),
        _ => None,
    }
}

// The same over these octets.
pub(crate) fn says(
    alloc: Global,
    words: &str,
    octets: &[u8],
    board: &mut MemBoard,
    wanted: Status,
    sent: Sent<'_>,
) -> bool {
    match source_of(alloc, octets, &[]) {
        Some(mut source) => ends(alloc, words, &mut source, board, wanted, sent),
        None => false,
    }
}

// Whether `list` tells this of the board.
pub(crate) fn lists(alloc: Global, board: &mut MemBoard, wanted: &str) -> bool {
    let mut source = MemSource::new(Vec::new(alloc), Vec::new(alloc));
    let before = board.sent_octets().len();
    status_of(alloc, "f list", &mut source, board) == Some(Status::Done)
        && board.sent_octets().get(before..) == Some(wanted.as_bytes())
}

// Whether a run over the octets on this board ends so and sends this, and `list` then tells the rest.
pub(crate) fn loads_on(
    alloc: Global,
    octets: &[u8],
    board: &mut MemBoard,
    wanted: Status,
    sent: Sent<'_>,
    listed: &str,
) -> bool {
    says(alloc, LOAD, octets, board, wanted, sent) && lists(alloc, board, listed)
}

// The same on a module's board with this flash.
pub(crate) fn loads(
    alloc: Global,
    flash: Flash<'_>,
    octets: &[u8],
    wanted: Status,
    sent: Sent<'_>,
    listed: &str,
) -> bool {
    match module_board(alloc, flash) {
        Some(mut board) => loads_on(alloc, octets, &mut board, wanted, sent, listed),
        None => false,
    }
}

// What all packages say that a row tells nothing more of: they are for the module's hardware, signed by
// the anchor's key, and have an image of one octet.
const REST: &str = "target 1.2.3\nsigner a1\nimage 68\n";

// Appends the package by these lines.
fn push_package(alloc: Global, items: &mut Vec<u8>, lines: &str) -> bool {
    let item = match [lines, REST].concat(alloc) {
        Ok(recipe) => package(alloc, 1, &recipe, &[]),
        Err(_) => None,
    };
    match item {
        Some(item) => items.extend_from_slice(&item).is_ok(),
        None => false,
    }
}

// The packages by these lines, one after the other.
fn packages(alloc: Global, each: &[&str]) -> Option<Vec<u8>> {
    let mut items = Vec::new(alloc);
    for lines in each {
        if !push_package(alloc, &mut items, lines) {
            return None;
        }
    }
    Some(items)
}

// Whether a module with this flash that loads the packages by these lines ends so, sends this, and lists
// the rest then.
pub(crate) fn loads_each(
    alloc: Global,
    flash: Flash<'_>,
    each: &[&str],
    wanted: Status,
    sent: Sent<'_>,
    listed: &str,
) -> bool {
    match packages(alloc, each) {
        Some(items) => loads(alloc, flash, &items, wanted, sent, listed),
        None => false,
    }
}
