// A run of words over a source and a board in memory.
use edge_board::{MemBoard, MemSource};
use fwload_top::{Status, run};
use std::alloc::{AllocError, Global};

// The words as the program hands them over, parted by spaces: the flash file's name is the first.
fn words_of(alloc: Global, text: &str) -> Result<Vec<String>, AllocError> {
    let mut words = Vec::new(alloc);
    for word in text.split(' ') {
        if !word.is_empty() {
            words.push(String::from_str(alloc, word)?)?;
        }
    }
    Ok(words)
}

// How the words end. None on want of memory for them.
pub(crate) fn status_of(
    alloc: Global,
    words: &str,
    source: &mut MemSource,
    board: &mut MemBoard,
) -> Option<Status> {
    match words_of(alloc, words) {
        Ok(words) => Some(run(alloc, &words, source, board)),
        Err(_) => None,
    }
}

// Whether the words end so, and this was sent.
pub(crate) fn ends(
    alloc: Global,
    words: &str,
    source: &mut MemSource,
    board: &mut MemBoard,
    wanted: Status,
    answer: &str,
) -> bool {
    status_of(alloc, words, source, board) == Some(wanted)
        && board.sent_octets() == answer.as_bytes()
}

// A source of this text, of which the reads of these numbers fail.
pub(crate) fn source_of(
    alloc: Global,
    text: &[u8],
    reads: &[u64],
) -> Result<MemSource, AllocError> {
    let reads = reads.to_vec(alloc)?;
    match text.to_vec(alloc) {
        Ok(text) => Ok(MemSource::new(text, reads)),
        Err(fault) => Err(fault),
    }
}

// The same over a text.
pub(crate) fn says(
    alloc: Global,
    words: &str,
    text: &[u8],
    board: &mut MemBoard,
    wanted: Status,
    answer: &str,
) -> bool {
    match source_of(alloc, text, &[]) {
        Ok(mut source) => ends(alloc, words, &mut source, board, wanted, answer),
        Err(_) => false,
    }
}

// The same over a text, and a board of one block on which nothing fails.
pub(crate) fn answers(
    alloc: Global,
    words: &str,
    text: &[u8],
    wanted: Status,
    answer: &str,
) -> bool {
    match MemBoard::new(alloc, 1, Vec::new(alloc), 100, 4096) {
        Ok(mut board) => says(alloc, words, text, &mut board, wanted, answer),
        Err(_) => false,
    }
}

// The same over a text that is given in hex.
pub(crate) fn answers_hex(
    alloc: Global,
    words: &str,
    text: &str,
    wanted: Status,
    answer: &str,
) -> bool {
    match hex::decode(alloc, text) {
        Ok(text) => answers(alloc, words, &text, wanted, answer),
        Err(_) => false,
    }
}
