//! Rows of the flash and what is kept on it: boards in memory and in a file, the pool of blocks, the
//! stream of a content, a bank's gate, a module's manifest, and a board that is formatted and opened.
//!
//! The crate has nothing but tests, and nothing stands above it: so `edge_board`, `bank_gate`,
//! `block_pool`, `content_stream`, `bank_layout` and `bank_store` are proved once, and a new row
//! proves no older code again. What is proved of these calls stands in those crates; the rows say what
//! no clause can: manifests worked by hand, what a file holds, and that with ample memory the calls
//! come to their end.
//!
//! A row is one call of a small function. `boards` has the sources and boards in memory, `file_board`
//! the board over a file, `pools` the blocks that are handed out, `contents` the images that are
//! streamed, `manifests` their text, `gates` a bank that is written and cut off at each call, and
//! `stores` the formats of a board.
#![tactic(auto)]

#[cfg(test)]
mod boards;
#[cfg(test)]
mod contents;
#[cfg(test)]
mod file_board;
#[cfg(test)]
mod gates;
#[cfg(test)]
mod manifests;
#[cfg(test)]
mod pools;
#[cfg(test)]
mod stores;
