//! The outside as the loader sees it: a source of octets, and a flash with a reply line under one
//! clock. The model of a power cut is this project's own.
//!
//! - `Source` says what a read gives (`bound`, `bytes`, `taken`), and that it fails exactly where
//!   the source's count of faults rose (`cause`).
//! - `Board` has one record a call (specs/Calls.antt): what stands after Ok and after a failure,
//!   what the call leaves alone, what a power cut at any of its moments leaves (`effect.time`), and
//!   that it fails exactly where the count of faults rose (`cause`). Its law `honest` says that
//!   what stands there is what a power cut at the present moment may leave.
//! - `send_all` sends all of its octets, or a front of them (`sent`, `partly`, `moments`, `cause`).
//!   It leaves the flash as it was (`flash`, `changes`).
//! - `MemSource` and `MemBoard` fail exactly where their maker planned it (`fails`, `plan`), and a
//!   failure of a board changes nothing but its counts (`failed`).
//! - `MemBoard::stopped` is the board after a power cut: the picked image, settled, with nothing
//!   sent (`image`, `keep`, `begins`).
//! - `SureSource` and `SureBoard` never fail (`count`, `ok`), and `SureBoard::digest` is the
//!   SHA-256 (FIPS 180-4) of what was sent.
//!
//! What is assumed of a flash, and holds of `MemBoard` by its construction:
//!
//! - A power cut changes pending positions alone: those that a call has written since the last
//!   `sync` that answered Ok. Each of them may then hold any octet.
//! - After a `sync` that answered Ok every position lasts as it reads.
//! - A moment inside a call leaves what the one just before or just after it leaves, but that a
//!   send may have sent any front of the octets that it took.
//! - A read gives what stands there. No octet changes by itself, and no cell wears out.
//!
//! Below stand std and `sha2`. Each crate that reads or writes the flash stands above, and is
//! generic over `Board` and `Source`.
//!
//! No clause says what `StdSource` and `FileBoard` give, write or send: they tell nothing of it,
//! and are trusted to be what is assumed. A test writes a file and reads it again. `MemBoard`
//! writes over a cell that doesn't read FF; the trait says nothing of what stands there then.
#![tactic(auto)]

mod board;
mod cells;
mod event;
mod failed;
mod file_board;
mod flash_file;
mod mem_board;
mod mem_source;
mod octet_queue;
mod pick;
mod schedule;
mod sending;
mod source;
mod std_source;
mod sure_board;
mod sure_source;

pub use board::{BLOCK, Board};
pub use failed::Failed;
pub use file_board::FileBoard;
pub use mem_board::MemBoard;
pub use mem_source::MemSource;
pub use pick::Pick;
pub use sending::send_all;
pub use source::Source;
pub use std_source::StdSource;
pub use sure_board::SureBoard;
pub use sure_source::SureSource;
