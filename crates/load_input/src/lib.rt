//! The input of a run: the octets of a source, taken in pieces and handed on in whatever parts, up to a
//! limit of 2^32 octets, which is this project's own.
//!
//! - `Input::fill` takes the next piece where nothing is left to hand on, 65,536 octets at most, by one
//!   read. What is still to be handed on stays the same (`kept`), and nothing is there afterwards only
//!   where the source has ended (`end`). It answers `TooLong` exactly where 2^32 octets have been handed
//!   on and one more was taken, and `Failed` exactly where the source counted a fault (`fails`,
//!   `source`).
//! - `Input::octets` are the octets that were taken and not handed on, and `Input::pass` hands a front of
//!   them on (`octets`, `passed`). No octet is taken beyond the limit but one (`within`, `fails`), and
//!   each that was taken is handed on or still there (`counted`).
//!
//! Below it stands `edge_board`, with the source. Who reads items stands above it. No octet is copied
//! but by the read itself, and memory is taken once, for the piece.
#![tactic(auto)]

mod input;

pub use input::{Input, ReadFault};
