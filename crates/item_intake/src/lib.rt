//! One item of an input, read in pieces: what stands around its content is kept (RFC 5652, section 5),
//! and the content goes into free blocks of the flash as it comes.
//!
//! An item is a SEQUENCE (X.690, section 8.9), or all that is left where none begins.
//!
//! - `read_item` reads the next item to its last octet, and not beyond (`read`). It answers a whole one
//!   with its outline and with what came of its content: both digests, and blocks that hold its image.
//!   One that declares more contents than are kept is read past, and so is what begins no SEQUENCE.
//!   Where it answers a fault, the octets that were handed on are of one item (`breaks`).
//! - A content is hashed and stored as it comes. At most a block for each 4,096 octets of the item is
//!   erased (`read`, `breaks`), and up to a fault of the source at least as many as the content fills
//!   that had come (`breaks`). An item that isn't held gives its blocks back (`read`); after a fault they
//!   stay live, and the run ends.
//! - Whatever it answers, free blocks alone have changed, at each moment (`touches`), and nothing is
//!   pending behind an item (`settled`). Nothing is left behind the last one (`empty`) and behind a fault
//!   of the source (`dry`).
//! - A fault is answered exactly where source or board counted one (`source`, `device`), and too long an
//!   input exactly where 2^32 octets were handed on and one more was taken (`whole`, `counted`).
//!
//! Below it stand `load_input` with the octets, `der_core` and `cms_signed` with where an item ends and
//! what its content is, `content_stream` with the blocks, and `judge_core` with the limit of contents.
//! Above it the item is judged and answered.
//!
//! No clause says what a call costs. No octet of a content is copied but its first six, and none is
//! kept; what stands around it is. An item without a content, or with more behind it than can be
//! accepted, is kept whole too: that is the limit of contents and a head at most.
#![tactic(auto)]

mod ending;
mod fault;
mod inflow;
mod intake;
mod item;
mod reader;
mod reading;
mod turns;

pub use fault::LoadFault;
pub use item::{Held, Item};
pub use reading::read_item;
