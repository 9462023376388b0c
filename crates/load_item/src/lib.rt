//! One item of a source of firmware packages (RFC 4108): read, judged, installed where it is accepted,
//! and answered.
//!
//! - `answer_item` takes the next item of a source from its first octet to the last of its answer. It
//!   judges the whole item against what stands on the board, installs an accepted package and sends its
//!   receipt, and sends an error for any other item, or says that nothing is left (`turn`).
//! - With a fault, these octets of the item were taken, a front of its answer was sent at most, and but
//!   for a fault of the board nothing was sent or installed (`fails`). A fault is answered exactly where
//!   the source or the board counted one (`source`, `device`), and too long a source where one octet
//!   beyond 2^32 was taken (`whole`, `counted`).
//! - A power cut at any moment leaves a part of the run over this item, whatever items follow (`leaves` of
//!   `TurnsItem` and of `FailsItem`): no octet of a receipt is sent before its package stands there.
//! - The store that was handed in is that of the board again, with no block live but those of installed
//!   images (`valid`, `quiet`, `holds`): so the next item is judged against what this one left, and an item
//!   that is refused keeps no block.
//! - Each item hands octets on (`grows`), those behind it stay with the input (`later`, `within`), and none
//!   are there once the source has ended or failed (`empty`, `dry`).
//!
//! The records of these clauses stand in `specs/Turns`. Below stand `item_intake` with the reading,
//! `judge_core` with the verdict, `item_answer` with the answer and the install, and `load_claims` with what
//! a run is. The loop over all items stands above.
//!
//! Want of memory alone is answered with no cause in the contract, and then the store isn't to be used
//! again: a package that was accepted may have left blocks live.
#![tactic(auto)]

mod answering;
mod giving;
mod item;
mod judging;
mod reading;
mod turn;

pub use item::answer_item;
pub use turn::Turn;
