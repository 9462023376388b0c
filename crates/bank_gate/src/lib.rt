//! The states of one bank of the flash, each a type that is made by the call before it alone.
//!
//! A bank is a gate, a manifest and an image area. It is open, and so in use, where the gate's
//! octet is 0F. To write it, go from `Idle` to `Closed`, `Wiped`, `Sealed`, `Armed` and `Opened`.
//! The layout and the states are this project's own; the flash is that of `edge_board`.
//!
//! - `is_open` tells whether a gate is open (`gate`), and changes nothing (`unchanged`).
//! - `Idle::close` shuts an open gate (`blanked`, `shut`, `settled`). A gate that isn't open it
//!   leaves as it is (`already`).
//! - `Closed::wipe`, `Wiped::erase`, `Wiped::put` and `Wiped::copy` write the manifest and the area
//!   (`reads`). Whatever they answer, no power cut leaves an open gate (`shut`).
//! - `Wiped::seal` leaves nothing pending, so the body stands after each power cut (`sealed`,
//!   `cells`). The gate's block is erased over such a body alone: `rearm` is a call of `Sealed`.
//! - `Sealed::rearm` erases the gate's block (`armed`, `reads`), and `Armed::open` opens the gate
//!   (`opened`). With their Ok that is so after each power cut.
//! - Each of the nine calls on a board, whatever it answers: at each moment since it began the
//!   board differs in the call's own range alone, and nothing was sent (`touches`); it erased so
//!   many blocks at most (`erased`); it answers a fault exactly where the board counted one
//!   (`cause`).
//! - Laws say what this means of each image that a power cut may leave: `shut_is_no_open_image`,
//!   `settled_board_has_one_image`, `no_open_gate_while_written`, `body_stands_while_switched`.
//! - Laws say what all calls in a row leave, over any place and any set of free positions. From the
//!   close of a gate on it is open only where nothing has changed
//!   (`calls_write_behind_a_closed_gate`). From there to the end of its opening, each image with an
//!   open gate is the start or has the sealed body, and then each has it
//!   (`rewriting_leaves_old_or_sealed`).
//!
//! Below it stands `edge_board`. A store of several banks stands above it.
//!
//! A state holds no board: each call requires of the board that it is lent what the call before
//! promised of it, so other calls may come in between that keep that. After a fault nothing is
//! handed back, and the module is to be restarted; only `close` on an open gate, `rearm` and `open`
//! may leave the gate in doubt then. What a manifest or an image says isn't looked at.
#![tactic(auto)]

mod fault;
mod gate;
mod laws;
mod place;
mod states;

pub use fault::Fault;
pub use gate::is_open;
pub use laws::{
    body_stands_while_switched, calls_write_behind_a_closed_gate, no_open_gate_while_written,
    rewriting_leaves_old_or_sealed, settled_board_has_one_image, shut_is_no_open_image,
};
pub use place::Place;
pub use states::{Armed, Closed, Idle, Opened, Sealed, Wiped};
