//! The leaves of a one-time signing key, spent on the flash before they are used (RFC 8554,
//! sections 5.2 and 9.2: the leaf number q is state, and no one-time key may sign twice).
//!
//! The row has an octet for each leaf, FF where it is unspent, in the first octets of block 17.
//!
//! - `spend` gives the row's first unspent leaf (`leaf`, `below`, `row`). Its octet is 00 by then
//!   and nothing is pending, so it is spent after each power cut from then on (`blank`, `settled`).
//! - It says that all are spent exactly where no leaf is unspent, unless the board fails, and then
//!   nothing has changed (`all_spent`, `none_left`, `unchanged`).
//! - Whatever it answers, at each moment since it began the board differs at the row's first
//!   unspent leaf alone, and nothing was sent (`touches`); no block was erased (`erased`); a fault
//!   is answered exactly where the board counted one (`later`, `calm`, `fault`).
//! - `spent` counts the spent leaves (`count`) and changes nothing (`unchanged`, `touches`).
//! - `no_leaf_is_given_twice` is the law over all spends and all power cuts between them and inside
//!   them. `spend_is_an_event` says that `spend` is what the law speaks of (`gives`, `gives_none`),
//!   and `other_calls_spare_the_row` that calls which don't write the row are nothing to it
//!   (`spared`), a `send_all` between two spends among them (`sent`). `histories_are_joined` makes
//!   one history of two (`joined`, `given`).
//! - `spent_leaves_stay_spent` says that the count of spent leaves never falls, and rises where a
//!   leaf's octet is 00 (`no_fewer`, `more`), and `first_unspent_is_in_the_row` that a spend stays
//!   in block 17 (`block`).
//! - `row_has_a_place_a_leaf` and `used_up_has_no_ff` are laws of the row alone.
//!
//! Below it stands `edge_board`. The signing crates above it take a `Leaf` by value.
//!
//! A leaf names no key: that leaf and key stand on one board is for the caller to see. A leaf whose
//! spend failed isn't given, and may be lost. Nothing is said of a flash image that was copied
//! back.
#![tactic(auto)]

mod laws;
mod spending;

pub use laws::{
    first_unspent_is_in_the_row, histories_are_joined, no_leaf_is_given_twice,
    other_calls_spare_the_row, row_has_a_place_a_leaf, spend_is_an_event, spent_leaves_stay_spent,
    used_up_has_no_ff,
};
pub use spending::{KEY_BLOCK, Leaf, ROW, SpendFault, spend, spent};
