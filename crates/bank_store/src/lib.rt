//! How a board is opened and formatted, for a key or for a module. Who holds a board is said by
//! `bank_layout`: nobody, a signing key with its row of leaves, or a module with what stands there.
//!
//! - `is_held` tells whether somebody holds the board, a key or a module (`held`), which is exactly
//!   where it doesn't recover to nobody (`nobody`). `open_key` answers the key that holds it (`key`),
//!   and `NotAKey` exactly where none does (`not_a_key`, `refuses`). Both change no cell, make sure of
//!   what was written before and send nothing (`unchanged`, `settled`, `touches`, `erased`). Where
//!   nothing was pending, the cells as they were are all that a power cut at any moment of them
//!   leaves (`only_image`).
//! - With the Ok of `format_key` the board recovers to the key with a row of FF, and with that of
//!   `format` to the module with nothing installed and a row of FF, after each power cut too
//!   (`formatted`, `settled`). `AlreadyHeld` comes exactly where somebody holds the board
//!   (`already_held`, `held`). `TooSmall` comes for a key exactly where the board has fewer than 18
//!   blocks, and so is held by nobody, and for a module only where it has fewer than 84 and twice the
//!   capacity, where a format never succeeds (`too_small`, `small`). Each refusal comes before
//!   anything is written (`refused`), and on a board that is too small nothing is written at all
//!   (`small_stays`).
//! - Whatever a format answers, at each moment since it began nothing was sent. Where nothing was
//!   pending by then, a power cut leaves the cells as they were if somebody held them, else an image
//!   that recovers to nobody or to the new holder with all its leaves (`moments`). `format_key` writes
//!   blocks 0 to 17 alone and erases 18 at most, `format` those and the blocks of the two banks'
//!   gates, and erases 20 at most (`touches`, `erased`). `FormatLeaves` says what is left, of any
//!   holder that is made.
//! - All four answer a fault exactly where the board counted one (`later`, `calm`, `fault`). With
//!   an Ok of `open_key` or a format the board has the blocks that its holder needs, whatever it tells
//!   of itself, and 18 at least where `is_held` says that it is held or wants memory, and where a format
//!   says so (`blocks`, `memory`, `held_blocks`).
//! - Laws over images: nobody holds a board that is shut or too small
//!   (`nobody_holds_a_shut_or_small_board`), blocks behind the first 18 have no say in which key
//!   holds it (`other_blocks_have_no_say`), and none is without a holder
//!   (`no_image_is_without_a_holder`).
//!
//! Below it stand `bank_gate`, whose states keep the order of a format, `bank_layout`,
//! `module_store`, which opens a module's store, `module_record`, `key_state` and `lms_sign`. The
//! commands stand above it.
//!
//! Limits: nobody holds a board with a module's record that has too few blocks for the module, or an
//! open bank whose manifest isn't valid; so it is formatted. After a fault the module is to be
//! restarted. No clause speaks of the errors' texts. `open_key` alone takes no memory.
#![tactic(auto)]

mod fault;
mod formatting;
mod key_format;
mod laws;
mod module_format;
mod open;

pub use fault::{FormatFault, HolderFault, KeyFault};
pub use key_format::format_key;
pub use laws::{
    no_image_is_without_a_holder, nobody_holds_a_shut_or_small_board, other_blocks_have_no_say,
};
pub use module_format::format;
pub use open::{is_held, open_key};
