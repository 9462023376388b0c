//! Where the parts of a board lie, the manifests that say what is installed, and what a flash
//! recovers to after a power cut. All of it is this project's own.
//!
//! `specs/Layout` and `specs/Manifest` have the layout and the texts of manifests of both formats;
//! `specs/Recovery` says who holds a flash: nobody, a key with its row, or a module with its
//! sequence, state and row.
//!
//! - `put_manifest` appends exactly a manifest's text of format 2, or leaves the list as it was
//!   (`ok`, `err`). `read_manifest` answers a sequence and a state exactly where the octets begin
//!   with the text of their manifest, of either format, valid for the capacity (`spelled`).
//! - `pool_of` gives the pool in which exactly the blocks that a state names are live (`live`,
//!   `size`), and none exactly where they aren't a module's own (`found`).
//! - `one_manifest_each` and `each_image_has_one_holder` are the laws that octets begin with one
//!   manifest at most and that an image has one holder at most (`one`, `store`).
//!   `greatest_sequence_runs` says which of two manifests is in force (`over`, `greatest`), and
//!   `images_have_their_lengths` that its images are as long as it says (`lengths`).
//! - `unnamed_blocks_have_no_say`: image blocks that no running manifest names may change freely
//!   (`holder`, `store`, `unnamed`). `rows_stand_apart` says that changes in the row's block change
//!   the row alone (`row`), `spends_change_the_row_alone` that a spend does, at each moment (`now`,
//!   `moments`), and `changes_behind_a_shut_gate` says of the bank that doesn't run that it has no
//!   say (`closing`, `shut`).
//! - `an_install_leaves_old_or_new`: until the next manifest is sealed a power cut leaves what was
//!   there (`begun`), in all of an install that or the next (`moments`), and once the gate is open
//!   the next alone (`installed`). `writing_leaves_old_or_new` and `next_manifest_runs` say it of an
//!   image (`moment`; `runs`, `made`).
//! - `manifests_fit`: a manifest fits its blocks and an element, and is found where it stands
//!   (`size`, `room`, `stands`).
//! - `installed_states_are_kept` and `blocks_stay_apart`: an install keeps a state valid (`kept`,
//!   `apart`), which names as many blocks as its lengths ask for (`counted`, and `asked` before it is
//!   known that they fit).
//!   `a_fresh_module_is_empty` says what a format makes (`empty`).
//!
//! Below it stand `bank_gate`, `key_state`, `module_record`, `config_table`, `block_pool`,
//! `content_stream` with the word for the image in some blocks, and `name_write` with the names.
//! The store of a module stands above it.
//!
//! Limits: a capacity is 1 to 4,096 blocks, and for another one no manifest is valid. That some
//! holder is found in each image isn't said. Whether a digest is that of its image isn't looked at.
#![tactic(auto)]

mod bank;
mod format;
mod laws;
mod layout;
mod named;
mod package;
mod reading;
mod tables;
mod writing;

pub use bank::Bank;
pub use format::Format;
pub use laws::{
    a_fresh_module_is_empty, an_install_leaves_old_or_new, blocks_stay_apart,
    changes_behind_a_shut_gate, each_image_has_one_holder, greatest_sequence_runs,
    images_have_their_lengths, installed_states_are_kept, manifests_fit, next_manifest_runs,
    one_manifest_each, rows_stand_apart, spends_change_the_row_alone, unnamed_blocks_have_no_say,
    writing_leaves_old_or_new,
};
pub use layout::{FACTORY, FIRST_IMAGE_BLOCK, KEY_BOARD_BLOCKS, RECORD};
pub use named::pool_of;
pub use reading::read_manifest;
pub use writing::put_manifest;
