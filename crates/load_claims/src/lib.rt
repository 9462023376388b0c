//! What is claimed of a module that loads firmware packages (RFC 4108), over definitions and boards.
//!
//! - `headline`: after a power cut recovery finds what a prefix of the accepted packages makes, which
//!   holds each one whose receipt was sent whole; and packages are accepted exactly where they are
//!   admitted (`run`, `all`, and over a module's life `life`).
//! - `lives_end_as_they_answered` and `no_leaf_answers_twice`: what a module's whole life leaves, and that
//!   no two signed answers of which any octet was sent have one leaf (RFC 8554, section 9.2).
//! - `one_item_carries_to_the_list`, `kept_of_all_items` and `cuts_are_rounds` carry what is known of one
//!   item to the list, of the first items to all of them, and of one run to a life.
//! - `no_items_are_without_verdicts` and `one_list_of_verdicts`: it is refuted that items have no list of
//!   verdicts, and they have one at most.
//! - The laws over boards (`moments`) carry one item through the steps of a loader: its content is
//!   stored, its package installed, its leaf spent, its answer sent; and then from item to item.
//!
//! Items, verdicts and answers stand in specs/Items, what a power cut may leave in specs/Kept, a life in
//! specs/Lives, the headline in specs/Headline. specs/Inside is a bridge for proofs, and nothing of it has
//! to be believed. Below stand the verdict (`judge_core`), recovery (`bank_layout`) and the texts of answers
//! (`receipt_writer`, `answer_write`). What a loader has to promise is `CutsKeep` and `Loads` of specs/Boards;
//! `loader_core` does.
#![tactic(auto)]

mod laws;
mod moments;

pub use laws::{
    a_loop_keeps, cuts_are_rounds, headline, kept_of_all_items, lives_end_as_they_answered,
    no_items_are_without_verdicts, no_leaf_answers_twice, one_item_carries_to_the_list,
    one_list_of_verdicts,
};
pub use moments::{
    installing_is_inside, items_follow_each_other, opening_is_not_begun, sending_is_inside,
    spending_is_inside, steps_follow_each_other, storing_is_not_begun,
};
