//! The verdict on a signed firmware package (RFC 4108), by the 41 conditions under which a module
//! accepts one.
//!
//! - `judge` answers a whole item with its verdict (`judges`): all conditions hold, with the package,
//!   its content, the image and the key identifier of the anchor of its path, or the number of the
//!   first that fails, from condition 20 on with the package's name. It accepts exactly where the item
//!   is admitted (`accepts`).
//! - `judge_cut` does so for an item without its content (`judges`, `accepts`). Its answer is the
//!   verdict on each item that is the frame with a content put in whose length, SHA-256 and length of
//!   image it was told. Both calls stand on one function over the signed data and what is known of its
//!   content.
//! - `path_grant` tells the path of an item's signer and what it permits, exactly where the conditions
//!   1 to 23 hold, whether or not the item is accepted (`told`). It is for who explains a verdict.
//! - `rehearse_step` asks the rules alone of a package's attributes: the conditions 19, 30 to 36, 39 and
//!   40 (`judged`).
//! - Laws: octets spell one package at most (`one_value_each`), so an item has one verdict at most
//!   (`one_verdict_each`), and it accepts exactly where the item is admitted (`accepted_is_admitted`).
//!   No item is without one (`no_item_is_without_a_verdict`). A refusal has a name exactly from
//!   condition 20 on (`refusals_have_their_names`). Items that nobody keeps have a verdict by their
//!   heads (`unread_items_are_refused`, conditions 1 and 2), which `first_size_failure` asks (`told`).
//!   What an accepted package brings can be installed (`accepted_packages_can_be_installed`).
//!
//! What is to be believed stands in `specs/Values` (what an item spells), `specs/Conditions` (the 41
//! conditions, in four lists put together from those of the crates below) and `specs/Verdicts`
//! (`Admits`, and what a verdict is). `Admits` reads: the item is the text of signed data of RFC 5652
//! around a firmware package whose attributes are those of RFC 4108; its digest is that of its content;
//! a path leads from its signer to an anchor of the module; each certificate's signature and the
//! package's own hold by the equations of RFC 8554; each member of the path, and the anchor, permits the
//! content with these attributes; and the rules of the module hold.
//!
//! No condition is asked before those below it hold, and signatures are verified last, each once, but
//! for the rules over what is installed. What is read stays in place: a call takes memory for the order
//! of the signed attributes, for each certificate 16 octets, and for extensions and constraints of at
//! most eight members. No clause says what a call costs.
//!
//! Below it stand `cms_signed` with signed data, `path_check` with paths, `package_attrs` with what
//! attributes describe, `package_rules` with the rules and `module_record` with the module. What is
//! installed is told by lengths alone: no judge speaks of octets in flash.
//!
//! Limits: an item's contents have at most 17,825,792 octets. A module within its limits is required,
//! as a record that was read gives one.
#![tactic(auto)]

mod content;
mod fault;
mod find;
mod frame;
mod grant;
mod item_laws;
mod laws;
mod package;
mod rehearse;
mod rules;
mod signature;
mod size;
mod verdict;
mod whole;

pub use frame::judge_cut;
pub use grant::{PathGrant, path_grant};
pub use item_laws::{
    accepted_packages_can_be_installed, no_item_is_without_a_verdict, refusals_have_their_names,
    unread_items_are_refused,
};
pub use laws::{accepted_is_admitted, one_value_each, one_verdict_each};
pub use rehearse::{Rehearsed, rehearse_step};
pub use size::{MOST_CONTENTS, first_size_failure};
pub use verdict::{Cut, CutVerdict, Verdict};
pub use whole::judge;
