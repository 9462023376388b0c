//! The answer to an item whose verdict is given (RFC 4108, sections 3 and 4): from the verdict to the last
//! octet of the answer.
//!
//! - `accept_item` installs an accepted package and sends its receipt. The receipt's text, all its octets
//!   but the signature, and the install are made before the flash is touched; then the package is
//!   installed; then a leaf is spent, where one is unspent; and only then is the receipt signed and sent.
//! - `refuse_with_leaf` sends the error for an item that fails a condition from 30 on, signed with a leaf
//!   where one is unspent. `refuse_plainly` sends it for one that fails an earlier condition, unsigned: it
//!   takes no key, and so a stranger can't use leaves up.
//! - With Ok each has sent exactly the answer of its verdict, and what stands on the board is what the
//!   verdict makes of it; after a fault a front of the answer was sent; and a power cut at any moment
//!   leaves a part of the item's run, in which no octet of a receipt goes out before its install stands
//!   (`item`).
//! - For want of memory the board is as it was (`memory`), and a fault is answered exactly where the board
//!   counted one. A refusal erases nothing, and an acceptance 34 blocks at most (`ends`).
//!
//! The records of these clauses stand in `specs/Answers`. Below stand `receipt_writer` with the texts,
//! `answer_write` with their octets, `module_store` with the install, `key_state` with the leaves, and
//! `load_claims` with the laws that carry an item through these steps. The loop over items stands above.
//!
//! The nodes of the key's tree are computed at the first answer that may be signed, and kept by the caller.
#![tactic(auto)]

mod accepting;
mod fault;
mod making;
mod refusing;
mod replying;

pub use accepting::accept_item;
pub use fault::ItemFault;
pub use refusing::{refuse_plainly, refuse_with_leaf};
