//! The bench on which rows of verdicts stand: items, what they are judged by, and the verdict on them.
//!
//! `signer` makes certificates and packages by recipes and signs them, `octets` and `parts` bend them
//! and put others together, `vector` has two that another implementation made, and `module` and
//! `installed` are what they are judged by. `verdict` judges an item whole, and without its content
//! over the outline of the same item in pieces, and answers the number of the condition that fails
//! first, where both say the same. `case` has an item and its bench in one.
//!
//! The crate is for tests alone, and no clause here says what a verdict is: that is proved of
//! `judge_core`. It is a library so that it is proved once for all crates of rows: `judge_rows` and
//! `path_rows` stand above it, and have nothing but tests.
#![tactic(auto)]

pub mod case;
pub mod installed;
pub mod module;
pub mod octets;
pub mod parts;
pub mod signer;
pub mod vector;
pub mod verdict;
