//! Rows of keys, signatures and leaves: what `lms_verify` and `hss_chain` answer to signatures of one
//! tree and of two levels, what `lms_sign` signs and which key it tells, and which leaves `key_state`
//! gives on a board in memory.
//!
//! The crate has nothing but tests, and nothing stands above it: so the crates below it are proved
//! once, and a new row proves no older code again. What is proved of these calls for all octets and
//! every board stands in those crates; the rows say what no clause can: vectors from outside, and that
//! with ample memory a call comes to its end.
//!
//! A row is one call of a small function. `vectors` has the key, the message and the signature of
//! RFC 8554, which `one_tree` and `hierarchy` check; `signing` makes signatures again from seeds, and
//! `spending` spends leaves step by step.
#![tactic(auto)]

#[cfg(test)]
mod hierarchy;
#[cfg(test)]
mod one_tree;
#[cfg(test)]
mod signing;
#[cfg(test)]
mod spending;
#[cfg(test)]
mod vectors;
