//! Rows of verdicts: what `judge` and `judge_cut` answer of items that another program made.
//!
//! The crate has nothing but tests, and nothing stands above it. What is proved of a verdict on every
//! item stands in `judge_core`; the rows say what no clause can: items from outside, and that with
//! ample memory there is a verdict. `judge_cut` is given the outline of the same item in pieces.
#![tactic(auto)]

#[cfg(test)]
mod conditions;
#[cfg(test)]
mod installed;
#[cfg(test)]
mod row;
#[cfg(test)]
mod vectors;
