//! Rows of the verdict on paths: what `judge` and `judge_cut` of `judge_core` say of a package by
//! its signer's path, and of the values that it signs.
//!
//! The crate has nothing but tests, and nothing stands above it. `certificate_rows` has an item for
//! each of the conditions 20 to 29 on which it is the first that fails, `chain_rows` longer paths and
//! signatures of two levels, and `permit_rows` what the certificates of a path permit. The items and
//! the functions that judge them are those of `judge_bench`.
#![tactic(auto)]

#[cfg(test)]
mod certificate_rows;
#[cfg(test)]
mod chain_rows;
#[cfg(test)]
mod permit_rows;
#[cfg(test)]
mod row;
