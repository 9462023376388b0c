//! Rows of the verdict: what `judge` and `judge_cut` of `judge_core` say of packages, and
//! `rehearse_step` of their attributes.
//!
//! The crate has nothing but tests, and nothing stands above it. What is proved of a verdict for
//! every item stands in `judge_core`; the rows say what no clause can: for each condition there is an
//! item on which it is the first that fails, and packages that are signed by the packager pass them
//! all. Those of paths are in `path_rows`.
//!
//! Each item is judged twice, whole and without its content, over the outline of the same item in
//! pieces, by `judge_bench`, which makes the items too.
#![tactic(auto)]

#[cfg(test)]
mod octet_rows;
#[cfg(test)]
mod package_rows;
#[cfg(test)]
mod rehearsal_rows;
#[cfg(test)]
mod row;
#[cfg(test)]
mod rule_rows;
#[cfg(test)]
mod signer_rows;
