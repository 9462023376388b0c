//! Rows of the rules of packages and certificates: what a module's rules and states answer of a
//! package, which packages others need, what constraints permit, and which path of certificates is
//! found and how far it holds.
//!
//! The crate has nothing but tests, and nothing stands above it: so `config_table`,
//! `dependency_check`, `package_rules`, `constraint_meet` and `path_check` are proved once, and a new
//! row proves no older code again. What is proved of these calls for every octet stands in those
//! crates and in the crates below them; the rows say what no clause can: vectors from outside, and
//! that with ample memory there is an answer.
//!
//! A row is one call of a small function. `path_vectors` has the certificates of `paths`, which
//! another program made.
#![tactic(auto)]

#[cfg(test)]
mod constraints;
#[cfg(test)]
mod dependencies;
#[cfg(test)]
mod path_vectors;
#[cfg(test)]
mod paths;
#[cfg(test)]
mod rules;
#[cfg(test)]
mod states;
