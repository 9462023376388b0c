//! Rows of the command line: what `run` of `fwload_top` answers over a source and a board in memory.
//!
//! The crate has nothing but tests, and nothing stands above it: so `fwload_top` is proved once, and
//! a new row proves no older code again. What is proved of `run` for every input stands in
//! `fwload_top`; the rows say what no clause can: vectors from outside, printed text, and that with
//! ample memory a command comes to its end.
//!
//! A row is one call of a small function, whose octets are hex text. `row` has the functions that
//! all commands share, and each command has a file; `permitted` has rows of `explain`.
#![tactic(auto)]

#[cfg(test)]
mod explain;
#[cfg(test)]
mod faults;
#[cfg(test)]
mod ident;
#[cfg(test)]
mod key_new;
#[cfg(test)]
mod module;
#[cfg(test)]
mod package_set;
#[cfg(test)]
mod permitted;
#[cfg(test)]
mod rehearse;
#[cfg(test)]
mod row;
#[cfg(test)]
mod sigcheck;
#[cfg(test)]
mod signing;
#[cfg(test)]
mod two_levels;
#[cfg(test)]
mod usage;
