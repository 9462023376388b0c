//! Rows of the store of a module: what `open` answers over a board in memory, what `prepare` and
//! `install` leave there, and what the cells recover to after a power cut at each of their calls.
//!
//! The crate has nothing but tests, and nothing stands above it: so `module_store` is proved once,
//! and a new row proves no older code again. What is proved of these calls for every board stands in
//! `module_store` and in the crates below it; the rows say what no clause can: vectors from outside,
//! and that with ample memory an install comes to its end.
//!
//! A row is one call of a small function. `board` puts a module's board together from octets, `run`
//! streams and installs an image, and `rounds` does so again and again on one store that is kept in
//! memory. The flash is that of `edge_board`'s board in memory.
#![tactic(auto)]

#[cfg(test)]
mod board;
#[cfg(test)]
mod cuts;
#[cfg(test)]
mod installs;
#[cfg(test)]
mod opens;
#[cfg(test)]
mod rounds;
#[cfg(test)]
mod run;
