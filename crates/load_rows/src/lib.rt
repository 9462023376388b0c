//! Rows of `load`: what `run` of `fwload_top` answers to packages, one after the other, over a module's
//! board in memory.
//!
//! The crate has nothing but tests, and nothing stands above it. What is proved of a run for every input
//! and every moment stands in `loader_core` and `fwload_top`; the rows say what no clause can: the octets
//! of answers that another implementation makes, that packages which a packager signs are installed, and
//! that with ample memory a run comes to its end.
//!
//! A module is one of hardware 1.2.3 and serial number 0001 with a capacity of 16 blocks; its key is of H5
//! and W4 with SEED and I of octets 00, and it trusts the key of octets 01 under the name `root` and with
//! the key identifier A1. `flash` puts its board together from octets, `row` has the runs that all rows
//! share, and `vectors` what they are compared with.
#![tactic(auto)]

#[cfg(test)]
mod cuts;
#[cfg(test)]
mod faults;
#[cfg(test)]
mod flash;
#[cfg(test)]
mod images;
#[cfg(test)]
mod items;
#[cfg(test)]
mod large;
#[cfg(test)]
mod many;
#[cfg(test)]
mod needs;
#[cfg(test)]
mod paths;
#[cfg(test)]
mod row;
#[cfg(test)]
mod rules;
#[cfg(test)]
mod signatures;
#[cfg(test)]
mod vectors;
#[cfg(test)]
mod words;
