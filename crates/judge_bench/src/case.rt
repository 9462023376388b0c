// An item and what it is judged by.
use crate::module::{LISTS, record};
use crate::octets::bent;
use crate::vector::{PLAIN, TWO};
use crate::verdict::{AT, Bench, verdict};
use config_table::State;
use std::alloc::Global;

/// The lines of a package whose image is `hello`, of the key that the anchor has.
pub const HELLO: &str = "package 1.2.3.1 7\ntarget 1.2.3\nsigner a1\nimage 68656c6c6f\n";

/// A plain module on which nothing is installed.
pub fn plain_bench(alloc: Global) -> Option<Bench> {
    Some(Bench {
        record: record(alloc, LISTS)?,
        state: State::new(alloc),
        sequence: 0,
        at: AT,
    })
}

/// An item, by which others are made.
#[derive(Drop)]
pub struct Case {
    pub alloc: Global,
    pub bench: Bench,
    pub item: Vec<u8>,
}

impl Case {
    // A package that is given in hex, for a plain module.
    fn vector(alloc: Global, text: &str) -> Option<Case> {
        let bench = plain_bench(alloc)?;
        match hex::decode(alloc, text.as_bytes()) {
            Ok(item) => Some(Case { alloc, bench, item }),
            Err(_) => None,
        }
    }

    /// One without certificates.
    pub fn plain(alloc: Global) -> Option<Case> {
        Case::vector(alloc, PLAIN)
    }

    /// One of a signer under an authority.
    pub fn two(alloc: Global) -> Option<Case> {
        Case::vector(alloc, TWO)
    }

    /// The verdict on these octets.
    pub fn says(&self, item: &[u8]) -> Option<u8> {
        verdict(self.alloc, &self.bench, item)
    }

    /// The verdict on the item with other octets in place of the first of it that are these.
    pub fn bends(&self, from: &[u8], to: &[u8]) -> Option<u8> {
        let item = bent(self.alloc, &self.item, from, to)?;
        self.says(&item)
    }

    /// The same with two such places.
    pub fn bends_both(&self, from: &[u8], to: &[u8], second: &[u8], other: &[u8]) -> Option<u8> {
        let once = bent(self.alloc, &self.item, from, to)?;
        let twice = bent(self.alloc, &once, second, other)?;
        self.says(&twice)
    }
}
