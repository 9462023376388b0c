// Rows: whether the verdict on an item is the number of the condition that is wanted, or 0.
use judge_bench::case::{Case, plain_bench};
use judge_bench::verdict::verdict;
use std::alloc::Global;

// For a plain module, of these octets.
pub(crate) fn says(alloc: Global, item: &[u8], wanted: u8) -> bool {
    match plain_bench(alloc) {
        Some(bench) => verdict(alloc, &bench, item) == Some(wanted),
        None => false,
    }
}

// The same of an item that could be made.
pub(crate) fn says_of(alloc: Global, item: Option<Vec<u8>>, wanted: u8) -> bool {
    match item {
        Some(item) => says(alloc, &item, wanted),
        None => false,
    }
}

// Octets, and others that stand in their place.
pub(crate) type Bend<'a> = (&'a [u8], &'a [u8]);

// Of the package without certificates, bent in one place, where the first of its octets are these.
pub(crate) fn bends(alloc: Global, bend: Bend<'_>, wanted: u8) -> bool {
    match Case::plain(alloc) {
        Some(case) => case.bends(bend.0, bend.1) == Some(wanted),
        None => false,
    }
}

// The same with two such places.
pub(crate) fn bends_both(alloc: Global, bend: Bend<'_>, other: Bend<'_>, wanted: u8) -> bool {
    match Case::plain(alloc) {
        Some(case) => case.bends_both(bend.0, bend.1, other.0, other.1) == Some(wanted),
        None => false,
    }
}
