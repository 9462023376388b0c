// How much a module may have. These limits are this project's own.

/// The most blocks that a module's installed images may have together.
pub const MOST_CAPACITY: u32 = 4096;

/// The most communities that a module belongs to, and the most package types that it takes.
pub const MOST_LISTED: usize = 64;

/// The most trust anchors.
pub const MOST_ANCHORS: usize = 16;

/// The most octets of a trust anchor's constraints.
pub const MOST_CONSTRAINTS: usize = 2048;
