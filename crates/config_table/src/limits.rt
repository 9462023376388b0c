// How many entries a module's tables may have. These limits are this project's own.

/// How many packages are installed at most.
pub const MOST_PACKAGES: usize = 64;

/// How many stale entries there are at most.
pub const MOST_STALE_ENTRIES: usize = 256;
