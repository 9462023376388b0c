// What stands against a package's dependencies.

/// The dependency that isn't met, by its place among the package's dependencies, from 0.
#[derive(Clone, Copy, Debug, PartialEq, Eq)]
pub enum Unmet {
    /// The first that isn't installed in any version.
    Missing(usize),
    /// All are installed, and this is the first that is so in too small a version.
    TooOld(usize),
}
