// The formats of a manifest.

/// How a manifest is written: an older flash may have the first, and the second is what is written.
#[derive(Clone, Copy, Debug)]
pub enum Format {
    One,
    Two,
}
