// What an item is.
use cms_signed::Outline;
use content_stream::Streamed;

/// A whole item, as it is kept: its outline, and what came of its content where it has one.
#[derive(Drop)]
pub struct Held {
    pub outline: Outline,
    pub streamed: Option<Streamed>,
}

/// What the next item of an input is.
#[derive(Drop)]
pub enum Item {
    /// A whole SEQUENCE within the limit of contents.
    Whole(Held),
    /// A whole SEQUENCE with more contents than are kept: it was read past.
    TooLong,
    /// All that was left, which begins with no whole SEQUENCE.
    Unfinished,
    /// Nothing was left.
    End,
}
