// What an answer is.
ghost use Rattle.std.specs.Prelude.{◌≡◌};
ghost use Rattle.answer_write.specs.Kinds.{type_of};

use crate::content_types::{LOAD_ERROR, LOAD_RECEIPT};

/// What a module answers an item with.
#[derive(Clone, Copy, Debug, PartialEq, Eq)]
pub enum AnswerKind {
    /// A receipt, where the package is loaded (RFC 4108, section 3).
    Receipt,
    /// A load error, where it isn't (RFC 4108, section 4).
    Error,
}

impl AnswerKind {
    // The type of its content.
    pub(crate) fn content_type(self) -> [u8; 11]
        ensures value { result ≡ type_of self }
    {
        match self {
            AnswerKind::Receipt => LOAD_RECEIPT,
            AnswerKind::Error => LOAD_ERROR,
        }
    }
}
