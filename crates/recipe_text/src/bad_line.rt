// Why a text is no recipe.
use std::alloc::AllocError;

/// The number of the first bad line of a recipe, counted from 1. Where a needed line is missing or
/// something stands behind the last 0A, it is the count of whole lines plus one.
#[derive(Clone, Copy, Debug, PartialEq, Eq)]
pub struct BadLine(pub u32);

/// Why no plan came of a text.
#[derive(Clone, Copy, Debug, PartialEq, Eq)]
pub enum RecipeFault {
    /// The text is no recipe, and this is its first bad line.
    Bad(BadLine),
    Memory,
}

impl From<AllocError> for RecipeFault {
    ghost use Rattle.std.specs.Prelude.{◌≡◌};
    ghost use Rattle.recipe_text.specs.declared.bad_line.RecipeFault.TheVariants.{Memory};

    ghost from_gives = { λ _ fault. fault ≡ Memory };

    fn from(_: AllocError) -> RecipeFault {
        RecipeFault::Memory
    }
}
