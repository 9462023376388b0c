// The lines of a module recipe, by their words.
ghost use Rattle.der_core.specs.Reads.{Answers};
ghost use Rattle.recipe_text.specs.ModuleReading.{kind_named};
ghost use Rattle.recipe_text.specs.ModuleRecipe.{IsCapacity};
ghost use Rattle.recipe_text.specs.Words.{Exactly};

use crate::cut::is_word;
use der_core::read_decimal_u128;
use module_record::MOST_CAPACITY;

// A kind of line.
#[derive(Clone, Copy)]
pub(crate) enum ModuleKind {
    HwType,
    Serial,
    Capacity,
    Key,
    Community,
    Type,
    Anchor,
}

// The kind of the line that begins with this word.
#[tactic(auto, unfolding(crate::specs::ModuleReading::kind_named))]
pub(crate) fn kind_named(name: &[u8]) -> Option<ModuleKind>
    ensures exact { Answers (λ kind. kind) result (kind_named name.now) }
{
    if is_word(name, b"hwtype") {
        Some(ModuleKind::HwType)
    } else if is_word(name, b"serial") {
        Some(ModuleKind::Serial)
    } else if is_word(name, b"capacity") {
        Some(ModuleKind::Capacity)
    } else if is_word(name, b"key") {
        Some(ModuleKind::Key)
    } else if is_word(name, b"community") {
        Some(ModuleKind::Community)
    } else if is_word(name, b"type") {
        Some(ModuleKind::Type)
    } else if is_word(name, b"anchor") {
        Some(ModuleKind::Anchor)
    } else {
        None
    }
}

// A capacity, in blocks.
pub(crate) fn capacity_in(word: &[u8]) -> Option<u32>
    ensures exact { Exactly (IsCapacity word.now) result }
{
    let number = read_decimal_u128(word)?;
    if number < 1 || number > u128::from(MOST_CAPACITY) {
        return None;
    }
    Some(number as u32)
}
