// The line of a key.
ghost use Rattle.std.specs.Prelude.{◌≡◌, ◌↔◌, ◌≤◌, ◌∷◌, [], Some, IfSome, codes};
ghost use Rattle.der_core.specs.Reads.{Answers};
ghost use Rattle.lms_verify.specs.Kinds.{height};
ghost use Rattle.module_record.specs.Reading.{view};
ghost use Rattle.recipe_text.specs.KeyRecipe.{IsKeyLine};
ghost use Rattle.recipe_text.specs.Lines.{spaced};
ghost use Rattle.recipe_text.specs.Reading.{tree_of, ots_of, decoded, parts_of, key_of};
ghost use Rattle.recipe_text.specs.Words.{Exactly};

use crate::cut::cut_at;
use lms_sign::SignKey;
use lms_verify::{LmsKind, OtsKind};

// The kind of a signing key's tree.
#[tactic(auto, unfolding(crate::specs::Reading::tree_of))]
fn tree_in(word: &[u8]) -> Option<LmsKind>
    ensures exact { Answers (λ kind. kind) result (tree_of word.now) }
    ensures low { IfSome result (λ kind. height kind ≤ 10) }
{
    match word {
        b"H5" => Some(LmsKind::H5),
        b"H10" => Some(LmsKind::H10),
        _ => None,
    }
}

// The kind of one-time keys.
#[tactic(auto, unfolding(crate::specs::Reading::ots_of))]
fn ots_in(word: &[u8]) -> Option<OtsKind>
    ensures exact { Answers (λ ots. ots) result (ots_of word.now) }
{
    match word {
        b"W1" => Some(OtsKind::W1),
        b"W2" => Some(OtsKind::W2),
        b"W4" => Some(OtsKind::W4),
        b"W8" => Some(OtsKind::W8),
        _ => None,
    }
}

// The octets of a word of HEX, where there are so many.
#[tactic(auto, unfolding(crate::specs::Reading::decoded))]
pub(crate) fn octets_in<const N: usize>(word: &[u8]) -> Option<[u8; N]>
    ensures exact { Answers (λ octets. octets) result (decoded N word.now) }
{
    let mut octets = [0u8; N];
    hex::decode_to_slice(word, &mut octets).ok()?;
    Some(octets)
}

// The key of the words behind `key`.
#[tactic(auto, unfolding(crate::specs::Reading::parts_of))]
fn key_in(words: &[u8]) -> Option<SignKey>
    ensures exact { Answers view result (parts_of words.now) }
{
    let (tree, words) = cut_at(words, b' ')?;
    let (ots, words) = cut_at(words, b' ')?;
    let (seed, id) = cut_at(words, b' ')?;
    Some(SignKey {
        seed: octets_in(seed)?,
        id: octets_in(id)?,
        kind: tree_in(tree)?,
        ots: ots_in(ots)?,
    })
}

// The key that a line says.
#[tactic(auto, unfolding(crate::specs::Reading::key_of))]
fn read_line(line: &[u8]) -> Option<SignKey>
    ensures exact { Answers view result (key_of line.now) }
{
    let (name, words) = cut_at(line, b' ')?;
    if name != b"key".as_slice() {
        return None;
    }
    key_in(words)
}

// The key that a line says, and none where it isn't a key line.
pub(crate) fn key_on(line: &[u8]) -> Option<SignKey>
    ensures spelled { (key : SignKey) → (result ≡ Some key) ↔ IsKeyLine line.now key }
{
    read_line(line)
}

// The key of a key line whose words behind `key` these are, and none where it isn't one.
pub(crate) fn key_behind(words: &[u8]) -> Option<SignKey>
    ensures spelled { Exactly (IsKeyLine (spaced (codes "key" ∷ words.now ∷ []))) result }
{
    key_in(words)
}
