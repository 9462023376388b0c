// Trust anchors, by the words of their lines.
ghost use Rattle.std.specs.Prelude.{◌↔◌, IsTrue, IfOk, option_map};
ghost use Rattle.der_core.specs.Reads.{Answers};
ghost use Rattle.cert_fields.specs.AnchorView.{text_view};
ghost use Rattle.module_record.specs.ModuleRecord.{IsKeyText};
ghost use Rattle.recipe_text.specs.ModuleReading.{words_of, words_view, IsShortHex};
ghost use Rattle.recipe_text.specs.ModuleRecipe.{IsAnchorKey, IsAnchorText};
ghost use Rattle.recipe_text.specs.Words.{Exactly};

use crate::cut::{cut_at, is_word};
use crate::key_line::octets_in;
use crate::name_word::name_in;
use crate::words::{hex_in, hex64_in};
use cert_fields::Anchor;
use hss_chain::hss_key;
use module_record::MOST_CONSTRAINTS;
use std::alloc::{AllocError, Global};

// The words of an anchor: NAME, KEYID, KEY and CCC.
#[derive(Drop)]
pub(crate) struct Words<'a> {
    name: &'a [u8],
    id: &'a [u8],
    key: &'a [u8],
    constraints: &'a [u8],
}

// The words, parted by three spaces.
#[tactic(auto, unfolding(crate::specs::ModuleReading::words_of))]
fn words_in(text: &[u8]) -> Option<Words<'_>>
    ensures exact { Answers words_view result (words_of text.now) }
{
    let (name, text) = cut_at(text, b' ')?;
    let (id, text) = cut_at(text, b' ')?;
    let (key, constraints) = cut_at(text, b' ')?;
    Some(Words {
        name,
        id,
        key,
        constraints,
    })
}

// Whether the octets are an HSS key.
fn is_key(octets: &[u8]) -> bool
    ensures { IsTrue result ↔ IsKeyText octets.now }
{
    hss_key(octets).is_some()
}

// The octets of an HSS key.
fn key_octets_in(word: &[u8]) -> Option<[u8; 60]>
    ensures exact { Exactly (IsAnchorKey word.now) result }
{
    let octets = octets_in::<60>(word)?;
    if !is_key(&octets) {
        return None;
    }
    Some(octets)
}

// The octets of constraints, which aren't read yet, or that there are none.
fn constraint_octets_in(alloc: Global, word: &[u8]) -> Result<Option<Option<Vec<u8>>>, AllocError>
    ensures exact { IfOk result (λ octets. Exactly (IsShortHex word.now) (option_map text_view octets)) }
{
    if is_word(word, b"-") {
        return Ok(Some(None));
    }
    let Some(octets) = hex_in(alloc, word)? else {
        return Ok(None);
    };
    if octets.len() > MOST_CONSTRAINTS {
        return Ok(None);
    }
    Ok(Some(Some(octets)))
}

// The anchor of these words.
pub(crate) fn anchor_in(alloc: Global, text: &[u8]) -> Result<Option<Anchor>, AllocError>
    ensures exact { IfOk result (λ anchor. Exactly (IsAnchorText text.now) anchor) }
{
    let Some(words) = words_in(text) else {
        return Ok(None);
    };
    let Some(subject) = name_in(alloc, words.name)? else {
        return Ok(None);
    };
    let Some(key_id) = hex64_in(alloc, words.id)? else {
        return Ok(None);
    };
    let Some(key) = key_octets_in(words.key) else {
        return Ok(None);
    };
    let Some(constraints) = constraint_octets_in(alloc, words.constraints)? else {
        return Ok(None);
    };
    Anchor::new(alloc, subject, key_id, key, constraints)
}
