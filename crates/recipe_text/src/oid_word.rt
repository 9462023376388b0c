// Object identifiers in dotted decimal (X.690, section 8.19).
ghost use Rattle.std.specs.Prelude.{◌≡◌, ◌+◌, ◌++◌, ℕ, List, Option, map, option_map, IfOk, OnOk};
ghost use Rattle.std.specs.Prelude.{IfSome, IfNone};
ghost use Rattle.std.specs.Int.Digits.{digits_of};
ghost use Rattle.der_core.specs.Objects.{subidentifier};
ghost use Rattle.der_core.specs.Reads.{Answers};
ghost use Rattle.recipe_text.specs.OidReading.{IsFront, FirstOf, Spells, joined, tail_text};
ghost use Rattle.recipe_text.specs.Words.{Exactly, IsOidWord};

use crate::cut::cut_at;
use der_core::{Oid, read_decimal_u128, read_oid};
use std::alloc::{AllocError, Global};

// The identifier that a word spells.
pub(crate) fn oid_in(alloc: Global, word: &[u8]) -> Result<Option<Oid>, AllocError>
    ensures exact { IfOk result (λ id. Exactly (IsOidWord word.now) id) }
{
    let Some((first, rest)) = first_in(word) else {
        return Ok(None);
    };
    let mut contents = Vec::new(alloc);
    put_subidentifier(&mut contents, first)?;
    let are = put_others(&mut contents, rest)?;
    if !are {
        return Ok(None);
    }
    Ok(read_oid(&contents))
}

// The octets up to the first dot, and those behind it where there is one.
fn front_in(text: &[u8]) -> (&[u8], Option<&[u8]>)
    ensures front { IsFront text.now result.0.now (option_map (λ r. r.now) result.1) }
{
    match cut_at(text, b'.') {
        Some((front, rest)) => (front, Some(rest)),
        None => (text, None),
    }
}

// The subidentifier of the first two components, of which the first is this digit (8.19.4).
#[tactic(auto, unfolding(crate::specs::OidReading::joined))]
fn joined(digit: u8, number: u128) -> Option<u128>
    ensures exact { Answers (λ s. s) result (joined digit number) }
{
    match digit {
        b'0' if number < 40 => Some(number),
        b'1' if number < 40 => Some(number + 40),
        b'2' if number <= u128::MAX - 80 => Some(number + 80),
        _ => None,
    }
}

// The first subidentifier, which stands for two components, and what stands behind the next dot.
fn first_in(word: &[u8]) -> Option<(u128, Option<&[u8]>)>
    ensures found { IfSome result (λ x. FirstOf word.now x.0 (option_map (λ r. r.now) x.1)) }
    ensures none { IfNone result ((s : ℕ) (rest : Option (List ℕ)) → FirstOf word.now s rest → ⊥) }
{
    let (root, text) = cut_at(word, b'.')?;
    if root.len() != 1 {
        return None;
    }
    let (front, rest) = front_in(text);
    let number = read_decimal_u128(front)?;
    let first = joined(root[0], number)?;
    Some((first, rest))
}

// Appends a subidentifier for each component behind a dot. False where these are no components.
fn put_others(out: &mut Vec<u8>, behind: Option<&[u8]>) -> Result<bool, AllocError>
    ensures spelled { IfOk result (λ are.
        Spells (tail_text (option_map (λ r. r.now) behind.entry)) out.old.items out.new.items are) }
{
    let mut rest = behind;
    while let Some(text) = rest {
        let (front, next) = front_in(text);
        let Some(number) = read_decimal_u128(front) else {
            return Ok(false);
        };
        put_subidentifier(out, number)?;
        rest = next;
    }
    Ok(true)
}

// Appends a subidentifier's octets (8.19.2).
#[tactic(auto, unfolding(der_core::specs::Objects::subidentifier))]
fn put_subidentifier(out: &mut Vec<u8>, number: u128) -> Result<(), AllocError>
    ensures ok { OnOk result (out.new.items ≡ out.old.items ++ subidentifier number) }
{
    put_high(out, number / 128)?;
    out.push((number % 128) as u8)?;
    Ok(())
}

// Appends the base 128 digits of a number, 128 added to each.
fn put_high(out: &mut Vec<u8>, number: u128) -> Result<(), AllocError>
    ensures ok { OnOk result (out.new.items
        ≡ out.old.items ++ map (λ d. 128 + d) (digits_of 128 number)) }
{
    if number == 0 {
        return Ok(());
    }
    put_high(out, number / 128)?;
    out.push((128 + number % 128) as u8)?;
    Ok(())
}
