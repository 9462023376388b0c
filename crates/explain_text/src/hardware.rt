// Listed hardware types, looked up by the values that list them.
ghost use Rattle.std.specs.Prelude.{◌≡◌, ◌++◌, ℕ, List, [], Contains, IfOk, OnOk, IfSome, IfNone, IsPermutation, is_some, map};
ghost use Rattle.std.specs.List.{list_all, list_any};
ghost use Rattle.package_attrs.specs.ListReading.{targets_of};
ghost use Rattle.explain_text.specs.Keys.{AreOf, AscendByNumber, are_listed, is_key, types_from, types_in};
ghost use Rattle.explain_text.specs.Ordered.{lent};

use crate::keys::{in_order, is_key, keys_of};
use der_core::Oid;
use package_attrs::{Targets, read_targets};
use std::alloc::{AllocError, Global};

// Adds hardware types, with the place of the value that lists them.
fn push_types(
    keys: &mut Vec<(Oid, u128)>,
    types: Targets<'_>,
    place: usize,
) -> Result<(), AllocError>
    ensures { OnOk result
        (keys.new.items ≡ keys.old.items ++ map (λ id. (id, place)) types.entry) }
{
    let mut left = types;
    while let Some(id) = left.next() {
        keys.push((id, place as u128))?;
    }
    Ok(())
}

// Those that a value lists.
fn push_value(keys: &mut Vec<(Oid, u128)>, value: &[u8], place: usize) -> Result<(), AllocError>
    ensures { OnOk result (keys.new.items
        ≡ keys.old.items ++ map (λ id. (id, place)) (types_in value.now)) }
{
    match read_targets(value) {
        Some(types) => push_types(keys, types, place),
        None => Ok(()),
    }
}

// Those of all values, in order.
pub(crate) fn types_of(alloc: Global, values: &[&[u8]]) -> Result<Vec<(Oid, u128)>, AllocError>
    ensures same { IfOk result
        (λ keys. IsPermutation (types_from 0 (lent values.now)) keys.items) }
    ensures ordered { IfOk result (λ keys. AscendByNumber keys.items) }
{
    let mut keys = Vec::new(alloc);
    let mut place = 0;
    for value in values {
        push_value(&mut keys, value, place)?;
        place += 1;
    }
    Ok(in_order(keys))
}

// Whether the value at a place lists each of these.
fn lists_each(keys: &[(Oid, u128)], types: &Targets<'_>, place: u128) -> bool
    requires ordered { AscendByNumber keys.now }
    ensures { result ≡ list_all (λ id. is_key keys.now id place) types.now }
{
    types.iter().all(|id| is_key(keys, id.octets(), place))
}

// Whether that at one of the places does.
fn one_lists_each(keys: &[(Oid, u128)], places: &[(Oid, u128)], types: &Targets<'_>) -> bool
    requires ordered { AscendByNumber keys.now }
    ensures { result ≡ list_any
        (λ key. list_all (λ id. is_key keys.now id key.1) types.now) places.now }
{
    for key in places {
        if lists_each(keys, types, key.1) {
            return true;
        }
    }
    false
}

// The places of one of these hardware types, of that which the fewest values list.
fn fewest_places<'b>(keys: &'b [(Oid, u128)], types: &Targets<'_>) -> Option<&'b [(Oid, u128)]>
    requires ordered { AscendByNumber keys.now }
    ensures one { IfSome result (λ places. (id : List ℕ)
        × Contains types.now id × AreOf keys.now id places.now) }
    ensures none { IfNone result (types.now ≡ []) }
{
    let mut left = types.iter();
    let mut fewest = keys_of(keys, left.next()?.octets());
    while let Some(id) = left.next() {
        let places = keys_of(keys, id.octets());
        if places.len() < fewest.len() {
            fewest = places;
        }
    }
    Some(fewest)
}

// Whether one of the values is a list of hardware types.
fn has_list(values: &[&[u8]]) -> bool
    ensures { result ≡ list_any (λ one. is_some (targets_of one)) (lent values.now) }
{
    for value in values {
        if read_targets(value).is_some() {
            return true;
        }
    }
    false
}

// Whether one of the values lists all hardware types of this one.
pub(crate) fn are_listed(keys: &[(Oid, u128)], values: &[&[u8]], value: &[u8]) -> bool
    requires ordered { AscendByNumber keys.now }
    requires same { IsPermutation (types_from 0 (lent values.now)) keys.now }
    ensures { result ≡ are_listed (lent values.now) value.now }
{
    let Some(types) = read_targets(value) else {
        return false;
    };
    match fewest_places(keys, &types) {
        Some(places) => one_lists_each(keys, places, &types),
        None => has_list(values),
    }
}
