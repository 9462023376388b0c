// Identifiers with a number each, in order.
ghost use Rattle.std.specs.Prelude.{◌≡◌, ◌&&◌, ◌≤◌, true, false, length, Contains, IfSome, IfNone, IsPermutation, bytes_eq, nat_le};
ghost use Rattle.std.specs.List.{list_any};
ghost use Rattle.std.specs.List.Sorted.{IsPartitionPoint};
ghost use Rattle.std.specs.Cmp.Lexicographic.{slice_cmp};
ghost use Rattle.std.specs.Ordering.{is_le, is_lt, nat_cmp};
ghost use Rattle.constraint_meet.specs.Places.{Key, key_cmp};
ghost use Rattle.explain_text.specs.Keys.{AreOf, AscendByNumber, IsUpTo, is_key};

use der_core::Oid;
use std::cmp::Ordering;

fn compare(key: &(Oid, u128), id: &[u8], number: u128) -> Ordering
    ensures { result ≡ key_cmp key.now (id.now, number) }
{
    key.0.octets().cmp(id).then(key.1.cmp(&number))
}

// By their identifiers, and then by the numbers, ascending. Takes no memory.
pub(crate) fn in_order(mut keys: Vec<(Oid, u128)>) -> Vec<(Oid, u128)>
    ensures same { IsPermutation keys.items result.items }
    ensures ordered { AscendByNumber result.items }
{
    keys.sort_unstable_by(|this, that| compare(this, that.0.octets(), that.1));
    keys
}

// How many come up to this identifier with this number.
fn count_up_to(keys: &[(Oid, u128)], id: &[u8], number: u128) -> usize
    requires ordered { AscendByNumber keys.now }
    ensures bound { result ≤ length keys.now }
    ensures parted { IsPartitionPoint
        (λ key. is_le (key_cmp key (id.now, number)) ≡ true)
        (λ key. is_le (key_cmp key (id.now, number)) ≡ false) keys.now result }
{
    keys.partition_point(|key| compare(key, id, number).is_le())
}

// The last of these.
fn last_up_to<'b>(keys: &'b [(Oid, u128)], id: &[u8], number: u128) -> Option<&'b (Oid, u128)>
    requires ordered { AscendByNumber keys.now }
    ensures found { IfSome result (λ last. Contains keys.now last.now) }
    ensures up_to { IfSome result (λ last. IsUpTo last.now (id.now, number)) }
    ensures last { IfSome result (λ last. (key : Key) → Contains keys.now key
        → IsUpTo key (id.now, number) → IsUpTo key last.now) }
    ensures none { IfNone result ((key : Key) → Contains keys.now key
        → IsUpTo key (id.now, number) → ⊥) }
{
    let count = count_up_to(keys, id, number);
    if count == 0 {
        None
    } else {
        Some(&keys[count - 1])
    }
}

// Whether the identifier is there with this number.
pub(crate) fn is_key(keys: &[(Oid, u128)], id: &[u8], number: u128) -> bool
    requires ordered { AscendByNumber keys.now }
    ensures { result ≡ is_key keys.now id.now number }
{
    match last_up_to(keys, id, number) {
        Some(last) => last.0.octets() == id && last.1 == number,
        None => false,
    }
}

// Whether the identifier is there with this number or a lesser one.
pub(crate) fn is_up_to(keys: &[(Oid, u128)], id: &[u8], number: u128) -> bool
    requires ordered { AscendByNumber keys.now }
    ensures { result
        ≡ list_any (λ key. bytes_eq key.0 id.now && nat_le key.1 number) keys.now }
{
    match last_up_to(keys, id, number) {
        Some(last) => last.0.octets() == id,
        None => false,
    }
}

// How many come before those of an identifier.
fn first_of(keys: &[(Oid, u128)], id: &[u8]) -> usize
    requires ordered { AscendByNumber keys.now }
    ensures bound { result ≤ length keys.now }
    ensures parted { IsPartitionPoint
        (λ key. is_lt (slice_cmp nat_cmp key.0 id.now) ≡ true)
        (λ key. is_lt (slice_cmp nat_cmp key.0 id.now) ≡ false) keys.now result }
{
    keys.partition_point(|key| key.0.octets().cmp(id).is_lt())
}

// How many come before all those behind them.
fn end_of(keys: &[(Oid, u128)], id: &[u8]) -> usize
    requires ordered { AscendByNumber keys.now }
    ensures bound { result ≤ length keys.now }
    ensures parted { IsPartitionPoint
        (λ key. is_le (slice_cmp nat_cmp key.0 id.now) ≡ true)
        (λ key. is_le (slice_cmp nat_cmp key.0 id.now) ≡ false) keys.now result }
{
    keys.partition_point(|key| key.0.octets().cmp(id).is_le())
}

// Those of an identifier, which stand side by side.
pub(crate) fn keys_of<'b>(keys: &'b [(Oid, u128)], id: &[u8]) -> &'b [(Oid, u128)]
    requires ordered { AscendByNumber keys.now }
    ensures { AreOf keys.now id.now result.now }
{
    let first = first_of(keys, id);
    let end = end_of(keys, id);
    &keys[first..end]
}
