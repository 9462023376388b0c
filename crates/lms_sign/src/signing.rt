ghost use Rattle.std.specs.Prelude.{◌≡◌, ℕ, ◌+◌, ◌*◌, ◌^◌, ◌<◌, ◌≤◌, List, ◌++◌, length, take};
ghost use Rattle.std.specs.List.{flat_map};
ghost use Rattle.lms_verify.specs.Digits.{below};
ghost use Rattle.lms_verify.specs.Kinds.{chain_count, height};
ghost use Rattle.lms_sign.specs.Nodes.{beside, path};
ghost use Rattle.lms_sign.specs.PublicKeys.{hss_signature_size, leaf_count};
ghost use Rattle.lms_sign.specs.SignTexts.{sign_text, signature_values};

use crate::key::SignKey;
use crate::secrets::{randomizer, secret};
use crate::tree::tree_node;
use key_state::Leaf;
use lms_verify::{NUMBER_LEN, VALUE_LEN, chain, checked_value, digit, message_value};

/// Signs the message `first` followed by `rest` with a leaf, which is used up by it (RFC 8554,
/// sections 4.5, 5.4.1 and 6.2).
pub fn sign(key: &SignKey, leaf: Leaf, first: &[u8], rest: &[u8], out: &mut [u8])
    requires leaf { leaf < leaf_count key.now }
    requires size { length out.old ≡ hss_signature_size key.now }
    ensures signature { out.new ≡ sign_text key.now leaf (first.now ++ rest.now) }
{
    let q = leaf.number();
    let (front, path) = out.split_at_mut(front_size(key));
    put_front(key, q, first, rest, front);
    put_path(key, q, path);
}

// How many octets stand before the path.
pub(crate) fn front_size(key: &SignKey) -> usize
    ensures { result ≡ 48 + 32 * chain_count key.now.ots }
{
    4 * NUMBER_LEN + VALUE_LEN * (1 + key.ots.chain_count())
}

// Writes the signature of a message but for its path.
pub(crate) fn put_front(key: &SignKey, q: u32, first: &[u8], rest: &[u8], out: &mut [u8])
    requires { length out.old ≡ 48 + 32 * chain_count key.now.ots }
    ensures { out.new ++ path key.now q ≡ sign_text key.now q (first.now ++ rest.now) }
{
    let randomizer = randomizer(key, q);
    let value = message_value(&key.id, q, &randomizer, first, rest);
    let (lower_levels, lms) = out.split_at_mut(NUMBER_LEN);
    let (leaf_number, lms) = lms.split_at_mut(NUMBER_LEN);
    let (ots_number, lms) = lms.split_at_mut(NUMBER_LEN);
    let (random, lms) = lms.split_at_mut(VALUE_LEN);
    let (values, lms_number) = lms.split_at_mut(VALUE_LEN * key.ots.chain_count());
    lower_levels.copy_from_slice(&0u32.to_be_bytes());
    leaf_number.copy_from_slice(&q.to_be_bytes());
    ots_number.copy_from_slice(&key.ots.number().to_be_bytes());
    random.copy_from_slice(&randomizer);
    put_values(key, q, &value, values);
    lms_number.copy_from_slice(&key.kind.number().to_be_bytes());
}

// Writes the values y[0] to y[p - 1] (RFC 8554, section 4.5).
fn put_values(key: &SignKey, q: u32, value: &[u8; 32], out: &mut [u8])
    requires { length out.old ≡ 32 * chain_count key.now.ots }
    ensures { out.new ≡ signature_values key.now q value.now }
{
    let octets = checked_value(key.ots, value);
    for i in 0..key.ots.chain_count() {
        let steps = digit(key.ots, &octets, i);
        let start = secret(key, q, i as u16);
        put_value(out, i, &chain(&key.id, q, i as u16, 0, steps, &start));
    }
}

// Writes the path's values, below which is all of the tree but the leaf and the nodes on its way to
// the root (RFC 8554, section 5.4).
fn put_path(key: &SignKey, q: u32, out: &mut [u8])
    requires leaf { q < leaf_count key.now }
    requires size { length out.old ≡ 32 * height key.now.kind }
    ensures { out.new ≡ path key.now q }
{
    let leaf = key.kind.leaf_count() + q;
    for i in 0..key.kind.height() {
        put_value(out, i as usize, &tree_node(key, beside(leaf >> i)));
    }
}

// The number of the node beside node `r`, from 1 on.
pub(crate) fn beside(r: u32) -> u32
    requires first { 1 ≤ r }
    requires small { r < 2 ^ 31 }
    ensures { result ≡ beside r }
{
    if r % 2 == 0 { r + 1 } else { r - 1 }
}

// Writes value `i`, behind those before it.
pub(crate) fn put_value(out: &mut [u8], i: usize, value: &[u8; 32])
    requires { 32 * i + 32 ≤ length out.old }
    ensures { (values : ℕ → List ℕ) → take (32 * i) out.old ≡ flat_map values (below i)
        → value.now ≡ values i
        → take (32 * (i + 1)) out.new ≡ flat_map values (below (i + 1)) }
{
    let at = VALUE_LEN * i;
    out[at..at + VALUE_LEN].copy_from_slice(value);
}
