// A signing key beside the nodes of its tree.
ghost use Rattle.std.specs.Prelude.{◌≡◌, ◌+◌, ◌*◌, ◌<◌, ◌≤◌, true, ◌++◌, length, IfOk};
ghost use Rattle.hss_chain.specs.Keys.{IsHssKey};
ghost use Rattle.lms_verify.specs.Kinds.{height};
ghost use Rattle.lms_sign.specs.KeyTrees.{KeepsNodes, StandFrom};
ghost use Rattle.lms_sign.specs.Nodes.{path, tree_node};
ghost use Rattle.lms_sign.specs.PublicKeys.{hss_signature_size, leaf_count};
ghost use Rattle.lms_sign.specs.Roots.{public_key};
ghost use Rattle.lms_sign.specs.SignTexts.{sign_text};

use crate::key::SignKey;
use crate::public_key::with_root;
use crate::secrets::one_time_public;
use crate::signing::{beside, front_size, put_front, put_value};
use hss_chain::HssKey;
use key_state::Leaf;
use lms_verify::{inner_value, leaf_value};
use std::alloc::{AllocError, Global};
use std::marker::Model;

/// A signing key with room for the nodes of its tree, 32 octets each and 65,536 at most, so that each
/// node is computed once (RFC 8554, section 5.3). It is seen as its key. The memory is taken when it is
/// made, and the nodes are computed at the first call that needs them. It isn't copied, and nothing
/// prints it.
#[derive(Drop)]
pub struct KeyTree {
    key: SignKey,
    // node r stands at place r
    nodes: Vec<[u8; 32]>,
    is_computed: bool,
}

impl Model for KeyTree {
    ghost use Rattle.lms_sign.specs.declared.key.SignKey.{SignKey};
    ghost use Rattle.lms_sign.specs.KeyTrees.{KeepsNodes};

    ghost Value = { SignKey };

    ghost view = { λ t. t.key };

    ghost invariant = { λ t. KeepsNodes t.key t.is_computed t.nodes.items };
}

impl KeyTree {
    /// The key, with room for its nodes, none of which is computed. The one refusal is for want of
    /// memory.
    pub fn new(alloc: Global, key: SignKey) -> Result<KeyTree, AllocError>
        ensures key { IfOk result (λ tree. tree ≡ key) }
    {
        let count = 2 * key.kind.leaf_count() as usize;
        let nodes = vec![in alloc; [0u8; 32]; count]?;
        Ok(KeyTree {
            key,
            nodes,
            is_computed: false,
        })
    }

    /// The signing key.
    pub fn key(&self) -> &SignKey
        ensures key { result.now ≡ self.now }
    {
        &self.key
    }

    /// What `public` gives: the public key of one level (RFC 8554, sections 5.3 and 6.1). It takes no
    /// memory.
    pub fn public(&mut self) -> HssKey
        ensures value { result ≡ public_key self.old }
        ensures valid { IsHssKey result }
        ensures unchanged { self.new ≡ self.old }
    {
        compute_once(&self.key, &mut self.is_computed, &mut self.nodes);
        with_root(&self.key, self.nodes[1])
    }

    /// What `sign` does, with the path from the nodes that are kept: it signs the message `first`
    /// followed by `rest` with a leaf, which is used up by it (RFC 8554, sections 4.5, 5.4.1 and 6.2).
    /// It takes no memory.
    pub fn sign(&mut self, leaf: Leaf, first: &[u8], rest: &[u8], out: &mut [u8])
        requires leaf { leaf < leaf_count self.old }
        requires size { length out.old ≡ hss_signature_size self.old }
        ensures signature { out.new ≡ sign_text self.old leaf (first.now ++ rest.now) }
        ensures unchanged { self.new ≡ self.old }
    {
        compute_once(&self.key, &mut self.is_computed, &mut self.nodes);
        put_signature(&self.key, &self.nodes, leaf, first, rest, out);
    }
}

// Computes the nodes, where they weren't before.
fn compute_once(key: &SignKey, is_computed: &mut bool, nodes: &mut Vec<[u8; 32]>)
    requires kept { KeepsNodes key.now is_computed.old nodes.old.items }
    ensures kept { KeepsNodes key.now is_computed.new nodes.new.items }
    ensures computed { is_computed.new ≡ true }
{
    if !*is_computed {
        compute(key, nodes);
        *is_computed = true;
    }
}

// Computes each node over those below it, from the last leaf up to the root.
fn compute(key: &SignKey, nodes: &mut Vec<[u8; 32]>)
    requires size { length nodes.old.items ≡ 2 * leaf_count key.now }
    ensures size { length nodes.new.items ≡ 2 * leaf_count key.now }
    ensures nodes { StandFrom key.now 1 nodes.new.items }
{
    for r in (1..2 * key.kind.leaf_count()).rev() {
        let value = value_over(key, r, nodes);
        nodes[r as usize] = value;
    }
}

// The value of node `r`, over those of the nodes below it (RFC 8554, section 5.3).
fn value_over(key: &SignKey, r: u32, nodes: &[[u8; 32]]) -> [u8; 32]
    requires first { 1 ≤ r }
    requires last { r < 2 * leaf_count key.now }
    requires size { length nodes.now ≡ 2 * leaf_count key.now }
    requires below { StandFrom key.now (r + 1) nodes.now }
    ensures { result ≡ tree_node key.now r }
{
    let leaves = key.kind.leaf_count();
    if r >= leaves {
        return leaf_value(&key.id, r, &one_time_public(key, r - leaves));
    }
    let left = 2 * r as usize;
    inner_value(&key.id, r, &nodes[left], &nodes[left + 1])
}

// Signs the message with the leaf, by the nodes.
fn put_signature(
    key: &SignKey,
    nodes: &[[u8; 32]],
    leaf: Leaf,
    first: &[u8],
    rest: &[u8],
    out: &mut [u8],
)
    requires nodes { StandFrom key.now 1 nodes.now }
    requires count { length nodes.now ≡ 2 * leaf_count key.now }
    requires leaf { leaf < leaf_count key.now }
    requires size { length out.old ≡ hss_signature_size key.now }
    ensures { out.new ≡ sign_text key.now leaf (first.now ++ rest.now) }
{
    let q = leaf.number();
    let (front, path) = out.split_at_mut(front_size(key));
    put_front(key, q, first, rest, front);
    put_kept_path(key, nodes, q, path);
}

// Writes the path's values from the nodes (RFC 8554, section 5.4).
fn put_kept_path(key: &SignKey, nodes: &[[u8; 32]], q: u32, out: &mut [u8])
    requires nodes { StandFrom key.now 1 nodes.now }
    requires count { length nodes.now ≡ 2 * leaf_count key.now }
    requires leaf { q < leaf_count key.now }
    requires size { length out.old ≡ 32 * height key.now.kind }
    ensures { out.new ≡ path key.now q }
{
    let leaf = key.kind.leaf_count() + q;
    for i in 0..key.kind.height() {
        put_value(out, i as usize, &nodes[beside(leaf >> i) as usize]);
    }
}
