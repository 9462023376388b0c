// The signature, by a key that keeps the nodes of its tree.
ghost use Rattle.std.specs.Prelude.{◌≡◌, ◌<◌, ◌-◌, ◌++◌, ◌∷◌, length, take, drop};
ghost use Rattle.lms_sign.specs.PublicKeys.{leaf_count, hss_signature_size};
ghost use Rattle.lms_sign.specs.SignTexts.{sign_text};
ghost use Rattle.signed_write.specs.Unsigned.{IsWithin};

use crate::unsigned::{Places, Unsigned};
use key_state::Leaf;
use lms_sign::KeyTree;

// Puts the signature into its room.
fn put_signature(octets: &mut [u8], places: Places, tree: &mut KeyTree, leaf: Leaf)
    requires leaf { leaf < leaf_count tree.old }
    requires within { IsWithin places octets.old }
    requires size { length octets.old - places.signature ≡ hss_signature_size tree.old }
    ensures octets { octets.new ≡ take places.signature octets.old ++ sign_text tree.old leaf
        (places.tag ∷ take (places.to - places.from) (drop places.from octets.old)) }
    ensures unchanged { tree.new ≡ tree.old }
{
    let (front, signature) = octets.split_at_mut(places.signature);
    tree.sign(
        leaf,
        &[places.tag],
        &front[places.from..places.to],
        signature,
    );
}

/// What `finish` gives, by a key that keeps the nodes of its tree: the octets with the signature of
/// the key with this leaf. It takes no memory.
pub fn finish_by_tree(unsigned: Unsigned, tree: &mut KeyTree, leaf: Leaf) -> Vec<u8>
    requires leaf { leaf < leaf_count tree.old }
    requires size { unsigned.size ≡ hss_signature_size tree.old }
    ensures octets { result.items
        ≡ unsigned.before ++ sign_text tree.old leaf unsigned.signed }
    ensures unchanged { tree.new ≡ tree.old }
{
    let mut octets = unsigned.octets;
    put_signature(&mut octets, unsigned.places, tree, leaf);
    octets
}
