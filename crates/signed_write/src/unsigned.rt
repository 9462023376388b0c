// What is to be signed, and the signature.
ghost use Rattle.std.specs.Prelude.{◌≡◌, ◌<◌, ◌≤◌, ◌^◌, ◌-◌, ◌++◌, ◌∷◌, length, take, drop, IfOk};
ghost use Rattle.lms_sign.specs.PublicKeys.{leaf_count, hss_signature_size};
ghost use Rattle.lms_sign.specs.SignTexts.{sign_text};
ghost use Rattle.signed_write.specs.Unsigned.{IsWithin};

use key_state::Leaf;
use lms_sign::{SignKey, sign};
use std::alloc::{AllocError, Global};
use std::marker::Model;

// Where the signature begins, behind which nothing stands, and what is signed: a tag, and then the
// octets from one place to another.
#[derive(Clone, Copy, Debug)]
pub(crate) struct Places {
    pub signature: usize,
    pub tag: u8,
    pub from: usize,
    pub to: usize,
}

/// A text before it is signed, with room for its signature, which comes last, as in a certificate (RFC
/// 5280, section 4.1) and in signed data of one signer (RFC 5652, section 5.3).
#[derive(Drop)]
pub struct Unsigned {
    pub(crate) octets: Vec<u8>,
    pub(crate) places: Places,
}

impl Model for Unsigned {
    ghost use Rattle.std.specs.Prelude.{◌-◌, ◌∷◌, length, take, drop};
    ghost use Rattle.signed_write.specs.Unsigned.{Parts, IsWithin};

    ghost Value = { Parts };

    ghost view = { λ u. record {
      before = take u.places.signature u.octets.items;
      signed = u.places.tag ∷ take (u.places.to - u.places.from) (drop u.places.from u.octets.items);
      size = length u.octets.items - u.places.signature;
    } };

    ghost invariant = { λ u. IsWithin u.places u.octets.items };
}

impl Unsigned {
    /// These octets with room for a signature of `size` octets behind them, in which this tag and the
    /// octets of the places `from` to `to`, without the latter, are signed. The one refusal is for want
    /// of memory.
    pub fn new(
        alloc: Global,
        octets: Vec<u8>,
        tag: u8,
        from: usize,
        to: usize,
        size: usize,
    ) -> Result<Unsigned, AllocError>
        requires ordered { from ≤ to }
        requires within { to ≤ length octets.items }
        requires few { size ≤ 2 ^ 20 }
        ensures parts { IfOk result (λ unsigned. unsigned ≡ record {
          before = octets.items;
          signed = tag ∷ take (to - from) (drop from octets.items);
          size = size;
        }) }
    {
        let places = Places {
            signature: octets.len(),
            tag,
            from,
            to,
        };
        let mut octets = octets;
        octets.extend_from_slice(&vec![in alloc; 0; size]?)?;
        Ok(Unsigned { octets, places })
    }
}

// Puts the signature into its room.
fn put_signature(octets: &mut [u8], places: Places, key: &SignKey, leaf: Leaf)
    requires leaf { leaf < leaf_count key.now }
    requires within { IsWithin places octets.old }
    requires size { length octets.old - places.signature ≡ hss_signature_size key.now }
    ensures octets { octets.new ≡ take places.signature octets.old ++ sign_text key.now leaf
        (places.tag ∷ take (places.to - places.from) (drop places.from octets.old)) }
{
    let (front, signature) = octets.split_at_mut(places.signature);
    sign(
        key,
        leaf,
        &[places.tag],
        &front[places.from..places.to],
        signature,
    );
}

/// The octets with the signature of the key with this leaf. It takes no memory.
pub fn finish(unsigned: Unsigned, key: &SignKey, leaf: Leaf) -> Vec<u8>
    requires leaf { leaf < leaf_count key.now }
    requires size { unsigned.size ≡ hss_signature_size key.now }
    ensures octets { result.items
        ≡ unsigned.before ++ sign_text key.now leaf unsigned.signed }
{
    let mut octets = unsigned.octets;
    put_signature(&mut octets, unsigned.places, key, leaf);
    octets
}
