ghost use Rattle.std.specs.Prelude.{◌≡◌, ◌^◌, ◌<◌, ◌↔◌, IsTrue, IfSome, IsSomeAnd};
ghost use Rattle.lms_verify.specs.Kinds.{height, lms_number as lms_number_of, ots_number as ots_number_of};
ghost use Rattle.lms_verify.specs.Parts.{signature_of};
ghost use Rattle.lms_verify.specs.Signatures.{LmsSignature, Spells, signature_size};

use crate::kind::{LmsKind, OtsKind};
use crate::octets::{NUMBER_LEN, VALUE_LEN, number_in};

// A signature, cut into its parts.
#[derive(Drop)]
pub(crate) struct Parts<'a> {
    pub(crate) q: u32,
    pub(crate) randomizer: &'a [u8],
    pub(crate) values: &'a [u8],
    pub(crate) path: &'a [u8],
}

/// How many octets a signature under these kinds has (RFC 8554, section 5.4).
pub fn signature_size(kind: LmsKind, ots: OtsKind) -> usize
    ensures value { result ≡ signature_size kind ots }
{
    12 + VALUE_LEN * (1 + ots.chain_count() + kind.height() as usize)
}

// Whether a signature's numbers are those of these kinds, and the leaf's is one of their tree.
fn numbers_fit(kind: LmsKind, ots: OtsKind, q: u32, ots_number: u32, lms_number: u32) -> bool
    ensures { IsTrue result ↔ ((ots_number ≡ ots_number_of ots) × (lms_number ≡ lms_number_of kind)
        × (q < 2 ^ height kind)) }
{
    ots_number == ots.number() && lms_number == kind.number() && q < kind.leaf_count()
}

// The parts of the signature whose text the octets are, under these kinds.
pub(crate) fn read_parts(kind: LmsKind, ots: OtsKind, octets: &[u8]) -> Option<Parts<'_>>
    ensures read { IfSome result (λ parts. Spells kind ots (signature_of parts) octets.now) }
    ensures found { (s : LmsSignature) → Spells kind ots s octets.now
        → IsSomeAnd result (λ parts. signature_of parts ≡ s) }
{
    if octets.len() != signature_size(kind, ots) {
        return None;
    }
    let (leaf, rest) = octets.split_at(NUMBER_LEN);
    let (ots_number, rest) = rest.split_at(NUMBER_LEN);
    let (randomizer, rest) = rest.split_at(VALUE_LEN);
    let (values, rest) = rest.split_at(VALUE_LEN * ots.chain_count());
    let (lms_number, path) = rest.split_at(NUMBER_LEN);
    let q = number_in(leaf);
    if numbers_fit(kind, ots, q, number_in(ots_number), number_in(lms_number)) {
        return Some(Parts {
            q,
            randomizer,
            values,
            path,
        });
    }
    None
}
