ghost use Rattle.std.specs.Prelude.{◌≡◌, ◌++◌, ◌<◌, ◌^◌, ℕ, List, length, map, OnOk, OnErr, IfOk};
ghost use Rattle.std.specs.List.{concat, flat_map};
ghost use Rattle.der_write.specs.Sets.{IsSetContents, IsSetOf, Ascends};

use crate::element::put_tlv;
use der_core::tags;
use std::alloc::{AllocError, Global};

// The parts, in ascending order of their octets.
fn ordered<'a>(alloc: Global, parts: &'a [Vec<u8>]) -> Result<Vec<&'a [u8]>, AllocError>
    ensures { IfOk result (λ order.
        Ascends (map (λ part. part.items) parts.now) (map (λ part. part.now) order.items)) }
{
    let mut order = Vec::new(alloc);
    for part in parts {
        order.push(part.as_slice())?;
    }
    order.sort()?;
    Ok(order)
}

// The parts one after the other.
fn together(alloc: Global, parts: &[&[u8]]) -> Result<Vec<u8>, AllocError>
    ensures { IfOk result (λ all. all.items ≡ flat_map (λ part. part.now) parts.now) }
{
    let mut all = Vec::new(alloc);
    for part in parts {
        all.extend_from_slice(part)?;
    }
    Ok(all)
}

/// The contents of a SET OF the parts, each of them one element, in whatever order they come: the
/// parts in ascending order of their octets (X.690, section 11.6). The tag is the caller's to put
/// before them, as where a SET is tagged implicitly.
pub fn sorted_contents(alloc: Global, parts: &[Vec<u8>]) -> Result<Vec<u8>, AllocError>
    ensures ok { IfOk result (λ contents.
        IsSetContents (map (λ part. part.items) parts.now) contents.items) }
{
    let order = ordered(alloc, parts)?;
    together(alloc, &order)
}

/// Appends a SET OF the parts, each of them one element, in ascending order of their octets, in
/// whatever order they come (X.690, section 11.6).
pub fn put_set_sorted(alloc: Global, out: &mut Vec<u8>, parts: &[Vec<u8>]) -> Result<(), AllocError>
    requires fits { length (concat (map (λ part. part.items) parts.now)) < 2 ^ 32 }
    ensures ok { OnOk result ((set : List ℕ) × IsSetOf (map (λ part. part.items) parts.now) set
        × (out.new.items ≡ out.old.items ++ set)) }
    ensures err { OnErr result (out.new.items ≡ out.old.items) }
{
    let contents = sorted_contents(alloc, parts)?;
    put_tlv(alloc, out, tags::SET, &contents)
}
