// Octets that are put together from parts, of which some come later.
ghost use Rattle.std.specs.Prelude.{◌≡◌, ◌++◌, ◌+◌, ◌<◌, ◌≤◌, ◌%◌, ◌^◌, List, ℕ, IfOk, length};
ghost use Rattle.std.specs.List.{flat_map};
ghost use Rattle.der_core.specs.Element.{enc};

use der_write::{head_size, put_head};
use std::alloc::{AllocError, Global};

/// The front of an element of this tag: its head, of 6 octets at most, and the first octets of its
/// contents, behind which so many come later (X.690, section 8.1). The one refusal is for want of
/// memory.
pub fn begin_element(
    alloc: Global,
    tag: u8,
    contents: &[u8],
    later: usize,
) -> Result<Vec<u8>, AllocError>
    requires tag { tag % 32 < 31 }
    requires fits { length contents.now + later < 2 ^ 32 }
    ensures text { IfOk result (λ front. (rest : List ℕ) → length rest ≡ later
        → front.items ++ rest ≡ enc tag (contents.now ++ rest)) }
    ensures most { IfOk result (λ front. length front.items ≤ length contents.now + 6) }
{
    let size = (contents.len() + later) as u32;
    let mut front = Vec::new(alloc);
    front.reserve(head_size(size) + contents.len())?;
    put_head(alloc, &mut front, tag, size)?;
    front.extend_from_slice(contents)?;
    Ok(front)
}

/// The parts, one after the other. The one refusal is for want of memory.
pub fn together(alloc: Global, parts: &[Vec<u8>]) -> Result<Vec<u8>, AllocError>
    ensures ok { IfOk result (λ all. all.items
        ≡ flat_map (λ part. part.items) parts.now) }
{
    let mut all = Vec::new(alloc);
    for part in parts {
        all.extend_from_slice(part)?;
    }
    Ok(all)
}
