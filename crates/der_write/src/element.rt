ghost use Rattle.std.specs.Prelude.{◌≡◌, ◌++◌, ◌+◌, ◌<◌, ◌≤◌, ◌%◌, ◌^◌, length, OnOk, OnErr};
ghost use Rattle.der_core.specs.Element.{enc};

use crate::head::{head_size, put_head};
use std::alloc::{AllocError, Global};

/// Appends an element: the tag, the length in the fewest octets, and the contents (X.690, section 8.1).
/// A tag whose low five bits are all ones has no such text. The head has 6 octets at most.
#[tactic(auto, unfolding(der_core::specs::Element::enc))]
pub fn put_tlv(alloc: Global, out: &mut Vec<u8>, tag: u8, contents: &[u8]) -> Result<(), AllocError>
    requires tag { tag % 32 < 31 }
    requires fits { length contents.now < 2 ^ 32 }
    ensures ok { OnOk result (out.new.items ≡ out.old.items ++ enc tag contents.now) }
    ensures most { OnOk result (length out.new.items
        ≤ length out.old.items + length contents.now + 6) }
    ensures err { OnErr result (out.new.items ≡ out.old.items) }
{
    let size = contents.len() as u32;
    out.reserve(head_size(size) + contents.len())?;
    put_head(alloc, out, tag, size)?;
    out.extend_from_slice(contents)
}
