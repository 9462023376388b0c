ghost use Rattle.std.specs.Prelude.{◌≡◌, ◌++◌, ◌+◌, ◌<◌, ◌≤◌, ◌%◌, ◌^◌, length, drop, OnOk, OnErr, IsOk};
ghost use Rattle.std.specs.Vec.{vec_len, vec_capacity};
ghost use Rattle.der_core.specs.Element.{length_octets};
ghost use Rattle.der_core.specs.Head.{head_octets};

use crate::digits::{ROOM, write_length};
use std::alloc::{AllocError, Global};

/// How many octets the head of an element has whose contents are so many: 2 to 6, for each tag.
pub fn head_size(size: u32) -> usize
    ensures size { result ≡ 1 + length (length_octets size) }
    ensures most { result ≤ 6 }
{
    let mut buffer = [0; ROOM];
    1 + ROOM - write_length(&mut buffer, size)
}

/// Appends the head of an element: the tag, and in the fewest octets the number of octets that its
/// contents have (X.690, sections 8.1.2, 8.1.3 and 10.1). The contents are the caller's to append,
/// as they may be too many to be put together first. Where `head_size` octets are reserved it
/// doesn't fail.
pub fn put_head(_alloc: Global, out: &mut Vec<u8>, tag: u8, size: u32) -> Result<(), AllocError>
    requires tag { tag % 32 < 31 }
    ensures ok { OnOk result (out.new.items ≡ out.old.items ++ head_octets tag size) }
    ensures err { OnErr result (out.new.items ≡ out.old.items) }
    ensures reserved { vec_len out.old + length (head_octets tag size) ≤ vec_capacity out.old
        → IsOk result }
    ensures capacity { vec_capacity out.old ≤ vec_capacity out.new }
{
    let mut buffer = [0; ROOM];
    let start = write_length(&mut buffer, size) - 1;
    buffer[start] = tag;
    out.extend_from_slice(&buffer[start..])
}
