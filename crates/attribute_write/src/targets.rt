// Writing hardware types.
ghost use Rattle.std.specs.Prelude.{◌≡◌, ◌++◌, ◌+◌, ◌*◌, ◌≤◌, OnOk, OnErr, IfOk, length};
ghost use Rattle.package_attrs.specs.Targets.{targets_contents, targets_text};

use der_core::{Oid, tags};
use der_write::{put_oid, put_tlv};
use std::alloc::{AllocError, Global};

/// Appends the text of the hardware types that a package is for (RFC 4108, section 2.2.4). They are
/// 64 at most.
pub fn put_targets(alloc: Global, out: &mut Vec<u8>, hw_types: &[Oid]) -> Result<(), AllocError>
    requires few { length hw_types.now ≤ 64 }
    ensures ok { OnOk result (out.new.items ≡ out.old.items ++ targets_text hw_types.now) }
    ensures most { OnOk result (length out.new.items ≤ length out.old.items + 4486) }
    ensures err { OnErr result (out.new.items ≡ out.old.items) }
{
    let contents = contents(alloc, hw_types)?;
    put_tlv(alloc, out, tags::SEQUENCE, &contents)
}

// The hardware types one after the other.
fn contents(alloc: Global, hw_types: &[Oid]) -> Result<Vec<u8>, AllocError>
    ensures ok { IfOk result (λ all. all.items ≡ targets_contents hw_types.now) }
    ensures most { IfOk result (λ all. length all.items ≤ 70 * length hw_types.now) }
{
    let mut all = Vec::new(alloc);
    for hw_type in hw_types {
        put_oid(alloc, &mut all, hw_type)?;
    }
    Ok(all)
}
