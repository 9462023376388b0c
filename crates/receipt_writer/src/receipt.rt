// The receipt.
ghost use Rattle.std.specs.Prelude.{◌≡◌, ◌++◌, ◌+◌, ◌≤◌, OnOk, OnErr, IfOk, length};
ghost use Rattle.receipt_writer.specs.Answers.{receipt_contents, receipt_text};

use crate::hardware::put_hardware;
use der_core::{Octets64, tags};
use der_write::put_tlv;
use module_record::Module;
use name_write::put_name;
use package_attrs::PackageName;
use std::alloc::{AllocError, Global};

// What the receipt's SEQUENCE holds.
fn contents(
    alloc: Global,
    holder: &Module,
    name: &PackageName,
    anchor_key: &Octets64,
) -> Result<Vec<u8>, AllocError>
    ensures ok { IfOk result (λ contents. contents.items
        ≡ receipt_contents holder.now name.now anchor_key.now) }
    ensures most { IfOk result (λ contents. length contents.items ≤ 310) }
{
    let mut contents = Vec::new(alloc);
    put_hardware(alloc, &mut contents, holder)?;
    put_name(alloc, &mut contents, name)?;
    put_tlv(
        alloc,
        &mut contents,
        tags::OCTET_STRING,
        anchor_key.octets(),
    )?;
    Ok(contents)
}

/// Appends the receipt of a module for a package that it has loaded, which has this name, and whose
/// signer's path ended at the anchor with this key identifier (RFC 4108, section 3.1.3). It has at
/// most 320 octets.
pub fn put_receipt(
    alloc: Global,
    out: &mut Vec<u8>,
    holder: &Module,
    name: &PackageName,
    anchor_key: &Octets64,
) -> Result<(), AllocError>
    ensures ok { OnOk result
        (out.new.items ≡ out.old.items ++ receipt_text holder.now name.now anchor_key.now) }
    ensures most { OnOk result (length out.new.items ≤ length out.old.items + 320) }
    ensures err { OnErr result (out.new.items ≡ out.old.items) }
{
    let contents = contents(alloc, holder, name, anchor_key)?;
    put_tlv(alloc, out, tags::SEQUENCE, &contents)
}
