// Whose answer it is.
ghost use Rattle.std.specs.Prelude.{◌≡◌, ◌++◌, ◌+◌, ◌≤◌, OnOk, length};
ghost use Rattle.receipt_writer.specs.Answers.{hardware_text};

use der_core::tags;
use der_write::{put_oid, put_tlv};
use module_record::Module;
use std::alloc::{AllocError, Global};

// Appends the module's hardware type and serial number.
pub(crate) fn put_hardware(
    alloc: Global,
    out: &mut Vec<u8>,
    holder: &Module,
) -> Result<(), AllocError>
    ensures ok { OnOk result (out.new.items ≡ out.old.items ++ hardware_text holder.now) }
    ensures most { OnOk result (length out.new.items ≤ length out.old.items + 140) }
{
    put_oid(alloc, out, &holder.hw_type)?;
    put_tlv(alloc, out, tags::OCTET_STRING, holder.serial.octets())
}
