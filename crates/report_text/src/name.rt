// Names of packages, and stale values.
ghost use Rattle.std.specs.Prelude.{◌≡◌, ◌++◌, string_bytes, OnOk, OnErr};
ghost use Rattle.hex.specs.Hex.{encode_lower};
ghost use Rattle.report_text.specs.Names.{named, stale_value};

use crate::oid::push_oid;
use package_attrs::{PackageName, Stale};
use std::alloc::{AllocError, Global};
use std::fmt::Write;

/// Appends octets as lower case hex. For want of memory the text stays as it was.
pub fn push_hex(alloc: Global, line: &mut String, octets: &[u8]) -> Result<(), AllocError>
    ensures ok { OnOk result
        (string_bytes line.new ≡ string_bytes line.old ++ encode_lower octets.now) }
    ensures err { OnErr result (string_bytes line.new ≡ string_bytes line.old) }
{
    let text = hex::encode(alloc, octets)?;
    line.push_str(&text)
}

// The kind of a name, and the name.
pub(crate) fn push_name(
    alloc: Global,
    line: &mut String,
    name: &PackageName,
) -> Result<(), AllocError>
    ensures ok { OnOk result
        (string_bytes line.new ≡ string_bytes line.old ++ named name.now) }
{
    match name {
        PackageName::Preferred { id, version } => {
            line.push_str("preferred ")?;
            push_oid(alloc, line, id)?;
            let version = *version;
            write!(line, " {version}")
        }
        PackageName::Legacy(octets) => {
            line.push_str("legacy ")?;
            push_hex(alloc, line, octets.octets())
        }
    }
}

// A stale value.
pub(crate) fn push_stale(alloc: Global, line: &mut String, stale: &Stale) -> Result<(), AllocError>
    ensures ok { OnOk result
        (string_bytes line.new ≡ string_bytes line.old ++ stale_value stale.now) }
{
    match stale {
        Stale::Upto(number) => {
            let number = *number;
            write!(line, "{number}")
        }
        Stale::Legacy(octets) => push_hex(alloc, line, octets.octets()),
    }
}
