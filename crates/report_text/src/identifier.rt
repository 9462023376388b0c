// The line of an identifier.
ghost use Rattle.std.specs.Prelude.{◌≡◌, ◌++◌, string_bytes, OnOk, OnErr, IfOk};
ghost use Rattle.package_attrs.specs.Identifier.{view};
ghost use Rattle.report_text.specs.Names.{named, stale_part, identifier_line};

use crate::name::{push_name, push_stale};
use package_attrs::{Identifier, Stale};
use std::alloc::{AllocError, Global};

// A space, the word and the value, where there is a stale value.
fn push_stale_part(
    alloc: Global,
    line: &mut String,
    stale: &Option<Stale>,
) -> Result<(), AllocError>
    ensures ok { OnOk result
        (string_bytes line.new ≡ string_bytes line.old ++ stale_part stale.now) }
{
    match stale {
        None => Ok(()),
        Some(stale) => {
            line.push_str(" stale ")?;
            push_stale(alloc, line, stale)
        }
    }
}

// The line, as a text of its own.
fn line_of(alloc: Global, id: &Identifier) -> Result<String, AllocError>
    ensures line { IfOk result (λ line. string_bytes line ≡ identifier_line (view id.now)) }
{
    let mut line = String::new(alloc);
    push_name(alloc, &mut line, &id.name)?;
    push_stale_part(alloc, &mut line, &id.stale)?;
    line.push('\n')?;
    Ok(line)
}

/// Appends the line of an identifier: its name and, where there is one, its stale value.
/// For want of memory the list stays as it was.
pub fn put_identifier_line(
    alloc: Global,
    out: &mut Vec<u8>,
    id: &Identifier,
) -> Result<(), AllocError>
    ensures ok { OnOk result (out.new.items ≡ out.old.items ++ identifier_line (view id.now)) }
    ensures err { OnErr result (out.new.items ≡ out.old.items) }
{
    let line = line_of(alloc, id)?;
    out.extend_from_slice(line.as_bytes())
}
