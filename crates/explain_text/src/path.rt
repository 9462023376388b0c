// The line of a path.
ghost use Rattle.std.specs.Prelude.{◌≡◌, ◌++◌, string_bytes, OnOk, OnErr, IfOk};
ghost use Rattle.explain_text.specs.Lines.{path_line};

use std::alloc::{AllocError, Global};
use std::fmt::Write;

fn line_of(alloc: Global, certificates: usize, anchor: usize) -> Result<String, AllocError>
    ensures line { IfOk result (λ line. string_bytes line ≡ path_line certificates anchor) }
{
    let mut line = String::new(alloc);
    writeln!(line, "path {certificates} anchor {anchor}")?;
    Ok(line)
}

/// Appends the line of a path: how many certificates it has, and the place of its anchor among the
/// anchors, from 0. For want of memory the list stays as it was.
pub fn put_path(
    alloc: Global,
    out: &mut Vec<u8>,
    certificates: usize,
    anchor: usize,
) -> Result<(), AllocError>
    ensures ok { OnOk result (out.new.items ≡ out.old.items ++ path_line certificates anchor) }
    ensures err { OnErr result (out.new.items ≡ out.old.items) }
{
    let line = line_of(alloc, certificates, anchor)?;
    out.extend_from_slice(line.as_bytes())
}
