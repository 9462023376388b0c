// The line of a verdict.
ghost use Rattle.std.specs.Prelude.{◌≡◌, ◌++◌, OnOk, OnErr, IfOk};
ghost use Rattle.explain_text.specs.Lines.{verdict_line};

use der_core::Condition;
use report_text::put_refused;
use std::alloc::{AllocError, Global};

fn line_of(alloc: Global, refused: Option<Condition>) -> Result<Vec<u8>, AllocError>
    ensures line { IfOk result (λ line. line.items ≡ verdict_line refused) }
{
    let Some(condition) = refused else {
        return b"verdict accepted\n".to_vec(alloc);
    };
    let mut line = b"verdict ".to_vec(alloc)?;
    put_refused(alloc, &mut line, condition)?;
    Ok(line)
}

/// Appends the line of a verdict: accepted, or refused by the condition that is named, with its
/// number and that of its code (RFC 4108, section 4.1.3). For want of memory the list stays as it
/// was.
pub fn put_verdict(
    alloc: Global,
    out: &mut Vec<u8>,
    refused: Option<Condition>,
) -> Result<(), AllocError>
    ensures ok { OnOk result (out.new.items ≡ out.old.items ++ verdict_line refused) }
    ensures err { OnErr result (out.new.items ≡ out.old.items) }
{
    let line = line_of(alloc, refused)?;
    out.extend_from_slice(&line)
}
