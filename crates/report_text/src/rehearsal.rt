// The lines of a rehearsal, before those of the state that it ends in.
ghost use Rattle.std.specs.Prelude.{◌≡◌, ◌++◌, ◌<◌, ◌^◌, string_bytes, OnOk, OnErr, IfOk};
ghost use Rattle.der_core.specs.Time.{last_digits};
ghost use Rattle.report_text.specs.Lines.{accepted_line, refused_line, rehearsal_head};

use crate::name::push_name;
use der_core::{Condition, Moment};
use package_attrs::PackageName;
use std::alloc::{AllocError, Global};
use std::fmt::Write;

// What a digit counts, for each of the fourteen of a moment.
const PLACES: [u64; 14] = [
    10_000_000_000_000,
    1_000_000_000_000,
    100_000_000_000,
    10_000_000_000,
    1_000_000_000,
    100_000_000,
    10_000_000,
    1_000_000,
    100_000,
    10_000,
    1_000,
    100,
    10,
    1,
];

// The fourteen digits of a moment.
fn push_moment(line: &mut String, at: Moment) -> Result<(), AllocError>
    ensures ok { OnOk result
        (string_bytes line.new ≡ string_bytes line.old ++ last_digits 14 at) }
{
    let digits = at.digits();
    for place in PLACES {
        let digit = digits / place % 10;
        write!(line, "{digit}")?;
    }
    Ok(())
}

fn head_of(alloc: Global, at: Moment) -> Result<String, AllocError>
    ensures line { IfOk result (λ line. string_bytes line ≡ rehearsal_head at) }
{
    let mut line = String::new(alloc);
    line.push_str("rehearsal at ")?;
    push_moment(&mut line, at)?;
    line.push('\n')?;
    Ok(line)
}

/// Appends the first line of a rehearsal, which tells its moment. For want of memory the list
/// stays as it was.
pub fn put_rehearsal_head(alloc: Global, out: &mut Vec<u8>, at: Moment) -> Result<(), AllocError>
    ensures ok { OnOk result (out.new.items ≡ out.old.items ++ rehearsal_head at) }
    ensures err { OnErr result (out.new.items ≡ out.old.items) }
{
    let line = head_of(alloc, at)?;
    out.extend_from_slice(line.as_bytes())
}

fn accepted_of(alloc: Global, name: &PackageName) -> Result<String, AllocError>
    ensures line { IfOk result (λ line. string_bytes line ≡ accepted_line name.now) }
{
    let mut line = String::new(alloc);
    line.push_str("accepted ")?;
    push_name(alloc, &mut line, name)?;
    line.push('\n')?;
    Ok(line)
}

/// Appends the line of a package that is accepted. For want of memory the list stays as it was.
pub fn put_accepted(alloc: Global, out: &mut Vec<u8>, name: &PackageName) -> Result<(), AllocError>
    ensures ok { OnOk result (out.new.items ≡ out.old.items ++ accepted_line name.now) }
    ensures err { OnErr result (out.new.items ≡ out.old.items) }
{
    let line = accepted_of(alloc, name)?;
    out.extend_from_slice(line.as_bytes())
}

fn refused_of(alloc: Global, condition: Condition) -> Result<String, AllocError>
    ensures line { IfOk result (λ line. string_bytes line ≡ refused_line condition) }
{
    let number = condition.number();
    let code = condition.code();
    let mut line = String::new(alloc);
    writeln!(line, "refused {number} {code}")?;
    Ok(line)
}

/// Appends the line of a condition that fails: its number, and that of its code (RFC 4108,
/// section 4.1.3). For want of memory the list stays as it was.
pub fn put_refused(alloc: Global, out: &mut Vec<u8>, condition: Condition) -> Result<(), AllocError>
    ensures ok { OnOk result (out.new.items ≡ out.old.items ++ refused_line condition) }
    ensures err { OnErr result (out.new.items ≡ out.old.items) }
{
    let line = refused_of(alloc, condition)?;
    out.extend_from_slice(line.as_bytes())
}
