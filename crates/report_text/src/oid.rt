// Object identifiers in dotted decimal.
ghost use Rattle.std.specs.Prelude.{◌≡◌, ◌++◌, string_bytes, OnOk, OnErr, IfOk};
ghost use Rattle.der_core.specs.Objects.{dotted, dotted_first};
ghost use Rattle.report_text.specs.Dotted.{dotted_of};

use der_core::Oid;
use std::alloc::{AllocError, Global};
use std::fmt::Write;

// The two numbers that the first subidentifier stands for (X.690, section 8.19.4).
fn push_first(line: &mut String, number: u128) -> Result<(), AllocError>
    ensures ok { OnOk result
        (string_bytes line.new ≡ string_bytes line.old ++ dotted_first number) }
{
    if number < 40 {
        return write!(line, "0.{number}");
    }
    if number < 80 {
        let second = number - 40;
        return write!(line, "1.{second}");
    }
    let second = number - 80;
    write!(line, "2.{second}")
}

// The numbers that subidentifiers stand for, with a dot between them.
fn push_numbers(line: &mut String, numbers: &[u128]) -> Result<(), AllocError>
    ensures ok { OnOk result
        (string_bytes line.new ≡ string_bytes line.old ++ dotted numbers.now) }
{
    let [first, rest @ ..] = numbers else {
        return Ok(());
    };
    push_first(line, *first)?;
    for number in rest {
        let number = *number;
        write!(line, ".{number}")?;
    }
    Ok(())
}

// An object identifier, as its numbers with dots between them.
fn text_of(alloc: Global, id: &Oid) -> Result<String, AllocError>
    ensures text { IfOk result (λ text. string_bytes text ≡ dotted_of id.now) }
{
    let numbers = id.subidentifiers(alloc)?;
    let mut text = String::new(alloc);
    push_numbers(&mut text, &numbers)?;
    Ok(text)
}

/// Appends an object identifier, as its numbers with dots between them. For want of memory the text
/// stays as it was.
pub fn push_oid(alloc: Global, line: &mut String, id: &Oid) -> Result<(), AllocError>
    ensures ok { OnOk result
        (string_bytes line.new ≡ string_bytes line.old ++ dotted_of id.now) }
    ensures err { OnErr result (string_bytes line.new ≡ string_bytes line.old) }
{
    let text = text_of(alloc, id)?;
    line.push_str(&text)
}
