// The lines of a module: what it is, how far it has come, and what is installed.
ghost use Rattle.std.specs.Prelude.{◌≡◌, ◌++◌, string_bytes, OnOk, OnErr, IfOk};
ghost use Rattle.lms_sign.specs.PublicKeys.{leaf_count};
ghost use Rattle.config_table.specs.Stored.{lengths};
ghost use Rattle.report_text.specs.Lines.{state_lines};
ghost use Rattle.report_text.specs.ListLines.{module_line, counts_lines, list_lines};

use crate::name::push_hex;
use crate::oid::push_oid;
use crate::state::push_state;
use config_table::State;
use lms_sign::leaf_count;
use module_record::Module;
use std::alloc::{AllocError, Global};
use std::fmt::Write;

// The line of the module itself.
fn push_module(alloc: Global, text: &mut String, owner: &Module) -> Result<(), AllocError>
    ensures ok { OnOk result
        (string_bytes text.new ≡ string_bytes text.old ++ module_line owner.now) }
{
    text.push_str("module ")?;
    push_oid(alloc, text, &owner.hw_type)?;
    text.push_str(" ")?;
    push_hex(alloc, text, owner.serial.octets())?;
    let capacity = owner.capacity;
    writeln!(text, " capacity {capacity}")
}

// How many installs there were, and how many of the key's leaves are spent.
fn push_counts(text: &mut String, sequence: u64, spent: u32, leaves: u32) -> Result<(), AllocError>
    ensures ok { OnOk result
        (string_bytes text.new ≡ string_bytes text.old ++ counts_lines sequence spent leaves) }
{
    writeln!(text, "sequence {sequence}")?;
    writeln!(text, "spent {spent} of {leaves}")
}

// The lines, as a text of their own.
fn lines_of(
    alloc: Global,
    owner: &Module,
    sequence: u64,
    spent: u32,
    state: &State,
) -> Result<String, AllocError>
    ensures lines { IfOk result (λ text.
        string_bytes text ≡ list_lines owner.now sequence spent (lengths state.now)) }
{
    let mut text = String::new(alloc);
    push_module(alloc, &mut text, owner)?;
    push_counts(&mut text, sequence, spent, leaf_count(&owner.key))?;
    push_state(alloc, &mut text, state)?;
    Ok(text)
}

/// Appends the lines of a module: its hardware type, serial number and capacity in blocks of 4,096
/// octets; its sequence number; how many leaves of its key are spent, and of how many; and then
/// those of `put_state`. For want of memory the list stays as it was.
pub fn put_list(
    alloc: Global,
    out: &mut Vec<u8>,
    owner: &Module,
    sequence: u64,
    spent: u32,
    state: &State,
) -> Result<(), AllocError>
    ensures ok { OnOk result (out.new.items
        ≡ out.old.items ++ list_lines owner.now sequence spent (lengths state.now)) }
    ensures err { OnErr result (out.new.items ≡ out.old.items) }
{
    let text = lines_of(alloc, owner, sequence, spent, state)?;
    out.extend_from_slice(text.as_bytes())
}
