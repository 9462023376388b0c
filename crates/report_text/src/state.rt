// The lines of a module's state.
ghost use Rattle.std.specs.Prelude.{◌≡◌, ◌++◌, string_bytes, map, OnOk, OnErr, IfOk};
ghost use Rattle.std.specs.List.{flat_map};
ghost use Rattle.config_table.specs.State.{entry_with};
ghost use Rattle.config_table.specs.Stored.{entry_of, lengths};
ghost use Rattle.report_text.specs.Lines.{package_line, stale_line, state_lines};

use crate::name::{push_hex, push_name};
use config_table::{Installed, StaleEntry, State};
use std::alloc::{AllocError, Global};
use std::fmt::Write;

// The line of an installed package.
fn push_package(alloc: Global, text: &mut String, installed: &Installed) -> Result<(), AllocError>
    ensures ok { OnOk result (string_bytes text.new ≡ string_bytes text.old
        ++ package_line (entry_with (λ image. image.length) (entry_of installed.now))) }
{
    text.push_str("package ")?;
    push_name(alloc, text, &installed.name)?;
    let length = installed.length;
    write!(text, " length {length} sha256 ")?;
    push_hex(alloc, text, &installed.digest)?;
    text.push('\n')
}

// The line of a stale entry.
fn push_stale_entry(alloc: Global, text: &mut String, entry: &StaleEntry) -> Result<(), AllocError>
    ensures ok { OnOk result
        (string_bytes text.new ≡ string_bytes text.old ++ stale_line entry.now) }
{
    text.push_str("stale ")?;
    push_name(alloc, text, &entry.last())?;
    text.push('\n')
}

// The packages in order of first installation.
fn push_packages(alloc: Global, text: &mut String, state: &State) -> Result<(), AllocError>
    ensures ok { OnOk result (string_bytes text.new ≡ string_bytes text.old
        ++ flat_map package_line
        (map (λ entry. entry_with (λ image. image.length) entry) state.now.packages)) }
{
    for place in 0..state.packages() {
        let Some(installed) = state.package(place) else {
            unreachable!();
        };
        push_package(alloc, text, installed)?;
    }
    Ok(())
}

// The stale entries in order of first mention.
fn push_stale_entries(alloc: Global, text: &mut String, state: &State) -> Result<(), AllocError>
    ensures ok { OnOk result (string_bytes text.new ≡ string_bytes text.old
        ++ flat_map stale_line state.now.stale) }
{
    for place in 0..state.stale_entries() {
        let Some(entry) = state.stale_entry(place) else {
            unreachable!();
        };
        push_stale_entry(alloc, text, &entry)?;
    }
    Ok(())
}

// The lines of the packages, and then those of the stale entries.
pub(crate) fn push_state(alloc: Global, text: &mut String, state: &State) -> Result<(), AllocError>
    ensures ok { OnOk result
        (string_bytes text.new ≡ string_bytes text.old ++ state_lines (lengths state.now)) }
{
    push_packages(alloc, text, state)?;
    push_stale_entries(alloc, text, state)
}

// The lines, as a text of their own.
fn lines_of(alloc: Global, state: &State) -> Result<String, AllocError>
    ensures lines { IfOk result (λ text. string_bytes text ≡ state_lines (lengths state.now)) }
{
    let mut text = String::new(alloc);
    push_state(alloc, &mut text, state)?;
    Ok(text)
}

/// Appends a line for each package, in order of first installation, and then one for each stale
/// entry, in order of first mention. For want of memory the list stays as it was.
pub fn put_state(alloc: Global, out: &mut Vec<u8>, state: &State) -> Result<(), AllocError>
    ensures ok { OnOk result
        (out.new.items ≡ out.old.items ++ state_lines (lengths state.now)) }
    ensures err { OnErr result (out.new.items ≡ out.old.items) }
{
    let text = lines_of(alloc, state)?;
    out.extend_from_slice(text.as_bytes())
}
