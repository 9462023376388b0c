// The load error.
ghost use Rattle.std.specs.Prelude.{◌≡◌, ◌++◌, ◌+◌, ◌*◌, ◌≤◌, [], OnOk, OnErr, IfOk, length, if◌then◌else◌};
ghost use Rattle.std.specs.List.{flat_map};
ghost use Rattle.std.specs.Option.{option_copied};
ghost use Rattle.der_core.specs.Condition.{error_of};
ghost use Rattle.der_core.specs.Element.{enc};
ghost use Rattle.der_core.specs.LoadError.{error_number};
ghost use Rattle.der_core.specs.Number.{number_contents};
ghost use Rattle.der_core.specs.Shapes.{text_if};
ghost use Rattle.package_attrs.specs.Identifier.{name_text};
ghost use Rattle.package_attrs.specs.Information.{kind_text};
ghost use Rattle.config_table.specs.Stored.{entry_of};
ghost use Rattle.receipt_writer.specs.Answers.{current_text, config_text, tells_config};
ghost use Rattle.receipt_writer.specs.Answers.{IsNamed, error_contents, error_text};

use crate::hardware::put_hardware;
use config_table::{Installed, State};
use der_core::{Condition, tags};
use der_write::{put_tlv, put_u128};
use module_record::Module;
use name_write::put_name;
use package_attrs::PackageName;
use std::alloc::{AllocError, Global};

// What the SEQUENCE of an installed package holds: its type, where it has one, and its name.
fn current_contents(alloc: Global, installed: &Installed) -> Result<Vec<u8>, AllocError>
    ensures ok { IfOk result (λ contents. contents.items
        ≡ text_if kind_text installed.now.kind ++ name_text installed.now.name) }
    ensures most { IfOk result (λ contents. length contents.items ≤ 122) }
{
    let mut contents = Vec::new(alloc);
    if let Some(kind) = installed.kind {
        put_u128(alloc, &mut contents, kind)?;
    }
    put_name(alloc, &mut contents, &installed.name)?;
    Ok(contents)
}

fn put_current(alloc: Global, out: &mut Vec<u8>, installed: &Installed) -> Result<(), AllocError>
    ensures ok { OnOk result
        (out.new.items ≡ out.old.items ++ current_text (entry_of installed.now)) }
    ensures most { OnOk result (length out.new.items ≤ length out.old.items + 128) }
{
    let contents = current_contents(alloc, installed)?;
    put_tlv(alloc, out, tags::SEQUENCE, &contents)
}

// The installed packages, one after the other.
fn config_contents(alloc: Global, state: &State) -> Result<Vec<u8>, AllocError>
    ensures ok { IfOk result (λ contents. contents.items
        ≡ flat_map current_text state.now.packages) }
    ensures most { IfOk result (λ contents. length contents.items
        ≤ 128 * length state.now.packages) }
{
    let mut contents = Vec::new(alloc);
    for place in 0..state.packages() {
        let Some(installed) = state.package(place) else {
            unreachable!();
        };
        put_current(alloc, &mut contents, installed)?;
    }
    Ok(contents)
}

// Appends what is installed, where the condition is one that is answered with it.
fn put_config(
    alloc: Global,
    out: &mut Vec<u8>,
    state: &State,
    failed: Condition,
) -> Result<(), AllocError>
    requires few { length state.now.packages ≤ 64 }
    ensures ok { OnOk result (out.new.items
        ≡ out.old.items ++ (if tells_config failed then config_text state.now else [])) }
    ensures most { OnOk result (length out.new.items ≤ length out.old.items + 8200) }
{
    match failed.number() {
        34..=36 => {
            let contents = config_contents(alloc, state)?;
            put_tlv(alloc, out, tags::CONSTRUCTED_1, &contents)
        }
        _ => Ok(()),
    }
}

// Appends the code that the condition is answered with.
fn put_code(alloc: Global, out: &mut Vec<u8>, failed: Condition) -> Result<(), AllocError>
    ensures ok { OnOk result (out.new.items
        ≡ out.old.items ++ enc 0x0A (number_contents (error_number (error_of failed)))) }
    ensures most { OnOk result (length out.new.items ≤ length out.old.items + 7) }
{
    put_tlv(alloc, out, tags::ENUMERATED, &[failed.code()])
}

// Appends that code, and the condition's number.
fn put_codes(alloc: Global, out: &mut Vec<u8>, failed: Condition) -> Result<(), AllocError>
    ensures ok { OnOk result (out.new.items ≡ out.old.items
        ++ (enc 0x0A (number_contents (error_number (error_of failed)))
        ++ enc 0x02 (number_contents failed))) }
    ensures most { OnOk result (length out.new.items ≤ length out.old.items + 30) }
{
    put_code(alloc, out, failed)?;
    put_u128(alloc, out, u128::from(failed.number()))
}

// What the error's SEQUENCE holds.
fn contents(
    alloc: Global,
    holder: &Module,
    state: &State,
    failed: Condition,
    name: Option<&PackageName>,
) -> Result<Vec<u8>, AllocError>
    requires few { length state.now.packages ≤ 64 }
    ensures ok { IfOk result (λ contents. contents.items
        ≡ error_contents holder.now state.now failed (option_copied name.entry)) }
    ensures most { IfOk result (λ contents. length contents.items ≤ 8480) }
{
    let mut contents = Vec::new(alloc);
    put_hardware(alloc, &mut contents, holder)?;
    put_codes(alloc, &mut contents, failed)?;
    if let Some(name) = name {
        put_name(alloc, &mut contents, name)?;
    }
    put_config(alloc, &mut contents, state, failed)?;
    Ok(contents)
}

/// Appends the error of a module for a package that fails this condition first (RFC 4108, section
/// 4.1.3). The name is that of the package, which is told from condition 20 on, and the state that
/// of the module, whose packages are told where one of the conditions 34 to 36 fails. Of these
/// there are 64 at most, and so the error has at most 8,500 octets.
pub fn put_error(
    alloc: Global,
    out: &mut Vec<u8>,
    holder: &Module,
    state: &State,
    failed: Condition,
    name: Option<&PackageName>,
) -> Result<(), AllocError>
    requires few { length state.now.packages ≤ 64 }
    requires named { IsNamed failed (option_copied name) }
    ensures ok { OnOk result (out.new.items
        ≡ out.old.items ++ error_text holder.now state.now failed (option_copied name.entry)) }
    ensures most { OnOk result (length out.new.items ≤ length out.old.items + 8500) }
    ensures err { OnErr result (out.new.items ≡ out.old.items) }
{
    let contents = contents(alloc, holder, state, failed, name)?;
    put_tlv(alloc, out, tags::SEQUENCE, &contents)
}
