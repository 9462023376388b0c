// Reading the tables of a manifest.
ghost use Rattle.std.specs.Prelude.{◌≡◌, [], List, IfOk, IfSome, IfNone};
ghost use Rattle.der_core.specs.Reads.{Answers};
ghost use Rattle.package_attrs.specs.declared.name.PackageName.{PackageName};
ghost use Rattle.config_table.specs.declared.stale_entry.StaleEntry.{StaleEntry};
ghost use Rattle.config_table.specs.State.{Entry};
ghost use Rattle.config_table.specs.Stored.{Stored};
ghost use Rattle.bank_layout.specs.Reading.{stale_at, stale_from};
ghost use Rattle.bank_layout.specs.Tables.{ReadsPackages, ReadsStale};

use crate::format::Format;
use crate::package::read_package;
use config_table::{MOST_PACKAGES, MOST_STALE_ENTRIES, StaleEntry, State};
use der_core::Cursor;
use package_attrs::{PackageName, read_name};
use std::alloc::{AllocError, Global};

// The state of the packages that octets are. None where they aren't, or are too many, or one is
// named twice.
pub(crate) fn read_packages(
    alloc: Global,
    format: Format,
    contents: &[u8],
) -> Result<Option<State>, AllocError>
    ensures some { IfOk result (λ found. IfSome found (λ state.
        ReadsPackages format contents.now state.packages)) }
    ensures fresh { IfOk result (λ found. IfSome found (λ state. state.stale ≡ [])) }
    ensures none { IfOk result (λ found. IfNone found ((packages : List (Entry Stored))
        → ¬ ReadsPackages format contents.now packages)) }
{
    let mut items = Cursor::new(contents);
    let mut state = State::new(alloc);
    while !items.at_end() {
        let Some(installed) = read_package(alloc, format, &mut items)? else {
            return Ok(None);
        };
        if state.packages() >= MOST_PACKAGES {
            return Ok(None);
        }
        if state.is_installed(&installed.name) {
            return Ok(None);
        }
        state.replace(installed)?;
    }
    Ok(Some(state))
}

// The stale entry whose last name this is.
fn stale_entry(name: PackageName) -> StaleEntry
    ensures { result ≡ stale_from name }
{
    match name {
        PackageName::Preferred { id, version } => StaleEntry::Preferred { id, upto: version },
        PackageName::Legacy(octets) => StaleEntry::Legacy(octets),
    }
}

// The stale entry at the front.
#[tactic(auto, unfolding(crate::specs::Reading::stale_at))]
fn read_stale_entry(items: &mut Cursor<'_>) -> Option<StaleEntry>
    ensures exact { Answers (λ entry. (entry, items.new)) result (stale_at items.old) }
{
    Some(stale_entry(read_name(items)?))
}

// The state with the stale entries that octets are. None where they aren't, or are too many, or one
// is named twice.
pub(crate) fn read_stale(contents: &[u8], state: State) -> Result<Option<State>, AllocError>
    requires fresh { state.stale ≡ [] }
    ensures some { IfOk result (λ found. IfSome found (λ new.
        ReadsStale contents.now new.stale)) }
    ensures packages { IfOk result (λ found. IfSome found (λ new.
        new.packages ≡ state.packages)) }
    ensures none { IfOk result (λ found. IfNone found ((stale : List StaleEntry)
        → ¬ ReadsStale contents.now stale)) }
{
    let mut tables = state;
    let mut items = Cursor::new(contents);
    while !items.at_end() {
        let Some(entry) = read_stale_entry(&mut items) else {
            return Ok(None);
        };
        if tables.stale_entries() >= MOST_STALE_ENTRIES {
            return Ok(None);
        }
        if tables.stale_of(&entry.last()).is_some() {
            return Ok(None);
        }
        tables.take_stale(entry)?;
    }
    Ok(Some(tables))
}
