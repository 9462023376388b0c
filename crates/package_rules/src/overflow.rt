// Whether a module's tables have room for a package.
ghost use Rattle.std.specs.Prelude.{◌≡◌, ◌↔◌, ◌≤◌, ℕ, List, length, IsTrue, IsNone, IfSome};
ghost use Rattle.der_core.specs.Asked.{AllHold, FirstFail};
ghost use Rattle.package_attrs.specs.Description.{description};
ghost use Rattle.config_table.specs.State.{offer_of, with_package};
ghost use Rattle.config_table.specs.Stored.{Stored};
ghost use Rattle.package_rules.specs.Conditions.{overflow_conditions};
ghost use Rattle.package_rules.specs.Deciding.{adds_stale_entry};

use config_table::{MOST_PACKAGES, MOST_STALE_ENTRIES, StaleEntry, State};
use der_core::Condition;
use package_attrs::Package;

/// The first of the conditions 39 and 40 that the package fails, or None where it fails none:
/// with it, at most 64 packages are installed and at most 256 stale entries are there. Takes no
/// memory.
pub fn first_overflow(state: &State, offered: &Package<'_>) -> Option<Condition>
    ensures hold { let described = description offered.now in (digest : List ℕ) (image : Stored)
        → IsNone result ↔ AllHold (overflow_conditions
        (with_package (offer_of described) digest image state.now)) }
    ensures first { let described = description offered.now in (digest : List ℕ) (image : Stored)
        → IfSome result (FirstFail (overflow_conditions
        (with_package (offer_of described) digest image state.now))) }
{
    if !has_room_for_package(state, offered) {
        return Condition::new(39);
    }
    if !has_room_for_stale(state, offered) {
        return Condition::new(40);
    }
    None
}

// A package that is installed already takes the place of the old one.
fn has_room_for_package(state: &State, offered: &Package<'_>) -> bool
    ensures room { let described = description offered.now in (digest : List ℕ) (image : Stored)
        → IsTrue result
        ↔ (length (with_package (offer_of described) digest image state.now).packages ≤ 64) }
{
    match state.find(&offered.identifier.name) {
        Some(_) => state.packages() <= MOST_PACKAGES,
        None => state.packages() < MOST_PACKAGES,
    }
}

// A stale entry that is there already keeps its place.
fn has_room_for_stale(state: &State, offered: &Package<'_>) -> bool
    ensures room { let described = description offered.now in (digest : List ℕ) (image : Stored)
        → IsTrue result
        ↔ (length (with_package (offer_of described) digest image state.now).stale ≤ 256) }
{
    if adds_stale_entry(state, offered) {
        state.stale_entries() < MOST_STALE_ENTRIES
    } else {
        state.stale_entries() <= MOST_STALE_ENTRIES
    }
}

fn adds_stale_entry(state: &State, offered: &Package<'_>) -> bool
    ensures adds { result ≡ adds_stale_entry (offer_of (description offered.now)) state.now }
{
    let identifier = &offered.identifier;
    match &identifier.stale {
        Some(stale) => match StaleEntry::made(&identifier.name, stale) {
            Some(made) => state.stale_of(&made.last()).is_none(),
            None => false,
        },
        None => false,
    }
}
