// Whether a package breaks what is installed.
ghost use Rattle.std.specs.Prelude.{◌≡◌, ◌↔◌, ℕ, false, List, IsNone, IfSome, slice_get};
ghost use Rattle.std.specs.Option.{option_map_or};
ghost use Rattle.std.specs.List.{list_any};
ghost use Rattle.package_attrs.specs.Description.{description};
ghost use Rattle.config_table.specs.State.{Offer, offer_of, with_package};
ghost use Rattle.config_table.specs.Stored.{Stored, entry_of};
ghost use Rattle.dependency_check.specs.Dependencies.{Unbroken, IsFirstBroken};
ghost use Rattle.dependency_check.specs.Deciding.{is_lost, loses_need};

use config_table::{Installed, State, is_at_least, is_same};
use package_attrs::{Package, PackageName};

/// The place of the first installed package that this one doesn't replace, and that has a need
/// which is met in the state and not once this one is installed. Takes no memory.
pub fn broken_by(state: &State, offered: &Package<'_>) -> Option<usize>
    ensures unbroken { let described = description offered.now in (digest : List ℕ) (image : Stored)
        → IsNone result ↔ Unbroken described.identifier.name state.now
        (with_package (offer_of described) digest image state.now) }
    ensures first { let described = description offered.now in (digest : List ℕ) (image : Stored)
        → IfSome result (IsFirstBroken described.identifier.name state.now
        (with_package (offer_of described) digest image state.now)) }
{
    first_broken(state, &offered.identifier.name)
}

// The same for whatever package of this name is installed.
fn first_broken(state: &State, name: &PackageName) -> Option<usize>
    ensures unbroken { (offer : Offer) (digest : List ℕ) (image : Stored) → offer.name ≡ name.now
        → IsNone result ↔ Unbroken name.now state.now (with_package offer digest image state.now) }
    ensures first { (offer : Offer) (digest : List ℕ) (image : Stored) → offer.name ≡ name.now
        → IfSome result (IsFirstBroken name.now state.now
        (with_package offer digest image state.now)) }
{
    for place in 0..state.packages() {
        if loses_need_at(state, name, place) {
            return Some(place);
        }
    }
    None
}

fn loses_need_at(state: &State, name: &PackageName, place: usize) -> bool
    ensures loses { result ≡ option_map_or (loses_need name.now state.now)
        (slice_get state.now.packages place) false }
{
    match state.package(place) {
        Some(installed) => loses_need(state, name, installed),
        None => false,
    }
}

// Whether the package isn't replaced and loses a need.
fn loses_need(state: &State, name: &PackageName, installed: &Installed) -> bool
    ensures loses { result ≡ loses_need name.now state.now (entry_of installed.now) }
{
    !is_same(name, &installed.name) && loses_one(state, name, installed.needs.as_slice())
}

fn loses_one(state: &State, name: &PackageName, needs: &[PackageName]) -> bool
    ensures loses { result ≡ list_any (is_lost name.now state.now) needs.now }
{
    needs.iter().any(|need| is_lost(state, name, need))
}

// Whether the need is met, and isn't once a package of this name is installed.
fn is_lost(state: &State, name: &PackageName, need: &PackageName) -> bool
    ensures lost { result ≡ is_lost name.now state.now need.now }
{
    is_same(need, name) && !is_at_least(name, need) && state.is_met(need)
}
