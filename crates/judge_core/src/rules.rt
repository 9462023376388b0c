// The rules of a module over what it has installed, by the conditions 30 to 41.
ghost use Rattle.std.specs.List.{find};
ghost use Rattle.std.specs.Option.{option_map_or};
ghost use Rattle.std.specs.Prelude.{◌≡◌, ◌≤◌, ◌^◌, ℕ, List, Some, length, slice_get};
ghost use Rattle.config_table.specs.Names.{is_same};
ghost use Rattle.config_table.specs.State.{Entry, offer_of, with_package};
ghost use Rattle.config_table.specs.Stored.{Stored, lengths};
ghost use Rattle.package_attrs.specs.Image.{blocks_for};
ghost use Rattle.package_attrs.specs.Description.{description};
ghost use Rattle.judge_core.specs.Conditions.{hardware_of, installed_with, blocks_taken};
ghost use Rattle.judge_core.specs.Conditions.{room_conditions, rule_conditions};
ghost use Rattle.judge_core.specs.Steps.{Tells};

use config_table::State;
use der_core::Condition;
use module_record::Module;
use package_attrs::{Package, PackageName, blocks_for};
use package_rules::{HardwareModule, first_overflow, first_refusal};

// The same of the image of the package at this place.
fn blocks_at(state: &State, place: usize) -> u32
    ensures blocks { (entry : Entry Stored) → slice_get state.now.packages place ≡ Some entry
        → result ≡ blocks_for entry.image.length }
    ensures most { result ≤ 2 ^ 20 }
{
    match state.package(place) {
        Some(installed) => blocks_for(installed.length),
        None => 0,
    }
}

// How many blocks all images take.
fn blocks_of(state: &State) -> u128
    ensures taken { result ≡ blocks_taken (lengths state.now) }
    ensures most { result ≤ 2 ^ 84 }
{
    let mut blocks = 0;
    for place in 0..state.packages() {
        blocks += u128::from(blocks_at(state, place));
    }
    blocks
}

// How many blocks the image takes of the package that one of this name replaces.
fn blocks_replaced(state: &State, name: &PackageName) -> u32
    ensures replaced { result ≡ option_map_or (λ entry. blocks_for entry.image.length)
        (find (λ entry. is_same name.now entry.name) state.now.packages) 0 }
    ensures most { result ≤ 2 ^ 20 }
{
    match state.find(name) {
        Some(installed) => blocks_for(installed.length),
        None => 0,
    }
}

// How many blocks all images take once the package is installed, with an image of so many octets:
// that of the package which it replaces is gone.
fn blocks_with(state: &State, offered: &Package<'_>, image: u32) -> u128
    ensures taken { (digest : List ℕ) → result ≡ blocks_taken
        (with_package (offer_of (description offered.now)) digest image (lengths state.now)) }
{
    let replaced = u128::from(blocks_replaced(state, &offered.identifier.name));
    blocks_of(state) - replaced + u128::from(blocks_for(image))
}

// The module as packages see it.
fn hardware(owner: &Module) -> HardwareModule<'_>
    ensures same { result ≡ hardware_of owner.now }
{
    HardwareModule {
        hw_type: &owner.hw_type,
        serial: &owner.serial,
        communities: owner.communities.as_slice(),
        kinds: owner.kinds.as_slice(),
    }
}

// The first of the conditions 37 to 41 that the package with an image of so many octets fails.
fn first_of_room(
    owner: &Module,
    state: &State,
    sequence: u64,
    offered: &Package<'_>,
    image: u32,
) -> Option<Condition>
    ensures told { (octets : List ℕ) → length octets ≡ image
        → Tells result (room_conditions owner.now sequence
        (installed_with (description offered.now) octets (lengths state.now)) octets) }
{
    if image == 0 {
        return Some(Condition::numbered(37));
    }
    if blocks_with(state, offered, image) > u128::from(owner.capacity) {
        return Some(Condition::numbered(38));
    }
    if let Some(failing) = first_overflow(state, offered) {
        return Some(failing);
    }
    if sequence == u64::MAX {
        return Some(Condition::numbered(41));
    }
    None
}

// The first of the conditions 30 to 41 that the package with an image of so many octets fails.
pub(crate) fn first_of_rules(
    owner: &Module,
    state: &State,
    sequence: u64,
    offered: &Package<'_>,
    image: u32,
) -> Option<Condition>
    ensures told { (octets : List ℕ) → length octets ≡ image → Tells result
        (rule_conditions owner.now sequence (lengths state.now) (description offered.now) octets) }
{
    if let Some(failing) = first_refusal(&hardware(owner), state, offered) {
        return Some(failing);
    }
    first_of_room(owner, state, sequence, offered, image)
}
