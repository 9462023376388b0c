// The first condition that a package fails.
ghost use Rattle.std.specs.Prelude.{◌≡◌, ◌↔◌, ℕ, List, IsNone, IfSome};
ghost use Rattle.der_core.specs.Asked.{AllHold, FirstFail};
ghost use Rattle.package_attrs.specs.Description.{description};
ghost use Rattle.config_table.specs.State.{offer_of, with_package};
ghost use Rattle.config_table.specs.Stored.{Stored};
ghost use Rattle.package_rules.specs.Conditions.{module_conditions};

use crate::{HardwareModule, is_for_hardware, is_in_community, is_of_listed_kind};
use config_table::State;
use dependency_check::{Unmet, broken_by, unmet};
use der_core::Condition;
use package_attrs::Package;

/// The first of the conditions 30 to 36 that the package fails, or None where it fails none: it is
/// for this module, isn't stale, has its dependencies installed, and breaks no other package.
/// Takes no memory.
pub fn first_refusal(
    hardware: &HardwareModule<'_>,
    state: &State,
    offered: &Package<'_>,
) -> Option<Condition>
    ensures hold { let described = description offered.now in (digest : List ℕ) (image : Stored)
        → IsNone result ↔ AllHold (module_conditions hardware.now described state.now
        (with_package (offer_of described) digest image state.now)) }
    ensures first { let described = description offered.now in (digest : List ℕ) (image : Stored)
        → IfSome result (FirstFail (module_conditions hardware.now described state.now
        (with_package (offer_of described) digest image state.now))) }
{
    if !is_for_hardware(hardware, offered) {
        return Condition::new(30);
    }
    if !is_in_community(hardware, offered) {
        return Condition::new(31);
    }
    if !is_of_listed_kind(hardware, offered) {
        return Condition::new(32);
    }
    if state.stale_hit(&offered.identifier.name) {
        return Condition::new(33);
    }
    match unmet(state, offered) {
        Some(Unmet::Missing(_)) => Condition::new(34),
        Some(Unmet::TooOld(_)) => Condition::new(35),
        None => match broken_by(state, offered) {
            Some(_) => Condition::new(36),
            None => None,
        },
    }
}
