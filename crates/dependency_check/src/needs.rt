// Whether a package's dependencies are met.
ghost use Rattle.std.specs.Prelude.{◌≡◌, ◌↔◌, not, position, IsNone, IfSome, IsSomeAnd};
ghost use Rattle.package_attrs.specs.Description.{description};
ghost use Rattle.dependency_check.specs.Dependencies.{AllInstalled, AllMet, IsFirstUnmet, IsMissing, IsTooOld};
ghost use Rattle.config_table.specs.Rules.{is_installed, is_met};

use crate::Unmet;
use config_table::State;
use package_attrs::{Dependencies, Package};

/// The first of the package's dependencies that isn't installed in any version, and if there is
/// none, the first that is installed in too small a version. Takes no memory.
pub fn unmet(state: &State, offered: &Package<'_>) -> Option<Unmet>
    ensures met { let needs = (description offered.now).info.dependencies in IsNone result
        ↔ (AllInstalled needs state.now.packages × AllMet needs state.now.packages) }
    ensures first { IfSome result
        (IsFirstUnmet (description offered.now).info.dependencies state.now.packages) }

    // Which of the two rules fails.
    ensures missing { let needs = (description offered.now).info.dependencies in
        IsSomeAnd result IsMissing ↔ (¬ AllInstalled needs state.now.packages) }
    ensures too_old { let needs = (description offered.now).info.dependencies in
        IsSomeAnd result IsTooOld
        ↔ (AllInstalled needs state.now.packages × (¬ AllMet needs state.now.packages)) }
{
    first_unmet(state, &offered.info.dependencies)
}

fn first_unmet(state: &State, needs: &Dependencies<'_>) -> Option<Unmet>
    ensures met { IsNone result
        ↔ (AllInstalled needs.now state.now.packages × AllMet needs.now state.now.packages) }
    ensures first { IfSome result (IsFirstUnmet needs.now state.now.packages) }
{
    match first_missing(state, needs) {
        Some(place) => Some(Unmet::Missing(place)),
        None => match first_too_old(state, needs) {
            Some(place) => Some(Unmet::TooOld(place)),
            None => None,
        },
    }
}

fn first_missing(state: &State, needs: &Dependencies<'_>) -> Option<usize>
    ensures first { result
        ≡ position (λ need. not (is_installed need state.now.packages)) needs.now }
{
    needs.iter().position(|need| !state.is_installed(&need))
}

fn first_too_old(state: &State, needs: &Dependencies<'_>) -> Option<usize>
    ensures first { result ≡ position (λ need. not (is_met need state.now.packages)) needs.now }
{
    needs.iter().position(|need| !state.is_met(&need))
}
