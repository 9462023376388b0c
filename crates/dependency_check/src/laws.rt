// Laws of the rules, over the definitions alone.
ghost use Rattle.std.specs.Prelude.{◌≡◌, ◌↔◌, ℕ, List};
ghost use Rattle.package_attrs.specs.declared.name.PackageName.{PackageName};
ghost use Rattle.config_table.specs.State.{State, state_with};
ghost use Rattle.config_table.specs.Stored.{Stored};
ghost use Rattle.dependency_check.specs.declared.fault.Unmet.{Unmet};
ghost use Rattle.dependency_check.specs.Dependencies.{AllInstalled, AllMet, Unbroken, IsFirstUnmet, IsFirstBroken};

/// A law: at most one dependency is the first that isn't met, and one package the first that is
/// broken.
pub fn first_places_are_one()
    ensures unmet { (needs : List PackageName) (state : State Stored) (one other : Unmet)
        → IsFirstUnmet needs state.packages one → IsFirstUnmet needs state.packages other
        → one ≡ other }
    ensures broken { (name : PackageName) (before after : State Stored) (one other : ℕ)
        → IsFirstBroken name before after one → IsFirstBroken name before after other
        → one ≡ other }
{}

/// A law: the rules of dependencies hold of a state exactly where they hold of what it says of its
/// images' lengths alone.
pub fn images_do_not_matter()
    ensures installed { (f : Stored → ℕ) (needs : List PackageName) (state : State Stored)
        → AllInstalled needs (state_with f state).packages ↔ AllInstalled needs state.packages }
    ensures met { (f : Stored → ℕ) (needs : List PackageName) (state : State Stored)
        → AllMet needs (state_with f state).packages ↔ AllMet needs state.packages }
    ensures unbroken { (f : Stored → ℕ) (name : PackageName) (before after : State Stored)
        → Unbroken name (state_with f before) (state_with f after) ↔ Unbroken name before after }
{}
