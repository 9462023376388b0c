// Laws of the tables, over the definitions alone.
ghost use Rattle.std.specs.Prelude.{◌≡◌, ◌≤◌, ◌↔◌, ℕ, List, [], ◌∷◌, ◌++◌, Some, None, IsTrue, MatchBool, slice_get};
ghost use Rattle.package_attrs.specs.declared.name.PackageName.{PackageName};
ghost use Rattle.config_table.specs.declared.stale_entry.StaleEntry.{StaleEntry};
ghost use Rattle.config_table.specs.Names.{is_same, is_at_least};
ghost use Rattle.config_table.specs.State.{State, Entry, Offer, made_by, with_package, state_with, placed, raised, last_stale, stale_of};
ghost use Rattle.config_table.specs.Rules.{IsStale, IsInstalled, IsMet, IsDistinctState};
ghost use Rattle.config_table.specs.Stored.{Stored};

/// A law: whatever packages are installed, no identifier and no legacy name comes to stand twice
/// in either list.
pub fn names_stay_distinct()
    ensures distinct { (packages : List (Offer × List ℕ)) (state : State (List ℕ))
        → IsDistinctState state → IsDistinctState (made_by packages state) }
{}

/// A law: whatever packages are installed, what is stale stays stale, and the number of an
/// identifier never falls.
pub fn stale_stays_stale()
    ensures stale { (packages : List (Offer × List ℕ)) (state : State (List ℕ)) (name : PackageName)
        → IsStale name state.stale → IsStale name (made_by packages state).stale }
    ensures number { (packages : List (Offer × List ℕ)) (state : State (List ℕ))
        (name : PackageName) (before : ℕ) → stale_of name state ≡ Some before
        → (after : ℕ) × (stale_of name (made_by packages state) ≡ Some after) × (before ≤ after) }
{}

/// A law: whatever packages are installed, an installed package keeps its place.
pub fn packages_keep_their_places()
    ensures place { (packages : List (Offer × List ℕ)) (state : State (List ℕ)) (place : ℕ)
        (before : Entry (List ℕ)) → slice_get state.packages place ≡ Some before
        → (after : Entry (List ℕ))
        × (slice_get (made_by packages state).packages place ≡ Some after)
        × IsTrue (is_same after.name before.name) }
{}

/// A law: a package goes into a state in the same way whatever stands for its images: the blocks
/// that hold them, their octets, or their lengths.
pub fn images_stand_apart()
    ensures read { (f : Stored → List ℕ) (offer : Offer) (digest : List ℕ) (image : Stored)
        (state : State Stored) → state_with f (with_package offer digest image state)
        ≡ with_package offer digest (f image) (state_with f state) }
    ensures measured { (f : List ℕ → ℕ) (offer : Offer) (digest image : List ℕ)
        (state : State (List ℕ)) → state_with f (with_package offer digest image state)
        ≡ with_package offer digest (f image) (state_with f state) }
    ensures stored { (f : Stored → ℕ) (offer : Offer) (digest : List ℕ) (image : Stored)
        (state : State Stored) → state_with f (with_package offer digest image state)
        ≡ with_package offer digest (f image) (state_with f state) }
{}

/// A law: a package that isn't installed goes last, and so does a stale entry whose identifier or
/// legacy name isn't there.
pub fn new_names_go_last()
    ensures placed { (new : Entry Stored) (state : State Stored)
        → ¬ IsInstalled new.name state.packages
        → placed new state.packages ≡ state.packages ++ new ∷ [] }
    ensures stale { (new : StaleEntry) (state : State Stored)
        → stale_of (last_stale new) state ≡ None
        → raised new state.stale ≡ state.stale ++ new ∷ [] }
{}

/// A law: once a package is installed, a need of that package is met by its new version alone, and
/// any other need as before.
pub fn needs_after_a_package()
    ensures met { (offer : Offer) (digest : List ℕ) (image : Stored) (state : State Stored)
        → IsDistinctState state → (need : PackageName)
        → IsMet need (with_package offer digest image state).packages
        ↔ MatchBool (is_same need offer.name) (IsTrue (is_at_least offer.name need))
        (IsMet need state.packages) }
{}
