// Laws of the conditions, over the definitions alone.
ghost use Rattle.std.specs.Prelude.{◌≡◌, ◌↔◌, ℕ, List, length, IsTrue};
ghost use Rattle.der_core.specs.Asked.{AllHold, FirstFail};
ghost use Rattle.package_attrs.specs.Description.{Description};
ghost use Rattle.config_table.specs.State.{State, state_with};
ghost use Rattle.config_table.specs.Stored.{Stored};
ghost use Rattle.package_rules.specs.Module.{Module};
ghost use Rattle.package_rules.specs.Communities.{is_up_to, is_in_block};
ghost use Rattle.package_rules.specs.Conditions.{module_conditions, overflow_conditions};

/// A law: whatever stands for the images, the conditions hold or fail alike: over their octets (`hold`,
/// `first`, `room`, `overflow`) and over a number of each, as its length (`measured_hold`,
/// `measured_first`, `measured_room`, `measured_overflow`).
pub fn images_do_not_matter()
    ensures hold { (f : Stored → List ℕ) (m : Module) (described : Description)
        (before after : State Stored)
        → AllHold (module_conditions m described (state_with f before) (state_with f after))
        ↔ AllHold (module_conditions m described before after) }
    ensures first { (f : Stored → List ℕ) (m : Module) (described : Description)
        (before after : State Stored) (n : ℕ)
        → FirstFail (module_conditions m described (state_with f before) (state_with f after)) n
        ↔ FirstFail (module_conditions m described before after) n }
    ensures room { (f : Stored → List ℕ) (after : State Stored)
        → AllHold (overflow_conditions (state_with f after)) ↔ AllHold (overflow_conditions after) }
    ensures overflow { (f : Stored → List ℕ) (after : State Stored) (n : ℕ)
        → FirstFail (overflow_conditions (state_with f after)) n
        ↔ FirstFail (overflow_conditions after) n }
    ensures measured_hold { (f : Stored → ℕ) (m : Module) (described : Description)
        (before after : State Stored)
        → AllHold (module_conditions m described (state_with f before) (state_with f after))
        ↔ AllHold (module_conditions m described before after) }
    ensures measured_first { (f : Stored → ℕ) (m : Module) (described : Description)
        (before after : State Stored) (n : ℕ)
        → FirstFail (module_conditions m described (state_with f before) (state_with f after)) n
        ↔ FirstFail (module_conditions m described before after) n }
    ensures measured_room { (f : Stored → ℕ) (after : State Stored)
        → AllHold (overflow_conditions (state_with f after)) ↔ AllHold (overflow_conditions after) }
    ensures measured_overflow { (f : Stored → ℕ) (after : State Stored) (n : ℕ)
        → FirstFail (overflow_conditions (state_with f after)) n
        ↔ FirstFail (overflow_conditions after) n }
{}

/// A law: a block of serial numbers holds its two ends, and no serial number of another length.
pub fn blocks_hold_their_ends()
    ensures ends { (low high : List ℕ) → length low ≡ length high → IsTrue (is_up_to low high)
        → IsTrue (is_in_block low low high) × IsTrue (is_in_block high low high) }
    ensures length { (serial low high : List ℕ) → IsTrue (is_in_block serial low high)
        → (length low ≡ length serial) × (length high ≡ length serial) }
{}
