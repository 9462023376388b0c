// Laws of the definitions, which no call computes.
ghost use Rattle.std.specs.Prelude.{◌≡◌, ℕ, List};
ghost use Rattle.der_core.specs.Objects.{oid_contents, dotted, AreSmall};
ghost use Rattle.report_text.specs.Dotted.{dotted_of};

/// A law: an object identifier is printed by the numbers that spell its octets.
pub fn dotted_text_is_of_its_numbers()
    ensures { (numbers : List ℕ) → AreSmall numbers
        → dotted_of (oid_contents numbers) ≡ dotted numbers }
{}
