//! Laws of the definitions, which no call computes.

ghost use Rattle.std.specs.Prelude.{◌≡◌, List};
ghost use Rattle.der_core.specs.Attribute.{Attribute};
ghost use Rattle.attribute_set.specs.AttributeSet.{set_contents, IsAttributeSet};

/// Octets are those of one list of attributes at most.
pub fn one_attribute_set()
    ensures { (these those : List Attribute) → IsAttributeSet these → IsAttributeSet those
        → set_contents these ≡ set_contents those → these ≡ those }
{}
