// Attributes in any order, which are only looked at.
ghost use Rattle.std.specs.Prelude.{◌≡◌, ◌↔◌, IsTrue, is_some};
ghost use Rattle.der_core.specs.AttributeReading.{attribute_at};
ghost use Rattle.der_core.specs.Shapes.{listed};
ghost use Rattle.attribute_set.specs.AttributeSet.{AreAttributes};

use crate::attributes::read_next;
use der_core::Cursor;

/// Whether the octets are attributes, one after the other. They may stand in any order, and a type
/// may stand more than once. It takes no memory.
pub fn are_attributes(octets: &[u8]) -> bool
    ensures attributes { IsTrue result ↔ AreAttributes octets.now }
{
    read_each(octets)
}

// The same, with the reading alone.
fn read_each(octets: &[u8]) -> bool
    ensures { result ≡ is_some (listed attribute_at octets.now) }
{
    let mut cursor = Cursor::new(octets);
    while !cursor.at_end() {
        let Some(_) = read_next(&mut cursor) else {
            return false;
        };
    }
    true
}
