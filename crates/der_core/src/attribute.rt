ghost use Rattle.std.specs.Prelude.{◌≡◌, IsTrue, IfSome, option_map};
ghost use Rattle.der_core.specs.Attribute.{value_text, IsValue};
ghost use Rattle.der_core.specs.AttributeReading.{are_elements, one_element_of};
ghost use Rattle.der_core.specs.Element.{AreOctets};
ghost use Rattle.der_core.specs.Reads.{Reads, Answers};

use crate::cursor::Cursor;
use crate::oid::Oid;

/// An attribute: its type, and its values (RFC 5652, section 5.3).
#[derive(Clone, Copy, Debug)]
pub struct Attr<'a> {
    pub kind: Oid,
    /// The contents of the SET of values: elements, one after the other. There may be none.
    pub values: &'a [u8],
    pub ghost elements: { IsTrue (are_elements values.now) },
}

impl<'a> Attr<'a> {
    /// The tag, the contents and the whole of the value, where there is exactly one.
    pub fn one_value(&self) -> Option<(u8, &'a [u8], &'a [u8])>
        ensures spelled { Reads value_text IsValue self.now.values.now
            (option_map (λ value. (value.0, value.1.now)) result) }
        ensures whole { IfSome result (λ value. value.2.now ≡ self.now.values.now) }
        ensures exact { Answers (λ value. (value.0, value.1.now)) result
            (one_element_of self.now.values.now) }
    {
        only_element(self.values)
    }
}

// The tag, the contents and the whole of the element that octets are.
#[tactic(auto, unfolding(crate::specs::AttributeReading::one_element_of))]
fn only_element(octets: &[u8]) -> Option<(u8, &[u8], &[u8])>
    ensures octets { AreOctets octets.now }
    ensures whole { IfSome result (λ value. value.2.now ≡ octets.now) }
    ensures exact { Answers (λ value. (value.0, value.1.now)) result (one_element_of octets.now) }
{
    let mut cursor = Cursor::new(octets);
    let value = cursor.next()?;
    if cursor.at_end() { Some(value) } else { None }
}
