ghost use Rattle.std.specs.Prelude.{◌≡◌, option_map};
ghost use Rattle.der_core.specs.Attribute.{attribute_text, IsAttribute};
ghost use Rattle.der_core.specs.AttributeReading.{are_elements, attribute_fields_of, attribute_of};
ghost use Rattle.der_core.specs.AttributeView.{attribute_view};
ghost use Rattle.der_core.specs.Reads.{Reads, Answers};

use crate::attribute::Attr;
use crate::cursor::Cursor;
use crate::oid::read_oid;
use crate::tags;

// Whether octets are elements, one after the other.
fn are_elements(octets: &[u8]) -> bool
    ensures { result ≡ are_elements octets.now }
{
    let mut cursor = Cursor::new(octets);
    while !cursor.at_end() {
        let Some(_) = cursor.next() else {
            return false;
        };
    }
    true
}

#[tactic(auto, unfolding(crate::specs::AttributeReading::attribute_fields_of))]
fn read_fields(contents: &[u8]) -> Option<Attr<'_>>
    ensures { Answers attribute_view result (attribute_fields_of contents.now) }
{
    let mut fields = Cursor::new(contents);
    let kind = read_oid(fields.tagged(tags::OBJECT_IDENTIFIER)?)?;
    let values = fields.tagged(tags::SET)?;
    if are_elements(values) && fields.at_end() {
        Some(Attr { kind, values })
    } else {
        None
    }
}

#[tactic(auto, unfolding(crate::specs::AttributeReading::attribute_of))]
fn read_whole(element: &[u8]) -> Option<Attr<'_>>
    ensures { Answers attribute_view result (attribute_of element.now) }
{
    let mut cursor = Cursor::new(element);
    let contents = cursor.tagged(tags::SEQUENCE)?;
    let Some(attribute) = read_fields(contents) else {
        return None;
    };
    if cursor.at_end() {
        Some(attribute)
    } else {
        None
    }
}

/// The attribute whose text an element is (RFC 5652, section 5.3). Its values are not read.
pub fn read_attr(element: &[u8]) -> Option<Attr<'_>>
    ensures spelled { Reads attribute_text IsAttribute element.now
        (option_map attribute_view result) }
    ensures exact { Answers attribute_view result (attribute_of element.now) }
{
    read_whole(element)
}
