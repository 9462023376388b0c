// Attributes that stay in place.
ghost use Rattle.std.specs.Prelude.{◌≡◌, IfSome};
ghost use Rattle.std.specs.Iterator.{YieldsFirstBy, item_count};
ghost use Rattle.der_core.specs.Attribute.{attribute_text};
ghost use Rattle.der_core.specs.AttributeReading.{attribute_at};
ghost use Rattle.der_core.specs.AttributeView.{attribute_view};
ghost use Rattle.der_core.specs.Reads.{Answers};

use der_core::{Attr, Cursor, read_attr};
use std::marker::Model;

/// Attributes in their order, each read from its octets when it is asked for. Takes no memory.
#[derive(Drop)]
pub struct Attributes<'a> {
    pub(crate) octets: &'a [u8],
}

impl<'a> Model for Attributes<'a> {
    ghost use Rattle.std.specs.Prelude.{List};
    ghost use Rattle.der_core.specs.Attribute.{Attribute};
    ghost use Rattle.der_core.specs.AttributeReading.{attribute_at};
    ghost use Rattle.attribute_set.specs.Items.{items_of, AreItems};

    ghost Value = { List Attribute };

    ghost view = { λ a. items_of attribute_at a.octets.now };

    ghost invariant = { λ a. AreItems attribute_at a.octets.now };
}

impl<'a> Attributes<'a> {
    /// The same attributes, to go through.
    pub fn iter(&self) -> Attributes<'a>
        ensures same { result ≡ self.now }
    {
        Attributes {
            octets: self.octets,
        }
    }
}

impl<'a> Iterator for Attributes<'a> {
    type Item = Attr<'a>;

    ghost next_gives = { YieldsFirstBy attribute_view (λ attributes. attributes) };

    ghost remaining = { item_count (λ attributes. attributes) };

    fn next(&mut self) -> Option<Attr<'a>> {
        let mut items = Cursor::new(self.octets);
        let Some((attribute, _)) = read_next(&mut items) else {
            return None;
        };
        self.octets = items.rest();
        Some(attribute)
    }
}

// The attribute at the front, and its octets.
#[tactic(auto, unfolding(der_core::specs::AttributeReading::attribute_at))]
pub(crate) fn read_next<'a>(items: &mut Cursor<'a>) -> Option<(Attr<'a>, &'a [u8])>
    ensures exact { Answers (λ x. (attribute_view x.0, items.new)) result
        (attribute_at items.old) }
    ensures text { IfSome result (λ x. x.1.now ≡ attribute_text (attribute_view x.0)) }
{
    let (_, _, text) = items.next()?;
    match read_attr(text) {
        Some(attribute) => Some((attribute, text)),
        None => None,
    }
}
