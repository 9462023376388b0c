// The entries of content constraints, in their place.
ghost use Rattle.std.specs.Prelude.{◌≡◌};
ghost use Rattle.std.specs.Iterator.{YieldsFirst, YieldsFirstBy, item_count};
ghost use Rattle.std.specs.List.{AllByRecursion, flat_map};
ghost use Rattle.der_core.specs.Attribute.{attribute_text};
ghost use Rattle.der_core.specs.AttributeView.{attribute_view};
ghost use Rattle.attribute_set.specs.Items.{items_of, AreItems};
ghost use Rattle.cert_fields.specs.Constraints.{entry_text, IsConstrained, IsEntry};
ghost use Rattle.cert_fields.specs.ConstraintsReading.{constrained_at, entry_at};
ghost use Rattle.cert_fields.specs.ConstraintsView.{entry_view};

use crate::constraints::{read_constrained, read_entry};
use der_core::{Attr, Cursor, Oid};
use std::marker::Model;

/// Constrained attributes with their listed values, in their order, each read from its octets when it
/// is asked for (AttrConstraintList; RFC 6010, section 3). Takes no memory.
#[derive(Drop)]
pub struct AttrConstraints<'a> {
    pub(crate) octets: &'a [u8],
}

impl<'a> Model for AttrConstraints<'a> {
    ghost use Rattle.std.specs.Prelude.{List};
    ghost use Rattle.der_core.specs.Attribute.{Attribute};
    ghost use Rattle.attribute_set.specs.Items.{items_of, AreItems};
    ghost use Rattle.cert_fields.specs.ConstraintsReading.{constrained_at};

    ghost Value = { List Attribute };

    ghost view = { λ a. items_of constrained_at a.octets.now };

    ghost invariant = { λ a. AreItems constrained_at a.octets.now };
}

impl<'a> AttrConstraints<'a> {
    /// The same constrained attributes, to go through.
    pub fn iter(&self) -> AttrConstraints<'a>
        ensures same { result ≡ self.now }
    {
        AttrConstraints {
            octets: self.octets,
        }
    }

    /// The octets of those that haven't been passed: their texts, one after the other.
    pub fn rest(&self) -> &'a [u8]
        ensures text { result.now ≡ flat_map attribute_text self.now }
        ensures each { AllByRecursion IsConstrained self.now }
    {
        attributes_text(self.octets)
    }
}

impl<'a> AttrConstraints<'a> {
    // The octets that they are.
    pub(crate) fn octets(&self) -> &'a [u8]
        ensures items { AreItems constrained_at result.now }
        ensures same { items_of constrained_at result.now ≡ self.now }
    {
        self.octets
    }
}

impl<'a> Iterator for AttrConstraints<'a> {
    type Item = Attr<'a>;

    ghost next_gives = { YieldsFirstBy attribute_view (λ attributes. attributes) };

    ghost remaining = { item_count (λ attributes. attributes) };

    fn next(&mut self) -> Option<Attr<'a>> {
        let mut items = Cursor::new(self.octets);
        let Some(attribute) = read_constrained(&mut items) else {
            return None;
        };
        self.octets = items.rest();
        Some(attribute)
    }
}

/// What is said of a content type (ContentTypeConstraint; RFC 6010, section 3).
#[derive(Drop)]
pub struct CccEntry<'a> {
    /// The content type.
    pub content: Oid,
    /// Whether content of this type may be signed first, canSource, or not, cannotSource.
    pub can_source: bool,
    /// The attributes that are constrained, each with at least one listed value. There may be none.
    pub attributes: AttrConstraints<'a>,
}

/// Entries in their order, each read from its octets when it is asked for. Takes no memory.
#[derive(Drop)]
pub struct Entries<'a> {
    pub(crate) octets: &'a [u8],
}

impl<'a> Model for Entries<'a> {
    ghost use Rattle.std.specs.Prelude.{List};
    ghost use Rattle.attribute_set.specs.Items.{items_of, AreItems};
    ghost use Rattle.cert_fields.specs.Constraints.{ContentConstraint};
    ghost use Rattle.cert_fields.specs.ConstraintsReading.{entry_at};

    ghost Value = { List ContentConstraint };

    ghost view = { λ e. items_of entry_at e.octets.now };

    ghost invariant = { λ e. AreItems entry_at e.octets.now };
}

impl<'a> Entries<'a> {
    /// The octets of those that haven't been passed: their texts, one after the other.
    pub fn rest(&self) -> &'a [u8]
        ensures text { result.now ≡ flat_map entry_text self.now }
        ensures each { AllByRecursion IsEntry self.now }
    {
        entries_text(self.octets)
    }
}

impl<'a> Iterator for Entries<'a> {
    type Item = CccEntry<'a>;

    ghost next_gives = { YieldsFirstBy entry_view (λ entries. entries) };

    ghost remaining = { item_count (λ entries. entries) };

    fn next(&mut self) -> Option<CccEntry<'a>> {
        let mut items = Cursor::new(self.octets);
        let Some(entry) = read_entry(&mut items) else {
            return None;
        };
        self.octets = items.rest();
        Some(entry)
    }
}

// Octets that are constrained attributes are their texts.
fn attributes_text(octets: &[u8]) -> &[u8]
    requires items { AreItems constrained_at octets.now }
    ensures same { result.now ≡ octets.now }
    ensures text { octets.now ≡ flat_map attribute_text (items_of constrained_at octets.now) }
    ensures each { AllByRecursion IsConstrained (items_of constrained_at octets.now) }
{
    octets
}

// Octets that are entries are their texts.
pub(crate) fn entries_text(octets: &[u8]) -> &[u8]
    requires items { AreItems entry_at octets.now }
    ensures same { result.now ≡ octets.now }
    ensures text { octets.now ≡ flat_map entry_text (items_of entry_at octets.now) }
    ensures each { AllByRecursion IsEntry (items_of entry_at octets.now) }
{
    octets
}
