// The constraints of one member, with the places of what is looked up in them.
ghost use Rattle.std.specs.Prelude.{◌≡◌, ◌↔◌, ◌∷◌, ◌++◌, ℕ, List, IfSome, IfNone, IsTrue};
ghost use Rattle.std.specs.List.{AllByRecursion, flat_map};
ghost use Rattle.der_core.specs.Attribute.{Attribute};
ghost use Rattle.der_core.specs.AttributeView.{attribute_view};
ghost use Rattle.der_core.specs.Element.{AreOctets};
ghost use Rattle.der_core.specs.Reads.{Answers};
ghost use Rattle.cert_fields.specs.Constraints.{entry_text, IsEntry, HasOwnTypes};
ghost use Rattle.cert_fields.specs.ConstraintsView.{entry_view};
ghost use Rattle.constraint_meet.specs.Index.{StandsAmong, listed_at};
ghost use Rattle.constraint_meet.specs.Permits.{Passes, entry_for};
ghost use Rattle.constraint_meet.specs.Tests.{passes};

use crate::listed::Listed;
use crate::places::{Part, find_place};
use cert_fields::{Ccc, CccEntry};
use der_core::laws::slice_is_octets;
use der_core::{Attr, Cursor, tags};
use std::marker::Model;

// Constraints in their place, the places of the types of constrained attributes, and those of the
// listed values.
#[derive(Drop)]
pub(crate) struct Indexed<'a> {
    pub(crate) ccc: Ccc<'a>,
    pub(crate) kinds: Vec<u32>,
    pub(crate) values: Vec<u32>,
}

impl<'a> Model for Indexed<'a> {
    ghost use Rattle.std.specs.Prelude.{List};
    ghost use Rattle.cert_fields.specs.Constraints.{ContentConstraint};
    ghost use Rattle.constraint_meet.specs.Index.{AreIndexed};

    ghost Value = { List ContentConstraint };

    ghost view = { λ i. i.ccc };

    ghost invariant = { λ i. AreIndexed i.ccc i.kinds.items i.values.items };
}

// The values that stand behind the type at a place, and how many octets follow them.
#[tactic(auto, unfolding(crate::specs::Index::listed_at))]
fn listed_at(octets: &[u8], place: u32) -> Option<(&[u8], usize)>
    ensures exact { Answers (λ x. (x.0.now, x.1)) result (listed_at octets.now place) }
{
    let start = octets.len().saturating_sub(place as usize);
    let mut fields = Cursor::new(&octets[start..]);
    fields.next()?;
    let values = fields.tagged(tags::SET)?;
    Some((values, fields.rest().len()))
}

impl<'a> Indexed<'a> {
    // The octets of all entries.
    fn octets(&self) -> &'a [u8]
        ensures text { result.now ≡ flat_map entry_text self.now }
        ensures octets { AreOctets result.now }
        ensures each { AllByRecursion IsEntry self.now }
        ensures types { AllByRecursion HasOwnTypes self.now }
    {
        let octets = self.ccc.entries().rest();
        slice_is_octets(octets);
        octets
    }

    // The entry of a content type, and how many octets follow it.
    pub(crate) fn entry_for(&self, content: &[u8]) -> Option<(CccEntry<'a>, usize)>
        ensures exact { Answers (λ x. entry_view x.0) result (entry_for content.now self.now) }
        ensures stands { IfSome result (λ x. StandsAmong self.now (entry_view x.0) x.1) }
    {
        let mut left = self.ccc.entries();
        while let Some(entry) = left.next() {
            if entry.content.octets() == content {
                return Some((entry, left.rest().len()));
            }
        }
        None
    }

    // What an entry asks of attributes of a type.
    fn listed<'b>(
        &'b self,
        entry: &CccEntry<'a>,
        after: usize,
        kind: &'b [u8],
    ) -> Option<Listed<'b>>
        requires stands { StandsAmong self.now (entry_view entry.now) after }
        ensures found { IfSome result (λ listed. (listed.kind ≡ kind.now)
            × ((front : List Attribute) × (back : List Attribute)
            × ((entry_view entry.now).attributes ≡ front ++ listed ∷ back))) }
        ensures none { IfNone result (AllByRecursion (λ a. a.kind ≡ kind.now → ⊥)
            (entry_view entry.now).attributes) }
    {
        let octets = self.octets();
        let size = entry.attributes.rest().len();
        let place = find_place(Part::Contents, octets, &self.kinds, kind, after, size)?;
        let (values, left) = listed_at(octets, place)?;
        Some(Listed {
            kind,
            values,
            left,
            octets,
            places: &self.values,
        })
    }

    // Whether an attribute has what an entry asks of it.
    pub(crate) fn passes(&self, entry: &CccEntry<'a>, after: usize, attribute: &Attr<'_>) -> bool
        requires stands { StandsAmong self.now (entry_view entry.now) after }
        ensures exact { result ≡ passes (entry_view entry.now) (attribute_view attribute.now) }
        ensures tells { IsTrue result
            ↔ Passes (entry_view entry.now) (attribute_view attribute.now) }
    {
        slice_is_octets(self.octets());
        slice_is_octets(attribute.values);
        match self.listed(entry, after, attribute.kind.octets()) {
            Some(listed) => listed.covers_each(attribute.values),
            None => true,
        }
    }
}
