// A constrained attribute, with its listed values.
ghost use Rattle.std.specs.Prelude.{◌≡◌, IsTrue, bytes_eq};
ghost use Rattle.std.specs.List.{list_any};
ghost use Rattle.der_core.specs.AttributeReading.{are_elements};
ghost use Rattle.constraint_meet.specs.Permits.{values_in};
ghost use Rattle.constraint_meet.specs.Tests.{is_covered, are_covered};

use crate::covers::{is_by_octets, one_covers};
use crate::places::{Part, find_place};
use der_core::Cursor;
use std::marker::Model;

// A constrained attribute, in its place: its type, and the contents of the SET of its listed values.
#[derive(Drop)]
pub(crate) struct Listed<'a> {
    // The octets of its type.
    pub(crate) kind: &'a [u8],
    pub(crate) values: &'a [u8],
    // The number of octets behind the values.
    pub(crate) left: usize,
    // The octets of all entries, and the places of all values that are listed in them.
    pub(crate) octets: &'a [u8],
    pub(crate) places: &'a [u32],
}

impl<'a> Model for Listed<'a> {
    ghost use Rattle.std.specs.Prelude.{IsTrue};
    ghost use Rattle.der_core.specs.Attribute.{Attribute};
    ghost use Rattle.der_core.specs.AttributeReading.{are_elements};
    ghost use Rattle.constraint_meet.specs.Index.{AreLookedUp};

    ghost Value = { Attribute };

    ghost view = { λ l. record { kind = l.kind.now; values = l.values.now } };

    ghost invariant = { λ l. IsTrue (are_elements l.values.now)
        × AreLookedUp l.octets.now l.places.now l.left l.values.now };
}

impl<'a> Listed<'a> {
    // Whether this is one of the listed values.
    fn has(&self, value: &[u8]) -> bool
        ensures { result
            ≡ list_any (λ one. bytes_eq one value.now) (values_in self.now.values) }
    {
        find_place(
            Part::Whole,
            self.octets,
            self.places,
            value,
            self.left,
            self.values.len(),
        )
        .is_some()
    }

    // Whether a listed value covers this one.
    fn covers(&self, value: &[u8]) -> bool
        ensures { result ≡ is_covered self.now value.now }
    {
        if is_by_octets(self.kind) {
            self.has(value)
        } else {
            one_covers(self.kind, self.values, value)
        }
    }

    // Whether listed values cover each of these, which a SET holds.
    pub(crate) fn covers_each(&self, values: &[u8]) -> bool
        requires elements { IsTrue (are_elements values.now) }
        ensures { result ≡ are_covered self.now values.now }
    {
        let mut items = Cursor::new(values);
        while let Some((_, _, value)) = items.next() {
            if !self.covers(value) {
                return false;
            }
        }
        true
    }
}
