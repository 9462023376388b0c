// Finding the places in constraints.
ghost use Rattle.std.specs.Prelude.{◌≡◌, ◌+◌, ◌<◌, ◌^◌, ◌++◌, length, IfOk, IsTrue};
ghost use Rattle.std.specs.List.{flat_map};
ghost use Rattle.der_core.specs.Attribute.{attribute_text};
ghost use Rattle.der_core.specs.AttributeReading.{are_elements};
ghost use Rattle.constraint_meet.specs.Index.{places_of, value_places, kind_places, all_places};
ghost use Rattle.constraint_meet.specs.Permits.{values_in};

use crate::indexed::Indexed;
use crate::places::{Part, sort_places};
use cert_fields::{AttrConstraints, Ccc};
use der_core::{Cursor, tags};
use std::alloc::{AllocError, Global};

// Adds the places of the values that a SET holds, with `after` octets behind them.
fn push_values(places: &mut Vec<u32>, values: &[u8], after: usize) -> Result<(), AllocError>
    requires elements { IsTrue (are_elements values.now) }
    requires fits { length values.now + after < 2 ^ 32 }
    ensures { IfOk result (λ _. places.new.items
        ≡ places.old.items ++ places_of after (values_in values.now)) }
{
    let mut items = Cursor::new(values);
    let mut left = values.len();
    while let Some(_) = items.next() {
        places.push((left + after) as u32)?;
        left = items.rest().len();
    }
    Ok(())
}

// Adds the places of all values that are listed for constrained attributes.
fn push_listed(
    places: &mut Vec<u32>,
    attributes: &AttrConstraints<'_>,
    after: usize,
) -> Result<(), AllocError>
    requires fits { length (flat_map attribute_text attributes.now) + after < 2 ^ 32 }
    ensures { IfOk result (λ _. places.new.items
        ≡ places.old.items ++ value_places after attributes.now) }
{
    let mut left = attributes.iter();
    while let Some(attribute) = left.next() {
        push_values(places, attribute.values, left.rest().len() + after)?;
    }
    Ok(())
}

// Adds the places of the types of constrained attributes.
fn push_kinds(
    places: &mut Vec<u32>,
    attributes: &AttrConstraints<'_>,
    after: usize,
) -> Result<(), AllocError>
    requires fits { length (flat_map attribute_text attributes.now) + after < 2 ^ 32 }
    ensures { IfOk result (λ _. places.new.items
        ≡ places.old.items ++ kind_places after attributes.now) }
{
    let mut items = Cursor::new(attributes.rest());
    while let Some(contents) = items.tagged(tags::SEQUENCE) {
        places.push((contents.len() + (items.rest().len() + after)) as u32)?;
    }
    Ok(())
}

// The octets of the shortest value, and of the shortest constrained attribute, with one value.
const SHORTEST_VALUE: usize = 2;

const SHORTEST_ATTRIBUTE: usize = 9;

// The places of all listed values.
fn value_places(alloc: Global, ccc: &Ccc<'_>) -> Result<Vec<u32>, AllocError>
    ensures { IfOk result (λ places. places.items ≡ all_places value_places ccc.now) }
{
    let mut left = ccc.entries();
    let mut places = Vec::with_capacity(alloc, left.rest().len() / SHORTEST_VALUE)?;
    while let Some(entry) = left.next() {
        push_listed(&mut places, &entry.attributes, left.rest().len())?;
    }
    Ok(places)
}

// The places of the types of all constrained attributes.
fn kind_places(alloc: Global, ccc: &Ccc<'_>) -> Result<Vec<u32>, AllocError>
    ensures { IfOk result (λ places. places.items ≡ all_places kind_places ccc.now) }
{
    let mut left = ccc.entries();
    let mut places = Vec::with_capacity(alloc, left.rest().len() / SHORTEST_ATTRIBUTE)?;
    while let Some(entry) = left.next() {
        push_kinds(&mut places, &entry.attributes, left.rest().len())?;
    }
    Ok(places)
}

// The same constraints, with what is looked up in them.
pub(crate) fn indexed<'a>(alloc: Global, ccc: &Ccc<'a>) -> Result<Indexed<'a>, AllocError>
    ensures same { IfOk result (λ indexed. indexed ≡ ccc.now) }
{
    let octets = ccc.entries().rest();
    let mut kinds = kind_places(alloc, ccc)?;
    sort_places(Part::Contents, octets, &mut kinds);
    let mut values = value_places(alloc, ccc)?;
    sort_places(Part::Whole, octets, &mut values);
    Ok(Indexed {
        ccc: ccc.again(),
        kinds,
        values,
    })
}
