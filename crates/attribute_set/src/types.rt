// Whether elements have types of their own.
ghost use Rattle.std.specs.Prelude.{◌≡◌, ◌↔◌, IsTrue, IfOk, length, map, option_map};
ghost use Rattle.der_core.specs.Reads.{Answers};
ghost use Rattle.der_core.specs.Shapes.{listed};
ghost use Rattle.attribute_set.specs.Items.{items_of, AreItems};
ghost use Rattle.attribute_set.specs.Types.{first_type, type_at, first_kind, kind_at, HaveOwnTypes};

use der_core::{Cursor, tags};
use std::alloc::{AllocError, Global};

// The type that stands first in the octets.
#[tactic(auto, unfolding(crate::specs::Types::first_type))]
fn first_type(octets: &[u8]) -> Option<&[u8]>
    ensures exact { Answers (λ kind. kind.now) result (first_type octets.now) }
{
    let mut fields = Cursor::new(octets);
    fields.tagged(tags::OBJECT_IDENTIFIER)
}

// The type that stands first in the SEQUENCE at the front.
#[tactic(auto, unfolding(crate::specs::Types::type_at))]
fn read_type<'a>(items: &mut Cursor<'a>) -> Option<&'a [u8]>
    ensures exact { Answers (λ kind. (kind.now, items.new)) result (type_at items.old) }
{
    first_type(items.tagged(tags::SEQUENCE)?)
}

// The same of octets.
#[tactic(auto, unfolding(crate::specs::Types::first_kind))]
fn first_kind(octets: &[u8]) -> Option<&[u8]>
    ensures exact { Answers (λ kind. kind.now) result (first_kind octets.now) }
{
    let mut items = Cursor::new(octets);
    read_type(&mut items)
}

// The same from a place on.
fn kind_at(octets: &[u8], place: usize) -> &[u8]
    ensures { result.now ≡ kind_at octets.now place }
{
    match octets.get(place..) {
        Some(rest) => first_kind(rest).unwrap_or(&[]),
        None => &[],
    }
}

// How many elements there are, where a type stands first in each.
fn count_types(contents: &[u8]) -> Option<usize>
    ensures { Answers (λ count. count) result (option_map length (listed type_at contents.now)) }
{
    let mut count = 0;
    let mut items = Cursor::new(contents);
    while !items.at_end() {
        if read_type(&mut items).is_none() {
            return None;
        }
        count += 1;
    }
    Some(count)
}

// Where each element begins.
fn places(alloc: Global, contents: &[u8], count: usize) -> Result<Vec<usize>, AllocError>
    requires { AreItems type_at contents.now }
    ensures { IfOk result (λ places. map (kind_at contents.now) places.items
        ≡ items_of type_at contents.now) }
{
    let size = contents.len();
    let mut places = Vec::with_capacity(alloc, count)?;
    let mut items = Cursor::new(contents);
    while let Some((_, _, element)) = items.next() {
        places.push(size - items.rest().len() - element.len())?;
    }
    Ok(places)
}

/// Whether the octets are SEQUENCEs, one after the other, in each of which an OBJECT IDENTIFIER
/// stands first, and no two of these are equal: no type stands twice among attributes, extensions or
/// what else begins so. Takes 8 octets of memory for each element, and keeps none.
pub fn have_own_types(alloc: Global, contents: &[u8]) -> Result<bool, AllocError>
    ensures own { IfOk result (λ own. IsTrue own ↔ HaveOwnTypes contents.now) }
{
    let Some(count) = count_types(contents) else {
        return Ok(false);
    };
    let mut places = places(alloc, contents, count)?;
    places.sort_unstable_by(|this, that| kind_at(contents, *this).cmp(kind_at(contents, *that)));
    Ok(places.is_sorted_by(|this, next| kind_at(contents, *this) < kind_at(contents, *next)))
}
