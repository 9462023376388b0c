// Reading attributes that stand in the order of DER.
ghost use Rattle.std.specs.Prelude.{◌≡◌, ◌↔◌, IsTrue, IfOk, IfSome, IsSorted, map, bytes_eq};
ghost use Rattle.std.specs.List.{IsDistinct};
ghost use Rattle.std.specs.Ordering.{nat_cmp};
ghost use Rattle.std.specs.Cmp.Lexicographic.{slice_cmp};
ghost use Rattle.der_core.specs.Attribute.{attribute_text};
ghost use Rattle.der_core.specs.AttributeReading.{attribute_at};
ghost use Rattle.der_core.specs.Reads.{Reads};
ghost use Rattle.attribute_set.specs.AttributeSet.{set_contents, IsAttributeSet};
ghost use Rattle.attribute_set.specs.Items.{items_of, AreItems};

use crate::attributes::{Attributes, read_next};
use crate::types::have_own_types;
use der_core::Cursor;
use std::alloc::{AllocError, Global};

// Whether the octets are attributes, one after the other, and none stands before one that is less.
fn ascend(contents: &[u8]) -> bool
    ensures { IsTrue result ↔ AreItems attribute_at contents.now × IsSorted (slice_cmp nat_cmp)
        (map attribute_text (items_of attribute_at contents.now)) }
{
    let mut last: &[u8] = &[];
    let mut items = Cursor::new(contents);
    while !items.at_end() {
        let Some((_, text)) = read_next(&mut items) else {
            return false;
        };
        if text < last {
            return false;
        }
        last = text;
    }
    true
}

/// The attributes that the contents of a SET are, in ascending order of their octets and with no
/// type twice. None where they are no such attributes. Takes 8 octets of memory for each attribute
/// while it reads, of 7 octets at least, and keeps none.
pub fn read_attribute_set<'a>(
    alloc: Global,
    contents: &'a [u8],
) -> Result<Option<Attributes<'a>>, AllocError>
    ensures spelled { IfOk result (λ answer.
        Reads set_contents IsAttributeSet contents.now answer) }
    ensures distinct { IfOk result (λ answer. IfSome answer (λ attributes.
        IsDistinct bytes_eq (map (λ attribute. attribute.kind) attributes))) }
{
    if ascend(contents) && have_own_types(alloc, contents)? {
        Ok(Some(Attributes { octets: contents }))
    } else {
        Ok(None)
    }
}
