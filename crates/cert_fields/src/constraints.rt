// Content constraints.
ghost use Rattle.std.specs.Prelude.{◌≡◌, ◌↔◌, IsTrue, IfOk, IfSome, is_some, map, bytes_eq, Some, List};
ghost use Rattle.std.specs.List.{AllByRecursion, IsDistinct, flat_map};
ghost use Rattle.der_core.specs.Element.{HasRoom};
ghost use Rattle.der_core.specs.Reads.{Reads, Answers};
ghost use Rattle.der_core.specs.AttributeReading.{attribute_of};
ghost use Rattle.der_core.specs.Shapes.{listed, tested};
ghost use Rattle.der_core.specs.AttributeView.{attribute_view};
ghost use Rattle.attribute_set.specs.Items.{items_of, AreItems};
ghost use Rattle.cert_fields.specs.Constraints.{ContentConstraint, constraints_text, entry_text, AreConstraints, HasOwnTypes};
ghost use Rattle.cert_fields.specs.AnchorView.{kept_constraints};
ghost use Rattle.cert_fields.specs.ConstraintsReading.{type_at, source_at, has_values, constrained_at};
ghost use Rattle.cert_fields.specs.ConstraintsReading.{list_of, attributes_list_of, attributes_of};
ghost use Rattle.cert_fields.specs.ConstraintsReading.{entry_of, entry_at, HaveOwnContents};
ghost use Rattle.cert_fields.specs.ConstraintsView.{entry_view};

use crate::entries::entries_text;
use crate::{AttrConstraints, CccEntry, Entries};
use attribute_set::have_own_types;
use der_core::{Attr, Cursor, Oid, read_attr, read_oid, tags};
use std::alloc::{AllocError, Global};
use std::marker::Model;

/// Content constraints in their order (RFC 6010, section 3). They stay in place in their octets, and
/// no content type stands twice in them, nor an attribute type in one entry.
#[derive(Drop)]
pub struct Ccc<'a> {
    // The contents of the SEQUENCE.
    octets: &'a [u8],
    ghost fits: { HasRoom octets.now },
}

impl<'a> Model for Ccc<'a> {
    ghost use Rattle.std.specs.Prelude.{List};
    ghost use Rattle.attribute_set.specs.Items.{items_of};
    ghost use Rattle.cert_fields.specs.Constraints.{ContentConstraint};
    ghost use Rattle.cert_fields.specs.ConstraintsReading.{entry_at, HaveOwnContents};

    ghost Value = { List ContentConstraint };

    ghost view = { λ c. items_of entry_at c.octets.now };

    ghost invariant = { λ c. HaveOwnContents c.octets.now };
}

impl<'a> Ccc<'a> {
    /// The entries, to go through.
    pub fn entries(&self) -> Entries<'a>
        ensures same { result ≡ self.now }

        // no content type stands twice, nor an attribute type in one entry
        ensures contents { IsDistinct bytes_eq (map (λ e. e.content) self.now) }
        ensures types { AllByRecursion HasOwnTypes self.now }

        // their texts together are shorter than 2^32
        ensures fits { HasRoom (flat_map entry_text self.now) }
    {
        Entries {
            octets: entries_text(self.octets),
        }
    }

    /// The same constraints once more. Takes no memory.
    pub fn again(&self) -> Ccc<'a>
        ensures same { result ≡ self.now }
    {
        Ccc {
            octets: self.octets,
        }
    }
}

// The identifier at the front.
#[tactic(auto, unfolding(crate::specs::ConstraintsReading::type_at))]
pub(crate) fn read_type(items: &mut Cursor<'_>) -> Option<Oid>
    ensures exact { Answers (λ kind. (kind, items.new)) result (type_at items.old) }
{
    read_oid(items.tagged(tags::OBJECT_IDENTIFIER)?)
}

// Whether canSource is said at the front.
#[tactic(auto, unfolding(crate::specs::ConstraintsReading::source_at, crate::specs::ConstraintsReading::source_of))]
fn read_source(items: &mut Cursor<'_>) -> Option<bool>
    ensures { Answers (λ can_source. (can_source, items.new)) result (source_at items.old) }
{
    match items.tagged(tags::ENUMERATED)? {
        [0] => Some(true),
        [1] => Some(false),
        _ => None,
    }
}

// The constrained attribute that octets are.
fn constrained_in(octets: &[u8]) -> Option<Attr<'_>>
    ensures exact { Answers attribute_view result (tested has_values attribute_of octets.now) }
{
    let Some(attribute) = read_attr(octets) else {
        return None;
    };
    if attribute.values.is_empty() {
        return None;
    }
    Some(attribute)
}

// The constrained attribute at the front.
#[tactic(auto, unfolding(crate::specs::ConstraintsReading::constrained_at))]
pub(crate) fn read_constrained<'a>(items: &mut Cursor<'a>) -> Option<Attr<'a>>
    ensures exact { Answers (λ a. (attribute_view a, items.new)) result
        (constrained_at items.old) }
{
    let (_, _, octets) = items.next()?;
    let Some(attribute) = constrained_in(octets) else {
        return None;
    };
    Some(attribute)
}

// Whether the octets are constrained attributes, one after the other.
fn are_constrained(contents: &[u8]) -> bool
    ensures { result ≡ is_some (listed constrained_at contents.now) }
{
    let mut items = Cursor::new(contents);
    while !items.at_end() {
        let Some(_) = read_constrained(&mut items) else {
            return false;
        };
    }
    true
}

// The contents of a SEQUENCE, of which there are some.
#[tactic(auto, unfolding(crate::specs::ConstraintsReading::list_of))]
fn list_in<'a>(rest: &mut Cursor<'a>) -> Option<&'a [u8]>
    ensures exact { Answers (λ contents. contents.now) result (list_of rest.old) }
    ensures fits { IfSome result (λ contents. HasRoom contents.now) }
{
    let contents = rest.tagged(tags::SEQUENCE)?;
    if contents.is_empty() || !rest.at_end() {
        return None;
    }
    Some(contents)
}

// The constrained attributes that are left, in a SEQUENCE.
fn read_attributes_list<'a>(rest: &mut Cursor<'a>) -> Option<AttrConstraints<'a>>
    ensures exact { Answers (λ a. a) result (attributes_list_of rest.old) }
{
    let Some(octets) = list_in(rest) else {
        return None;
    };
    if are_constrained(octets) {
        Some(AttrConstraints { octets })
    } else {
        None
    }
}

// The constrained attributes, where any octets are left.
fn read_attributes<'a>(rest: &mut Cursor<'a>) -> Option<AttrConstraints<'a>>
    ensures exact { Answers (λ a. a) result (attributes_of rest.old) }
{
    if rest.at_end() {
        return Some(AttrConstraints {
            octets: rest.rest(),
        });
    }
    read_attributes_list(rest)
}

// The entry that octets are.
#[tactic(auto, unfolding(crate::specs::ConstraintsReading::entry_of))]
fn read_parts(contents: &[u8]) -> Option<CccEntry<'_>>
    ensures exact { Answers entry_view result (entry_of contents.now) }
{
    let mut parts = Cursor::new(contents);
    let Some(content) = read_type(&mut parts) else {
        return None;
    };
    let mut can_source = true;
    if parts.is_at(tags::ENUMERATED) {
        can_source = read_source(&mut parts)?;
        if can_source {
            return None;
        }
    }
    let Some(attributes) = read_attributes(&mut parts) else {
        return None;
    };
    Some(CccEntry {
        content,
        can_source,
        attributes,
    })
}

// The entry at the front.
#[tactic(auto, unfolding(crate::specs::ConstraintsReading::entry_at))]
pub(crate) fn read_entry<'a>(items: &mut Cursor<'a>) -> Option<CccEntry<'a>>
    ensures exact { Answers (λ e. (entry_view e, items.new)) result (entry_at items.old) }
{
    let contents = items.tagged(tags::SEQUENCE)?;
    match read_parts(contents) {
        Some(entry) => Some(entry),
        None => None,
    }
}

// Whether the octets are entries, one after the other, of which types may stand twice.
fn are_entries(contents: &[u8]) -> bool
    ensures { result ≡ is_some (listed entry_at contents.now) }
{
    let mut items = Cursor::new(contents);
    while !items.at_end() {
        let Some(_) = read_entry(&mut items) else {
            return false;
        };
    }
    true
}

// Whether no type of the constrained attributes stands twice.
fn have_own_kinds(alloc: Global, attributes: &[u8]) -> Result<bool, AllocError>
    requires { AreItems constrained_at attributes.now }
    ensures { IfOk result (λ own. IsTrue own
        ↔ IsDistinct bytes_eq (map (λ a. a.kind) (items_of constrained_at attributes.now))) }
{
    have_own_types(alloc, attributes)
}

// Whether no attribute type stands twice in one of the entries.
fn have_own_attributes(alloc: Global, entries: &[u8]) -> Result<bool, AllocError>
    requires { AreItems entry_at entries.now }
    ensures { IfOk result (λ own. IsTrue own
        ↔ AllByRecursion HasOwnTypes (items_of entry_at entries.now)) }
{
    let mut left = Entries { octets: entries };
    while let Some(entry) = left.next() {
        if !have_own_kinds(alloc, entry.attributes.octets())? {
            return Ok(false);
        }
    }
    Ok(true)
}

// Whether the octets are entries of which no content type stands twice, nor an attribute type in
// one.
fn have_own_contents(alloc: Global, entries: &[u8]) -> Result<bool, AllocError>
    ensures { IfOk result (λ own. IsTrue own ↔ HaveOwnContents entries.now) }
{
    if are_entries(entries) && have_own_types(alloc, entries)? {
        have_own_attributes(alloc, entries)
    } else {
        Ok(false)
    }
}

/// The content constraints whose text the octets are, all of them (RFC 6010, section 3). It takes
/// memory to see that no type stands twice, 8 octets for each entry or each constrained attribute of
/// one, and gives it back.
pub fn read_ccc(alloc: Global, bytes: &[u8]) -> Result<Option<Ccc<'_>>, AllocError>
    ensures spelled { IfOk result (λ answer. Reads constraints_text AreConstraints bytes.now answer) }
{
    let Some(octets) = list_in(&mut Cursor::new(bytes)) else {
        return Ok(None);
    };
    if have_own_contents(alloc, octets)? {
        Ok(Some(Ccc { octets }))
    } else {
        Ok(None)
    }
}

// The content constraints whose text the octets are, where it is known that they are one.
pub(crate) fn ccc_of(text: &[u8]) -> Option<Ccc<'_>>
    requires { (entries : List ContentConstraint)
        × AreConstraints entries × (text.now ≡ constraints_text entries) }
    ensures { result ≡ Some (kept_constraints text.now) }
{
    match list_in(&mut Cursor::new(text)) {
        Some(octets) => Some(Ccc { octets }),
        None => None,
    }
}
