// Values of lines that were made before: where several content types come down to the same entries for
// any content, what these allow of an attribute is found out once.
ghost use Rattle.std.specs.Prelude.{◌≡◌, ◌++◌, List, ℕ, IfOk, IfSome, IsTrue, OnOk, map, string_bytes};
ghost use Rattle.der_core.specs.AttributeView.{attribute_view};
ghost use Rattle.explain_text.specs.GrantText.{kind_line};
ghost use Rattle.explain_text.specs.Kept.{AddsValues, IsOfEach};
ghost use Rattle.explain_text.specs.Ordered.{AreExactly};

use crate::member::Member;
use crate::ordered::put_types_in_order;
use crate::values::push_shared;
use cert_fields::AttrConstraints;
use constraint_meet::ANY_CONTENT;
use der_core::{Attr, Oid};
use report_text::push_oid;
use std::alloc::{AllocError, Global};
use std::marker::Model;

// Attributes of one type, seen with the text of the values that they all allow.
#[derive(Drop)]
struct Values<'a> {
    attributes: Vec<Attr<'a>>,
    text: String,
}

impl<'a> Model for Values<'a> {
    ghost use Rattle.std.specs.Prelude.{[], ℕ, List, map, string_bytes};
    ghost use Rattle.der_core.specs.Attribute.{Attribute};
    ghost use Rattle.der_core.specs.AttributeView.{attribute_view};
    ghost use Rattle.explain_text.specs.Kept.{AddsValues};

    ghost Value = { List Attribute × List ℕ };

    ghost view = { λ v. (map attribute_view v.attributes.items, string_bytes v.text) };

    ghost invariant = { λ v. AddsValues (map attribute_view v.attributes.items) []
        (string_bytes v.text) };
}

// Whether they are the same one by one.
fn are_same(these: &[Attr<'_>], those: &[Attr<'_>]) -> bool
    ensures { IsTrue result
        → map attribute_view these.now ≡ map attribute_view those.now }
{
    if these.len() != those.len() {
        return false;
    }
    for place in 0..these.len() {
        if !is_same(&these[place], &those[place]) {
            return false;
        }
    }
    true
}

fn is_same(this: &Attr<'_>, that: &Attr<'_>) -> bool
    ensures { IsTrue result → attribute_view this.now ≡ attribute_view that.now }
{
    this.kind == that.kind && this.values == that.values
}

impl<'a> Values<'a> {
    fn new(alloc: Global, attributes: &[Attr<'a>]) -> Result<Values<'a>, AllocError>
        ensures same { IfOk result (λ values. values.0 ≡ map attribute_view attributes.now) }
    {
        let mut text = String::new(alloc);
        push_shared(alloc, &mut text, attributes)?;
        Ok(Values {
            attributes: attributes.to_vec(alloc)?,
            text,
        })
    }

    // Whether they are the values of these attributes.
    fn are_of(&self, attributes: &[Attr<'_>]) -> bool
        ensures { IsTrue result → self.now.0 ≡ map attribute_view attributes.now }
    {
        are_same(&self.attributes, attributes)
    }

    // Appends them.
    fn push_to(&self, text: &mut String) -> Result<(), AllocError>
        ensures ok { OnOk result
            (AddsValues self.now.0 (string_bytes text.old) (string_bytes text.new)) }
    {
        text.push_str(&self.text)
    }
}

// Those of these attributes, where they were made before.
fn find_values<'b, 'a>(all: &'b [Values<'a>], attributes: &[Attr<'_>]) -> Option<&'b Values<'a>>
    ensures { IfSome result (λ values. values.now.0 ≡ map attribute_view attributes.now) }
{
    for values in all {
        if values.are_of(attributes) {
            return Some(values);
        }
    }
    None
}

// Appends the values that these attributes allow, and keeps them.
fn push_kept<'a>(
    alloc: Global,
    text: &mut String,
    all: &mut Vec<Values<'a>>,
    attributes: &[Attr<'a>],
) -> Result<(), AllocError>
    ensures ok { OnOk result (AddsValues (map attribute_view attributes.now)
        (string_bytes text.old) (string_bytes text.new)) }
{
    if let Some(values) = find_values(all, attributes) {
        return values.push_to(text);
    }
    let values = Values::new(alloc, attributes)?;
    values.push_to(text)?;
    all.reserve(1)?;
    all.push_reserved(values);
    Ok(())
}

// Adds the types of constrained attributes.
fn push_kinds(kinds: &mut Vec<Oid>, attributes: &AttrConstraints<'_>) -> Result<(), AllocError> {
    let mut left = attributes.iter();
    while let Some(attribute) = left.next() {
        kinds.push(attribute.kind)?;
    }
    Ok(())
}

// The types of attributes that the members' entries of a content type constrain, in order. What is
// printed doesn't depend on them.
fn kinds_for(
    alloc: Global,
    members: &[Member<'_>],
    content: &[u8],
) -> Result<Vec<Oid>, AllocError> {
    let mut kinds = Vec::new(alloc);
    for member in members {
        if let Some(entry) = member.entry_for(content) {
            push_kinds(&mut kinds, &entry.attributes)?;
        }
    }
    put_types_in_order(&mut kinds);
    Ok(kinds)
}

fn place_in(kinds: &[Oid], kind: &Oid) -> Option<usize> {
    kinds
        .binary_search_by(|other| other.octets().cmp(kind.octets()))
        .ok()
}

// What was made of attributes that entries for any content alone constrain, by their types.
#[derive(Drop)]
pub(crate) struct Memo<'a> {
    // The types that entries for any content constrain, in order.
    kinds: Vec<Oid>,
    made: Vec<Vec<Values<'a>>>,
    // Those that entries of the present content type constrain.
    own: Vec<Oid>,
}

impl<'a> Memo<'a> {
    pub(crate) fn new(alloc: Global, members: &[Member<'a>]) -> Result<Memo<'a>, AllocError> {
        let kinds = kinds_for(alloc, members, &ANY_CONTENT)?;
        let mut made = Vec::new(alloc);
        for _ in &kinds {
            made.reserve(1)?;
            made.push_reserved(Vec::new(alloc));
        }
        Ok(Memo {
            kinds,
            made,
            own: Vec::new(alloc),
        })
    }

    // Goes on to another content type.
    pub(crate) fn turn_to(
        &mut self,
        alloc: Global,
        members: &[Member<'a>],
        content: &[u8],
    ) -> Result<(), AllocError> {
        self.own = kinds_for(alloc, members, content)?;
        Ok(())
    }

    // Those that are kept of a type: none where an entry of the present content type constrains it,
    // since that entry decides for no other.
    fn made_of(&mut self, kind: &Oid) -> Option<&mut Vec<Values<'a>>> {
        if place_in(&self.own, kind).is_some() {
            return None;
        }
        let place = place_in(&self.kinds, kind)?;
        self.made.get_mut(place)
    }

    // Appends the values of these attributes, which are all of one type.
    fn push_values(
        &mut self,
        alloc: Global,
        text: &mut String,
        kind: &Oid,
        attributes: &[Attr<'a>],
    ) -> Result<(), AllocError>
        ensures ok { OnOk result (AddsValues (map attribute_view attributes.now)
            (string_bytes text.old) (string_bytes text.new)) }
    {
        match self.made_of(kind) {
            Some(made) => push_kept(alloc, text, made, attributes),
            None => push_shared(alloc, text, attributes),
        }
    }

    // The line of a type of attributes, where these are all that are of it.
    pub(crate) fn push_kind(
        &mut self,
        alloc: Global,
        text: &mut String,
        kind: &Oid,
        attributes: &[Attr<'a>],
    ) -> Result<(), AllocError>
        ensures ok { OnOk result ((values : List (List ℕ))
            × AreExactly (IsOfEach (map attribute_view attributes.now)) values
            × (string_bytes text.new ≡ string_bytes text.old ++ kind_line kind.now values)) }
    {
        text.push_str("attr ")?;
        push_oid(alloc, text, kind)?;
        self.push_values(alloc, text, kind, attributes)?;
        text.push('\n')
    }
}
