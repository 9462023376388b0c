// What the entries that decide for a content type constrain.
ghost use Rattle.std.specs.Prelude.{◌≡◌, ◌++◌, IfOk, OnOk, IfSome, IsPermutation, map, option_map};
ghost use Rattle.der_core.specs.AttributeView.{attribute_view};
ghost use Rattle.der_core.specs.Reads.{Answers};
ghost use Rattle.explain_text.specs.Granted.{sources_of, constrained_by, IsKind};
ghost use Rattle.explain_text.specs.Kept.{AscendByKind};
ghost use Rattle.explain_text.specs.Ordered.{AreExactly};

use crate::member::Member;
use crate::ordered::put_types_in_order;
use cert_fields::AttrConstraints;
use der_core::{Attr, Oid};
use std::alloc::{AllocError, Global};

// Adds constrained attributes.
fn push_constrained<'a>(
    all: &mut Vec<Attr<'a>>,
    attributes: &AttrConstraints<'a>,
) -> Result<(), AllocError>
    ensures { OnOk result (map attribute_view all.new.items
        ≡ map attribute_view all.old.items ++ attributes.now) }
{
    let mut left = attributes.iter();
    while let Some(attribute) = left.next() {
        all.reserve(1)?;
        all.push_reserved(attribute);
    }
    Ok(())
}

// What the deciding entries of all members constrain, where each member has one that says canSource.
pub(crate) fn constrained_by<'a>(
    alloc: Global,
    members: &[Member<'a>],
    content: &[u8],
) -> Result<Option<Vec<Attr<'a>>>, AllocError>
    ensures exact { IfOk result (λ answer. Answers (λ all. map attribute_view all.items) answer
        (option_map constrained_by (sources_of content.now members.now))) }
{
    let mut all = Vec::new(alloc);
    for member in members {
        let Some(source) = member.source_of(content) else {
            return Ok(None);
        };
        push_constrained(&mut all, &source.attributes)?;
    }
    Ok(Some(all))
}

// The attributes in ascending order of their types. Takes no memory.
pub(crate) fn in_order(mut attributes: Vec<Attr<'_>>) -> Vec<Attr<'_>>
    ensures same { IsPermutation attributes.entry.items result.items }
    ensures ordered { AscendByKind result.items }
{
    attributes.sort_unstable_by(|this, that| this.kind.octets().cmp(that.kind.octets()));
    attributes
}

// The types of attributes, in ascending order, each once.
pub(crate) fn kinds_of(alloc: Global, attributes: &[Attr<'_>]) -> Result<Vec<Oid>, AllocError>
    ensures { IfOk result (λ kinds. AreExactly (IsKind (map attribute_view attributes.now)) kinds.items) }
{
    let mut kinds = Vec::new(alloc);
    for attribute in attributes {
        kinds.push(attribute.kind)?;
    }
    put_types_in_order(&mut kinds);
    Ok(kinds)
}
