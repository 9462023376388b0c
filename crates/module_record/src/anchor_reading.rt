// Reading the trust anchors of a module record.
ghost use Rattle.std.specs.Prelude.{◌≡◌, ◌↔◌, List, IsTrue, IfOk, Some, option_map};
ghost use Rattle.der_core.specs.Reads.{Answers};
ghost use Rattle.der_core.specs.Shapes.{listed};
ghost use Rattle.cert_fields.specs.Anchor.{TrustAnchor};
ghost use Rattle.cert_fields.specs.AnchorView.{text_view};
ghost use Rattle.cert_fields.specs.View.{part_view};
ghost use Rattle.module_record.specs.ModuleRecord.{IsKeyText};
ghost use Rattle.module_record.specs.ModuleReading.{constraints_in, anchor_of, anchor_at, IsMadeOf, AreMadeOf};
ghost use Rattle.module_record.specs.ModuleView.{anchor_parts};

use crate::key_record::array_of;
use crate::limits::MOST_CONSTRAINTS;
use crate::lists::Anchors;
use cert_fields::Anchor;
use der_core::{Cursor, Octets64, tags};
use hss_chain::hss_key;
use std::alloc::{AllocError, Global};

// An anchor's parts, in their place.
#[derive(Drop)]
pub(crate) struct AnchorFields<'a> {
    pub subject: &'a [u8],
    pub key_id: Octets64,
    pub key: [u8; 60],
    pub constraints: Option<&'a [u8]>,
}

// What stands in [0], where that is all that is left.
#[tactic(auto, unfolding(crate::specs::ModuleReading::constraints_in))]
fn read_constraints<'a>(rest: &mut Cursor<'a>) -> Option<&'a [u8]>
    ensures exact { Answers (λ octets. octets.now) result (constraints_in rest.old) }
{
    let octets = rest.tagged(tags::CONSTRUCTED_0)?;
    if octets.len() > MOST_CONSTRAINTS || !rest.at_end() {
        return None;
    }
    Some(octets)
}

// The fields of an anchor.
#[tactic(auto, unfolding(crate::specs::ModuleReading::anchor_of))]
fn read_fields(contents: &[u8]) -> Option<AnchorFields<'_>>
    ensures exact { Answers anchor_parts result (anchor_of contents.now) }
{
    let mut parts = Cursor::new(contents);
    let subject = parts.whole(tags::SEQUENCE)?;
    let key_id = Octets64::some(parts.tagged(tags::OCTET_STRING)?)?;
    let key = array_of(parts.tagged(tags::OCTET_STRING)?)?;
    let mut constraints = None;
    if !parts.at_end() {
        constraints = Some(read_constraints(&mut parts)?);
    }
    Some(AnchorFields {
        subject,
        key_id,
        key,
        constraints,
    })
}

// The parts of the anchor at the front.
#[tactic(auto, unfolding(crate::specs::ModuleReading::anchor_at))]
fn read_anchor<'a>(items: &mut Cursor<'a>) -> Option<AnchorFields<'a>>
    ensures exact { Answers (λ fields. (anchor_parts fields, items.new)) result
        (anchor_at items.old) }
{
    let contents = items.tagged(tags::SEQUENCE)?;
    match read_fields(contents) {
        Some(fields) => Some(fields),
        None => None,
    }
}

// Whether the octets are an HSS key.
fn is_key(octets: &[u8]) -> bool
    ensures { IsTrue result ↔ IsKeyText octets.now }
{
    hss_key(octets).is_some()
}

// A copy of the octets, where there are any.
fn copied(alloc: Global, octets: Option<&[u8]>) -> Result<Option<Vec<u8>>, AllocError>
    ensures { IfOk result (λ copy. text_view copy ≡ part_view octets.entry) }
{
    match octets {
        Some(octets) => Ok(Some(octets.to_vec(alloc)?)),
        None => Ok(None),
    }
}

// The anchor with these parts.
fn make_anchor(
    alloc: Global,
    subject: &[u8],
    key_id: Octets64,
    key: &[u8; 60],
    constraints: Option<&[u8]>,
) -> Result<Option<Anchor>, AllocError>
    ensures { IfOk result (λ anchor. (a : TrustAnchor) → (anchor ≡ Some a) ↔ IsMadeOf a (record {
      subject = subject.now;
      key_id = key_id;
      key = key.now;
      constraints = part_view constraints.entry;
    })) }
{
    if !is_key(key) {
        return Ok(None);
    }
    let subject = subject.to_vec(alloc)?;
    let constraints = copied(alloc, constraints)?;
    Anchor::new(alloc, subject, key_id, *key, constraints)
}

// The anchors that the octets are.
pub(crate) fn read_anchors(alloc: Global, contents: &[u8]) -> Result<Option<Anchors>, AllocError>
    ensures { IfOk result (λ anchors. (list : List TrustAnchor) → (anchors ≡ Some list)
        ↔ AreMadeOf list (listed anchor_at contents.now)) }
{
    let mut items = Cursor::new(contents);
    let mut anchors = Vec::new(alloc);
    while !items.at_end() {
        let Some(fields) = read_anchor(&mut items) else {
            return Ok(None);
        };
        let AnchorFields {
            subject,
            key_id,
            key,
            constraints,
        } = fields;
        let Some(anchor) = make_anchor(alloc, subject, key_id, &key, constraints)? else {
            return Ok(None);
        };
        anchors.push(anchor)?;
    }
    Ok(Some(Anchors::new(anchors)))
}
