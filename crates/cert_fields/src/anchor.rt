// Trust anchors.
ghost use Rattle.std.specs.Prelude.{◌≡◌, ◌↔◌, Some, IsTrue, IfOk, option_map};
ghost use Rattle.der_core.specs.Element.{IsTagged};
ghost use Rattle.der_core.specs.Reads.{Answers};
ghost use Rattle.der_core.specs.Shapes.{alone};
ghost use Rattle.cert_fields.specs.CertificateReading.{sequence_at};
ghost use Rattle.cert_fields.specs.Anchor.{TrustAnchor, HasParts};
ghost use Rattle.cert_fields.specs.AnchorView.{text_view, MayConstrain};
ghost use Rattle.cert_fields.specs.Constraints.{constraints_text};
ghost use Rattle.cert_fields.specs.View.{part_view};

use crate::constraints::ccc_of;
use crate::{Ccc, read_ccc};
use der_core::{Cursor, Octets64, tags};
use std::alloc::{AllocError, Global};
use std::marker::Model;

/// A trust anchor in memory of its own (RFC 5280, section 6.1.1; RFC 6010, section 4): a name, a key
/// identifier, a key, and content constraints where there are any.
#[derive(Debug, Drop)]
pub struct Anchor {
    subject: Vec<u8>,
    key_id: Octets64,
    key: [u8; 60],
    // The whole text of the constraints.
    constraints: Option<Vec<u8>>,
}

impl Model for Anchor {
    ghost use Rattle.cert_fields.specs.Anchor.{TrustAnchor, HasParts};
    ghost use Rattle.cert_fields.specs.AnchorView.{anchor_view, text_view};

    ghost Value = { TrustAnchor };

    ghost view = { λ a. anchor_view a.subject.items a.key_id a.key (text_view a.constraints) };

    ghost invariant = { λ a.
        HasParts (anchor_view a.subject.items a.key_id a.key (text_view a.constraints))
        a.subject.items a.key_id a.key (text_view a.constraints) };
}

impl Anchor {
    /// The anchor of these parts. None where the subject isn't one SEQUENCE, the key identifier is
    /// empty, or the constraints are there and are no text of any. Nothing is asked of the key. Takes
    /// memory as `read_ccc` does, and gives it back.
    pub fn new(
        alloc: Global,
        subject: Vec<u8>,
        key_id: Octets64,
        key: [u8; 60],
        constraints: Option<Vec<u8>>,
    ) -> Result<Option<Anchor>, AllocError>
        ensures made { IfOk result (λ answer. (a : TrustAnchor) → (answer ≡ Some a)
            ↔ HasParts a subject.items key_id key (text_view constraints)) }
    {
        if key_id.octets().is_empty() || !is_name(&subject) {
            return Ok(None);
        }
        if !are_constraints(alloc, &constraints)? {
            return Ok(None);
        }
        Ok(Some(Anchor {
            subject,
            key_id,
            key,
            constraints,
        }))
    }

    /// The name, a whole element.
    pub fn subject(&self) -> &[u8]
        ensures subject { result.now ≡ self.now.subject }
    {
        &self.subject
    }

    /// The key identifier, of 1 to 64 octets.
    pub fn key_id(&self) -> Octets64
        ensures key_id { result ≡ self.now.key_id }
    {
        self.key_id
    }

    /// The octets of the key.
    pub fn key(&self) -> &[u8; 60]
        ensures key { result.now ≡ self.now.key }
    {
        &self.key
    }

    /// The content constraints, in their place. Takes no memory.
    pub fn constraints(&self) -> Option<Ccc<'_>>
        ensures constraints { result ≡ self.now.constraints }
    {
        match &self.constraints {
            Some(text) => ccc_of(text),
            None => None,
        }
    }

    /// The text of the content constraints, a whole element.
    pub fn constraints_text(&self) -> Option<&[u8]>
        ensures text { part_view result ≡ option_map constraints_text self.now.constraints }
    {
        match &self.constraints {
            Some(text) => Some(text),
            None => None,
        }
    }
}

// The one SEQUENCE that the octets are.
fn name_in(octets: &[u8]) -> Option<&[u8]>
    ensures exact { Answers (λ name. name.now) result (alone sequence_at octets.now) }
{
    let mut items = Cursor::new(octets);
    let name = items.whole(tags::SEQUENCE)?;
    if items.at_end() { Some(name) } else { None }
}

// Whether the octets are one SEQUENCE.
fn is_name(octets: &[u8]) -> bool
    ensures { IsTrue result ↔ IsTagged 0x30 octets.now }
{
    name_in(octets).is_some()
}

// Whether the octets are a text of constraints, where there are any.
fn are_constraints(alloc: Global, text: &Option<Vec<u8>>) -> Result<bool, AllocError>
    ensures { IfOk result (λ are. IsTrue are ↔ MayConstrain (text_view text.now)) }
{
    match text {
        Some(text) => Ok(read_ccc(alloc, text)?.is_some()),
        None => Ok(true),
    }
}
