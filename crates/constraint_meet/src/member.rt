// What the constraints of one member permit.
ghost use Rattle.std.specs.Prelude.{◌≡◌, ◌↔◌, [], IfSome, IfNone, IfOk, IsTrue};
ghost use Rattle.std.specs.List.{AllByRecursion, list_all};
ghost use Rattle.der_core.specs.Reads.{Answers};
ghost use Rattle.cert_fields.specs.ConstraintsView.{entry_view};
ghost use Rattle.constraint_meet.specs.Grants.{entries_of};
ghost use Rattle.constraint_meet.specs.Index.{StandsAmong};
ghost use Rattle.constraint_meet.specs.Permits.{Passes, Permits, deciding};
ghost use Rattle.constraint_meet.specs.Tests.{passes, member_permits};

use crate::indexed::Indexed;
use attribute_set::Attributes;
use cert_fields::{Ccc, CccEntry};
use std::alloc::AllocError;
use std::marker::Model;

/// The contents of id-ct-anyContentType, 1.2.840.113549.1.9.16.1.0 (RFC 6010, section 3).
pub const ANY_CONTENT: [u8; 11] = [0x2a, 0x86, 0x48, 0x86, 0xf7, 0x0d, 0x01, 0x09, 16, 1, 0];

impl<'a> Indexed<'a> {
    // The entry that decides for a content type, and how many octets follow it.
    fn deciding(&self, content: &[u8]) -> Option<(CccEntry<'a>, usize)>
        ensures exact { Answers (λ x. entry_view x.0) result (deciding content.now self.now) }
        ensures stands { IfSome result (λ x. StandsAmong self.now (entry_view x.0) x.1) }
    {
        match self.entry_for(content) {
            Some(own) => Some(own),
            None => self.entry_for(&ANY_CONTENT),
        }
    }

    // Whether each attribute has what an entry asks.
    fn all_pass(&self, entry: &CccEntry<'a>, after: usize, attributes: &Attributes<'_>) -> bool
        requires stands { StandsAmong self.now (entry_view entry.now) after }
        ensures exact { result ≡ list_all (passes (entry_view entry.now)) attributes.now }
        ensures tells { IsTrue result
            ↔ AllByRecursion (Passes (entry_view entry.now)) attributes.now }
    {
        let mut left = attributes.iter();
        while let Some(attribute) = left.next() {
            if !self.passes(entry, after, &attribute) {
                return false;
            }
        }
        true
    }

    // Whether they permit this content with these attributes.
    pub(crate) fn permits(&self, content: &[u8], attributes: &Attributes<'_>) -> bool
        ensures exact { result ≡ member_permits content.now attributes.now self.now }
        ensures tells { IsTrue result ↔ Permits content.now attributes.now self.now }
    {
        match self.deciding(content) {
            Some((entry, after)) => entry.can_source && self.all_pass(&entry, after, attributes),
            None => false,
        }
    }

    fn constraints(&self) -> Ccc<'a>
        ensures same { result ≡ self.now }
    {
        self.ccc.again()
    }

    // The same once more. Takes the memory of the places again.
    fn copy(&self) -> Result<Indexed<'a>, AllocError>
        ensures same { IfOk result (λ copy. copy ≡ self.now) }
    {
        Ok(Indexed {
            ccc: self.ccc.again(),
            kinds: self.kinds.clone()?,
            values: self.values.clone()?,
        })
    }
}

// A member of a path, seen as the entries of its constraints. Without constraints it has none.
#[derive(Drop)]
pub(crate) struct Member<'a> {
    pub(crate) constraints: Option<Indexed<'a>>,
}

impl<'a> Model for Member<'a> {
    ghost use Rattle.std.specs.Prelude.{List};
    ghost use Rattle.cert_fields.specs.Constraints.{ContentConstraint};
    ghost use Rattle.constraint_meet.specs.Grants.{entries_of};

    ghost Value = { List ContentConstraint };

    ghost view = { λ m. entries_of m.constraints };
}

impl<'a> Member<'a> {
    pub(crate) fn permits(&self, content: &[u8], attributes: &Attributes<'_>) -> bool
        ensures exact { result ≡ member_permits content.now attributes.now self.now }
        ensures tells { IsTrue result ↔ Permits content.now attributes.now self.now }
    {
        match &self.constraints {
            Some(indexed) => indexed.permits(content, attributes),
            None => false,
        }
    }

    // Its constraints, where it has any.
    pub(crate) fn constraints(&self) -> Option<Ccc<'a>>
        ensures found { IfSome result (λ ccc. self.now ≡ ccc) }
        ensures none { IfNone result (self.now ≡ []) }
    {
        match &self.constraints {
            Some(indexed) => Some(indexed.constraints()),
            None => None,
        }
    }

    pub(crate) fn copy(&self) -> Result<Member<'a>, AllocError>
        ensures same { IfOk result (λ copy. copy ≡ self.now) }
    {
        match &self.constraints {
            Some(indexed) => Ok(Member {
                constraints: Some(indexed.copy()?),
            }),
            None => Ok(Member { constraints: None }),
        }
    }
}
