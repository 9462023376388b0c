// Grants.
ghost use Rattle.std.specs.Prelude.{◌≡◌, ◌↔◌, ◌&&◌, ◌∷◌, ◌++◌, [], ℕ, List, IfOk, IfSome, IfNone, IsTrue, length};
ghost use Rattle.std.specs.Prelude.{slice_get, Some};
ghost use Rattle.std.specs.List.{AllByRecursion};
ghost use Rattle.der_core.specs.Attribute.{Attribute};
ghost use Rattle.constraint_meet.specs.Grants.{Members, GrantPermits, grant_permits, everything, nothing};
ghost use Rattle.constraint_meet.specs.Grants.{of_certificate, of_anchor};
ghost use Rattle.constraint_meet.specs.GrantView.{constraints_view};
ghost use Rattle.constraint_meet.specs.Permits.{Permits};
ghost use Rattle.constraint_meet.specs.Tests.{member_permits};

use crate::index::indexed;
use crate::member::Member;
use attribute_set::Attributes;
use cert_fields::Ccc;
use der_core::Oid;
use std::alloc::{AllocError, Global};
use std::marker::Model;

// What is kept of a grant: the two that need no memory, or its members.
#[derive(Drop)]
pub(crate) enum Limits<'a> {
    Everything,
    Nothing,
    Each(Vec<Member<'a>>),
}

/// What the members of a path permit together, seen as the entries of each member. A member without
/// the extension has no entries, and so permits nothing. Constraints stay in place: beside them a
/// place of 4 octets is kept for each listed value and for each constrained attribute.
#[derive(Drop)]
pub struct Grant<'a> {
    pub(crate) limits: Limits<'a>,
}

impl<'a> Model for Grant<'a> {
    ghost use Rattle.constraint_meet.specs.Grants.{Members};
    ghost use Rattle.constraint_meet.specs.GrantView.{limits_view};

    ghost Value = { Members };

    ghost view = { λ g. limits_view g.limits };
}

impl<'a> Grant<'a> {
    /// The grant that permits everything. Takes no memory.
    pub fn everything() -> Grant<'a>
        ensures same { result ≡ everything }
    {
        Grant {
            limits: Limits::Everything,
        }
    }

    /// The grant that permits nothing. Takes no memory.
    pub fn nothing() -> Grant<'a>
        ensures same { result ≡ nothing }
    {
        Grant {
            limits: Limits::Nothing,
        }
    }

    /// With a certificate's constraints as one member more: none where it has no such extension.
    pub fn with_certificate(
        self,
        alloc: Global,
        ccc: Option<&Ccc<'a>>,
    ) -> Result<Grant<'a>, AllocError>
        ensures more { IfOk result (λ grant.
            grant ≡ self.entry ++ of_certificate (constraints_view ccc.entry)) }
    {
        let constraints = match ccc {
            Some(ccc) => Some(indexed(alloc, ccc)?),
            None => None,
        };
        self.with_member(alloc, Member { constraints })
    }

    /// With an anchor's constraints as one member more. Nothing changes where it has none.
    pub fn with_anchor(self, alloc: Global, ccc: Option<&Ccc<'a>>) -> Result<Grant<'a>, AllocError>
        ensures more { IfOk result (λ grant. grant ≡ self.entry ++ of_anchor (constraints_view ccc.entry)) }
    {
        match ccc {
            Some(_) => self.with_certificate(alloc, ccc),
            None => Ok(self),
        }
    }

    /// How many members there are.
    pub fn member_count(&self) -> usize
        ensures count { result ≡ length self.now }
    {
        match &self.limits {
            Limits::Everything => 0,
            Limits::Nothing => 1,
            Limits::Each(members) => members.len(),
        }
    }

    /// The constraints of the member at a place, in the order in which they were added. None where
    /// the member has none, and behind the last. Takes no memory.
    pub fn constraints_at(&self, place: usize) -> Option<Ccc<'a>>
        ensures found { IfSome result (λ ccc. slice_get self.now place ≡ Some ccc) }
        ensures none { IfNone result (IfSome (slice_get self.now place) (λ entries. entries ≡ [])) }
    {
        match &self.limits {
            Limits::Each(members) => constraints_at(members, place),
            _ => None,
        }
    }

    fn with_member(self, alloc: Global, member: Member<'a>) -> Result<Grant<'a>, AllocError>
        ensures more { IfOk result (λ grant. grant ≡ self.entry ++ member.entry ∷ []) }
    {
        let mut members = self.into_members(alloc)?;
        members.reserve(1)?;
        members.push_reserved(member);
        Ok(Grant {
            limits: Limits::Each(members),
        })
    }

    fn into_members(self, alloc: Global) -> Result<Vec<Member<'a>>, AllocError>
        ensures same { IfOk result (λ members. members.items ≡ self.entry) }
    {
        match self.limits {
            Limits::Everything => Ok(Vec::new(alloc)),
            Limits::Nothing => {
                let mut members = Vec::new(alloc);
                members.reserve(1)?;
                members.push_reserved(Member { constraints: None });
                Ok(members)
            }
            Limits::Each(members) => Ok(members),
        }
    }
}

fn constraints_at<'a>(members: &[Member<'a>], place: usize) -> Option<Ccc<'a>>
    ensures found { IfSome result (λ ccc. slice_get members.now place ≡ Some ccc) }
    ensures none { IfNone result
        (IfSome (slice_get members.now place) (λ entries. entries ≡ [])) }
{
    match members.get(place) {
        Some(member) => member.constraints(),
        None => None,
    }
}

/// The grant of one member with these constraints.
pub fn grant_of<'a>(alloc: Global, ccc: &Ccc<'a>) -> Result<Grant<'a>, AllocError>
    ensures one { IfOk result (λ grant. grant ≡ ccc.now ∷ []) }
    ensures permits { IfOk result (λ grant. (content : List ℕ) (attributes : List Attribute)
        → GrantPermits content attributes grant ↔ Permits content attributes ccc.now) }
{
    Grant::everything().with_certificate(alloc, Some(ccc))
}

/// Whether each member permits this content with these attributes. Takes no memory. A value of an
/// attribute that is compared octet for octet is looked up: n values against m listed ones take
/// n * log m comparisons. Values of firmwarePackageID and targetHardwareIDs are compared with each
/// listed one.
pub fn permits(grant: &Grant<'_>, content: &Oid, attributes: &Attributes<'_>) -> bool
    ensures permits { IsTrue result ↔ GrantPermits content.now attributes.now grant.now }
    ensures exact { result ≡ grant_permits content.now attributes.now grant.now }
{
    match &grant.limits {
        Limits::Everything => true,
        Limits::Nothing => false,
        Limits::Each(members) => each_permits(members, content.octets(), attributes),
    }
}

fn each_permits(members: &[Member<'_>], content: &[u8], attributes: &Attributes<'_>) -> bool
    ensures permits { IsTrue result ↔ GrantPermits content.now attributes.now members.now }
    ensures exact { result ≡ grant_permits content.now attributes.now members.now }
{
    for member in members {
        if !member.permits(content, attributes) {
            return false;
        }
    }
    true
}
