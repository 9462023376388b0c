// The other conditions on the members of a path.
ghost use Rattle.std.specs.Prelude.{◌≡◌, ◌↔◌, Some, IsTrue, map};
ghost use Rattle.std.specs.List.{AllByRecursion};
ghost use Rattle.cert_fields.specs.Anchor.{TrustAnchor};
ghost use Rattle.hss_chain.specs.declared.key.HssKey.{HssKey};
ghost use Rattle.path_check.specs.HssCertificate.{IsSignedBy};
ghost use Rattle.path_check.specs.Conditions.{IsValidAt, HasKey, IsKeyAbove, AreSigned};
ghost use Rattle.path_check.specs.Members.{member_view, IsRead, IsOnlyKey};

use crate::hss::{is_signed_by, key_of};
use crate::member::Member;
use der_core::Moment;
use hss_chain::HssKey;

fn is_valid_at(member: &Member<'_>, at: &Moment) -> bool
    ensures valid { IsTrue result ↔ IsValidAt at.now (member_view member.now) }
{
    let validity = &member.cert.signed;
    let now = at.digits();
    validity.from.moment.digits() <= now && now <= validity.to.moment.digits()
}

// Whether the moment lies in the validity of each.
pub(crate) fn are_valid_at(members: &[Member<'_>], at: &Moment) -> bool
    ensures valid { IsTrue result ↔ AllByRecursion (IsValidAt at.now) (map member_view members.now) }
{
    for member in members {
        if !is_valid_at(member, at) {
            return false;
        }
    }
    true
}

fn has_key(member: &Member<'_>) -> bool
    ensures key { IsTrue result ↔ HasKey (member_view member.now) }
{
    key_of(&member.cert).is_some()
}

// Whether the key of each is an HSS key.
pub(crate) fn have_keys(members: &[Member<'_>]) -> bool
    ensures keys { IsTrue result ↔ AllByRecursion HasKey (map member_view members.now) }
{
    for member in members {
        if !has_key(member) {
            return false;
        }
    }
    true
}

// The key above: that of the first of the members above, or the anchor's.
pub(crate) fn key_above(above: &[Member<'_>], anchor_key: &HssKey) -> Option<HssKey>
    ensures above { (anchor : TrustAnchor) → IsOnlyKey anchor anchor_key.now → (key : HssKey)
        → (result ≡ Some key) ↔ IsKeyAbove anchor (map member_view above.now) key }
{
    match above {
        [next, ..] => key_of(&next.cert),
        [] => Some(*anchor_key),
    }
}

// Whether the member is signed by the key above it.
fn is_signed(member: &Member<'_>, above: &[Member<'_>], anchor_key: &HssKey) -> bool
    requires read { IsRead member.now }
    ensures signed { (anchor : TrustAnchor) → IsOnlyKey anchor anchor_key.now
        → IsTrue result ↔ ((key : HssKey) × IsKeyAbove anchor (map member_view above.now) key
        × IsSignedBy key (member_view member.now)) }
{
    match key_above(above, anchor_key) {
        Some(key) => is_signed_by(&key, &member.cert),
        None => false,
    }
}

// Whether each member is signed by the key above it.
pub(crate) fn are_signed(members: &[Member<'_>], anchor_key: &HssKey) -> bool
    requires read { AllByRecursion IsRead members.now }
    ensures signed { (anchor : TrustAnchor) → IsOnlyKey anchor anchor_key.now
        → IsTrue result ↔ AreSigned anchor (map member_view members.now) }
{
    for (place, member) in members.iter().enumerate() {
        if !is_signed(member, &members[place + 1..], anchor_key) {
            return false;
        }
    }
    true
}
