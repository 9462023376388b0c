// The conditions on the members of a path, one after the other.
ghost use Rattle.std.specs.Prelude.{◌≡◌, ◌↔◌, IsNone, IfSome, map};
ghost use Rattle.std.specs.List.{AllByRecursion};
ghost use Rattle.der_core.specs.Asked.{AllHold, FirstFail};
ghost use Rattle.cert_fields.specs.Anchor.{TrustAnchor};
ghost use Rattle.path_check.specs.Conditions.{path_conditions};
ghost use Rattle.path_check.specs.Members.{member_view, IsRead, IsOnlyKey};

use crate::member::Member;
use crate::rules::keep_rules;
use crate::soundness::{are_signed, are_valid_at, have_keys};
use der_core::{Condition, Moment};
use hss_chain::HssKey;

// The first condition that fails, of members whose extensions read.
pub(crate) fn first_failure(
    members: &[Member<'_>],
    anchor_key: &HssKey,
    at: &Moment,
) -> Option<Condition>
    requires read { AllByRecursion IsRead members.now }
    ensures hold { (anchor : TrustAnchor) → IsOnlyKey anchor anchor_key.now
        → IsNone result ↔ AllHold (path_conditions at.now anchor (map member_view members.now)) }
    ensures first { (anchor : TrustAnchor) → IsOnlyKey anchor anchor_key.now
        → IfSome result
        (FirstFail (path_conditions at.now anchor (map member_view members.now))) }
{
    if !are_valid_at(members, at) {
        return Some(Condition::numbered(24));
    }
    if !keep_rules(members) {
        return Some(Condition::numbered(25));
    }
    if !have_keys(members) {
        return Some(Condition::numbered(26));
    }
    if !are_signed(members, anchor_key) {
        return Some(Condition::numbered(27));
    }
    None
}
