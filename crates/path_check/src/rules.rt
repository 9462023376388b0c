// Which certificates may stand above others.
ghost use Rattle.std.specs.Prelude.{◌≡◌, ◌↔◌, ◌<◌, ℕ, IfSome, IsTrue, map, slice_get};
ghost use Rattle.std.specs.Option.{IsSomeAnd};
ghost use Rattle.std.specs.List.{AllByRecursion};
ghost use Rattle.path_check.specs.PathRules.{MayBeUsed, IsAuthority, SignerKeepsRules};
ghost use Rattle.path_check.specs.PathRules.{AuthorityKeepsRules, KeepRules, is_self_issued, counted};
ghost use Rattle.path_check.specs.Members.{member_view, IsRead};

use crate::member::Member;
use cert_fields::{CaRule, Extensions};

// The bits of keyUsage that are asked (RFC 5280, section 4.2.1.3).
const DIGITAL_SIGNATURE: u32 = 0;

const KEY_CERT_SIGN: u32 = 5;

/// Whether a certificate with these extensions may be used as this bit of keyUsage says: the bit is set,
/// or there is no keyUsage. Bit 0 is digitalSignature, 5 is keyCertSign and 6 is cRLSign (RFC 5280,
/// section 4.2.1.3).
pub fn may_be_used(extensions: &Extensions<'_>, bit: u32) -> bool
    requires bit { bit < 16 }
    ensures used { IsTrue result ↔ MayBeUsed bit extensions.now }
{
    match extensions.usage {
        Some(usage) => (usage >> bit) % 2 == 1,
        None => true,
    }
}

fn signer_keeps_rules(signer: &Member<'_>) -> bool
    requires read { IsRead signer.now }
    ensures keeps { IsTrue result ↔ SignerKeepsRules (member_view signer.now) }
{
    may_be_used(&signer.extensions, DIGITAL_SIGNATURE)
}

// Whether it is an authority's rule, below which so many certificates may stand.
fn is_authority(rule: &CaRule, below: u128) -> bool
    ensures authority { IsTrue result ↔ IsAuthority below rule.now }
{
    rule.ca
        && match rule.path_len {
            Some(limit) => below <= limit,
            None => true,
        }
}

// The same of a rule that may be there.
fn has_authority(ca: &Option<CaRule>, below: u128) -> bool
    ensures authority { IsTrue result ↔ IsSomeAnd ca.now (IsAuthority below) }
{
    match ca {
        Some(rule) => is_authority(rule, below),
        None => false,
    }
}

fn authority_keeps_rules(member: &Member<'_>, below: u128) -> bool
    requires read { IsRead member.now }
    ensures keeps { IsTrue result ↔ AuthorityKeepsRules below (member_view member.now) }
{
    has_authority(&member.extensions.ca, below) && may_be_used(&member.extensions, KEY_CERT_SIGN)
}

fn is_self_issued(member: &Member<'_>) -> bool
    ensures issued { result ≡ is_self_issued (member_view member.now) }
{
    member.cert.signed.subject == member.cert.signed.issuer
}

// Whether each member above the signer's keeps the rules, with those below it that aren't
// self-issued.
fn authorities_keep_rules(above: &[Member<'_>]) -> bool
    requires read { AllByRecursion IsRead above.now }
    ensures keep { let certificates = map member_view above.now in
        IsTrue result ↔ ((i : ℕ) → IfSome (slice_get certificates i)
        (AuthorityKeepsRules (counted i certificates))) }
{
    let mut below = 0u128;
    for member in above {
        if !authority_keeps_rules(member, below) {
            return false;
        }
        below += u128::from(!is_self_issued(member));
    }
    true
}

// Whether the members keep the rules.
pub(crate) fn keep_rules(members: &[Member<'_>]) -> bool
    requires read { AllByRecursion IsRead members.now }
    ensures keep { IsTrue result ↔ KeepRules (map member_view members.now) }
{
    match members {
        [signer, above @ ..] => signer_keeps_rules(signer) && authorities_keep_rules(above),
        [] => true,
    }
}
