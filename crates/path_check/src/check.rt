// The check of a path.
ghost use Rattle.std.specs.Prelude.{◌≡◌, ◌<◌, Some, IfOk, OnOk, length, map, slice_get};
ghost use Rattle.std.specs.List.{AllByRecursion};
ghost use Rattle.der_core.specs.Asked.{AllHold, FirstFail};
ghost use Rattle.cert_fields.specs.Anchor.{TrustAnchor};
ghost use Rattle.constraint_meet.specs.Grants.{of_path};
ghost use Rattle.hss_chain.specs.declared.key.HssKey.{HssKey};
ghost use Rattle.path_check.specs.HssCertificate.{IsAnchorKey};
ghost use Rattle.cert_fields.specs.Sid.{SignerIdentifier};
ghost use Rattle.path_check.specs.Paths.{PathOf};
ghost use Rattle.path_check.specs.Conditions.{members_at, path_conditions, HasKey};
ghost use Rattle.path_check.specs.Checked.{IsHandedOn, IsChecked};
ghost use Rattle.path_check.specs.Members.{member_view, IsRead, IsOnlyKey};
ghost use Rattle.path_check.specs.Faults.{FailsFirst};

use crate::Path;
use crate::failure::first_failure;
use crate::member::{Member, read_members};
use crate::soundness::key_above;
use cert_fields::{Anchor, KeptCert};
use constraint_meet::Grant;
use constraint_meet::laws::side_by_side;
use der_core::{Condition, Moment, Octets64};
use hss_chain::{HssKey, hss_key};
use std::alloc::{AllocError, Global};
use std::marker::Model;

/// What a path that was checked hands on.
#[derive(Drop)]
pub struct PathView<'a> {
    /// The key that the signer signs with.
    pub key: HssKey,
    /// What the path permits: what each of its certificates and its anchor do.
    pub effective: Grant<'a>,
    pub anchor_key_id: Octets64,
}

impl<'a> Model for PathView<'a> {
    ghost use Rattle.path_check.specs.Checked.{PathHandsOn};

    ghost Value = { PathHandsOn };

    ghost view = { λ v. record {
      key = v.key;
      effective = v.effective;
      anchor_key_id = v.anchor_key_id;
    } };
}

/// Why a path hands nothing on.
#[derive(Clone, Copy, Debug, PartialEq, Eq)]
pub enum PathFault {
    /// The first of the conditions 23 to 27 that fails.
    Fails(Condition),
    Memory,
}

impl From<AllocError> for PathFault {
    ghost use Rattle.path_check.specs.declared.check.PathFault.TheVariants.{Memory};

    ghost from_gives = { λ _ fault. fault ≡ Memory };

    fn from(_: AllocError) -> PathFault {
        PathFault::Memory
    }
}

// What the anchor and the members permit.
fn effective_of<'a>(
    alloc: Global,
    members: &[Member<'a>],
    anchor: &'a Anchor,
) -> Result<Grant<'a>, AllocError>
    ensures value { IfOk result (λ grant. grant
        ≡ of_path (map (λ m. m.extensions.constraints) members.now) anchor.now.constraints) }
{
    let constraints = anchor.constraints();
    let mut grant = Grant::everything().with_anchor(alloc, constraints.as_ref())?;
    for member in members {
        grant = grant.with_certificate(alloc, member.extensions.constraints.as_ref())?;
    }
    Ok(grant)
}

// What members hand on whose keys are HSS keys.
fn hand_on<'a>(
    alloc: Global,
    members: &[Member<'a>],
    anchor: &'a Anchor,
    anchor_key: &HssKey,
) -> Result<PathView<'a>, AllocError>
    requires read { AllByRecursion IsRead members.now }
    requires keys { AllByRecursion HasKey (map member_view members.now) }
    requires only { IsOnlyKey anchor.now anchor_key.now }
    ensures handed { IfOk result (IsHandedOn anchor.now (map member_view members.now)) }
{
    side_by_side();
    let Some(key) = key_above(members, anchor_key) else {
        unreachable!();
    };
    let effective = effective_of(alloc, members, anchor)?;
    Ok(PathView {
        key,
        effective,
        anchor_key_id: anchor.key_id(),
    })
}

// Checks the members at these places under their anchor.
fn check_under<'a>(
    alloc: Global,
    certs: &'a [KeptCert<'a>],
    places: &[usize],
    anchor: &'a Anchor,
    anchor_key: &HssKey,
    at: &Moment,
) -> Result<PathView<'a>, PathFault>
    requires within { AllByRecursion (λ place. place < length certs.now) places.now }
    requires only { IsOnlyKey anchor.now anchor_key.now }
    ensures ok { let members = members_at certs.now places.now in
        IfOk result (IsChecked at.now anchor.now members) }
    ensures fails { let members = members_at certs.now places.now in
        FailsFirst result (path_conditions at.now anchor.now members) }
{
    let Some(members) = read_members(alloc, certs, places)? else {
        return Err(PathFault::Fails(Condition::numbered(23)));
    };
    if let Some(failed) = first_failure(&members, anchor_key, at) {
        return Err(PathFault::Fails(failed));
    }
    let view = hand_on(alloc, &members, anchor, anchor_key)?;
    Ok(view)
}

/// Checks the certificates of a path at a moment (RFC 5280, section 6.1): their extensions read, the
/// moment lies in their validity, they may stand above one another, their keys are HSS keys, and each
/// is signed by the key above it. Each condition is asked of all of them before the next, and
/// signatures last, each once.
///
/// Memory is taken for the extensions of the members, of which there are at most eight, and for what
/// they permit.
pub fn check_path<'a>(
    alloc: Global,
    certs: &'a [KeptCert<'a>],
    anchors: &'a [Anchor],
    path: &Path,
    at: Moment,
) -> Result<PathView<'a>, PathFault>
    requires path { (name : SignerIdentifier)
        × PathOf name certs.now anchors.now path.now }
    requires keys { AllByRecursion (λ anchor. (key : HssKey) × IsAnchorKey anchor key) anchors.now }
    ensures ok { let members = members_at certs.now path.now.members in
        (anchor : TrustAnchor) → slice_get anchors.now path.now.anchor ≡ Some anchor
        → IfOk result (IsChecked at anchor members) }
    ensures fails { let members = members_at certs.now path.now.members in
        (anchor : TrustAnchor) → slice_get anchors.now path.now.anchor ≡ Some anchor
        → FailsFirst result (path_conditions at anchor members) }
{
    let Some(anchor) = anchors.get(path.anchor) else {
        unreachable!();
    };
    let Some(anchor_key) = hss_key(anchor.key()) else {
        unreachable!();
    };
    check_under(alloc, certs, &path.members, anchor, &anchor_key, &at)
}

// Asks the conditions of the members at these places under their anchor.
fn check_members<'a>(
    alloc: Global,
    certs: &'a [KeptCert<'a>],
    places: &[usize],
    anchor: &Anchor,
    anchor_key: &HssKey,
    at: &Moment,
) -> Result<(), PathFault>
    requires within { AllByRecursion (λ place. place < length certs.now) places.now }
    requires only { IsOnlyKey anchor.now anchor_key.now }
    ensures sound { let members = members_at certs.now places.now in
        OnOk result (AllHold (path_conditions at.now anchor.now members)) }
    ensures fails { let members = members_at certs.now places.now in
        FailsFirst result (path_conditions at.now anchor.now members) }
{
    let Some(members) = read_members(alloc, certs, places)? else {
        return Err(PathFault::Fails(Condition::numbered(23)));
    };
    match first_failure(&members, anchor_key, at) {
        Some(failed) => Err(PathFault::Fails(failed)),
        None => Ok(()),
    }
}

/// Checks the certificates of a path at a moment as `check_path` does, and asks nothing of what they
/// permit: no index of their constraints is made.
///
/// Memory is taken for the extensions of the members, of which there are at most eight.
pub fn check_certificates<'a>(
    alloc: Global,
    certs: &'a [KeptCert<'a>],
    anchors: &[Anchor],
    path: &Path,
    at: Moment,
) -> Result<(), PathFault>
    requires path { (name : SignerIdentifier)
        × PathOf name certs.now anchors.now path.now }
    requires keys { AllByRecursion (λ anchor. (key : HssKey) × IsAnchorKey anchor key) anchors.now }
    ensures sound { let members = members_at certs.now path.now.members in
        (anchor : TrustAnchor) → slice_get anchors.now path.now.anchor ≡ Some anchor
        → OnOk result (AllHold (path_conditions at anchor members)) }
    ensures fails { let members = members_at certs.now path.now.members in
        (anchor : TrustAnchor) → slice_get anchors.now path.now.anchor ≡ Some anchor
        → FailsFirst result (path_conditions at anchor members) }
{
    let Some(anchor) = anchors.get(path.anchor) else {
        unreachable!();
    };
    let Some(anchor_key) = hss_key(anchor.key()) else {
        unreachable!();
    };
    check_members(alloc, certs, &path.members, anchor, &anchor_key, &at)
}
