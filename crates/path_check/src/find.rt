// The choice of a path.
ghost use Rattle.std.specs.Prelude.{◌≡◌, ◌↔◌, ◌≤◌, ℕ, List, ◌∷◌, length, map, slice_get, IfOk, IsTrue};
ghost use Rattle.cert_fields.specs.Sid.{sid_view};
ghost use Rattle.path_check.specs.First.{TellsFirst};
ghost use Rattle.path_check.specs.Above.{HasSubjectKey, HasAuthorityKey, IsAbove, IsAnchorAbove, IsNamed, IsNamedAnchor};
ghost use Rattle.path_check.specs.Keys.{TellsKey};
ghost use Rattle.path_check.specs.Paths.{PathPlaces, PathOf, LeadsTo};
ghost use Rattle.path_check.specs.Steps.{TellsAbove, SaysNone};

use crate::Path;
use crate::key_identifiers::{authority_key, subject_key};
use cert_fields::{Anchor, KeptCert, Sid};
use der_core::Octets64;
use std::alloc::{AllocError, Global};

// How many certificates a path has at most.
const MOST_MEMBERS: usize = 8;

/// Why no path was found.
#[derive(Clone, Copy, Debug, PartialEq, Eq)]
pub enum FindFault {
    /// There is none.
    NoAnchor,
    Memory,
}

impl From<AllocError> for FindFault {
    ghost use Rattle.path_check.specs.declared.find.FindFault.TheVariants.{Memory};

    ghost from_gives = { λ _ fault. fault ≡ Memory };

    fn from(_: AllocError) -> FindFault {
        FindFault::Memory
    }
}

// What is above a certificate: the place of an anchor, or that of a certificate.
enum Above {
    Anchor(usize),
    Certificate(usize),
    Nothing,
}

// Whether this key identifier agrees with the certificate's own, where it has one.
fn is_key_of(alloc: Global, key: &Octets64, cert: &KeptCert<'_>) -> Result<bool, AllocError>
    ensures agrees { IfOk result (λ is. IsTrue is ↔ ((own : List ℕ)
        → HasSubjectKey cert.now own → key.now ≡ own)) }
{
    match subject_key(alloc, cert)? {
        Some(own) => Ok(*key == own),
        None => Ok(true),
    }
}

// Whether the candidate may have issued the child, which names this issuer and gives this key
// identifier.
fn is_above(
    alloc: Global,
    _child: &KeptCert<'_>,
    issuer: &[u8],
    key: &Option<Octets64>,
    candidate: &KeptCert<'_>,
) -> Result<bool, AllocError>
    requires issuer { issuer.now ≡ _child.now.signed.issuer }
    requires key { TellsKey (HasAuthorityKey _child.now) key.now }
    ensures above { IfOk result (λ is. IsTrue is
        ↔ IsAbove _child.now candidate.now) }
{
    if candidate.subject() != issuer {
        return Ok(false);
    }
    match key {
        Some(key) => is_key_of(alloc, key, candidate),
        None => Ok(true),
    }
}

fn is_anchor_above(
    _child: &KeptCert<'_>,
    issuer: &[u8],
    key: &Option<Octets64>,
    anchor: &Anchor,
) -> bool
    requires issuer { issuer.now ≡ _child.now.signed.issuer }
    requires key { TellsKey (HasAuthorityKey _child.now) key.now }
    ensures above { IsTrue result ↔ IsAnchorAbove _child.now anchor.now }
{
    if anchor.subject() != issuer {
        return false;
    }
    match key {
        Some(key) => *key == anchor.key_id(),
        None => true,
    }
}

fn is_named(alloc: Global, sid: &Sid<'_>, cert: &KeptCert<'_>) -> Result<bool, AllocError>
    ensures named { IfOk result (λ is. IsTrue is
        ↔ IsNamed (sid_view sid.now) cert.now) }
{
    match sid {
        Sid::Serial { issuer, serial } => {
            let signed = cert.cert().signed;
            Ok(signed.issuer == *issuer && signed.serial == *serial)
        }
        Sid::KeyId(key) => match subject_key(alloc, cert)? {
            Some(own) => Ok(own.octets() == *key),
            None => Ok(false),
        },
    }
}

fn is_named_anchor(sid: &Sid<'_>, anchor: &Anchor) -> bool
    ensures named { IsTrue result ↔ IsNamedAnchor (sid_view sid.now) anchor.now }
{
    match sid {
        Sid::Serial { .. } => false,
        Sid::KeyId(key) => anchor.key_id().octets() == *key,
    }
}

// The place of the first certificate that is named.
fn named_certificate(
    alloc: Global,
    sid: &Sid<'_>,
    certs: &[KeptCert<'_>],
) -> Result<Option<usize>, AllocError>
    ensures first { IfOk result
        (TellsFirst (IsNamed (sid_view sid.now)) (certs.now)) }
{
    for (place, cert) in certs.iter().enumerate() {
        if is_named(alloc, sid, cert)? {
            return Ok(Some(place));
        }
    }
    Ok(None)
}

// The place of the first anchor that is named.
fn named_anchor(sid: &Sid<'_>, anchors: &[Anchor]) -> Option<usize>
    ensures first { TellsFirst (IsNamedAnchor (sid_view sid.now)) anchors.now result }
{
    for (place, anchor) in anchors.iter().enumerate() {
        if is_named_anchor(sid, anchor) {
            return Some(place);
        }
    }
    None
}

// The place of the first certificate above the child, which names this issuer and gives this key
// identifier.
fn first_above(
    alloc: Global,
    child: &KeptCert<'_>,
    issuer: &[u8],
    key: &Option<Octets64>,
    certs: &[KeptCert<'_>],
) -> Result<Option<usize>, AllocError>
    requires issuer { issuer.now ≡ child.now.signed.issuer }
    requires key { TellsKey (HasAuthorityKey child.now) key.now }
    ensures first { IfOk result (TellsFirst (IsAbove child.now)
        (certs.now)) }
{
    for (place, candidate) in certs.iter().enumerate() {
        if is_above(alloc, child, issuer, key, candidate)? {
            return Ok(Some(place));
        }
    }
    Ok(None)
}

// The place of the first anchor above it.
fn first_anchor_above(
    child: &KeptCert<'_>,
    issuer: &[u8],
    key: &Option<Octets64>,
    anchors: &[Anchor],
) -> Option<usize>
    requires issuer { issuer.now ≡ child.now.signed.issuer }
    requires key { TellsKey (HasAuthorityKey child.now) key.now }
    ensures first { TellsFirst (IsAnchorAbove child.now) anchors.now result }
{
    for (place, anchor) in anchors.iter().enumerate() {
        if is_anchor_above(child, issuer, key, anchor) {
            return Some(place);
        }
    }
    None
}

// What is above the certificate at this place.
fn step_up(
    alloc: Global,
    certs: &[KeptCert<'_>],
    anchors: &[Anchor],
    place: usize,
) -> Result<Above, AllocError>
    ensures above { IfOk result
        (TellsAbove (certs.now) anchors.now place) }
{
    let Some(child) = certs.get(place) else {
        return Ok(Above::Nothing);
    };
    let issuer = child.issuer();
    let key = authority_key(alloc, child)?;
    if let Some(anchor) = first_anchor_above(child, issuer, &key, anchors) {
        return Ok(Above::Anchor(anchor));
    }
    match first_above(alloc, child, issuer, &key, certs)? {
        Some(next) => Ok(Above::Certificate(next)),
        None => Ok(Above::Nothing),
    }
}

// The way up from the certificate at this place.
fn climb(
    alloc: Global,
    certs: &[KeptCert<'_>],
    anchors: &[Anchor],
    first: usize,
) -> Result<Path, FindFault>
    ensures path { IfOk result (λ path. (more : List ℕ) × (path.members ≡ first ∷ more) × (length more ≤ 7)
        × LeadsTo certs.now anchors.now first more path.anchor) }
    ensures none { SaysNone result → (more : List ℕ) (anchor : ℕ) → length more ≤ 7
        → LeadsTo certs.now anchors.now first more anchor → ⊥ }
{
    let mut members = Vec::new(alloc);
    let mut place = first;
    for _ in 0..MOST_MEMBERS {
        members.reserve(1)?;
        members.push_reserved(place);
        match step_up(alloc, certs, anchors, place)? {
            Above::Anchor(anchor) => return Ok(Path { members, anchor }),
            Above::Certificate(next) => place = next,
            Above::Nothing => return Err(FindFault::NoAnchor),
        }
    }
    Err(FindFault::NoAnchor)
}

/// The path from the signer up to a trust anchor (RFC 5280, section 6.1), which is the only one that
/// `PathOf` describes. `NoAnchor` exactly where there is none.
///
/// Goes through the certificates once, and once more for each member of the path. Each time it reads
/// each certificate at most once, and its extensions at most once; those of a member once more, as a
/// child. Memory is kept for the members alone.
pub fn find_path(
    alloc: Global,
    sid: &Sid<'_>,
    certs: &[KeptCert<'_>],
    anchors: &[Anchor],
) -> Result<Path, FindFault>
    ensures path { IfOk result
        (PathOf (sid_view sid.now) (certs.now) anchors.now) }
    ensures none { SaysNone result → (path : PathPlaces)
        → PathOf (sid_view sid.now) (certs.now) anchors.now path → ⊥ }
{
    if let Some(anchor) = named_anchor(sid, anchors) {
        return Ok(Path {
            members: Vec::new(alloc),
            anchor,
        });
    }
    match named_certificate(alloc, sid, certs)? {
        Some(first) => climb(alloc, certs, anchors, first),
        None => Err(FindFault::NoAnchor),
    }
}
