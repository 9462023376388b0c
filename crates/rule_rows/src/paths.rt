// Paths of certificates that another program made, and what is to be answered of them by RFC 5280,
// section 6.1.
ghost use Rattle.std.specs.Prelude.{IfSome};
ghost use Rattle.std.specs.List.{AllByRecursion};
ghost use Rattle.cert_fields.specs.Anchor.{TrustAnchor};
ghost use Rattle.hss_chain.specs.declared.key.HssKey.{HssKey};
ghost use Rattle.path_check.specs.HssCertificate.{IsAnchorKey};

use crate::path_vectors::{
    EXPIRED_FIRST, KEYED, NAME_CONSTRAINED, NEW_KEY, NINE, ROOT_KEY, TOO_LONG, USAGE_TWICE,
};
use cert_fields::{Anchor, KeptCert, Sid};
use der_core::{Cursor, Moment, Octets64};
use hss_chain::hss_key;
use path_check::{FindFault, Path, PathFault, PathView, check_path, find_path};
use std::alloc::Global;

// The names of the anchor and of the key that it has.
const ROOT: &[u8] = b"\x30\x03\x0c\x01r";

const ROOT_KEY_ID: &[u8] = b"R";

fn root(alloc: Global) -> Option<Anchor>
    ensures key { IfSome result (λ anchor. (key : HssKey) × IsAnchorKey anchor key) }
{
    let key_id = Octets64::new(ROOT_KEY_ID)?;
    let mut key = [0; 60];
    key.copy_from_slice(ROOT_KEY);
    let Ok(subject) = ROOT.to_vec(alloc) else {
        return None;
    };
    let Ok(Some(anchor)) = Anchor::new(alloc, subject, key_id, key, None) else {
        return None;
    };
    if hss_key(anchor.key()).is_none() {
        return None;
    }
    Some(anchor)
}

// The certificates that stand one after the other, so many at most.
const MOST_CERTS: usize = 9;

// Whether all of them are taken.
fn takes_certs(certs: &mut Vec<KeptCert<'static>>, octets: &'static [u8]) -> bool {
    let mut items = Cursor::new(octets);
    for _ in 0..MOST_CERTS {
        let Some((_, _, whole)) = items.next() else {
            break;
        };
        let Some(cert) = KeptCert::new(whole) else {
            return false;
        };
        let Ok(()) = certs.reserve(1) else {
            return false;
        };
        certs.push_reserved(cert);
    }
    true
}

// How many members a path has, and the place of the last of them.
fn members_of(path: &Path) -> Option<(usize, usize)> {
    Some((path.members.len(), *path.members.last()?))
}

// Whether the path of a signer that the certificate at this place is has these members; None where it
// has no path.
fn has_path(
    alloc: Global,
    certs: &[KeptCert<'_>],
    anchors: &[Anchor],
    place: usize,
    members: Option<(usize, usize)>,
) -> bool {
    let Some(signer) = certs.get(place) else {
        return false;
    };
    let sid = Sid::Serial {
        issuer: signer.issuer(),
        serial: signer.serial(),
    };
    match find_path(alloc, &sid, certs, anchors) {
        Ok(path) => members.is_some() && members_of(&path) == members,
        Err(FindFault::NoAnchor) => members.is_none(),
        Err(FindFault::Memory) => false,
    }
}

fn finds(
    alloc: Global,
    anchors: &[Anchor],
    octets: &'static [u8],
    place: usize,
    members: Option<(usize, usize)>,
) -> bool {
    let mut certs = Vec::new(alloc);
    takes_certs(&mut certs, octets) && has_path(alloc, &certs, anchors, place, members)
}

// Whether this condition is the first that fails, or, of 0, none does and this anchor's key identifier
// is handed on.
fn is_told(answer: &Result<PathView<'_>, PathFault>, number: u8) -> bool {
    match answer {
        Ok(view) => number == 0 && view.anchor_key_id.octets() == ROOT_KEY_ID,
        Err(PathFault::Fails(condition)) => condition.number() == number,
        Err(PathFault::Memory) => false,
    }
}

// That of the path of the first certificate at a moment.
fn first_fails_by<'a>(
    alloc: Global,
    certs: &'a [KeptCert<'a>],
    anchors: &'a [Anchor],
    at: Moment,
    number: u8,
) -> bool
    requires keys { AllByRecursion (λ anchor. (key : HssKey) × IsAnchorKey anchor key) anchors.now }
{
    let Some(signer) = certs.first() else {
        return false;
    };
    let sid = Sid::Serial {
        issuer: signer.issuer(),
        serial: signer.serial(),
    };
    match find_path(alloc, &sid, certs, anchors) {
        Ok(path) => is_told(&check_path(alloc, certs, anchors, &path, at), number),
        Err(_) => false,
    }
}

fn fails_by(alloc: Global, anchors: &[Anchor], octets: &'static [u8], at: u64, number: u8) -> bool
    requires keys { AllByRecursion (λ anchor. (key : HssKey) × IsAnchorKey anchor key) anchors.now }
{
    let Some(at) = Moment::new(at) else {
        return false;
    };
    let mut certs = Vec::new(alloc);
    takes_certs(&mut certs, octets) && first_fails_by(alloc, &certs, anchors, at, number)
}

// The path is the first that fits.
fn finds_the_first_path(alloc: Global, anchors: &[Anchor]) -> bool {
    finds(alloc, anchors, NINE, 7, Some((8, 0)))
        && finds(alloc, anchors, NINE, 8, None)
        && finds(alloc, anchors, EXPIRED_FIRST, 1, Some((1, 0)))
        && finds(alloc, anchors, KEYED, 0, Some((2, 2)))
}

// The first condition that fails is told.
fn tells_the_first_condition(alloc: Global, anchors: &[Anchor]) -> bool
    requires keys { AllByRecursion (λ anchor. (key : HssKey) × IsAnchorKey anchor key) anchors.now }
{
    fails_by(alloc, anchors, USAGE_TWICE, 20_260_101_000_000, 23)
        && fails_by(alloc, anchors, NAME_CONSTRAINED, 20_260_101_000_000, 23)
        && fails_by(alloc, anchors, EXPIRED_FIRST, 20_260_101_000_000, 24)
        && fails_by(alloc, anchors, TOO_LONG, 20_260_101_000_000, 25)
        && fails_by(alloc, anchors, NEW_KEY, 20_261_231_235_959, 0)
        && fails_by(alloc, anchors, NEW_KEY, 20_270_101_000_000, 24)
}

fn paths_are_found_and_checked(alloc: Global) -> bool {
    match root(alloc) {
        Some(anchor) => {
            let anchors = [anchor];
            finds_the_first_path(alloc, &anchors) && tells_the_first_condition(alloc, &anchors)
        }
        None => false,
    }
}

#[test]
fn finds_and_checks_paths(rt: HostRuntime) {
    assert!(rt; paths_are_found_and_checked(rt.alloc()));
}
