// A certificate that is issued and packages that are packed, against octets worked by hand from RFC 5280,
// RFC 5652, section 5, and RFC 4108, sections 2 and 5.
ghost use Rattle.std.specs.Prelude.{◌≡◌, ◌<◌, IfSome};
ghost use Rattle.lms_sign.specs.PublicKeys.{leaf_count};
ghost use Rattle.packager.specs.CertificatePlan.{IsShort, plan_view};
ghost use Rattle.packager.specs.PackagePlan.{package_view, IsPackagePlan};

use cert_fields::read_cert;
use cms_signed::{SignedFault, SignedView, read_signed, read_signed_of};
use der_core::{Moment, Octets64, read_oid};
use edge_board::SureBoard;
use hss_chain::hss_check;
use key_state::{Leaf, spend};
use lms_sign::{SignKey, public};
use lms_verify::{LmsKind, OtsKind};
use package_attrs::{Identifier, PackageName};
use packager::{CertPlan, PackagePlan, finish, issue, pack};
use std::alloc::Global;

// The extensions that hardware type 1.2.3 with serial number 0001 and the key identifier A1 make.
const EXTENSIONS: &[u8] = b"\x30\x2f\
    \x30\x0a\x06\x03\x55\x1d\x0e\x04\x03\x04\x01\xa1\
    \x30\x21\x06\x03\x55\x1d\x11\x04\x1a\x30\x18\xa0\x16\x06\x08\x2b\x06\x01\x05\x05\x07\x08\x04\
    \xa0\x0a\x30\x08\x06\x02\x2a\x03\x04\x02\x00\x01";

fn key() -> SignKey
    ensures leaves { leaf_count result ≡ 32 }
{
    SignKey {
        seed: [1; 32],
        id: [1; 16],
        kind: LmsKind::H5,
        ots: OtsKind::W1,
    }
}

// A plan of an empty issuer and subject.
fn plan(alloc: Global, key: &SignKey) -> Option<CertPlan>
    ensures short { IfSome result (λ plan. IsShort (plan_view plan)) }
{
    let hw_type = read_oid(&[0x2a, 3])?;
    let number = Octets64::new(&[0, 1])?;
    let from = Moment::new(20_200_101_000_000)?;
    let to = Moment::new(20_501_231_235_959)?;
    let Ok(serial) = [7].to_vec(alloc) else {
        return None;
    };
    let Ok(issuer) = b"\x30\x00".to_vec(alloc) else {
        return None;
    };
    let Ok(subject) = b"\x30\x00".to_vec(alloc) else {
        return None;
    };
    Some(CertPlan {
        serial,
        issuer,
        subject,
        from,
        to,
        key: public(key),
        subject_key: Octets64::new(&[0xa1]),
        authority_key: None,
        authority: None,
        uses: None,
        constraints: None,
        hardware: Some((hw_type, number)),
    })
}

// The first leaf of a key with 32 leaves.
pub(crate) fn first_leaf(alloc: Global) -> Option<Leaf>
    ensures below { IfSome result (λ leaf. leaf < 32) }
{
    match SureBoard::new(alloc, 18) {
        Ok(mut board) => match spend(&mut board, 32) {
            Ok(leaf) => Some(leaf),
            Err(_) => None,
        },
        Err(_) => None,
    }
}

// The certificate of the plan, signed with the key's first leaf.
fn issued(alloc: Global, key: &SignKey) -> Option<Vec<u8>>
    requires leaves { leaf_count key.now ≡ 32 }
{
    let leaf = first_leaf(alloc)?;
    let plan = plan(alloc, key)?;
    match issue(alloc, &plan, key) {
        Ok(unsigned) => Some(finish(unsigned, key, leaf)),
        Err(_) => None,
    }
}

// Whether this is a certificate with the extensions, which the key signed.
fn is_certificate(octets: &[u8], key: &SignKey) -> bool {
    match read_cert(octets) {
        Some(cert) => {
            cert.signed.extensions == Some(EXTENSIONS)
                && hss_check(&public(key), cert.tbs, &[], cert.signature.octets)
        }
        None => false,
    }
}

fn issues_a_certificate(alloc: Global) -> bool {
    let key = key();
    match issued(alloc, &key) {
        Some(octets) => is_certificate(&octets, &key),
        None => false,
    }
}

// encapContentInfo of the image `hello`, as it is and wrapped.
const BARE: &[u8; 24] = b"\x30\x16\x06\x0b\x2a\x86\x48\x86\xf7\x0d\x01\x09\x10\x01\x10\xa0\x07\
    \x04\x05hello";

const WRAPPED: &[u8; 26] = b"\x30\x18\x06\x0b\x2a\x86\x48\x86\xf7\x0d\x01\x09\x10\x01\x10\xa0\x09\
    \x04\x07\x04\x05hello";

// A package 1.2.3.1 in version 7 for hardware of type 1.2.3.
fn package_plan(alloc: Global, wrap: bool) -> Option<PackagePlan>
    ensures plan { IfSome result (λ plan. IsPackagePlan (package_view plan)) }
{
    let id = read_oid(&[0x2a, 3, 1])?;
    let target = read_oid(&[0x2a, 3])?;
    let signer = Octets64::new(&[0xa1])?;
    let mut targets = Vec::new(alloc);
    let Ok(()) = targets.push(target) else {
        return None;
    };
    let Ok(image) = b"hello".to_vec(alloc) else {
        return None;
    };
    Some(PackagePlan {
        identifier: Identifier {
            name: PackageName::Preferred { id, version: 7 },
            stale: None,
        },
        targets,
        communities: Vec::new(alloc),
        kind: None,
        dependencies: Vec::new(alloc),
        certificates: Vec::new(alloc),
        signer,
        wrap,
        image,
    })
}

// The package of the plan, signed with the key's first leaf.
fn packed(alloc: Global, wrap: bool) -> Option<Vec<u8>> {
    let key = key();
    let leaf = first_leaf(alloc)?;
    let plan = package_plan(alloc, wrap)?;
    match pack(alloc, &plan, &key) {
        Ok(unsigned) => Some(finish(unsigned, &key, leaf)),
        Err(_) => None,
    }
}

// Whether the package is read, and has this behind the heads and the digest algorithms before it.
fn is_packed(alloc: Global, octets: &[u8], encapsulated: &[u8]) -> bool {
    match octets.get(41..) {
        Some(rest) => rest.starts_with(encapsulated) && read_signed(alloc, octets).is_ok(),
        None => false,
    }
}

// firmwareLoadReceipt, 1.2.840.113549.1.9.16.1.17 (RFC 4108, section 4.1).
const RECEIPT: &[u8] = b"\x2a\x86\x48\x86\xf7\x0d\x01\x09\x10\x01\x11";

// Whether this condition is the first that fails.
fn fails_by(answer: &Result<SignedView<'_>, SignedFault>, number: u8) -> bool {
    match answer {
        Err(SignedFault::Fails(condition)) => condition.number() == number,
        _ => false,
    }
}

fn is_no_receipt(alloc: Global, octets: &[u8]) -> bool {
    match read_oid(RECEIPT) {
        Some(receipt) => fails_by(&read_signed_of(alloc, octets, &receipt), 9),
        None => false,
    }
}

fn packs(alloc: Global, wrap: bool, encapsulated: &[u8]) -> bool {
    match packed(alloc, wrap) {
        Some(octets) => is_packed(alloc, &octets, encapsulated) && is_no_receipt(alloc, &octets),
        None => false,
    }
}

#[test]
fn certificates_and_packages_are_made(rt: HostRuntime) {
    assert!(rt; issues_a_certificate(rt.alloc()));
    assert!(rt; packs(rt.alloc(), false, BARE) && packs(rt.alloc(), true, WRAPPED));
}
