// Writing a signed package.
ghost use Rattle.std.specs.Prelude.{◌≡◌, ◌++◌, ◌≤◌, ◌^◌, List, ℕ, IfOk, length};
ghost use Rattle.cms_signed.specs.Message.{message_text};
ghost use Rattle.cms_signed.specs.Signer.{to_be_signed};
ghost use Rattle.lms_sign.specs.PublicKeys.{hss_signature_size};
ghost use Rattle.sha2.specs.Sha256.{sha256};
ghost use Rattle.packager.specs.PackagePlan.{package_view, IsPackagePlan};
ghost use Rattle.packager.specs.PlannedMessage.{planned_content, planned_attributes, planned_message};

use crate::attributes::parts;
use crate::package_plan::PackagePlan;
use cert_fields::one_certificate_text;
use cms_signed::content_types::FIRMWARE_PACKAGE;
use der_core::tags;
use lms_sign::SignKey;
use sha2::{Digest, Sha256};
use signed_write::{Draft, Unsigned, begin_element, begin_message, together};
use std::alloc::{AllocError, Global};

// What stands before the image in the content: nothing, or the head of an OCTET STRING of it.
fn wrap_head(alloc: Global, plan: &PackagePlan) -> Result<Vec<u8>, AllocError>
    requires image { length plan.now.image.items ≤ 2 ^ 24 }
    ensures text { IfOk result (λ head. head.items ++ plan.now.image.items
        ≡ planned_content (package_view plan.now)) }
    ensures most { IfOk result (λ head. length head.items ≤ 6) }
{
    if plan.wrap {
        begin_element(alloc, tags::OCTET_STRING, &[], plan.image.len())
    } else {
        Ok(Vec::new(alloc))
    }
}

// The digest of two pieces taken as one.
fn digest_of(front: &[u8], rest: &[u8]) -> [u8; 32]
    ensures value { result ≡ sha256 (front.now ++ rest.now) }
{
    let mut hasher = Sha256::new();
    hasher.update(front);
    hasher.update(rest);
    hasher.finalize()
}

/// The signed package that a plan stands for, before it is signed by this key: SignedData in version
/// 3 of one signer, by HSS/LMS over SHA-256 (RFC 5652, section 5; RFC 4108, section 2; RFC 9708,
/// section 4), with the certificates in their order and the signed attributes in that of DER. The
/// image is copied once.
pub fn pack(alloc: Global, plan: &PackagePlan, key: &SignKey) -> Result<Unsigned, AllocError>
    requires plan { IsPackagePlan (package_view plan.now) }
    ensures size { IfOk result (λ unsigned. unsigned.size ≡ hss_signature_size key.now) }
    ensures signed { IfOk result (λ unsigned. unsigned.signed
        ≡ to_be_signed (planned_attributes (package_view plan.now))) }
    ensures text { IfOk result (λ unsigned. (signature : List ℕ)
        → length signature ≡ hss_signature_size key.now → unsigned.before ++ signature
        ≡ message_text (planned_message (package_view plan.now) signature)) }
{
    one_certificate_text();
    let head = wrap_head(alloc, plan)?;
    let digest = digest_of(&head, &plan.image);
    let attributes = parts(alloc, plan, &digest)?;
    let certificates = together(alloc, &plan.certificates)?;
    let draft = Draft {
        content_type: &FIRMWARE_PACKAGE,
        front: &head,
        content: &plan.image,
        certificates: &certificates,
        signer: plan.signer.octets(),
        attributes: &attributes,
    };
    begin_message(alloc, &draft, key)
}
