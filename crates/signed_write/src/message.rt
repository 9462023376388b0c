// Writing signed data.
ghost use Rattle.std.specs.Prelude.{◌≡◌, ◌++◌, ◌+◌, ◌∷◌, ◌≤◌, ◌^◌, false, List, ℕ, OnOk, IfOk, Some, length, map, drop};
ghost use Rattle.std.specs.List.{concat};
ghost use Rattle.der_core.specs.Element.{enc};
ghost use Rattle.der_core.specs.Number.{number_contents};
ghost use Rattle.cert_fields.specs.Algorithms.{digest_algorithm, signature_algorithm};
ghost use Rattle.cms_signed.specs.Cut.{signed_data};
ghost use Rattle.cms_signed.specs.Message.{message_text};
ghost use Rattle.cms_signed.specs.Signed.{encapsulated_contents};
ghost use Rattle.cms_signed.specs.Signer.{to_be_signed};
ghost use Rattle.lms_sign.specs.PublicKeys.{hss_signature_size};
ghost use Rattle.signed_write.specs.Orders.{in_order};
ghost use Rattle.signed_write.specs.Written.{Written, written_message, IsDraft, IsWithinLimits, certificates_text};

use crate::algorithms::{put_algorithm, put_digest_algorithm};
use crate::attributes::signed_attributes;
use crate::draft::Draft;
use crate::fronts::begin_element;
use crate::unsigned::Unsigned;
use cms_signed::content_types::SIGNED_DATA;
use der_core::tags;
use der_write::{put_tlv, put_u128};
use lms_sign::{SignKey, signature_size};
use std::alloc::{AllocError, Global};

// The version of a SignerInfo whose signer is named by a key identifier (RFC 5652, section 5.3), and of
// SignedData with such a signer and X.509 certificates alone (section 5.1).
const V3: u128 = 3;

// Appends the certificates in [0], where there are any (RFC 5652, section 5.1).
fn put_certificates(alloc: Global, out: &mut Vec<u8>, certificates: &[u8]) -> Result<(), AllocError>
    requires few { length certificates.now ≤ 2 ^ 26 }
    ensures ok { OnOk result (out.new.items
        ≡ out.old.items ++ certificates_text certificates.now) }
    ensures most { OnOk result (length out.new.items
        ≤ length out.old.items + length certificates.now + 6) }
{
    if certificates.is_empty() {
        return Ok(());
    }
    put_tlv(alloc, out, tags::CONSTRUCTED_0, certificates)
}

// What stands before the signed attributes in the SignerInfo: its version, its signer's identifier
// and the digest algorithm (RFC 5652, section 5.3).
fn signer_front(alloc: Global, signer: &[u8]) -> Result<Vec<u8>, AllocError>
    requires few { length signer.now ≤ 64 }
    ensures ok { IfOk result (λ front. front.items ≡ enc 0x02 (number_contents 3)
        ++ (enc 0x80 signer.now ++ digest_algorithm false)) }
    ensures most { IfOk result (λ front. length front.items ≤ 120) }
{
    let mut front = Vec::new(alloc);
    put_u128(alloc, &mut front, V3)?;
    put_tlv(alloc, &mut front, tags::PRIMITIVE_0, signer)?;
    put_digest_algorithm(&mut front)?;
    Ok(front)
}

// What stands behind the content and before the signed attributes: the certificates, and the
// signer's octets up to there. So many octets come later.
fn middle(
    alloc: Global,
    certificates: &[u8],
    signer: &[u8],
    later: usize,
) -> Result<Vec<u8>, AllocError>
    requires certificates { length certificates.now ≤ 2 ^ 26 }
    requires signer { length signer.now ≤ 64 }
    requires few { later ≤ 2 ^ 21 }
    ensures text { IfOk result (λ middle. (rest : List ℕ) → length rest ≡ later
        → middle.items ++ rest ≡ certificates_text certificates.now
        ++ enc 0x31 (enc 0x30 (enc 0x02 (number_contents 3)
        ++ (enc 0x80 signer.now ++ (digest_algorithm false ++ rest))))) }
    ensures most { IfOk result (λ middle. length middle.items ≤ length certificates.now + 140) }
{
    let front = signer_front(alloc, signer)?;
    let info = begin_element(alloc, tags::SEQUENCE, &front, later)?;
    let infos = begin_element(alloc, tags::SET, &info, later)?;
    let mut middle = Vec::new(alloc);
    put_certificates(alloc, &mut middle, certificates)?;
    middle.extend_from_slice(&infos)?;
    Ok(middle)
}

// What stands behind the signed attributes: the signature algorithm, and the head of the signature.
fn behind(alloc: Global, size: usize) -> Result<Vec<u8>, AllocError>
    requires few { size ≤ 2 ^ 20 }
    ensures text { IfOk result (λ behind. (signature : List ℕ) → length signature ≡ size
        → behind.items ++ signature ≡ signature_algorithm ++ enc 0x04 signature) }
    ensures most { IfOk result (λ behind. length behind.items ≤ 21) }
{
    let mut behind = Vec::new(alloc);
    put_algorithm(&mut behind)?;
    let head = begin_element(alloc, tags::OCTET_STRING, &[], size)?;
    behind.extend_from_slice(&head)?;
    Ok(behind)
}

// encapContentInfo of a content of this type, without the last octets of the content, of which so many
// come later (RFC 5652, section 5.2).
fn content_front(
    alloc: Global,
    content_type: &[u8],
    front: &[u8],
    later: usize,
) -> Result<Vec<u8>, AllocError>
    requires content_type { length content_type.now ≤ 64 }
    requires front { length front.now ≤ 6 }
    requires later { later ≤ 2 ^ 24 }
    ensures text { IfOk result (λ head. (octets : List ℕ) → length octets ≡ later
        → head.items ++ octets ≡ enc 0x30 (encapsulated_contents
        (record { content_type = content_type.now; content = Some (front.now ++ octets) }))) }
    ensures most { IfOk result (λ head. length head.items ≤ 100) }
{
    let content = begin_element(alloc, tags::OCTET_STRING, front, later)?;
    let explicit = begin_element(alloc, tags::CONSTRUCTED_0, &content, later)?;
    let mut contents = Vec::new(alloc);
    put_tlv(alloc, &mut contents, tags::OBJECT_IDENTIFIER, content_type)?;
    contents.extend_from_slice(&explicit)?;
    let head = begin_element(alloc, tags::SEQUENCE, &contents, later)?;
    Ok(head)
}

// What stands before the content, where so many octets come later, the content among them (RFC 5652,
// sections 3 and 5.1).
fn message_front(alloc: Global, front: &[u8], later: usize) -> Result<Vec<u8>, AllocError>
    requires front { length front.now ≤ 100 }
    requires later { later ≤ 2 ^ 27 }
    ensures text { IfOk result (λ head. (rest : List ℕ) → length rest ≡ later
        → head.items ++ rest ≡ enc 0x30 (enc 0x06 signed_data ++ enc 0xA0 (enc 0x30
        (enc 0x02 (number_contents 3) ++ (enc 0x31 (digest_algorithm false)
        ++ (front.now ++ rest)))))) }
    ensures most { IfOk result (λ head. length head.items ≤ 200) }
{
    let fields = data_front(alloc, front)?;
    let data = begin_element(alloc, tags::SEQUENCE, &fields, later)?;
    let explicit = begin_element(alloc, tags::CONSTRUCTED_0, &data, later)?;
    let mut contents = Vec::new(alloc);
    put_tlv(alloc, &mut contents, tags::OBJECT_IDENTIFIER, &SIGNED_DATA)?;
    contents.extend_from_slice(&explicit)?;
    let head = begin_element(alloc, tags::SEQUENCE, &contents, later)?;
    Ok(head)
}

// The version and the digest algorithms of SignedData, and this behind them.
fn data_front(alloc: Global, front: &[u8]) -> Result<Vec<u8>, AllocError>
    requires front { length front.now ≤ 100 }
    ensures ok { IfOk result (λ contents. contents.items ≡ enc 0x02 (number_contents 3)
        ++ (enc 0x31 (digest_algorithm false) ++ front.now)) }
    ensures most { IfOk result (λ contents. length contents.items ≤ 150) }
{
    let mut algorithms = Vec::new(alloc);
    put_digest_algorithm(&mut algorithms)?;
    let mut contents = Vec::new(alloc);
    put_u128(alloc, &mut contents, V3)?;
    put_tlv(alloc, &mut contents, tags::SET, &algorithms)?;
    contents.extend_from_slice(front)?;
    Ok(contents)
}

// The parts one after the other, with room for the signature behind them. The signed attributes are
// signed, with the tag of a SET OF in place of their own (RFC 5652, section 5.4).
fn put_together(
    alloc: Global,
    front: &[u8],
    content: &[u8],
    middle: &[u8],
    attributes: &[u8],
    behind: &[u8],
    size: usize,
) -> Result<Unsigned, AllocError>
    requires some { 1 ≤ length attributes.now }
    requires few { size ≤ 2 ^ 20 }
    requires fits { length front.now + length content.now + length middle.now
        + length attributes.now + length behind.now ≤ 2 ^ 31 }
    ensures size { IfOk result (λ unsigned. unsigned.size ≡ size) }
    ensures signed { IfOk result (λ unsigned. unsigned.signed ≡ 0x31 ∷ drop 1 attributes.now) }
    ensures before { IfOk result (λ unsigned. unsigned.before
        ≡ front.now ++ (content.now ++ (middle.now ++ (attributes.now ++ behind.now)))) }
{
    let mut octets = Vec::new(alloc);
    octets.reserve(
        front.len() + content.len() + middle.len() + attributes.len() + behind.len() + size,
    )?;
    octets.extend_from_slice(front)?;
    octets.extend_from_slice(content)?;
    octets.extend_from_slice(middle)?;
    let from = octets.len() + 1;
    octets.extend_from_slice(attributes)?;
    let to = octets.len();
    octets.extend_from_slice(behind)?;
    Unsigned::new(alloc, octets, tags::SET, from, to, size)
}

/// The signed data that a draft stands for, before it is signed by this key: SignedData in version 3 of
/// one signer, named by its key identifier, by HSS/LMS over SHA-256 without parameters (RFC 5652,
/// section 5; RFC 9708, section 4), with the certificates as they are and the signed attributes in the
/// order of DER. The content is copied once. The one refusal is for want of memory.
pub fn begin_message(
    alloc: Global,
    draft: &Draft<'_>,
    key: &SignKey,
) -> Result<Unsigned, AllocError>
    requires limits { IsWithinLimits draft.now }
    ensures size { IfOk result (λ unsigned. unsigned.size ≡ hss_signature_size key.now) }
    ensures signed { IfOk result (λ unsigned. (w : Written) → IsDraft draft.now w
        → unsigned.signed ≡ to_be_signed (in_order w.attributes)) }
    ensures text { IfOk result (λ unsigned. (w : Written) → IsDraft draft.now w
        → (signature : List ℕ) → length signature ≡ hss_signature_size key.now
        → unsigned.before ++ signature ≡ message_text (written_message w signature)) }
    ensures most { IfOk result (λ unsigned. length unsigned.before
        ≤ length draft.now.content.now + length draft.now.certificates.now
        + length (concat (map (λ part. part.items) draft.now.attributes.now)) + 400) }
{
    let attributes = signed_attributes(alloc, draft.attributes)?;
    let size = signature_size(key);
    let behind = behind(alloc, size)?;
    let later = attributes.len() + behind.len() + size;
    let middle = middle(alloc, draft.certificates, draft.signer, later)?;
    let content = content_front(alloc, draft.content_type, draft.front, draft.content.len())?;
    let after = draft.content.len() + middle.len() + later;
    let front = message_front(alloc, &content, after)?;
    put_together(
        alloc,
        &front,
        draft.content,
        &middle,
        &attributes,
        &behind,
        size,
    )
}
