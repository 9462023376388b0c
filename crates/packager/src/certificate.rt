// Writing a certificate.
ghost use Rattle.std.specs.Prelude.{◌≡◌, ◌++◌, ◌+◌, ◌∷◌, ◌≤◌, ◌^◌, List, ℕ, OnOk, IfOk, length, drop};
ghost use Rattle.cert_fields.specs.Certificate.{signed_contents, signed_text, certificate_text, validity_text, version_text, key_text, bits_text};
ghost use Rattle.cert_fields.specs.Algorithms.{signature_algorithm};
ghost use Rattle.cert_fields.specs.Extensions.{extensions_text};
ghost use Rattle.der_core.specs.Shapes.{text_if};
ghost use Rattle.der_core.specs.Element.{enc};
ghost use Rattle.hss_chain.specs.Keys.{hss_key_text};
ghost use Rattle.lms_sign.specs.PublicKeys.{hss_signature_size};
ghost use Rattle.packager.specs.CertificatePlan.{IsShort, plan_view, planned_part, planned_certificate};
ghost use Rattle.packager.specs.CertificatePlan.{planned_extensions, written_extensions, time_of};

use crate::certificate_plan::CertPlan;
use crate::extensions::extensions;
use cert_fields::algorithms::HSS_LMS;
use der_core::{Moment, tags};
use der_write::{head_size, put_head, put_time, put_tlv, put_u128};
use hss_chain::HssKey;
use lms_sign::{SignKey, key_octets, signature_size};
use signed_write::{Unsigned, put_algorithm};
use std::alloc::{AllocError, Global};

// The number of v3 (RFC 5280, section 4.1.2.1).
const V3: u128 = 2;

fn put_version(alloc: Global, out: &mut Vec<u8>) -> Result<(), AllocError>
    ensures ok { OnOk result (out.new.items ≡ out.old.items ++ version_text 2) }
    ensures most { OnOk result (length out.new.items ≤ length out.old.items + 29) }
{
    let mut version = Vec::new(alloc);
    put_u128(alloc, &mut version, V3)?;
    put_tlv(alloc, out, tags::CONSTRUCTED_0, &version)
}

fn put_validity(
    alloc: Global,
    out: &mut Vec<u8>,
    from: Moment,
    to: Moment,
) -> Result<(), AllocError>
    ensures ok { OnOk result (out.new.items
        ≡ out.old.items ++ validity_text (time_of from, time_of to)) }
    ensures most { OnOk result (length out.new.items ≤ length out.old.items + 48) }
{
    let mut ends = Vec::new(alloc);
    put_time(alloc, &mut ends, from)?;
    put_time(alloc, &mut ends, to)?;
    put_tlv(alloc, out, tags::SEQUENCE, &ends)
}

// Bits, of which none is unused.
#[tactic(auto, unfolding(der_core::specs::BitString::bits_contents))]
fn put_bits(alloc: Global, out: &mut Vec<u8>, octets: &[u8]) -> Result<(), AllocError>
    requires short { length octets.now ≤ 2 ^ 31 }
    ensures ok { OnOk result (out.new.items ≡ out.old.items ++ bits_text (0, octets.now)) }
    ensures most { OnOk result (length out.new.items
        ≤ length out.old.items + length octets.now + 7) }
{
    let mut bits = Vec::new(alloc);
    bits.push(0)?;
    bits.extend_from_slice(octets)?;
    put_tlv(alloc, out, tags::BIT_STRING, &bits)
}

// The octets of a key as they are.
fn put_key_octets(alloc: Global, out: &mut Vec<u8>, octets: &[u8]) -> Result<(), AllocError>
    requires short { length octets.now ≤ 2 ^ 30 }
    ensures ok { OnOk result (out.new.items
        ≡ out.old.items ++ key_text (signature_algorithm, (0, octets.now))) }
    ensures most { OnOk result (length out.new.items
        ≤ length out.old.items + length octets.now + 28) }
{
    let mut contents = Vec::new(alloc);
    put_algorithm(&mut contents)?;
    put_bits(alloc, &mut contents, octets)?;
    put_tlv(alloc, out, tags::SEQUENCE, &contents)
}

fn put_key(alloc: Global, out: &mut Vec<u8>, key: &HssKey) -> Result<(), AllocError>
    ensures ok { OnOk result (out.new.items
        ≡ out.old.items ++ key_text (signature_algorithm, (0, hss_key_text key.now))) }
    ensures most { OnOk result (length out.new.items ≤ length out.old.items + 88) }
{
    put_key_octets(alloc, out, &key_octets(key))
}

// The extensions in [3], where there are any.
fn put_extensions(alloc: Global, out: &mut Vec<u8>, plan: &CertPlan) -> Result<(), AllocError>
    requires short { IsShort (plan_view plan.now) }
    ensures ok { OnOk result (out.new.items ≡ out.old.items ++ text_if (enc 0xA3)
        (written_extensions (planned_extensions (plan_view plan.now)))) }
    ensures most { OnOk result (length out.new.items ≤ length out.old.items + 2 ^ 31 + 1300) }
{
    let all = extensions(alloc, plan)?;
    if all.is_empty() {
        return Ok(());
    }
    let mut list = Vec::new(alloc);
    put_tlv(alloc, &mut list, tags::SEQUENCE, &all)?;
    put_tlv(alloc, out, tags::CONSTRUCTED_3, &list)
}

// Issuer, validity, subject, key and extensions.
fn put_who(alloc: Global, out: &mut Vec<u8>, plan: &CertPlan) -> Result<(), AllocError>
    requires short { IsShort (plan_view plan.now) }
    ensures ok { OnOk result (out.new.items ≡ out.old.items ++ (plan.now.issuer.items
        ++ (validity_text (time_of plan.now.from, time_of plan.now.to) ++ (plan.now.subject.items
        ++ (key_text (signature_algorithm, (0, hss_key_text plan.now.key))
        ++ text_if (enc 0xA3) (written_extensions (planned_extensions (plan_view plan.now)))))))) }
    ensures most { OnOk result (length out.new.items
        ≤ length out.old.items + 2 ^ 31 + 2 ^ 17 + 1500) }
{
    out.extend_from_slice(&plan.issuer)?;
    put_validity(alloc, out, plan.from, plan.to)?;
    out.extend_from_slice(&plan.subject)?;
    put_key(alloc, out, &plan.key)?;
    put_extensions(alloc, out, plan)
}

// The contents of the signed part.
fn signed_part(alloc: Global, plan: &CertPlan) -> Result<Vec<u8>, AllocError>
    requires short { IsShort (plan_view plan.now) }
    ensures ok { IfOk result (λ contents. contents.items
        ≡ signed_contents (planned_part (plan_view plan.now))) }
    ensures most { IfOk result (λ contents. length contents.items ≤ 2 ^ 31 + 2 ^ 18) }
{
    let mut contents = Vec::new(alloc);
    put_version(alloc, &mut contents)?;
    put_tlv(alloc, &mut contents, tags::INTEGER, &plan.serial)?;
    put_algorithm(&mut contents)?;
    put_who(alloc, &mut contents, plan)?;
    Ok(contents)
}

/// The certificate that a plan stands for, before it is signed by this key: v3, with HSS/LMS for its
/// algorithms (RFC 9708, section 4), and the extensions of the plan in their order (RFC 5280, section
/// 4.1).
pub fn issue(alloc: Global, plan: &CertPlan, key: &SignKey) -> Result<Unsigned, AllocError>
    requires short { IsShort (plan_view plan.now) }
    ensures size { IfOk result (λ unsigned. unsigned.size ≡ hss_signature_size key.now) }
    ensures signed { IfOk result (λ unsigned. unsigned.signed
        ≡ signed_text (planned_part (plan_view plan.now))) }
    ensures text { IfOk result (λ unsigned. (signature : List ℕ)
        → length signature ≡ hss_signature_size key.now → unsigned.before ++ signature
        ≡ certificate_text (planned_certificate (plan_view plan.now) signature)) }
{
    let part = signed_part(alloc, plan)?;
    let mut signed = Vec::new(alloc);
    put_tlv(alloc, &mut signed, tags::SEQUENCE, &part)?;
    around(alloc, &signed, signature_size(key))
}

// A certificate with this signed part, a whole element, and room for a signature of so many octets.
fn around(alloc: Global, signed: &[u8], size: usize) -> Result<Unsigned, AllocError>
    requires short { length signed.now ≤ 2 ^ 31 + 2 ^ 20 }
    requires some { 1 ≤ length signed.now }
    requires few { size ≤ 2 ^ 20 }
    ensures size { IfOk result (λ unsigned. unsigned.size ≡ size) }
    ensures signed { IfOk result (λ unsigned. unsigned.signed ≡ 0x30 ∷ drop 1 signed.now) }
    ensures text { IfOk result (λ unsigned. (signature : List ℕ) → length signature ≡ size
        → unsigned.before ++ signature ≡ enc 0x30 (signed.now
        ++ (signature_algorithm ++ bits_text (0, signature)))) }
{
    let bits = 1 + size;
    let contents = signed.len() + HSS_LMS.len() + head_size(bits as u32) + bits;
    let mut octets = Vec::new(alloc);
    octets.reserve(head_size(contents as u32) + contents)?;
    put_head(alloc, &mut octets, tags::SEQUENCE, contents as u32)?;
    let from = octets.len() + 1;
    octets.extend_from_slice(signed)?;
    let to = octets.len();
    put_algorithm(&mut octets)?;
    put_head(alloc, &mut octets, tags::BIT_STRING, bits as u32)?;
    octets.push(0)?;
    Unsigned::new(alloc, octets, tags::SEQUENCE, from, to, size)
}
