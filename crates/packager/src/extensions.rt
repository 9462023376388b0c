// Writing the extensions of a certificate.
ghost use Rattle.std.specs.Prelude.{◌≡◌, ◌++◌, ◌+◌, ◌≤◌, ◌^◌, false, true, OnOk, OnErr, IfOk, IfSome, length};
ghost use Rattle.std.specs.List.{flat_map};
ghost use Rattle.der_core.specs.Element.{enc};
ghost use Rattle.der_core.specs.BitString.{bits_contents};
ghost use Rattle.der_core.specs.Shapes.{text_if, text_unless};
ghost use Rattle.cert_fields.specs.Extensions.{extension_text, key_identifier_text, is_false, boolean_text, path_length_text};
ghost use Rattle.cert_fields.specs.ExtensionTypes.{subject_key_identifier, authority_key_identifier};
ghost use Rattle.cert_fields.specs.ExtensionTypes.{basic_constraints, key_usage, content_constraints, subject_alt_name};
ghost use Rattle.packager.specs.CertificatePlan.{one_if, authority_text, basic_text, uses_text, usage_bits, hardware_text};
ghost use Rattle.packager.specs.CertificatePlan.{planned_extensions, plan_view};

use crate::certificate_plan::{Authority, CertPlan, KeyUses};
use cert_fields::extension_types as types;
use der_core::{Octets64, Oid, tags};
use der_write::{put_oid, put_tlv, put_u128};
use std::alloc::{AllocError, Global};

// The contents of TRUE (X.690, section 11.1).
const TRUE: [u8; 1] = [0xff];

// id-on-hardwareModuleName, 1.3.6.1.5.5.7.8.4 (RFC 4108, section 5).
const HARDWARE_MODULE_NAME: [u8; 8] = [0x2b, 0x06, 0x01, 0x05, 0x05, 0x07, 0x08, 0x04];

// critical, where it isn't the DEFAULT.
#[tactic(auto, unfolding(der_core::specs::Boolean::boolean_contents))]
fn put_critical(alloc: Global, out: &mut Vec<u8>, critical: bool) -> Result<(), AllocError>
    ensures ok { OnOk result (out.new.items
        ≡ out.old.items ++ text_unless is_false boolean_text critical) }
    ensures most { OnOk result (length out.new.items ≤ length out.old.items + 7) }
{
    if critical {
        put_tlv(alloc, out, tags::BOOLEAN, &TRUE)
    } else {
        Ok(())
    }
}

// An extension with the octets of its value.
fn put_extension(
    alloc: Global,
    out: &mut Vec<u8>,
    kind: &[u8],
    critical: bool,
    value: &[u8],
) -> Result<(), AllocError>
    requires kind { length kind.now ≤ 64 }
    requires value { length value.now ≤ 2 ^ 31 }
    ensures ok { OnOk result (out.new.items ≡ out.old.items ++ extension_text (record {
      kind = kind.now;
      critical = critical;
      value = value.now;
    })) }
    ensures most { OnOk result (length out.new.items
        ≤ length out.old.items + length value.now + 90) }
{
    let mut contents = Vec::new(alloc);
    put_tlv(alloc, &mut contents, tags::OBJECT_IDENTIFIER, kind)?;
    put_critical(alloc, &mut contents, critical)?;
    put_tlv(alloc, &mut contents, tags::OCTET_STRING, value)?;
    put_tlv(alloc, out, tags::SEQUENCE, &contents)
}

// subjectKeyIdentifier (RFC 5280, section 4.2.1.2).
fn put_subject_key(
    alloc: Global,
    out: &mut Vec<u8>,
    id: &Option<Octets64>,
) -> Result<(), AllocError>
    ensures ok { OnOk result (out.new.items ≡ out.old.items ++ flat_map extension_text
        (one_if subject_key_identifier false key_identifier_text id.now)) }
    ensures most { OnOk result (length out.new.items ≤ length out.old.items + 200) }
{
    let Some(id) = id else {
        return Ok(());
    };
    let mut value = Vec::new(alloc);
    put_tlv(alloc, &mut value, tags::OCTET_STRING, id.octets())?;
    put_extension(alloc, out, &types::SUBJECT_KEY_IDENTIFIER, false, &value)
}

// authorityKeyIdentifier, with its keyIdentifier alone (RFC 5280, section 4.2.1.1).
fn put_authority_key(
    alloc: Global,
    out: &mut Vec<u8>,
    id: &Option<Octets64>,
) -> Result<(), AllocError>
    ensures ok { OnOk result (out.new.items ≡ out.old.items ++ flat_map extension_text
        (one_if authority_key_identifier false authority_text id.now)) }
    ensures most { OnOk result (length out.new.items ≤ length out.old.items + 200) }
{
    let Some(id) = id else {
        return Ok(());
    };
    let mut contents = Vec::new(alloc);
    put_tlv(alloc, &mut contents, tags::PRIMITIVE_0, id.octets())?;
    let mut value = Vec::new(alloc);
    put_tlv(alloc, &mut value, tags::SEQUENCE, &contents)?;
    put_extension(alloc, out, &types::AUTHORITY_KEY_IDENTIFIER, false, &value)
}

// pathLenConstraint, where there is one.
fn put_path_length(
    alloc: Global,
    out: &mut Vec<u8>,
    path_len: Option<u128>,
) -> Result<(), AllocError>
    ensures ok { OnOk result (out.new.items
        ≡ out.old.items ++ text_if path_length_text path_len) }
    ensures most { OnOk result (length out.new.items ≤ length out.old.items + 23) }
{
    match path_len {
        Some(path_len) => put_u128(alloc, out, path_len),
        None => Ok(()),
    }
}

// basicConstraints of an authority (RFC 5280, section 4.2.1.9).
#[tactic(auto, unfolding(der_core::specs::Boolean::boolean_contents))]
fn put_basic_constraints(
    alloc: Global,
    out: &mut Vec<u8>,
    authority: &Option<Authority>,
) -> Result<(), AllocError>
    ensures ok { OnOk result (out.new.items ≡ out.old.items ++ flat_map extension_text
        (one_if basic_constraints true basic_text authority.now)) }
    ensures most { OnOk result (length out.new.items ≤ length out.old.items + 200) }
{
    let Some(authority) = authority else {
        return Ok(());
    };
    let mut contents = Vec::new(alloc);
    put_tlv(alloc, &mut contents, tags::BOOLEAN, &TRUE)?;
    put_path_length(alloc, &mut contents, authority.path_len)?;
    let mut value = Vec::new(alloc);
    put_tlv(alloc, &mut value, tags::SEQUENCE, &contents)?;
    put_extension(alloc, out, &types::BASIC_CONSTRAINTS, true, &value)
}

// The contents of a BIT STRING: how many bits aren't used, and the bits.
#[tactic(auto, unfolding(der_core::specs::BitString::bits_contents))]
fn usage_octets(uses: &KeyUses) -> [u8; 2]
    ensures bits { result ≡ bits_contents (usage_bits uses.now) }
{
    match uses {
        KeyUses::Sign => [7, 0x80],
        KeyUses::CertSign => [2, 0x04],
        KeyUses::Both => [2, 0x84],
    }
}

// keyUsage (RFC 5280, section 4.2.1.3).
fn put_key_usage(alloc: Global, out: &mut Vec<u8>, uses: &Option<KeyUses>) -> Result<(), AllocError>
    ensures ok { OnOk result (out.new.items ≡ out.old.items ++ flat_map extension_text
        (one_if key_usage true uses_text uses.now)) }
    ensures most { OnOk result (length out.new.items ≤ length out.old.items + 200) }
{
    let Some(uses) = uses else {
        return Ok(());
    };
    let mut value = Vec::new(alloc);
    put_tlv(alloc, &mut value, tags::BIT_STRING, &usage_octets(uses))?;
    put_extension(alloc, out, &types::KEY_USAGE, true, &value)
}

// cmsContentConstraints (RFC 6010, section 3).
fn put_constraints(
    alloc: Global,
    out: &mut Vec<u8>,
    text: &Option<Vec<u8>>,
) -> Result<(), AllocError>
    requires short { IfSome text.now (λ text. length text.items ≤ 2 ^ 31) }
    ensures ok { OnOk result (out.new.items ≡ out.old.items ++ flat_map extension_text
        (one_if content_constraints false (λ text. text.items) text.now)) }
    ensures most { OnOk result (length out.new.items ≤ length out.old.items + 2 ^ 31 + 90) }
{
    let Some(text) = text else {
        return Ok(());
    };
    put_extension(alloc, out, &types::CONTENT_CONSTRAINTS, false, text)
}

// HardwareModuleName (RFC 4108, section 5).
fn put_module_name(
    alloc: Global,
    out: &mut Vec<u8>,
    hw_type: &Oid,
    serial: &Octets64,
) -> Result<(), AllocError>
    ensures ok { OnOk result (out.new.items ≡ out.old.items
        ++ enc 0x30 (enc 0x06 hw_type.now ++ enc 0x04 serial.now)) }
    ensures most { OnOk result (length out.new.items ≤ length out.old.items + 150) }
{
    let mut contents = Vec::new(alloc);
    put_oid(alloc, &mut contents, hw_type)?;
    put_tlv(alloc, &mut contents, tags::OCTET_STRING, serial.octets())?;
    put_tlv(alloc, out, tags::SEQUENCE, &contents)
}

// subjectAltName, with a hardware module's name (RFC 5280, section 4.2.1.6; RFC 4108, section 5).
fn put_hardware(
    alloc: Global,
    out: &mut Vec<u8>,
    hardware: &Option<(Oid, Octets64)>,
) -> Result<(), AllocError>
    ensures ok { OnOk result (out.new.items ≡ out.old.items ++ flat_map extension_text
        (one_if subject_alt_name false hardware_text hardware.now)) }
    ensures most { OnOk result (length out.new.items ≤ length out.old.items + 300) }
{
    let Some((hw_type, serial)) = hardware else {
        return Ok(());
    };
    let mut module_name = Vec::new(alloc);
    put_module_name(alloc, &mut module_name, hw_type, serial)?;
    let mut other_name = Vec::new(alloc);
    put_tlv(
        alloc,
        &mut other_name,
        tags::OBJECT_IDENTIFIER,
        &HARDWARE_MODULE_NAME,
    )?;
    put_tlv(alloc, &mut other_name, tags::CONSTRUCTED_0, &module_name)?;
    let mut names = Vec::new(alloc);
    put_tlv(alloc, &mut names, tags::CONSTRUCTED_0, &other_name)?;
    let mut value = Vec::new(alloc);
    put_tlv(alloc, &mut value, tags::SEQUENCE, &names)?;
    put_extension(alloc, out, &types::SUBJECT_ALT_NAME, false, &value)
}

/// The extensions of a planned certificate, one after the other.
pub(crate) fn extensions(alloc: Global, plan: &CertPlan) -> Result<Vec<u8>, AllocError>
    requires short { IfSome plan.now.constraints (λ text. length text.items ≤ 2 ^ 31) }
    ensures ok { IfOk result (λ all. all.items
        ≡ flat_map extension_text (planned_extensions (plan_view plan.now))) }
    ensures most { IfOk result (λ all. length all.items ≤ 2 ^ 31 + 1200) }
{
    let mut all = Vec::new(alloc);
    put_subject_key(alloc, &mut all, &plan.subject_key)?;
    put_authority_key(alloc, &mut all, &plan.authority_key)?;
    put_basic_constraints(alloc, &mut all, &plan.authority)?;
    put_key_usage(alloc, &mut all, &plan.uses)?;
    put_constraints(alloc, &mut all, &plan.constraints)?;
    put_hardware(alloc, &mut all, &plan.hardware)?;
    Ok(all)
}
