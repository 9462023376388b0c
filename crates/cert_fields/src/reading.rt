// Reading what the extensions of a certificate say.
ghost use Rattle.std.specs.Prelude.{◌≡◌, ◌↔◌, List, ℕ, Option, Some, IfOk};
ghost use Rattle.cert_fields.specs.declared.extensions.CaRule.{CaRule};
ghost use Rattle.cert_fields.specs.declared.extensions.Extensions.{Extensions};
ghost use Rattle.der_core.specs.Reads.{Answers};
ghost use Rattle.cert_fields.specs.Constraints.{ContentConstraint, constraints_text, AreConstraints};
ghost use Rattle.cert_fields.specs.ExtensionTypes.{subject_key_identifier, authority_key_identifier};
ghost use Rattle.cert_fields.specs.ExtensionTypes.{basic_constraints, key_usage, content_constraints};
ghost use Rattle.cert_fields.specs.Extensions.{Says, SaysAuthority, SaysUsage, SaysIn, HasExtensions};
ghost use Rattle.cert_fields.specs.Extensions.{key_identifier_text, IsKeyIdentifier};
ghost use Rattle.cert_fields.specs.Extensions.{ca_rule_text, IsCaRule};
ghost use Rattle.cert_fields.specs.ExtensionsReading.{SaysBut};
ghost use Rattle.cert_fields.specs.View.{certificate_view, part_view};

use crate::extension_list::{ExtensionList, have_own_kinds, read_standing};
use crate::extension_values::{read_authority_key, read_ca_rule, read_key_identifier, read_usage};
use crate::{CaRule, Ccc, Cert, Extensions, extension_types as types, read_ccc};
use der_core::Octets64;
use std::alloc::{AllocError, Global};

// The subject's key identifier, where its extension is there. None where that doesn't read.
fn subject_key_in(list: &ExtensionList<'_>) -> Option<Option<Octets64>>
    ensures { (v : Option (List ℕ)) → (result ≡ Some v) ↔ Says key_identifier_text IsKeyIdentifier
        subject_key_identifier list.now v }
{
    match list.value_of(&types::SUBJECT_KEY_IDENTIFIER) {
        Some(value) => Some(Some(read_key_identifier(value)?)),
        None => Some(None),
    }
}

fn authority_key_in(list: &ExtensionList<'_>) -> Option<Option<Octets64>>
    ensures { (v : Option (List ℕ)) → (result ≡ Some v) ↔ SaysAuthority list.now v }
{
    match list.value_of(&types::AUTHORITY_KEY_IDENTIFIER) {
        Some(value) => read_authority_key(value),
        None => Some(None),
    }
}

fn ca_in(list: &ExtensionList<'_>) -> Option<Option<CaRule>>
    ensures { (v : Option CaRule) → (result ≡ Some v) ↔ Says ca_rule_text IsCaRule
        basic_constraints list.now v }
{
    match list.value_of(&types::BASIC_CONSTRAINTS) {
        Some(value) => Some(Some(read_ca_rule(value)?)),
        None => Some(None),
    }
}

fn usage_in(list: &ExtensionList<'_>) -> Option<Option<u16>>
    ensures { (v : Option ℕ) → (result ≡ Some v) ↔ SaysUsage list.now v }
{
    match list.value_of(&types::KEY_USAGE) {
        Some(value) => Some(Some(read_usage(value)?)),
        None => Some(None),
    }
}

fn constraints_in<'a>(
    alloc: Global,
    list: &ExtensionList<'a>,
) -> Result<Option<Option<Ccc<'a>>>, AllocError>
    ensures { IfOk result (λ answer. (v : Option (List ContentConstraint)) → (answer ≡ Some v)
        ↔ Says constraints_text AreConstraints content_constraints list.now v) }
{
    match list.value_of(&types::CONTENT_CONSTRAINTS) {
        Some(value) => match read_ccc(alloc, value)? {
            Some(constraints) => Ok(Some(Some(constraints))),
            None => Ok(None),
        },
        None => Ok(Some(None)),
    }
}

// The values of the extensions that are read, with the constraints.
fn values_in<'a>(list: &ExtensionList<'_>, constraints: Option<Ccc<'a>>) -> Option<Extensions<'a>>
    ensures { (e : Extensions) → (result ≡ Some e)
        ↔ SaysBut list.now e × (e.constraints ≡ constraints.entry) }
{
    Some(Extensions {
        subject_key: subject_key_in(list)?,
        authority_key: authority_key_in(list)?,
        ca: ca_in(list)?,
        usage: usage_in(list)?,
        constraints,
    })
}

// What the octets in [3] of a certificate say, where they are there.
pub(crate) fn read_part<'a>(
    alloc: Global,
    part: Option<&'a [u8]>,
) -> Result<Option<Extensions<'a>>, AllocError>
    ensures spelled { IfOk result (λ answer. (e : Extensions) → (answer ≡ Some e)
        ↔ SaysIn (part_view part.entry) e) }
{
    let Some(list) = read_standing(part) else {
        return Ok(None);
    };
    if !list.are_understood() {
        return Ok(None);
    }
    if !have_own_kinds(alloc, list.octets())? {
        return Ok(None);
    }
    let Some(constraints) = constraints_in(alloc, &list)? else {
        return Ok(None);
    };
    Ok(values_in(&list, constraints))
}

/// What the extensions of the certificate say that are read here (RFC 5280, section 4.2; RFC 6010,
/// section 3). None where they don't read: where they are no list of extensions, a type stands twice,
/// a critical one isn't known, or one that is read here isn't of its form. A certificate without
/// extensions says nothing. Takes memory to see that no type stands twice, and gives it back.
pub fn read_extensions<'a>(
    alloc: Global,
    cert: &Cert<'a>,
) -> Result<Option<Extensions<'a>>, AllocError>
    ensures spelled { IfOk result (λ answer. (e : Extensions) → (answer ≡ Some e)
        ↔ HasExtensions (certificate_view cert.now) e) }
{
    read_part(alloc, cert.signed.extensions)
}
