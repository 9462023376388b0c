// The values of the extensions that are read.
ghost use Rattle.std.specs.Prelude.{◌≡◌, ◌↔◌, ◌≤◌, ℕ, List, Option, Some};
ghost use Rattle.der_core.specs.Reads.{Reads, Answers};
ghost use Rattle.der_core.specs.Shapes.{mapped};
ghost use Rattle.cert_fields.specs.Certificate.{BitString, bits_text};
ghost use Rattle.cert_fields.specs.Extensions.{key_identifier_text, IsKeyIdentifier, IsUsage};
ghost use Rattle.cert_fields.specs.Extensions.{AuthorityKey, IsAuthorityKey, authority_key_text};
ghost use Rattle.cert_fields.specs.Extensions.{ca_rule_text, IsCaRule, named_bit, usage_number};
ghost use Rattle.cert_fields.specs.ExtensionsReading.{key_identifier_of, authority_serial_of};
ghost use Rattle.cert_fields.specs.ExtensionsReading.{authority_issuer_of, authority_parts_of};
ghost use Rattle.cert_fields.specs.ExtensionsReading.{authority_key_of, usage_bits_of, path_length_of};
ghost use Rattle.cert_fields.specs.ExtensionsReading.{ca_rule_fields_of, ca_rule_of, authority_value};
ghost use Rattle.cert_fields.specs.View.{part_view, bits_view};

use crate::extension_list::read_boolean;
use crate::signed_part::read_bits_at;
use crate::{Bits, CaRule};
use der_core::{Cursor, Octets64, read_u128, tags};

// The reading of a key identifier.
#[tactic(auto, unfolding(crate::specs::ExtensionsReading::key_identifier_of))]
fn key_identifier(bytes: &[u8]) -> Option<Octets64>
    ensures exact { Answers (λ key. key) result (key_identifier_of bytes.now) }
{
    let mut items = Cursor::new(bytes);
    let key = Octets64::some(items.tagged(tags::OCTET_STRING)?)?;
    if items.at_end() { Some(key) } else { None }
}

// The serial number of an authority's certificate, where any octets are left.
#[tactic(auto, unfolding(crate::specs::ExtensionsReading::authority_serial_of))]
fn read_authority_serial<'a>(rest: &mut Cursor<'a>) -> Option<Option<&'a [u8]>>
    ensures exact { Answers part_view result (authority_serial_of rest.old) }
{
    if rest.at_end() {
        return Some(None);
    }
    let serial = rest.tagged(tags::PRIMITIVE_2)?;
    if rest.at_end() {
        Some(Some(serial))
    } else {
        None
    }
}

// The issuer of an authority's certificate, where it is there, and its serial number.
#[tactic(auto, unfolding(crate::specs::ExtensionsReading::authority_issuer_of))]
fn read_authority_issuer<'a>(rest: &mut Cursor<'a>) -> Option<(Option<&'a [u8]>, Option<&'a [u8]>)>
    ensures exact { Answers (λ x. (part_view x.0, part_view x.1)) result
        (authority_issuer_of rest.old) }
{
    let mut issuer = None;
    if rest.is_at(tags::CONSTRUCTED_1) {
        issuer = Some(rest.tagged(tags::CONSTRUCTED_1)?);
    }
    Some((issuer, read_authority_serial(rest)?))
}

// The components of an authority's key identifier.
#[derive(Clone, Copy)]
struct AuthorityParts<'a> {
    key: Option<Octets64>,
    issuer: Option<&'a [u8]>,
    serial: Option<&'a [u8]>,
}

#[tactic(auto, unfolding(crate::specs::ExtensionsReading::authority_parts_of))]
fn read_authority_parts(contents: &[u8]) -> Option<AuthorityParts<'_>>
    ensures exact { Answers (λ p. (p.key, (part_view p.issuer, part_view p.serial))) result
        (authority_parts_of contents.now) }
{
    let mut rest = Cursor::new(contents);
    let mut key = None;
    if rest.is_at(tags::PRIMITIVE_0) {
        key = Some(Octets64::some(rest.tagged(tags::PRIMITIVE_0)?)?);
    }
    let (issuer, serial) = read_authority_issuer(&mut rest)?;
    Some(AuthorityParts {
        key,
        issuer,
        serial,
    })
}

// The reading of an authority's key identifier.
#[tactic(auto, unfolding(crate::specs::ExtensionsReading::authority_key_of))]
fn authority_key(bytes: &[u8]) -> Option<Option<Octets64>>
    ensures exact { Answers (λ key. key) result (mapped (λ a. a.key) authority_key_of bytes.now) }
{
    let mut items = Cursor::new(bytes);
    let contents = items.tagged(tags::SEQUENCE)?;
    let Some(parts) = read_authority_parts(contents) else {
        return None;
    };
    if items.at_end() {
        Some(parts.key)
    } else {
        None
    }
}

// A bit of a BIT STRING, the first of them the most significant of the first octet. One that isn't
// there is zero.
fn named_bit(octets: &[u8], n: usize) -> u16
    requires { n ≤ 8 }
    ensures value { result ≡ named_bit octets.now n }
    ensures bit { result ≤ 1 }
{
    match octets.get(n / 8) {
        Some(octet) => ((*octet >> (7 - n % 8)) & 1) as u16,
        None => 0,
    }
}

// The first nine bits of a BIT STRING, of which bit n is worth 2^n.
fn usage_number(octets: &[u8]) -> u16
    ensures { result ≡ usage_number octets.now }
{
    named_bit(octets, 0)
        + 2 * named_bit(octets, 1)
        + 4 * named_bit(octets, 2)
        + 8 * named_bit(octets, 3)
        + 16 * named_bit(octets, 4)
        + 32 * named_bit(octets, 5)
        + 64 * named_bit(octets, 6)
        + 128 * named_bit(octets, 7)
        + 256 * named_bit(octets, 8)
}

// The bits whose text the octets are.
#[tactic(auto, unfolding(crate::specs::ExtensionsReading::usage_bits_of))]
fn read_usage_bits(bytes: &[u8]) -> Option<Bits<'_>>
    ensures exact { Answers bits_view result (usage_bits_of bytes.now) }
{
    let mut items = Cursor::new(bytes);
    let bits = read_bits_at(&mut items)?;
    if items.at_end() { Some(bits) } else { None }
}

// The reading of a key usage.
fn usage(bytes: &[u8]) -> Option<u16>
    ensures exact { Answers (λ n. n) result
        (mapped (λ bits. usage_number bits.1) usage_bits_of bytes.now) }
{
    Some(usage_number(read_usage_bits(bytes)?.octets))
}

// How far paths may go, where any octets are left.
#[tactic(auto, unfolding(crate::specs::ExtensionsReading::path_length_of))]
fn read_path_length(rest: &mut Cursor<'_>) -> Option<Option<u128>>
    ensures exact { Answers (λ n. n) result (path_length_of rest.old) }
{
    if rest.at_end() {
        return Some(None);
    }
    let length = read_u128(rest.tagged(tags::INTEGER)?)?;
    if rest.at_end() {
        Some(Some(length))
    } else {
        None
    }
}

#[tactic(auto, unfolding(crate::specs::ExtensionsReading::ca_rule_fields_of))]
fn read_ca_rule_fields(contents: &[u8]) -> Option<CaRule>
    ensures exact { Answers (λ rule. rule) result (ca_rule_fields_of contents.now) }
{
    let mut parts = Cursor::new(contents);
    let mut ca = false;
    if parts.is_at(tags::BOOLEAN) {
        ca = read_boolean(&mut parts)?;
        if !ca {
            return None;
        }
    }
    let path_len = read_path_length(&mut parts)?;
    Some(CaRule { ca, path_len })
}

// The reading of a rule.
#[tactic(auto, unfolding(crate::specs::ExtensionsReading::ca_rule_of))]
fn ca_rule(bytes: &[u8]) -> Option<CaRule>
    ensures exact { Answers (λ rule. rule) result (ca_rule_of bytes.now) }
{
    let mut items = Cursor::new(bytes);
    let rule = read_ca_rule_fields(items.tagged(tags::SEQUENCE)?)?;
    if items.at_end() { Some(rule) } else { None }
}

// The key identifier whose text the octets are.
pub(crate) fn read_key_identifier(bytes: &[u8]) -> Option<Octets64>
    ensures spelled { Reads key_identifier_text IsKeyIdentifier bytes.now result }
{
    key_identifier(bytes)
}

// The keyIdentifier of the authority's key identifier whose text the octets are, where it has one.
pub(crate) fn read_authority_key(bytes: &[u8]) -> Option<Option<Octets64>>
    ensures spelled { (key : Option (List ℕ)) → (result ≡ Some key) ↔ ((a : AuthorityKey)
        × (IsAuthorityKey a × (bytes.now ≡ authority_key_text a)) × (key ≡ a.key)) }
{
    authority_key(bytes)
}

// The key usage whose text the octets are, as a number.
pub(crate) fn read_usage(bytes: &[u8]) -> Option<u16>
    ensures spelled { (n : ℕ) → (result ≡ Some n) ↔ ((bits : BitString)
        × (IsUsage bits × (bytes.now ≡ bits_text bits)) × (n ≡ usage_number bits.1)) }
{
    usage(bytes)
}

// The rule whose text the octets are.
pub(crate) fn read_ca_rule(bytes: &[u8]) -> Option<CaRule>
    ensures spelled { Reads ca_rule_text IsCaRule bytes.now result }
{
    ca_rule(bytes)
}
