// What signed attributes say of the content.
ghost use Rattle.std.specs.Prelude.{◌≡◌, ◌↔◌, ℕ, List, length, Some, IfSome};
ghost use Rattle.der_core.specs.Element.{enc};
ghost use Rattle.der_core.specs.Objects.{IsOid};
ghost use Rattle.der_core.specs.Reads.{Reads, Answers};
ghost use Rattle.package_attrs.specs.Attributes.{HaveOwnTypes, HasContentType, HasDigest};
ghost use Rattle.package_attrs.specs.PackageReading.{one_oid_of, digest_of, content_in, digest_in};

use crate::attribute_types as types;
use crate::fields::read_oid_at;
use crate::find_attribute::values_of;
use crate::image::read_octet_string;
use attribute_set::Attributes;
use der_core::{Cursor, Oid};

#[tactic(auto, unfolding(crate::specs::PackageReading::one_oid_of))]
fn one_oid(values: &[u8]) -> Option<Oid>
    ensures { Answers (λ id. id) result (one_oid_of values.now) }
{
    let mut items = Cursor::new(values);
    let id = read_oid_at(&mut items)?;
    if items.at_end() { Some(id) } else { None }
}

// The identifier, where the octets are exactly one.
fn read_one_oid(values: &[u8]) -> Option<Oid>
    ensures spelled { Reads (enc 0x06) IsOid values.now result }
    ensures exact { Answers (λ id. id) result (one_oid_of values.now) }
{
    one_oid(values)
}

#[tactic(auto, unfolding(crate::specs::PackageReading::digest_of))]
fn digest(values: &[u8]) -> Option<[u8; 32]>
    ensures { Answers (λ digest. digest) result (digest_of values.now) }
{
    let digest = read_octet_string(values)?;
    Some(*digest.as_array::<32>()?)
}

// The octets of one OCTET STRING, where they are 32.
fn read_digest(values: &[u8]) -> Option<[u8; 32]>
    ensures spelled { Reads (enc 0x04) (λ digest. length digest ≡ 32) values.now result }
    ensures exact { Answers (λ digest. digest) result (digest_of values.now) }
{
    digest(values)
}

#[tactic(auto, unfolding(crate::specs::PackageReading::content_in))]
pub(crate) fn content_in(attrs: &Attributes<'_>) -> Option<Oid>
    ensures exact { Answers (λ id. id) result (content_in attrs.now) }
    ensures sound { IfSome result (λ id. HasContentType attrs.now id) }
{
    read_one_oid(values_of(attrs, &types::CONTENT_TYPE)?)
}

#[tactic(auto, unfolding(crate::specs::PackageReading::digest_in))]
pub(crate) fn digest_in(attrs: &Attributes<'_>) -> Option<[u8; 32]>
    ensures exact { Answers (λ digest. digest) result (digest_in attrs.now) }
    ensures sound { IfSome result (λ digest. HasDigest attrs.now digest) }
{
    read_digest(values_of(attrs, &types::MESSAGE_DIGEST)?)
}

/// The content's type that attributes tell, of which no type stands twice (RFC 5652, section 11.1).
/// None where the attribute isn't there, or doesn't have exactly one value, an OBJECT IDENTIFIER.
pub fn read_content_type(attrs: &Attributes<'_>) -> Option<Oid>
    requires own { HaveOwnTypes attrs.now }
    ensures told { (id : List ℕ) → (result ≡ Some id) ↔ HasContentType attrs.now id }
    ensures exact { Answers (λ id. id) result (content_in attrs.now) }
{
    content_in(attrs)
}

/// The content's SHA-256 digest that attributes tell, of which no type stands twice (RFC 5652,
/// section 11.2). None where the attribute isn't there, or doesn't have exactly one value, an OCTET
/// STRING of 32 octets.
pub fn read_message_digest(attrs: &Attributes<'_>) -> Option<[u8; 32]>
    requires own { HaveOwnTypes attrs.now }
    ensures told { (digest : List ℕ) → (result ≡ Some digest) ↔ HasDigest attrs.now digest }
    ensures exact { Answers (λ digest. digest) result (digest_in attrs.now) }
{
    digest_in(attrs)
}
