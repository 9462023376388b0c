// The signed attributes.
ghost use Rattle.std.specs.Prelude.{◌≡◌, ◌≤◌, ◌+◌, ◌++◌, ◌∷◌, [], ◌^◌, IfOk, OnOk, OnErr, List, length, map};
ghost use Rattle.std.specs.List.{concat};
ghost use Rattle.attribute_set.specs.AttributeSet.{set_contents};
ghost use Rattle.cms_signed.specs.Signer.{signed_attributes_text};
ghost use Rattle.der_core.specs.Attribute.{Attribute, attribute_text};
ghost use Rattle.der_core.specs.Element.{enc};
ghost use Rattle.package_attrs.specs.AttributeTypes.{content_type, message_digest};
ghost use Rattle.signed_write.specs.Orders.{in_order};

use attribute_write::put_attribute;
use der_core::tags;
use der_write::laws::one_set;
use der_write::{put_tlv, sorted_contents};
use package_attrs::attribute_types::{CONTENT_TYPE, MESSAGE_DIGEST};
use std::alloc::{AllocError, Global};

/// Appends to the list an attribute of this type, by the contents of its OBJECT IDENTIFIER, with this
/// one value, an element (RFC 5652, section 5.3). The one refusal is for want of memory.
pub fn push_attribute(
    alloc: Global,
    parts: &mut Vec<Vec<u8>>,
    kind: &[u8],
    value: &[u8],
) -> Result<(), AllocError>
    requires kind { length kind.now ≤ 64 }
    requires value { length value.now ≤ 2 ^ 20 }
    ensures ok { OnOk result (map (λ part. part.items) parts.new.items
        ≡ map (λ part. part.items) parts.old.items
        ++ attribute_text (record { kind = kind.now; values = value.now }) ∷ []) }
    ensures most { OnOk result (length (concat (map (λ part. part.items) parts.new.items))
        ≤ length (concat (map (λ part. part.items) parts.old.items)) + length value.now + 82) }
    ensures err { OnErr result (parts.new.items ≡ parts.old.items) }
{
    let mut part = Vec::new(alloc);
    put_attribute(alloc, &mut part, kind, value)?;
    parts.push(part)?;
    Ok(())
}

/// Appends to the list the attribute that tells the type of the content, by the contents of its
/// OBJECT IDENTIFIER (RFC 5652, section 11.1). The one refusal is for want of memory.
pub fn push_content_type(
    alloc: Global,
    parts: &mut Vec<Vec<u8>>,
    kind: &[u8],
) -> Result<(), AllocError>
    requires kind { length kind.now ≤ 64 }
    ensures ok { OnOk result (map (λ part. part.items) parts.new.items
        ≡ map (λ part. part.items) parts.old.items
        ++ attribute_text (record { kind = content_type; values = enc 0x06 kind.now }) ∷ []) }
    ensures most { OnOk result (length (concat (map (λ part. part.items) parts.new.items))
        ≤ length (concat (map (λ part. part.items) parts.old.items)) + length kind.now + 88) }
    ensures err { OnErr result (parts.new.items ≡ parts.old.items) }
{
    let mut value = Vec::new(alloc);
    put_tlv(alloc, &mut value, tags::OBJECT_IDENTIFIER, kind)?;
    push_attribute(alloc, parts, &CONTENT_TYPE, &value)
}

/// Appends to the list the attribute that tells the digest of the content (RFC 5652, section 11.2). The
/// one refusal is for want of memory.
pub fn push_message_digest(
    alloc: Global,
    parts: &mut Vec<Vec<u8>>,
    digest: &[u8; 32],
) -> Result<(), AllocError>
    ensures ok { OnOk result (map (λ part. part.items) parts.new.items
        ≡ map (λ part. part.items) parts.old.items
        ++ attribute_text (record { kind = message_digest; values = enc 0x04 digest.now }) ∷ []) }
    ensures most { OnOk result (length (concat (map (λ part. part.items) parts.new.items))
        ≤ length (concat (map (λ part. part.items) parts.old.items)) + 120) }
    ensures err { OnErr result (parts.new.items ≡ parts.old.items) }
{
    let mut value = Vec::new(alloc);
    put_tlv(alloc, &mut value, tags::OCTET_STRING, digest)?;
    push_attribute(alloc, parts, &MESSAGE_DIGEST, &value)
}

// The contents of the set of these parts, in ascending order, where they are the texts of attributes.
fn sorted(alloc: Global, parts: &[Vec<u8>]) -> Result<Vec<u8>, AllocError>
    ensures ok { IfOk result (λ contents. (attributes : List Attribute)
        → map (λ part. part.items) parts.now ≡ map attribute_text attributes
        → contents.items ≡ set_contents (in_order attributes)) }
    ensures size { IfOk result (λ contents. length contents.items
        ≡ length (concat (map (λ part. part.items) parts.now))) }
{
    one_set();
    sorted_contents(alloc, parts)
}

// The element [0] of the signed attributes, where the parts are the texts of attributes, in ascending
// order of their octets (RFC 5652, section 5.3; X.690, section 11.6).
pub(crate) fn signed_attributes(alloc: Global, parts: &[Vec<u8>]) -> Result<Vec<u8>, AllocError>
    requires few { length (concat (map (λ part. part.items) parts.now)) ≤ 30000 }
    ensures ok { IfOk result (λ element. (attributes : List Attribute)
        → map (λ part. part.items) parts.now ≡ map attribute_text attributes
        → element.items ≡ signed_attributes_text (in_order attributes)) }
    ensures some { IfOk result (λ element. 1 ≤ length element.items) }
    ensures most { IfOk result (λ element. length element.items
        ≤ length (concat (map (λ part. part.items) parts.now)) + 6) }
{
    let contents = sorted(alloc, parts)?;
    let mut element = Vec::new(alloc);
    put_tlv(alloc, &mut element, tags::CONSTRUCTED_0, &contents)?;
    Ok(element)
}
