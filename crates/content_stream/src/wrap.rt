// The octets of a content that stand before its image.
ghost use Rattle.std.specs.Prelude.{◌≡◌, ◌-◌, ◌≤◌, ℕ, List, length, min, take, IfSome, IfNone};
ghost use Rattle.der_core.specs.Head.{BeginsWith, head_octets};
ghost use Rattle.package_attrs.specs.Image.{IsImage};
ghost use Rattle.content_stream.specs.Wraps.{IsWrapSize};

use der_core::{read_head, tags};

/// The length of the image of a content of so many octets that begins with `front`: its first six, or
/// all where it has fewer (RFC 4108, section 2.1.5).
pub fn image_length(content_size: u32, front: &[u8]) -> u32
    requires front { length front.now ≡ min 6 content_size }
    ensures wrap { (wrap_size : ℕ) × IsWrapSize content_size front.now wrap_size
        × (wrap_size ≤ content_size) × (result ≡ content_size - wrap_size) }
    ensures image { (content image : List ℕ) → length content ≡ content_size
        → take 6 content ≡ front.now → IsImage content image → result ≡ length image }
{
    content_size - wrap_size(content_size, front)
}

// How many octets stand before the image: tag and length of the OCTET STRING that the content is.
pub(crate) fn wrap_size(content_size: u32, front: &[u8]) -> u32
    requires { length front.now ≡ min 6 content_size }
    ensures wrap { IsWrapSize content_size front.now result }
    ensures within { result ≤ content_size }
    ensures short { result ≤ 6 }
{
    match string_head(front) {
        Some((head, size)) => { if size == content_size - head { head } else { 0 } }
        None => 0,
    }
}

// The head of an OCTET STRING at the front: how many octets it has, and how many its contents have.
fn string_head(front: &[u8]) -> Option<(u32, u32)>
    requires { length front.now ≤ 6 }
    ensures found { IfSome result (λ head. BeginsWith front.now 0x04 head.1
        × (head.0 ≡ length (head_octets 0x04 head.1))) }
    ensures within { IfSome result (λ head. head.0 ≤ length front.now) }
    ensures none { IfNone result ((size : ℕ) → BeginsWith front.now 0x04 size → ⊥) }
{
    match read_head(front) {
        Ok((tags::OCTET_STRING, size, rest)) => Some(((front.len() - rest.len()) as u32, size)),
        Ok((_, _, _)) => None,
        Err(_) => None,
    }
}
