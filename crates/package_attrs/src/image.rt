// The image in a package's content.
ghost use Rattle.std.specs.Prelude.{◌≡◌, ◌≤◌, ◌^◌};
ghost use Rattle.der_core.specs.Reads.{Answers};
ghost use Rattle.package_attrs.specs.Image.{IsImage, blocks_for};
ghost use Rattle.package_attrs.specs.Reading.{octet_string_of};

use der_core::{Cursor, tags};

// Octets of a block of flash.
const BLOCK: u32 = 4096;

// The contents, where the octets are one OCTET STRING.
#[tactic(auto, unfolding(crate::specs::Reading::octet_string_of))]
pub(crate) fn read_octet_string(octets: &[u8]) -> Option<&[u8]>
    ensures exact { Answers (λ contents. contents.now) result (octet_string_of octets.now) }
{
    let mut items = Cursor::new(octets);
    let contents = items.tagged(tags::OCTET_STRING)?;
    if items.at_end() { Some(contents) } else { None }
}

/// The image in a content: the contents where the octets are exactly one OCTET STRING, else the
/// octets (RFC 4108, section 2.1.5).
pub fn image_of(content: &[u8]) -> &[u8]
    ensures image { IsImage content.now result.now }
{
    match read_octet_string(content) {
        Some(image) => image,
        None => content,
    }
}

/// How many blocks of 4,096 octets an image of so many octets takes, each from the start of a block.
pub fn blocks_for(length: u32) -> u32
    ensures blocks { result ≡ blocks_for length }
    ensures most { result ≤ 2 ^ 20 }
{
    length.div_ceil(BLOCK)
}
