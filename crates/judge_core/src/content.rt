// What is known of a content.
ghost use Rattle.std.specs.Prelude.{◌≡◌, ℕ, List, length};
ghost use Rattle.sha2.specs.Sha256.{sha256};
ghost use Rattle.der_core.specs.Element.{HasRoom};
ghost use Rattle.package_attrs.specs.Image.{IsImage};

use package_attrs::{image_of, one_image};
use sha2::{Digest, Sha256};

// What the conditions ask of a content.
#[derive(Clone, Copy)]
pub(crate) struct Content {
    // Its SHA-256.
    pub(crate) digest: [u8; 32],
    // How many octets the image in it has.
    pub(crate) image: u32,
}

fn digest_of(octets: &[u8]) -> [u8; 32]
    ensures value { result ≡ sha256 octets.now }
{
    let mut hasher = Sha256::new();
    hasher.update(octets);
    hasher.finalize()
}

// Of a content that is there.
pub(crate) fn known_of(content: &[u8]) -> Content
    requires room { HasRoom content.now }
    ensures digest { result.digest ≡ sha256 content.now }
    ensures there { (image : List ℕ) × IsImage content.now image × (length image ≡ result.image) }
    ensures image { (image : List ℕ) → IsImage content.now image → length image ≡ result.image }
{
    one_image();
    let digest = digest_of(content);
    Content {
        digest,
        image: image_of(content).len() as u32,
    }
}
