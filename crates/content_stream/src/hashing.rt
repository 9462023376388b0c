// The hash of a content that isn't its image: none is kept where it is.
ghost use Rattle.std.specs.Prelude.{◌≡◌, ◌++◌, ℕ, List, [], false, is_some};
ghost use Rattle.sha2.specs.Sha256.{sha256};
ghost use Rattle.content_stream.specs.Streams.{HoldsContent};

use sha2::{Digest, Sha256};

// A hash of no octets, where so many octets stand before the image.
pub(crate) fn content_hash(wrap_size: u32) -> Option<Sha256>
    ensures none { HoldsContent result [] }
    ensures bare { is_some result ≡ false → wrap_size ≡ 0 }
{
    if wrap_size == 0 {
        None
    } else {
        Some(Sha256::new())
    }
}

// Takes the next octets in.
pub(crate) fn take_in(hash: &mut Option<Sha256>, piece: &[u8])
    ensures more { (fed : List ℕ) → HoldsContent hash.old fed
        → HoldsContent hash.new (fed ++ piece.now) }
    ensures kept { is_some hash.new ≡ is_some hash.old }
{
    if let Some(hash) = hash {
        hash.update(piece);
    }
}

// The digest of the content: that of its image, where it is the image.
pub(crate) fn digest_of(hash: Option<Sha256>, image: [u8; 32]) -> [u8; 32]
    ensures whole { (content : List ℕ) → HoldsContent hash content
        → (is_some hash ≡ false → image ≡ sha256 content) → result ≡ sha256 content }
{
    match hash {
        Some(hash) => hash.finalize(),
        None => image,
    }
}
