ghost use Rattle.std.specs.Prelude.{◌≡◌};
ghost use Rattle.hss_chain.specs.Keys.{IsHssKey, hss_key_text};
ghost use Rattle.key_state.specs.KeyBlock.{IsLeafCount};
ghost use Rattle.lms_sign.specs.Nodes.{tree_node};
ghost use Rattle.lms_sign.specs.PublicKeys.{hss_signature_size, key_id, leaf_count};
ghost use Rattle.lms_sign.specs.Roots.{public_key};

use crate::key::SignKey;
use crate::tree::tree_node;
use hss_chain::HssKey;
use lms_verify::{LmsKey, signature_size as lms_signature_size};
use sha2::{Digest, Sha256};

/// The count of leaves, each of which signs once: 32 or 1,024.
pub fn leaf_count(key: &SignKey) -> u32
    ensures value { result ≡ leaf_count key.now }
    ensures row { IsLeafCount result }
{
    key.kind.leaf_count()
}

/// The public key of one level, whose root is over the whole tree (RFC 8554, sections 5.3 and 6.1).
pub fn public(key: &SignKey) -> HssKey
    ensures value { result ≡ public_key key.now }
    ensures valid { IsHssKey result }
{
    with_root(key, tree_node(key, 1))
}

// The public key of one level with this root.
pub(crate) fn with_root(key: &SignKey, root: [u8; 32]) -> HssKey
    ensures value { root ≡ tree_node key.now 1 → result ≡ public_key key.now }
    ensures valid { IsHssKey result }
{
    HssKey {
        levels: 1,
        top: LmsKey {
            kind: key.kind,
            ots: key.ots,
            id: key.id,
            root,
        },
    }
}

/// How many octets a signature has (RFC 8554, section 6.2).
pub fn signature_size(key: &SignKey) -> usize
    ensures value { result ≡ hss_signature_size key.now }
{
    4 + lms_signature_size(key.kind, key.ots)
}

/// The octets of a public key (RFC 8554, section 6.1).
pub fn key_octets(key: &HssKey) -> [u8; 60]
    ensures text { result ≡ hss_key_text key.now }
{
    let mut octets = [0u8; 60];
    octets[..4].copy_from_slice(&u32::from(key.levels).to_be_bytes());
    octets[4..8].copy_from_slice(&key.top.kind.number().to_be_bytes());
    octets[8..12].copy_from_slice(&key.top.ots.number().to_be_bytes());
    octets[12..28].copy_from_slice(&key.top.id);
    octets[28..].copy_from_slice(&key.top.root);
    octets
}

/// What names a public key in packages and certificates: the first 20 octets of the SHA-256 of its
/// octets.
pub fn key_id(key: &HssKey) -> [u8; 20]
    ensures value { result ≡ key_id key.now }
{
    let digest = Sha256::digest(key_octets(key));
    let mut id = [0u8; 20];
    id.copy_from_slice(&digest[..20]);
    id
}
