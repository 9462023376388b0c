ghost use Rattle.std.specs.Prelude.{◌≡◌, ℕ, ◌*◌, ◌<◌, ◌↔◌, List, length};
ghost use Rattle.lms_verify.specs.Tree.{Leads, inner_value, leaf_value, parent_value};

use crate::hash::hasher_of;
use sha2::Digest;

// What tells the hash of a leaf and that of an inner node from others (RFC 8554, section 7.1).
const D_LEAF: [u8; 2] = [0x82, 0x82];

const D_INTR: [u8; 2] = [0x83, 0x83];

/// The value of leaf node `r`, over its one-time public key (RFC 8554, section 5.3).
pub fn leaf_value(id: &[u8; 16], r: u32, key: &[u8; 32]) -> [u8; 32]
    ensures value { result ≡ leaf_value id.now r key.now }
{
    let mut hasher = hasher_of(id, r, D_LEAF);
    hasher.update(key);
    hasher.finalize()
}

/// The value of inner node `m`, over the values of the two nodes below it (RFC 8554, section 5.3).
pub fn inner_value(id: &[u8; 16], m: u32, left: &[u8], right: &[u8]) -> [u8; 32]
    ensures value { result ≡ inner_value id.now m left.now right.now }
{
    let mut hasher = hasher_of(id, m, D_INTR);
    hasher.update(left);
    hasher.update(right);
    hasher.finalize()
}

// The value of the node above node `r`.
fn parent_value(id: &[u8; 16], r: u32, value: &[u8], beside: &[u8]) -> [u8; 32]
    ensures { result ≡ parent_value id.now r value.now beside.now }
{
    if r % 2 == 0 {
        inner_value(id, r / 2, value, beside)
    } else {
        inner_value(id, r / 2, beside, value)
    }
}

// The value to which the path leads from leaf node `r`, which is `height` steps below the root (RFC
// 8554, section 5.4.2, algorithm 6a).
pub(crate) fn root_value(
    id: &[u8; 16],
    r: u32,
    height: u32,
    path: &[u8],
    leaf: &[u8; 32],
) -> [u8; 32]
    requires low { height < 32 }
    requires path { length path.now ≡ 32 * height }
    ensures { (root : List ℕ) → (Leads id.now r height path.now leaf.now root ↔ (result ≡ root)) }
{
    let mut value = *leaf;
    for i in 0..height {
        let at = 32 * i as usize;
        value = parent_value(id, r >> i, &value, &path[at..at + 32]);
    }
    value
}
