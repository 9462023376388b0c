ghost use Rattle.std.specs.Prelude.{◌≡◌, ◌*◌, ◌<◌, ◌≤◌};
ghost use Rattle.lms_sign.specs.PublicKeys.{leaf_count};
ghost use Rattle.lms_sign.specs.Nodes.{tree_node};

use crate::key::SignKey;
use crate::secrets::one_time_public;
use lms_verify::{inner_value, leaf_value};

// The value of node `r`, from 1 on, over all that stands below it (RFC 8554, section 5.3).
pub(crate) fn tree_node(key: &SignKey, r: u32) -> [u8; 32]
    requires first { 1 ≤ r }
    requires last { r < 2 * leaf_count key.now }
    ensures { result ≡ tree_node key.now r }
{
    let leaves = key.kind.leaf_count();
    if r >= leaves {
        return leaf_value(&key.id, r, &one_time_public(key, r - leaves));
    }
    let left = tree_node(key, 2 * r);
    let right = tree_node(key, 2 * r + 1);
    inner_value(&key.id, r, &left, &right)
}
