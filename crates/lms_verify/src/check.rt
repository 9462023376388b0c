ghost use Rattle.std.specs.Prelude.{◌↔◌, ◌++◌, IsTrue};
ghost use Rattle.lms_verify.specs.Signatures.{LmsHolds};

use crate::key::LmsKey;
use crate::one_time::{candidate_key, message_value};
use crate::signature::read_parts;
use crate::tree::{leaf_value, root_value};

/// Whether the octets are a signature under the key of the message `first` followed by `rest` (RFC
/// 8554, section 5.4.2).
pub fn lms_check(key: &LmsKey, first: &[u8], rest: &[u8], signature: &[u8]) -> bool
    ensures holds { IsTrue result ↔ LmsHolds key.now (first.now ++ rest.now) signature.now }
{
    let Some(parts) = read_parts(key.kind, key.ots, signature) else {
        return false;
    };
    let r = key.kind.leaf_count() + parts.q;
    let value = message_value(&key.id, parts.q, parts.randomizer, first, rest);
    let one_time = candidate_key(key.ots, &key.id, parts.q, &value, parts.values);
    let leaf = leaf_value(&key.id, r, &one_time);
    root_value(&key.id, r, key.kind.height(), parts.path, &leaf) == key.root
}
