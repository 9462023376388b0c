// The lines that `key-new` and `make` answer with.
ghost use Rattle.std.specs.Prelude.{◌≡◌, string_bytes, IfOk};
ghost use Rattle.fwload_top.specs.Making.{key_line, made_line};

use crate::making::NewHolder;
use lms_sign::{SignKey, key_id, key_octets, public};
use std::alloc::{AllocError, Global};

// The line of a holder that was made: its public key and that key's name.
pub(crate) fn made_line(alloc: Global, holder: &NewHolder) -> Result<String, AllocError>
    ensures line { IfOk result (λ line. string_bytes line ≡ made_line holder.now) }
{
    match holder {
        NewHolder::Key(key) => key_line(alloc, "key", key),
        NewHolder::Module(owner) => key_line(alloc, "made", &owner.key),
    }
}

// The line of a key, behind this word.
fn key_line(alloc: Global, word: &str, key: &SignKey) -> Result<String, AllocError>
    ensures line { IfOk result (λ line. string_bytes line ≡ key_line word.now key.now) }
{
    let public_key = public(key);
    let octets = hex::encode(alloc, key_octets(&public_key))?;
    let id = hex::encode(alloc, key_id(&public_key))?;
    format!(in alloc; "{word} {octets} {id}\n")
}
