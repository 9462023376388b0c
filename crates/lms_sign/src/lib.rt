//! Signing keys of LMS with one level of HSS, over SHA-256 with values of 32 octets: the public key
//! of a secret SEED, and signatures with leaves that were spent (RFC 8554).
//!
//! - `sign` leaves in `out` exactly the signature of the message `first` followed by `rest` with
//!   the leaf that it takes (`signature`), in the words of `specs/SignTexts.antt`. Its size is
//!   `signature_size` (`value`).
//! - `KeyTree` is a signing key with room for the nodes of its tree, seen as its key. Its `sign` leaves
//!   exactly what `sign` does (`signature`), and its `public` gives what `public` does (`value`, `valid`),
//!   and the key stays (`unchanged`). `KeyTree::new` alone takes memory (`key`).
//! - `public` is the public key of one level with the key's kinds and identifier, and the root of
//!   its tree (`value`). It is one that `hss_key` reads (`valid`).
//! - `signatures_hold` is the law that what a key signs holds under its public key, for each
//!   message and each leaf, in the words of `hss_chain`.
//! - `signatures_have_one_size` is the law that what a key signs has `signature_size` octets (`size`).
//! - `signatures_name_their_leaf` is the law that equal signatures have equal leaf numbers, whatever
//!   the keys and the messages.
//! - `steps_of_a_chain_add_up`, `nodes_are_those_of_the_standard` and `path_goes_up_the_tree` are
//!   the laws of chains, of the tree and of a leaf's path that it stands on.
//! - `key_octets` writes exactly the 60 octets of a public key (`text`), and `keys_have_one_text_each` is
//!   the law that valid keys never share them: so it is inverse to `hss_key`. `key_id` is the name
//!   that this project gives a key, the first 20 octets of their SHA-256.
//! - `SignKey` has 32 or 1,024 leaves (`low`), and `leaf_count` says how many (`value`, `row`).
//!
//! Secrets are made from SEED as in Appendix A, and the randomizer as if it were the secret of
//! number FF FD, so other implementations make the same keys and signatures. No call but `KeyTree::new`
//! takes memory. Nothing is hashed twice in a call: `public` computes each node of the tree once, and
//! `sign` each node but those on the leaf's way to the root. A `KeyTree` computes each node once, at the
//! first call that needs them, and each signature after that costs one one-time signature.
//!
//! Below it stand `hss_chain`, with public keys and when a signature holds, `lms_verify`, with the
//! hashes of the definitions, and `key_state`, which gives each leaf once.
//!
//! Nothing is said of SEED's secrecy or of the time that a call takes. A leaf names no key: that it
//! was spent for the key that signs is for the caller to see.
#![tactic(auto)]

mod key;
mod key_tree;
mod laws;
mod public_key;
mod secrets;
mod signing;
mod tree;

pub use key::SignKey;
pub use key_tree::KeyTree;
pub use laws::{
    keys_have_one_text_each, nodes_are_those_of_the_standard, path_goes_up_the_tree,
    signatures_have_one_size, signatures_hold, signatures_name_their_leaf, steps_of_a_chain_add_up,
};
pub use public_key::{key_id, key_octets, leaf_count, public, signature_size};
pub use signing::sign;
