//! LMS and LM-OTS, the hash-based signatures of RFC 8554 over SHA-256 with values of 32 octets:
//! checks a signature, and computes the hashes that signing needs too.
//!
//! - `lms_check` answers true exactly where the octets are a signature of the message under the key
//!   (`holds`), in the words of `specs/Signatures.antt`: they are the text of one, of known length, with the
//!   key's typecodes and a leaf of its tree, and a list of node values leads from the leaf to the
//!   key's root. The message is `first` followed by `rest`.
//! - `lms_key` answers exactly the key whose 56 octets are given (`read`, `valid`, `found`).
//! - `LmsKind` and `OtsKind` have the numbers of the tables of sections 4.1 and 5.1 (`value`), and
//!   `from_number` answers exactly the kind of a typecode (`read`, `found`).
//! - `message_value`, `checked_value`, `digit`, `chain`, `leaf_value` and `inner_value` compute those
//!   words of the definitions, and `signature_size` the length of a signature (`value`).
//!
//! Digits are defined by division of one whole number and computed by shift and mask of one octet; the
//! root is defined by a list of node values and computed by a walk with one. No call takes memory.
//!
//! Below it stands `sha2`, whose `sha256` is the hash of the definitions. The crate `hss_chain` above it
//! chains keys, and signing uses the same words.
//!
//! The crate `sign_rows` holds the signature of RFC 8554, Appendix F, test case 2.
//!
//! Nothing is said of forging: that one cannot find a signature without the secrets is no claim here.
#![tactic(auto)]

mod chains;
mod check;
mod digits;
mod hash;
mod key;
mod kind;
mod octets;
mod one_time;
mod signature;
mod tree;

pub use chains::chain;
pub use check::lms_check;
pub use digits::{checked_value, digit};
pub use key::{LmsKey, lms_key};
pub use kind::{LmsKind, OtsKind};
pub use octets::{KEY_LEN, NUMBER_LEN, VALUE_LEN};
pub use one_time::message_value;
pub use signature::signature_size;
pub use tree::{inner_value, leaf_value};
