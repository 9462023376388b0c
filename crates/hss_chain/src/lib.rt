//! HSS, chains of one to eight LMS keys of which each signs the next (RFC 8554, section 6).
//!
//! - `hss_key` answers exactly the key whose 60 octets are given: 1 to 8 levels, and an LMS key of
//!   known kinds (`read`, `valid`, `found`). `keys_have_one_text_each` is the law that valid keys never
//!   share their octets.
//! - `hss_check` answers true exactly where the octets are a signature of the message under the key
//!   (`holds`), in the words of `specs/Chains.antt`: they are the count of signed keys, those keys, each behind a
//!   signature by the key before it, and one signature of the message by the last key, with nothing
//!   left over. The message is `first` followed by `rest`.
//!
//! Neither call takes memory.
//!
//! Below it stands `lms_verify`, whose `LmsHolds` says when one signature holds. Certificates, packages
//! and the signer above it name keys by `HssKey`.
//!
//! `HssKey` can be built with any count of levels: under one of no level or of more than eight, which
//! `hss_key` never gives, no signature holds.
#![tactic(auto)]

mod check;
mod key;
mod laws;

pub use check::hss_check;
pub use key::{HssKey, hss_key};
pub use laws::keys_have_one_text_each;
