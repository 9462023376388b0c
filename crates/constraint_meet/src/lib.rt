//! What content constraints permit (RFC 6010, section 3), for one member of a path and for all of
//! them together.
//!
//! - `permits` is true exactly where each member permits a content type with these attributes
//!   (`permits`): its deciding entry, that of the type itself or else that of any content type, says
//!   canSource, and each value of each attribute that it constrains is covered by a listed one.
//! - `grant_of` is the grant of one member, which permits what its constraints do (`permits`).
//! - `meet` permits exactly what both grants permit, for every content type (`both`): it keeps the
//!   members of both, side by side, and never makes one list of values out of two (`members`).
//! - `Grant::everything` and `Grant::nothing` permit all and nothing (`same`, and `everything` and
//!   `nothing` of the law `side_by_side`).
//! - `Grant::with_certificate` and `Grant::with_anchor` add a member (`more`). A path's grant is made
//!   so, and permits exactly where every certificate and the anchor do (`path` of `side_by_side`). A
//!   certificate without the extension permits nothing, an anchor without it everything.
//! - `Grant::member_count` and `Grant::constraints_at` give the members back (`count`, `found`).
//! - `laws` says that the tests tell the facts (`tests_tell`), that the values of a SET are its
//!   elements (`values_are_elements`), and that an entry of the type itself decides whatever that of
//!   any content type says (`own_entry_decides`).
//!
//! `permits` has one more clause, `exact`: its answer is what a function of `specs/Tests` gives. Who
//! reads contracts can pass over it, and over `specs/Index` and `specs/Places`, which say how
//! constraints are kept.
//!
//! Constraints stay in place. Beside them a grant keeps 4 octets for each listed value and for each
//! constrained attribute, in order, so that types and values are looked up: n values against m listed
//! ones take n * log m comparisons, and making a grant m * log m. Room for the places is reserved at
//! once, by the octets of the shortest value and attribute: 2.5 octets for each octet of the
//! constraints. Only the values of firmwarePackageID and targetHardwareIDs are compared with each
//! listed one. No clause says what a call costs.
//!
//! Below it stand `cert_fields`, with the constraints in place, `attribute_set`, with the attributes,
//! and `package_attrs`, with what listed identifiers and hardware types cover.
//!
//! This project's own: that a listed package identifier stands for later versions too, and listed
//! hardware types for any of them, and what a missing extension means.
#![tactic(auto)]

mod covers;
mod grant;
mod index;
mod indexed;
mod joined;
pub mod laws;
mod listed;
mod member;
mod places;

pub use grant::{Grant, grant_of, permits};
pub use joined::meet;
pub use member::ANY_CONTENT;
