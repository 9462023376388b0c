//! Attributes of a firmware package, written exactly (RFC 4108, section 2.2; RFC 5652, section 11).
//!
//! - `put_identifier`, `put_targets`, `put_communities` and `put_info` append exactly the text of
//!   their values, and `put_attribute` that of an attribute with one value, or leave the list as it
//!   was (`ok`, `err`).
//! - Each says how many octets it adds at most (`most`), so that what stands around them fits.
//!
//! Below it stand `name_write` and `der_write`, and `package_attrs` with the values and their
//! texts, which says that each is read back. The packager stands above it.
//!
//! A community of modules is written with one serial entry.
#![tactic(auto)]

mod attribute;
mod communities;
mod identifier;
mod information;
mod targets;

pub use attribute::put_attribute;
pub use communities::{NamedCommunity, put_communities};
pub use identifier::put_identifier;
pub use information::put_info;
pub use targets::put_targets;
