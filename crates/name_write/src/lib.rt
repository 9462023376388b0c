//! Package names of DER, written exactly (RFC 4108, section 2.2.3).
//!
//! - `put_name` appends exactly the name's text, or leaves the list as it was (`ok`, `err`).
//! - `written_name_is_read` is the law that a name which is written is read as that name, whatever
//!   follows it.
//!
//! Below it stand `package_attrs`, with the names and their texts, and `der_write`. The writers of
//! answers, of manifests and of packages stand above it.
#![tactic(auto)]

mod laws;
mod name;

pub use laws::written_name_is_read;
pub use name::put_name;
