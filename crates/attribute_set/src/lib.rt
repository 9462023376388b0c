//! Signed attributes as DER writes them (RFC 5652, sections 5.3 and 5.4; X.690, section 11.6).
//!
//! - `read_attribute_set` answers attributes exactly where the octets are theirs, one after the
//!   other, in ascending order of their octets and with no type twice (`spelled`). No type stands
//!   twice in its answer (`distinct`).
//! - `Attributes` stay in place as the octets that were read, and are seen as the list that these
//!   spell. It is an iterator that reads the next attribute when it is asked for (`next_gives`:
//!   `YieldsFirstBy`).
//! - `are_attributes` says whether octets are attributes in any order, without memory
//!   (`attributes`), which is what unsigned attributes are asked to be.
//! - `have_own_types` says whether no type stands twice among SEQUENCEs that each begin with one
//!   (`own`): attributes here, and extensions and content constraints above.
//! - `laws` says that octets are those of one list of attributes at most.
//!
//! Time is n log n for n attributes, beside a few looks at each octet. Only the question whether a
//! type stands twice takes memory: a place of 8 octets for each attribute, which has at least 7
//! octets. It is asked of attributes in order alone, and the memory is given back before the answer.
//!
//! Below it stands `der_core`, with the attributes. `package_attrs` and readers of signers' parts of
//! signed data stand above it. `specs/Items` says what values that stay in place are, for this crate
//! and those above.
//!
//! Limits: those of `der_core`, for each attribute. There may be no attribute at all, which RFC
//! 5652 leaves out. Values are elements of any kind and are not in order. That no type stands twice
//! is this project's own: RFC 5652 asks it of three types alone (sections 11.1 to 11.3).
#![tactic(auto)]

mod any_order;
mod attributes;
pub mod laws;
mod read;
mod types;

pub use any_order::are_attributes;
pub use attributes::Attributes;
pub use read::read_attribute_set;
pub use types::have_own_types;
