//! Elements, whole numbers, object identifiers, times and sets of DER, written exactly (X.690, sections
//! 8.1, 8.3, 8.12, 8.19, 10.1 and 11.6 to 11.8; RFC 5280, section 4.1.2.5).
//!
//! - `put_tlv`, `put_oid`, `put_u128` and `put_time` append exactly the text of their value (`ok`).
//! - `put_head` appends the head of an element alone (`ok`), which has `head_size` octets (`size`),
//!   so that contents of many octets need not be put together first.
//! - `put_set_sorted` appends the parts as a SET OF, in ascending order of their octets (`ok`), and
//!   `sorted_contents` gives the contents of that set (`ok`), for a set of any tag.
//! - For want of memory, the one refusal, the list stays as it was (`err`).
//! - `laws` says of each text that it is read back as its value, whatever follows it, and that a
//!   set has one text, whatever the order of its parts.
//!
//! The texts are those that the readers of `der_core` are stated by. Below stands `der_core`; above
//! stand the crates that write names, records, certificates and answers.
//!
//! Limits: a tag of one octet, whose low five bits aren't all ones, and contents of fewer than 2^32
//! octets, both as conditions of the call.
#![tactic(auto)]

mod digits;
mod element;
mod head;
pub mod laws;
mod set;
mod time;
mod values;

pub use element::put_tlv;
pub use head::{head_size, put_head};
pub use set::{put_set_sorted, sorted_contents};
pub use time::put_time;
pub use values::{put_oid, put_u128};
