//! Signed data of one signer, written and signed (RFC 5652, section 5; RFC 9708, section 4), and texts
//! that end with their signature.
//!
//! - `begin_message` is the signed data that a draft stands for, before it is signed: what is signed
//!   (`signed`), how many octets the signature has (`size`), and with each signature of that size the
//!   text of the message, whole (`text`), in the words of `specs/Written`: for each value that the
//!   draft's octets say (`IsDraft`). The signed attributes stand in ascending order of their octets,
//!   in whatever order they come (`specs/Orders`). How much stands before the signature is bounded
//!   (`most`).
//! - `Unsigned` is a text with room for its signature: the octets before it, those that are signed, and
//!   how many it has. `Unsigned::new` makes one (`parts`).
//! - `finish` puts the signature of a key with a spent leaf behind the octets (`octets`). It takes no
//!   memory, and as a leaf is taken by value, none signs twice. `finish_by_tree` does the same with a key
//!   that keeps the nodes of its tree (`octets`), which stays that key (`unchanged`).
//! - `push_attribute` appends exactly the text of an attribute with one value to a list of them,
//!   `push_content_type` that of the content's type, whatever the type is, and `push_message_digest` that
//!   of the content's digest (`ok`), each with an upper bound (`most`). `put_algorithm` appends the
//!   algorithm of HSS/LMS (`ok`). For want of memory, their one refusal, the list stays as it was (`err`).
//! - `begin_element` begins an element whose last octets come later (`text`), and `together` puts octets
//!   one behind the other (`ok`).
//!
//! A caller takes the memory with `begin_message` or `Unsigned::new`, then spends the leaf, then signs
//! with `finish`, and then sends.
//!
//! Below it stand `cms_signed`, with the texts of signed data, `cert_fields` and `attribute_set`, with
//! those of certificates and attributes, `package_attrs` and `attribute_write`, with types of attributes
//! and an attribute's text, `der_write`, `key_state`, with leaves, and `lms_sign`, with keys and
//! signatures. `packager` stands above it, with certificates and packages, and `answer_write`, with what
//! a module answers.
//!
//! Limits: those of `IsWithinLimits`. The version is 3, which is that of signed data whose certificates
//! are X.509's: other forms of them, which a value can have, call for another (RFC 5652, section 5.1).
//! That the octets of a draft say a value is for the caller to say; where they say none, no clause
//! speaks of what is written.
#![tactic(auto)]

mod algorithms;
mod attributes;
mod by_tree;
mod draft;
mod fronts;
mod message;
mod unsigned;

pub use algorithms::put_algorithm;
pub use attributes::{push_attribute, push_content_type, push_message_digest};
pub use by_tree::finish_by_tree;
pub use draft::Draft;
pub use fronts::{begin_element, together};
pub use message::begin_message;
pub use unsigned::{Unsigned, finish};
