//! Certificates (RFC 5280, section 4.1), their extensions (section 4.2), content constraints (RFC
//! 6010, section 3) and trust anchors, read in place.
//!
//! - `read_cert` answers a certificate exactly where the octets, all of them, are its text, and it is
//!   the one that they spell (`spelled`). It takes no memory. It keeps the octets (`whole`), and
//!   those of the signed part, over which the signature is made (`tbs`).
//! - `KeptCert` keeps a certificate as its octets, of which it is made exactly where they are one
//!   (`spelled`), and reads it again when it is asked (`fields`, `whole`, `tbs`, `issuer`, `subject`,
//!   `serial`, and `spelled` of its `extensions`). `KeptCert::extension` is the value of one extension
//!   by its type, whatever the others say (`value`, `none`). It is 16 octets of memory, where `Cert`
//!   is some 290.
//! - `read_extensions` answers what the extensions of a certificate say exactly where they read
//!   (`spelled`): no type stands twice, each critical one is known, and each that is read here is of
//!   its form. A certificate without extensions says nothing.
//! - `read_extension_list` answers extensions exactly where the octets, all of them, are their text
//!   (`spelled`), a type that stands twice and a critical one that isn't known among them. So it reads
//!   those of a list of revoked certificates too. `ExtensionList` stays in place, is an iterator
//!   (`next_gives`: `YieldsFirstBy`), and answers a value by its type (`exact`) and whether any
//!   extension is critical (`critical`).
//! - `read_serial_number`, `read_time` and `read_bit_string` pass such a field at the front of octets,
//!   exactly where the text of one stands there (`spelled`), for others that have these fields.
//! - `is_hss_lms` answers whether an algorithm is HSS/LMS without parameters (`exact`).
//! - `read_ccc` answers content constraints exactly where the octets, all of them, are their text, and
//!   they are the ones that it spells (`spelled`). In `Ccc` no content type stands twice, nor an
//!   attribute type in one entry.
//! - `Ccc::entries` goes through the entries (`same`), of which it says that no type stands twice
//!   (`contents`, `types`), and `AttrConstraints::iter` through the constrained attributes of one
//!   (`same`). Each is an iterator that reads the next value from its octets when it is asked for
//!   (`next_gives`: `YieldsFirstBy`), without memory, and its `rest` are the octets of what is left
//!   (`text`). `Ccc::again` is the same constraints once more.
//! - `Anchor::new` makes a trust anchor exactly of parts that are those of one (`made`), and its
//!   readers give them back without memory (`subject`, `key_id`, `key`, `constraints`, `text`).
//! - `one_certificate_text` is the law that two certificates never share a text (`unique`), and that
//!   a text is read as its own certificate (`read`). `one_constraints_text` and
//!   `one_reading_of_extensions` are the laws that two lists of constraints never share a text, and
//!   that extensions read in one way at most (`unique`).
//!
//! `read_cert`, `read_extension_list` and the three readers of a field have one more clause, `exact`:
//! the answer is what a function of `specs/CertificateReading` or `specs/ExtensionsReading` gives. Who
//! reads contracts can pass over it.
//!
//! Values stay in place in their octets. Memory is taken only to see that no type stands twice, 8
//! octets for each entry of 5 octets at least, each extension of 7 or each constrained attribute of
//! 9, one list at a time, and given back. Time is n log n for n octets.
//!
//! Below it stand `der_core`, with the DER of which the texts are made, and `attribute_set`, with what
//! is said of lists that stay in place, and of types that stand twice.
//!
//! Narrower than the standards: a certificate has fewer than 2^32 octets, its version is v1, v2 or
//! v3, its serial number has at most 20 octets, a key identifier 1 to 64, and a pathLenConstraint is
//! below 2^128. Wider: a serial number may be negative or zero, unique identifiers aren't looked at
//! and stand in any version, and what names and algorithms hold isn't looked at, nor whether the two
//! algorithms of the signature are the same, or one end of the validity is before the other. A list
//! of extensions may be empty, a pathLenConstraint may stand without cA, and a key usage may say
//! nothing. subjectAltName and extKeyUsage are known and passed over. Nothing is asked of a key. Of
//! constraints, that no type stands twice is this project's own.
#![tactic(auto)]

pub mod algorithms;
mod anchor;
mod certificate;
mod constraints;
mod entries;
mod extension_list;
pub mod extension_types;
mod extension_values;
mod extensions;
mod fields;
mod kept;
mod laws;
mod read;
mod reading;
mod sid;
mod signed_part;

pub use anchor::Anchor;
pub use certificate::{Bits, Cert};
pub use constraints::{Ccc, read_ccc};
pub use entries::{AttrConstraints, CccEntry, Entries};
pub use extension_list::{ExtensionItem, ExtensionList, read_extension_list};
pub use extensions::{CaRule, Extensions};
pub use fields::{read_bit_string, read_serial_number, read_time};
pub use kept::KeptCert;
pub use laws::{one_certificate_text, one_constraints_text, one_reading_of_extensions};
pub use read::read_cert;
pub use reading::read_extensions;
pub use sid::Sid;
pub use signed_part::TbsCert;
