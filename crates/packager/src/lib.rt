//! Certificates of HSS/LMS keys and signed firmware packages, written and signed (RFC 5280, section
//! 4.1; RFC 9708; RFC 5652, section 5; RFC 4108, section 2).
//!
//! - `issue` is the certificate that a plan stands for, before it is signed: what is signed (`signed`),
//!   how many octets the signature has (`size`), and with each signature of that size the
//!   certificate's text, whole (`text`), in the words of `specs/CertificatePlan`.
//! - `pack` is likewise the signed package that a plan stands for (`signed`, `size`, `text`), in the
//!   words of `specs/PackagePlan` and `specs/PlannedMessage`.
//! - `Unsigned` and `finish` are those of `signed_write`: `finish` puts the signature of a key with a
//!   spent leaf behind the octets (`octets`). It takes no memory, and as a leaf is taken by value, none
//!   signs twice.
//! - `laws`: a planned certificate has a text, and its extensions read as the plan's values
//!   (`issued_certificates_are_read`). A planned package is signed data of one signer exactly where at
//!   most 2^20 octets stand behind its content; but for this limit all that is asked of signed data
//!   holds of each, and its attributes describe a package by the plan's values
//!   (`packages_are_signed_data`). Its image is the plan's (`packages_keep_their_image`). Signatures
//!   hold under the key's public key and have the size for which there is room (`outputs_are_signed`),
//!   so `finish` gives the certificate or the package that is signed with its leaf
//!   (`finished_is_the_output`).
//! - Over all runs on a key's board, whether they sign with its leaves (`specs/SigningRuns`) or leave
//!   the board as it was, whatever they send, and all power cuts in them, no two outputs of which any
//!   octet was sent have the same leaf: the law `no_leaf_signs_twice`, in the words of
//!   `specs/BoardRuns`.
//!
//! A caller takes the memory with `issue` or `pack`, then spends the leaf, then signs with `finish`,
//! and then sends.
//!
//! Below it stand `signed_write`, which writes signed data of one signer, `cms_signed`, with the texts
//! of signed data, `cert_fields`, with those of certificates and of their extensions, `package_attrs`
//! and `attribute_write`, with the attributes of packages, `der_write`, and `lms_sign`, with keys and
//! signatures.
//!
//! Limits: a community of modules has one serial entry, and an image at most 2^24 octets. That a
//! certificate or a package is read back is said where what its plan says has texts
//! (`IsCertificatePlan`, `HasTexts`), which no type keeps. `pack` also writes a package of which more
//! than 2^20 octets stand behind its content, which `read_signed` refuses. That a run of a command is
//! one of those of the law is for the command to say.
#![tactic(auto)]

mod attributes;
mod certificate;
mod certificate_plan;
mod extensions;
pub mod laws;
mod package;
mod package_plan;

pub use certificate::issue;
pub use certificate_plan::{Authority, CertPlan, KeyUses};
pub use package::pack;
pub use package_plan::PackagePlan;
pub use signed_write::{Unsigned, finish};
