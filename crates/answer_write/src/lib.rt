//! What a module sends for a firmware package: a receipt or a load error, signed or plain (RFC 4108,
//! sections 3 and 4; RFC 5652, sections 3 and 5).
//!
//! - `reserve_answer` is the answer of a text in both forms, for each leaf of the module's key (`answer`),
//!   with an upper bound for each form (`most`, `most_signed`). It takes all memory that either needs.
//! - `finish_signed` is exactly the signed form with the leaf that it takes (`octets`), and as long as was
//!   reserved (`size`), by a key that keeps the nodes of its tree, and stays (`unchanged`).
//!   `finish_plain` is exactly the plain one (`octets`). Both take an `Answer` by value and no memory, so a
//!   caller reserves before the leaf is spent, and only then knows which goes out.
//! - `plain_octets` is the plain form alone (`octets`, `most`), for what is never signed: it needs no key.
//!
//! The octets are those of `plain_answer` and `signed_answer` in `specs/Answers`: a ContentInfo of the
//! answer's type around the text, and signed data of one signer, named by the identifier of the module's
//! key, with the attributes of type and digest and without certificates. `content_types` has the types.
//!
//! Below stand `signed_write`, with signed data, `module_record`, with the module, and `lms_sign`, with
//! its key. The texts are written by `receipt_writer`.
//!
//! Limits: a text has at most 2^24 octets. Which text an answer has, and whether it is to be signed, is
//! for the caller to say. The identifier of the key is handed in, since the key's whole tree is computed
//! for it; the signature takes the tree's nodes from a `KeyTree`. So a run computes them once.
#![tactic(auto)]

mod answer;
pub mod content_types;
mod kind;

pub use answer::{Answer, finish_plain, finish_signed, plain_octets, reserve_answer};
pub use kind::AnswerKind;
