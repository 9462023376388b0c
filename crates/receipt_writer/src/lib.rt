//! What a module answers a firmware package with (RFC 4108, sections 3.1.3 and 4.1.3), before it
//! is wrapped or signed.
//!
//! - `put_receipt` appends exactly the receipt for a package that was loaded (`ok`), 320 octets at
//!   most (`most`).
//! - `put_error` appends exactly the error for a package that wasn't, by the condition that fails
//!   first (`ok`), 8,500 octets at most (`most`).
//! - For want of memory, the one refusal, the list stays as it was (`err`).
//! - `errors_see_no_image` is the law that an error is the same, whatever stands for the images in the
//!   state: where they are kept, their octets (`octets`) or their lengths (`numbers`).
//!
//! The texts stand in `specs/Answers`. Below stand `config_table` and `module_record` with the
//! module, and `der_write` and `name_write` with the elements. `answer_write` makes what is sent of
//! these texts.
//!
//! Limits: a state has at most 64 packages, as a module's has, and an error names its package
//! exactly from condition 20 on, both as conditions of the call.
#![tactic(auto)]

mod error;
mod hardware;
mod laws;
mod receipt;

pub use error::put_error;
pub use laws::errors_see_no_image;
pub use receipt::put_receipt;
