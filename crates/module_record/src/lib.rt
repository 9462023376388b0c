//! The module record and the key record, by which a board is held; this project's own.
//!
//! - `read_module` answers a module exactly where the octets begin with its record (`spelled`), and
//!   `put_module` appends exactly the record (`ok`), or leaves the list as it was (`err`).
//! - `read_key_record` answers a key exactly where the octets begin with its record (`spelled`), and
//!   `put_key_record` appends exactly the record of the key (`ok`), which is a valid one (`valid`),
//!   or leaves the list as it was (`err`).
//! - `one_module_record_each` and `one_key_record_each` are the laws that no octets begin with the
//!   records of two modules, or of two keys (`unique`); `records_tell_their_kind` says that none
//!   begin with one of each. A key record is read back whatever follows, and has 65 octets (`read`,
//!   `size`).
//! - `short_modules_have_a_record`: a module within its limits has a record of 65,536 octets at most
//!   where its anchors' subjects are short (`valid`, `size`), and `put_module` adds no more (`most`).
//!
//! Below it stand `der_core` and `der_write`, with the DER of which records are made, `cert_fields`,
//! with the trust anchors, and `hss_chain` and `lms_sign`, with the keys. Above it stand recipes of
//! modules, and the store of a board's banks.
//!
//! Limits: `MOST_CAPACITY`, `MOST_LISTED`, `MOST_ANCHORS` and `MOST_CONSTRAINTS` say how much a module
//! may have. A subject is any SEQUENCE, as long as the record has room for it. Signing keys have trees
//! of the kinds H5 and H10 alone. Nothing is asked of an anchor's key but that it is one.
#![tactic(auto)]

mod anchor_reading;
mod key_record;
mod laws;
mod limits;
mod lists;
mod module;
mod module_reading;
mod writing;

pub use key_record::{put_key_record, read_key_record};
pub use laws::{
    one_key_record_each, one_module_record_each, records_tell_their_kind,
    short_modules_have_a_record,
};
pub use limits::{MOST_ANCHORS, MOST_CAPACITY, MOST_CONSTRAINTS, MOST_LISTED};
pub use lists::{Anchors, Kinds, Oids};
pub use module::Module;
pub use module_reading::read_module;
pub use writing::put_module;
