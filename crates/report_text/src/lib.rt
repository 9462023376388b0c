//! The lines that the loader prints; the forms are this project's own.
//!
//! - `put_identifier_line` appends exactly an identifier's line (`ok`).
//! - `put_state` appends exactly the lines of a module's packages and stale entries, in their
//!   orders (`ok`).
//! - `put_list` appends exactly the lines of a module: what it is, how far it has come, and what
//!   is installed (`ok`).
//! - `put_rehearsal_head`, `put_accepted` and `put_refused` append exactly the lines of a
//!   rehearsal's moment, of a package that is accepted, and of a condition that fails (`ok`).
//! - `push_oid` and `push_hex` append exactly the dotted text of an identifier and the hex of octets
//!   to a text (`ok`).
//! - For want of memory, the one refusal of these, a list or a text stays as it was (`err`).
//! - `dotted_text_is_of_its_numbers` is the law that an object identifier is printed by the numbers
//!   that spell it.
//!
//! Below it stand `package_attrs`, with the identifiers that are printed, `config_table` with the
//! state, `module_record` with the module, and `der_core` with moments and conditions. `fwload_top`
//! sends the lines. Octets are printed as lower case hex, numbers in decimal, and each line ends
//! with 0A.
#![tactic(auto)]

mod identifier;
mod laws;
mod list;
mod name;
mod oid;
mod rehearsal;
mod state;

pub use identifier::put_identifier_line;
pub use laws::dotted_text_is_of_its_numbers;
pub use list::put_list;
pub use name::push_hex;
pub use oid::push_oid;
pub use rehearsal::{put_accepted, put_refused, put_rehearsal_head};
pub use state::put_state;
