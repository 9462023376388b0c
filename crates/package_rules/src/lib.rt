//! The rules by which a hardware module takes a firmware package, as far as the package's signed
//! attributes and the module's tables decide them (RFC 4108, section 2.2).
//!
//! - `is_for_hardware`, `is_in_community` and `is_of_listed_kind` are true exactly where the
//!   module's hardware type is among the targets, where there is no community attribute or one of
//!   its communities holds the module, and where there is no package type or the module lists it
//!   (`exact`).
//! - `first_refusal` is None exactly where all of the conditions 30 to 36 hold (`hold`), else the
//!   least that fails (`first`). They are these three rules, that the name isn't stale, that the
//!   dependencies are installed before the package, each in its version, and that no installed
//!   package which stays loses a need.
//! - `first_overflow` is the same for the conditions 39 and 40 (`hold`, `first`): with the package
//!   at most 64 packages are installed and at most 256 stale entries are there.
//! - `images_do_not_matter` is the law that the conditions hold or fail alike whatever stands for
//!   the images (`hold`, `first`, `room`, `overflow`), and `blocks_hold_their_ends` that a block of
//!   serial numbers holds its two ends and no serial number of another length (`ends`, `length`).
//!
//! `specs/Rules` and `specs/Communities` state the rules, and `specs/Conditions` puts them into two
//! lists, between which the conditions on the image itself stand. No call takes memory, and each goes
//! through the lists of a package once, one value after the other.
//!
//! Below stand `package_attrs` with what a package says, `config_table` with the tables, and
//! `dependency_check` with the rules on dependencies. The judge of packages asks both calls.
#![tactic(auto)]

mod laws;
mod module;
mod overflow;
mod refusal;
mod target;

pub use laws::{blocks_hold_their_ends, images_do_not_matter};
pub use module::HardwareModule;
pub use overflow::first_overflow;
pub use refusal::first_refusal;
pub use target::{is_for_hardware, is_in_community, is_of_listed_kind};
