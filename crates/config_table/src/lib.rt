//! The tables of a module: the firmware packages that it has installed, and those that it takes
//! for stale (RFC 4108, sections 2.2.3 and 2.2.9).
//!
//! - `State` is seen as two lists, in order of first installation and of first mention, and in
//!   neither do an identifier or a legacy name stand twice (`packages`: `distinct`).
//! - `with_package` accepts a package: it takes the place of the one with its identifier or its
//!   legacy name, or goes last, and an identifier's stale number becomes the greater one (`ok`).
//!   `replace` and `raise_stale` are its two halves (`ok`), and `take_stale` takes an entry as it
//!   stands in a manifest; on want of memory they leave the state as it was (`err`).
//! - `package`, `find`, `stale_of`, `stale_hit` and `stale_entry` answer by the lists, and None
//!   exactly where a list has no such entry (`entry`, `found`, `met`, `number`, `stale`).
//!   `is_installed` and `is_met` tell of one name (`installed`, `met`). `copy` equals its source
//!   (`same`).
//! - `StaleEntry::made` is the entry that a stale value makes beside a name (`made`), and
//!   `StaleEntry::last` the last name that an entry makes stale (`last`).
//! - `names_stay_distinct`, `stale_stays_stale`, `packages_keep_their_places`,
//!   `new_names_go_last`, `needs_after_a_package` and `images_stand_apart` are laws of the
//!   definitions in `specs/State`, over any list of installed packages.
//! - `MOST_PACKAGES` and `MOST_STALE_ENTRIES` are the limits of what a module may have; the tables
//!   don't ask them, the rules for a package and the readers of a manifest do.
//!
//! The definitions are generic in what stands for an image: its octets, their number, or the
//! blocks of flash that hold it (`Stored`), as the tables here keep it.
//!
//! Below stand `indexmap`, which keeps an order, `sha2` for the word SHA-256, and `package_attrs`
//! with the names. `dependency_check` asks the tables whether a package's needs are met, and the
//! manifests of a flash keep them.
//!
//! No clause tells whether a package's digest is that of its image, nor which blocks are used.
#![tactic(auto)]

mod blocks;
mod installed;
mod key;
mod laws;
mod limits;
mod names;
mod stale_entry;
mod state;

pub use blocks::BlockNumbers;
pub use installed::Installed;
pub use laws::{
    images_stand_apart, names_stay_distinct, needs_after_a_package, new_names_go_last,
    packages_keep_their_places, stale_stays_stale,
};
pub use limits::{MOST_PACKAGES, MOST_STALE_ENTRIES};
pub use names::{is_at_least, is_same};
pub use stale_entry::StaleEntry;
pub use state::State;
