//! Whether a package's dependencies are met, and whether it breaks what is installed (RFC 4108,
//! section 2.2.9).
//!
//! - `unmet` is None exactly where each of the package's dependencies is installed and in its
//!   version (`met`); else it gives the first that isn't installed, and if there is none, the first
//!   in too small a version (`first`). Which of the two it is tells which rule fails (`missing`,
//!   `too_old`). It looks at the state before the package.
//! - `broken_by` is None exactly where no installed package that isn't replaced has a need that is
//!   met before and not once the package is in the tables (`unbroken`); else it gives the place of
//!   the first that has (`first`).
//! - `first_places_are_one` is the law that there is one such answer at most, and
//!   `images_do_not_matter` that the rules see nothing of the images.
//!
//! Neither call takes memory. Below stands `config_table`, with the lists, and with what it means and
//! how it is told that a need is met. The judge of packages asks both.
#![tactic(auto)]

mod broken;
mod fault;
mod laws;
mod needs;

pub use broken::broken_by;
pub use fault::Unmet;
pub use laws::{first_places_are_one, images_do_not_matter};
pub use needs::unmet;
