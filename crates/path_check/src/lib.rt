//! Paths of certificates from a signer up to a trust anchor (RFC 5280, section 6.1).
//!
//! - `find_path` answers a signer's path (`path`), in the words of `specs/Paths`: the first anchor
//!   that is named, or the first certificate that is named, and from each certificate upward the
//!   first anchor above it, else the first certificate above it, with at most eight certificates. It
//!   answers `NoAnchor` exactly where there is none (`none`).
//! - `one_path` is the law that a signer has one path at most, and `paths_by_places` that a path is one
//!   exactly where each two that stand one behind the other are. `no_way_from_its_own_issuer` says
//!   that from a certificate which is itself the first above it nothing leads up.
//!   `members_stand_at_their_places` is the law that each member of a path is the certificate at its
//!   place (`count`, `place`).
//! - `check_path` answers the first of the conditions 23 to 27 that fails of a path's certificates
//!   (`fails`), which `specs/Conditions` lists: extensions that read, validity, the rules by which
//!   certificates stand above one another, HSS keys, and signatures. Where none fails it hands on the
//!   signer's key, the anchor's key identifier, and what the path permits, which is what every
//!   certificate of it and the anchor permit (`ok`; `IsChecked` of `specs/Checked`).
//!   `check_certificates` asks the same conditions, and nothing of what the path permits (`sound`,
//!   `fails`).
//! - `is_signed_over` says whether octets are signed by a key (`exact`; `IsSignedOver`, of which a
//!   certificate's `IsSignedBy` is one case), and `may_be_used` whether keyUsage lets a certificate be
//!   used for one purpose (`used`).
//!
//! Certificates are given as their octets, 16 octets of memory each (`KeptCert`). `find_path` goes
//! through them once to find the signer's and once more for each member. It reads a certificate's
//! extensions where a key identifier is asked of it: of each, up to the one that is named, where the
//! signer is named by one; of each member, as a child; and of a candidate whose name is the child's
//! issuer, where the child gives one. It keeps memory for the places of the
//! members alone. `check_path` reads the extensions of the at most eight members once and keeps them, and
//! verifies each signature once, after all other conditions. No clause says what a call costs.
//!
//! Below it stand `cert_fields` with certificates, their extensions and anchors, `constraint_meet` with
//! what constraints permit, and `hss_chain` with keys and signatures.
//!
//! Narrower than the standard: names are compared octet for octet, a path is the first that fits and
//! no other is tried, and policies and name constraints aren't known.
#![tactic(auto)]

mod check;
mod failure;
mod find;
mod hss;
mod key_identifiers;
mod laws;
mod member;
mod path;
mod rules;
mod soundness;

pub use check::{PathFault, PathView, check_certificates, check_path};
pub use find::{FindFault, find_path};
pub use hss::is_signed_over;
pub use laws::{
    members_stand_at_their_places, no_way_from_its_own_issuer, one_path, paths_by_places,
};
pub use path::Path;
pub use rules::may_be_used;
