// A module.

use crate::{Anchors, Kinds, Oids};
use der_core::{Octets64, Oid};
use lms_sign::SignKey;

/// A module: what it is, which packages are for it, whom it trusts, and the key that it signs with.
/// Its limits are those of `IsModule` in specs/ModuleRecord.
#[derive(Drop)]
pub struct Module {
    /// The hardware type (RFC 4108, section 2.2.4).
    pub hw_type: Oid,
    /// The serial number, 1 to 64 octets (RFC 4108, section 5).
    pub serial: Octets64,
    /// The communities that it belongs to, at most 64 (RFC 4108, section 2.2.8).
    pub communities: Oids,
    /// The package types that it takes, at most 64 (RFC 4108, section 2.2.9).
    pub kinds: Kinds,
    /// How many blocks of 4,096 octets the installed images may have together, 1 to 4,096.
    pub capacity: u32,
    /// The trust anchors, 1 to 16, whose keys are HSS keys and whose constraints have at most 2,048
    /// octets.
    pub anchors: Anchors,
    pub key: SignKey,
}
