// What a package is checked against.

use der_core::{Octets64, Oid};
use std::marker::Model;

/// A hardware module as packages see it.
#[derive(Drop)]
pub struct HardwareModule<'a> {
    /// Its hardware type (RFC 4108, section 2.2.4).
    pub hw_type: &'a Oid,
    /// Its serial number (RFC 4108, section 2.2.8).
    pub serial: &'a Octets64,
    /// The identifiers of the communities that it is in (RFC 4108, section 2.2.8).
    pub communities: &'a [Oid],
    /// The package types that it takes (RFC 4108, section 2.2.9).
    pub kinds: &'a [u128],
}

impl<'a> Model for HardwareModule<'a> {
    ghost use Rattle.package_rules.specs.Module.{Module};

    ghost Value = { Module };

    ghost view = { λ m. record {
      hw_type = m.hw_type.now;
      serial = m.serial.now;
      communities = m.communities.now;
      kinds = m.kinds.now;
    } };
}
