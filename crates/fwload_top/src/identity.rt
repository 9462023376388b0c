// The module that packages are rehearsed for.
ghost use Rattle.std.specs.Prelude.{◌≡◌, ◌∷◌, [], ◌<◌, ◌≤◌, length};
ghost use Rattle.der_core.specs.Objects.{IsOid};
ghost use Rattle.fwload_top.specs.Rehearse.{rehearsal_module};

use der_core::{Octets64, Oid, read_oid};
use package_rules::HardwareModule;

// What packages see of it: hardware type 1.2.3, serial number 00 01, community 1.2.3.100, and
// package type 1.
#[derive(Drop)]
pub(crate) struct Identity {
    hw_type: Oid,
    serial: Octets64,
    communities: [Oid; 1],
    kinds: [u128; 1],
    ghost hw_type_is: { hw_type ≡ 0x2A ∷ 3 ∷ [] },
    ghost serial_is: { serial ≡ 0x00 ∷ 0x01 ∷ [] },
    ghost communities_are: { communities ≡ (0x2A ∷ 3 ∷ 100 ∷ []) ∷ [] },
    ghost kinds_are: { kinds ≡ 1 ∷ [] },
}

impl Identity {
    pub(crate) fn new() -> Identity {
        Identity {
            hw_type: identifier(&[0x2a, 3]),
            serial: serial_number(&[0x00, 0x01]),
            communities: [identifier(&[0x2a, 3, 100])],
            kinds: [1],
        }
    }

    pub(crate) fn module(&self) -> HardwareModule<'_>
        ensures { result ≡ rehearsal_module }
    {
        HardwareModule {
            hw_type: &self.hw_type,
            serial: &self.serial,
            communities: &self.communities,
            kinds: &self.kinds,
        }
    }
}

// The identifier with these contents.
fn identifier(contents: &[u8]) -> Oid
    requires { IsOid contents.now }
    ensures { result ≡ contents.now }
{
    match read_oid(contents) {
        Some(identifier) => identifier,
        None => unreachable!(),
    }
}

// The serial number of these octets.
fn serial_number(octets: &[u8]) -> Octets64
    requires { length octets.now ≤ 64 }
    ensures { result ≡ octets.now }
{
    match Octets64::new(octets) {
        Some(serial) => serial,
        None => unreachable!(),
    }
}
