// The communities of modules that a package is for.
ghost use Rattle.std.specs.Prelude.{◌≡◌};
ghost use Rattle.std.specs.Iterator.{YieldsFirst, item_count};

use crate::read_community::{read_community, read_serial_entry};
use der_core::{Cursor, Octets64, Oid};
use std::marker::Model;

/// Modules of one hardware type, by their serial numbers (RFC 4108, section 2.2.8).
#[derive(Clone, Copy, Debug)]
pub enum SerialEntry {
    /// Each module.
    All,
    /// The module with this serial number of 1 to 64 octets.
    Single(Octets64),
    /// The modules whose serial numbers lie between the two, both included.
    Block { low: Octets64, high: Octets64 },
}

/// Serial entries in their order, each read from its octets when it is asked for. Takes no memory.
#[derive(Drop)]
pub struct SerialEntries<'a> {
    pub(crate) octets: &'a [u8],
}

impl<'a> Model for SerialEntries<'a> {
    ghost use Rattle.std.specs.Prelude.{List};
    ghost use Rattle.package_attrs.specs.declared.community.SerialEntry.{SerialEntry};
    ghost use Rattle.attribute_set.specs.Items.{items_of, AreItems};
    ghost use Rattle.package_attrs.specs.SerialReading.{serial_entry_at};

    ghost Value = { List SerialEntry };

    ghost view = { λ s. items_of serial_entry_at s.octets.now };

    ghost invariant = { λ s. AreItems serial_entry_at s.octets.now };
}

impl<'a> SerialEntries<'a> {
    /// The same serial entries, to go through.
    pub fn iter(&self) -> SerialEntries<'a>
        ensures same { result ≡ self.now }
    {
        SerialEntries {
            octets: self.octets,
        }
    }
}

impl<'a> Iterator for SerialEntries<'a> {
    type Item = SerialEntry;

    ghost next_gives = { YieldsFirst (λ entries. entries) };

    ghost remaining = { item_count (λ entries. entries) };

    fn next(&mut self) -> Option<SerialEntry> {
        let mut items = Cursor::new(self.octets);
        let entry = read_serial_entry(&mut items)?;
        self.octets = items.rest();
        Some(entry)
    }
}

/// A community of modules (RFC 4108, section 2.2.8).
#[derive(Drop)]
pub enum Community<'a> {
    /// The modules that list this identifier.
    Group(Oid),
    /// The modules of a hardware type that a serial entry names.
    Modules {
        hw_type: Oid,
        serials: SerialEntries<'a>,
    },
}

/// Communities in their order, each read from its octets when it is asked for. Takes no memory.
#[derive(Drop)]
pub struct Communities<'a> {
    pub(crate) octets: &'a [u8],
}

impl<'a> Model for Communities<'a> {
    ghost use Rattle.std.specs.Prelude.{List};
    ghost use Rattle.package_attrs.specs.declared.community.Community.{Community};
    ghost use Rattle.attribute_set.specs.Items.{items_of, AreItems};
    ghost use Rattle.package_attrs.specs.ListReading.{community_at};

    ghost Value = { List Community };

    ghost view = { λ c. items_of community_at c.octets.now };

    ghost invariant = { λ c. AreItems community_at c.octets.now };
}

impl<'a> Communities<'a> {
    /// The same communities, to go through.
    pub fn iter(&self) -> Communities<'a>
        ensures same { result ≡ self.now }
    {
        Communities {
            octets: self.octets,
        }
    }
}

impl<'a> Iterator for Communities<'a> {
    type Item = Community<'a>;

    ghost next_gives = { YieldsFirst (λ communities. communities) };

    ghost remaining = { item_count (λ communities. communities) };

    fn next(&mut self) -> Option<Community<'a>> {
        let mut items = Cursor::new(self.octets);
        let community = read_community(&mut items)?;
        self.octets = items.rest();
        Some(community)
    }
}
