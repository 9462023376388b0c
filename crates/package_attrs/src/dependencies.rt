// The packages that a package needs.
ghost use Rattle.std.specs.Prelude.{◌≡◌, ◌≤◌, [], length, is_some, IfOk};
ghost use Rattle.std.specs.Iterator.{YieldsFirst, item_count};
ghost use Rattle.der_core.specs.Reads.{Answers};
ghost use Rattle.package_attrs.specs.ListReading.{names_of};

use crate::name::read_name;
use crate::{Names, PackageName};
use der_core::Cursor;
use std::alloc::{AllocError, Global};
use std::marker::Model;

/// How many dependencies a package has at most. The limit is this project's own.
pub const MOST_DEPENDENCIES: usize = 8;

/// At most 8 names of packages in their order, each read from its octets when it is asked for.
/// Takes no memory.
#[derive(Drop)]
pub struct Dependencies<'a> {
    octets: &'a [u8],
}

impl<'a> Model for Dependencies<'a> {
    ghost use Rattle.std.specs.Prelude.{◌≤◌, List, length};
    ghost use Rattle.package_attrs.specs.declared.name.PackageName.{PackageName};
    ghost use Rattle.attribute_set.specs.Items.{items_of, AreItems};
    ghost use Rattle.package_attrs.specs.Reading.{name_at};

    ghost Value = { List PackageName };

    ghost view = { λ d. items_of name_at d.octets.now };

    ghost invariant = { λ d. AreItems name_at d.octets.now
        × (length (items_of name_at d.octets.now) ≤ 8) };
}

impl<'a> Dependencies<'a> {
    /// No names.
    pub fn none() -> Dependencies<'a>
        ensures none { result ≡ [] }
    {
        Dependencies { octets: b"" }
    }

    /// The same names, to go through.
    pub fn iter(&self) -> Dependencies<'a>
        ensures same { result ≡ self.now }
        ensures few { length self.now ≤ 8 }
    {
        Dependencies {
            octets: self.octets,
        }
    }

    /// The names in memory of their own.
    pub fn to_names(&self, alloc: Global) -> Result<Names, AllocError>
        ensures same { IfOk result (λ names. names ≡ self.now) }
    {
        Ok(Names::new(self.iter().collect(alloc)?))
    }
}

impl<'a> Iterator for Dependencies<'a> {
    type Item = PackageName;

    ghost next_gives = { YieldsFirst (λ names. names) };

    ghost remaining = { item_count (λ names. names) };

    fn next(&mut self) -> Option<PackageName> {
        let mut items = Cursor::new(self.octets);
        let name = read_name(&mut items)?;
        self.octets = items.rest();
        Some(name)
    }
}

// Whether the octets are 1 to 8 names, one after the other. A ninth isn't read.
fn are_names(contents: &[u8]) -> bool
    ensures { result ≡ is_some (names_of contents.now) }
{
    let mut items = Cursor::new(contents);
    let mut count = 0;
    while !items.at_end() {
        if count == MOST_DEPENDENCIES {
            return false;
        }
        if read_name(&mut items).is_none() {
            return false;
        }
        count += 1;
    }
    count > 0
}

// The names that the octets are, where they are 1 to 8.
pub(crate) fn read_names(contents: &[u8]) -> Option<Dependencies<'_>>
    ensures exact { Answers (λ names. names) result (names_of contents.now) }
{
    if are_names(contents) {
        Some(Dependencies { octets: contents })
    } else {
        None
    }
}
