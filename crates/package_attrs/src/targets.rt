// The hardware types that a package is for.
ghost use Rattle.std.specs.Prelude.{◌≡◌, is_some};
ghost use Rattle.std.specs.Iterator.{YieldsFirst, item_count};
ghost use Rattle.der_core.specs.Reads.{Reads, Answers};
ghost use Rattle.der_core.specs.Shapes.{listed};
ghost use Rattle.package_attrs.specs.ListReading.{targets_of};
ghost use Rattle.package_attrs.specs.Targets.{targets_text, AreTargets};
ghost use Rattle.package_attrs.specs.Reading.{oid_at};

use crate::fields::read_oid_at;
use der_core::{Cursor, Oid, tags};
use std::marker::Model;

/// Hardware types in their order, each read from its octets when it is asked for. Takes no memory.
#[derive(Drop)]
pub struct Targets<'a> {
    octets: &'a [u8],
}

impl<'a> Model for Targets<'a> {
    ghost use Rattle.std.specs.Prelude.{ℕ, List};
    ghost use Rattle.attribute_set.specs.Items.{items_of, AreItems};
    ghost use Rattle.package_attrs.specs.Reading.{oid_at};

    ghost Value = { List (List ℕ) };

    ghost view = { λ t. items_of oid_at t.octets.now };

    ghost invariant = { λ t. AreItems oid_at t.octets.now };
}

impl<'a> Targets<'a> {
    /// The same hardware types, to go through.
    pub fn iter(&self) -> Targets<'a>
        ensures same { result ≡ self.now }
    {
        Targets {
            octets: self.octets,
        }
    }
}

impl<'a> Iterator for Targets<'a> {
    type Item = Oid;

    ghost next_gives = { YieldsFirst (λ targets. targets) };

    ghost remaining = { item_count (λ targets. targets) };

    fn next(&mut self) -> Option<Oid> {
        let mut items = Cursor::new(self.octets);
        let target = read_oid_at(&mut items)?;
        self.octets = items.rest();
        Some(target)
    }
}

// Whether the octets are identifiers, one after the other.
fn are_oids(contents: &[u8]) -> bool
    ensures { result ≡ is_some (listed oid_at contents.now) }
{
    let mut items = Cursor::new(contents);
    while !items.at_end() {
        if read_oid_at(&mut items).is_none() {
            return false;
        }
    }
    true
}

// The identifiers that the octets are, one after the other.
fn read_list(contents: &[u8]) -> Option<Targets<'_>>
    ensures exact { Answers (λ ids. ids) result (listed oid_at contents.now) }
{
    if are_oids(contents) {
        Some(Targets { octets: contents })
    } else {
        None
    }
}

#[tactic(auto, unfolding(crate::specs::ListReading::targets_of))]
fn read_whole(bytes: &[u8]) -> Option<Targets<'_>>
    ensures exact { Answers (λ ids. ids) result (targets_of bytes.now) }
{
    let mut items = Cursor::new(bytes);
    let targets = read_list(items.tagged(tags::SEQUENCE)?)?;
    if items.at_end() { Some(targets) } else { None }
}

/// The hardware types whose text the octets are, all of them (RFC 4108, section 2.2.4). There may
/// be none.
pub fn read_targets(bytes: &[u8]) -> Option<Targets<'_>>
    ensures spelled { Reads targets_text AreTargets bytes.now result }
    ensures exact { Answers (λ ids. ids) result (targets_of bytes.now) }
{
    read_whole(bytes)
}
