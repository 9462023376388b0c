// A constrained attribute, with its listed values in order.
ghost use Rattle.std.specs.Prelude.{◌≡◌, ◌&&◌, ◌||◌, ◌++◌, IfOk, OnOk, IsTrue, bytes_eq, map};
ghost use Rattle.std.specs.List.{list_any};
ghost use Rattle.der_core.specs.AttributeReading.{are_elements};
ghost use Rattle.der_core.specs.AttributeView.{attribute_view};
ghost use Rattle.der_core.specs.Element.{AreOctets};
ghost use Rattle.constraint_meet.specs.Permits.{AreOfOctets, values_in};
ghost use Rattle.constraint_meet.specs.Tests.{is_covered};
ghost use Rattle.package_attrs.specs.AttributeTypes.{firmware_package_id, target_hardware_ids};
ghost use Rattle.explain_text.specs.Keys.{AscendByNumber, KeepsTypes, KeepsVersions, are_listed, is_late_name};
ghost use Rattle.explain_text.specs.Ordered.{lent};

use crate::hardware::{are_listed, types_of};
use crate::ordered::put_in_order;
use crate::versions::{is_late_name, versions_of};
use der_core::laws::slice_is_octets;
use der_core::{Attr, Cursor, Oid};
use package_attrs::attribute_types::{FIRMWARE_PACKAGE_ID, TARGET_HARDWARE_IDS};
use std::alloc::{AllocError, Global};
use std::marker::Model;

// Seen as the attribute.
#[derive(Drop)]
pub(crate) struct Listed<'a> {
    pub(crate) kind: Oid,
    // The contents of the SET of values.
    pub(crate) values: &'a [u8],
    // The values in ascending order, each once.
    ordered: Vec<&'a [u8]>,
    // Of package identifiers the preferred names, each with its version, in order.
    versions: Vec<(Oid, u128)>,
    // Of hardware types each, with the place of its value in `ordered`, in order.
    types: Vec<(Oid, u128)>,
}

impl<'a> Model for Listed<'a> {
    ghost use Rattle.std.specs.Prelude.{IsTrue, Contains};
    ghost use Rattle.der_core.specs.Attribute.{Attribute};
    ghost use Rattle.der_core.specs.AttributeReading.{are_elements};
    ghost use Rattle.der_core.specs.Element.{AreOctets};
    ghost use Rattle.constraint_meet.specs.Permits.{values_in};
    ghost use Rattle.explain_text.specs.Keys.{AscendByNumber, KeepsTypes, KeepsVersions};
    ghost use Rattle.explain_text.specs.Ordered.{AreExactly, lent};

    ghost Value = { Attribute };

    ghost view = { λ l. record { kind = l.kind; values = l.values.now } };

    ghost invariant = { λ l. IsTrue (are_elements l.values.now) × AreOctets l.values.now
        × AreExactly (Contains (values_in l.values.now)) (lent l.ordered.items)
        × KeepsVersions l.kind (lent l.ordered.items) l.versions.items
        × AscendByNumber l.versions.items
        × KeepsTypes l.kind (lent l.ordered.items) l.types.items
        × AscendByNumber l.types.items };
}

// Adds the values that a SET holds.
pub(crate) fn push_values<'a>(all: &mut Vec<&'a [u8]>, values: &'a [u8]) -> Result<(), AllocError>
    requires elements { IsTrue (are_elements values.now) }
    ensures { OnOk result (lent all.new.items ≡ lent all.old.items ++ values_in values.now) }
{
    let mut items = Cursor::new(values);
    while let Some((_, _, value)) = items.next() {
        all.push(value)?;
    }
    Ok(())
}

fn is_package_id(kind: &[u8]) -> bool
    ensures { result ≡ bytes_eq kind.now firmware_package_id }
{
    kind == FIRMWARE_PACKAGE_ID.as_slice()
}

fn is_target_hardware(kind: &[u8]) -> bool
    ensures { result ≡ bytes_eq kind.now target_hardware_ids }
{
    kind == TARGET_HARDWARE_IDS.as_slice()
}

// The preferred names of values, where the type is that of package identifiers.
fn kept_versions(
    alloc: Global,
    kind: &[u8],
    values: &[&[u8]],
) -> Result<Vec<(Oid, u128)>, AllocError>
    ensures same { IfOk result (λ keys. KeepsVersions kind.now (lent values.now) keys.items) }
    ensures ordered { IfOk result (λ keys. AscendByNumber keys.items) }
{
    if is_package_id(kind) {
        versions_of(alloc, values)
    } else {
        Ok(Vec::new(alloc))
    }
}

// The hardware types of values, where the type is that of target hardware.
fn kept_types(alloc: Global, kind: &[u8], values: &[&[u8]]) -> Result<Vec<(Oid, u128)>, AllocError>
    ensures same { IfOk result (λ keys. KeepsTypes kind.now (lent values.now) keys.items) }
    ensures ordered { IfOk result (λ keys. AscendByNumber keys.items) }
{
    if is_target_hardware(kind) {
        types_of(alloc, values)
    } else {
        Ok(Vec::new(alloc))
    }
}

impl<'a> Listed<'a> {
    pub(crate) fn new(alloc: Global, attribute: &Attr<'a>) -> Result<Listed<'a>, AllocError>
        ensures same { IfOk result (λ listed. listed ≡ attribute_view attribute.now) }
        ensures octets { AreOctets attribute.now.values.now }
    {
        let Attr { kind, values, .. } = *attribute;
        slice_is_octets(values);
        let mut ordered = Vec::new(alloc);
        push_values(&mut ordered, values)?;
        put_in_order(&mut ordered);
        let versions = kept_versions(alloc, kind.octets(), &ordered)?;
        let types = kept_types(alloc, kind.octets(), &ordered)?;
        Ok(Listed {
            kind,
            values,
            ordered,
            versions,
            types,
        })
    }

    // Whether this is one of the listed values.
    fn has(&self, value: &[u8]) -> bool
        ensures { result
            ≡ list_any (λ one. bytes_eq one value.now) (values_in self.now.values) }
    {
        self.ordered.binary_search(&value).is_ok()
    }

    // Whether a listed value covers this one.
    pub(crate) fn covers(&self, value: &[u8]) -> bool
        ensures { result ≡ is_covered self.now value.now }
    {
        self.has(value) || self.covers_more(value)
    }

    // Whether one that needn't be equal does.
    fn covers_more(&self, value: &[u8]) -> bool
        ensures { result ≡ ((bytes_eq self.now.kind firmware_package_id
            && is_late_name (values_in self.now.values) value.now)
            || (bytes_eq self.now.kind target_hardware_ids
            && are_listed (values_in self.now.values) value.now)) }
    {
        self.covers_version(value) || self.covers_types(value)
    }

    // Whether this is a later version of a listed package.
    fn covers_version(&self, value: &[u8]) -> bool
        ensures { result ≡ (bytes_eq self.now.kind firmware_package_id
            && is_late_name (values_in self.now.values) value.now) }
    {
        is_package_id(self.kind.octets()) && is_late_name(&self.versions, &self.ordered, value)
    }

    // Whether a listed value lists all of its hardware types.
    fn covers_types(&self, value: &[u8]) -> bool
        ensures { result ≡ (bytes_eq self.now.kind target_hardware_ids
            && are_listed (values_in self.now.values) value.now) }
    {
        is_target_hardware(self.kind.octets()) && are_listed(&self.types, &self.ordered, value)
    }
}

// The attributes, each with its values in order.
pub(crate) fn all_listed<'a>(
    alloc: Global,
    attributes: &[Attr<'a>],
) -> Result<Vec<Listed<'a>>, AllocError>
    ensures same { IfOk result (λ listed. listed.items ≡ map attribute_view attributes.now) }
    ensures octets { IfOk result (λ _. AreOfOctets (map attribute_view attributes.now)) }
{
    let mut all = Vec::new(alloc);
    for attribute in attributes {
        let listed = Listed::new(alloc, attribute)?;
        all.reserve(1)?;
        all.push_reserved(listed);
    }
    Ok(all)
}
