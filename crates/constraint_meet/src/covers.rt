// Whether a listed value covers another, by the type of the attribute.
ghost use Rattle.std.specs.Prelude.{◌≡◌, IsTrue, bytes_eq};
ghost use Rattle.std.specs.List.{list_any};
ghost use Rattle.der_core.specs.AttributeReading.{are_elements};
ghost use Rattle.package_attrs.specs.AttributeTypes.{firmware_package_id, target_hardware_ids};
ghost use Rattle.constraint_meet.specs.Covers.{covers};
ghost use Rattle.constraint_meet.specs.Kinds.{is_by_octets};
ghost use Rattle.constraint_meet.specs.Permits.{values_in};

use der_core::Cursor;
use package_attrs::attribute_types::{FIRMWARE_PACKAGE_ID, TARGET_HARDWARE_IDS};
use package_attrs::{identifier_covers, targets_cover};

fn is_package_id(kind: &[u8]) -> bool
    ensures { result ≡ bytes_eq kind.now firmware_package_id }
{
    kind == FIRMWARE_PACKAGE_ID.as_slice()
}

fn is_target_hardware(kind: &[u8]) -> bool
    ensures { result ≡ bytes_eq kind.now target_hardware_ids }
{
    kind == TARGET_HARDWARE_IDS.as_slice()
}

// Whether a listed value of this type of attributes covers itself alone.
pub(crate) fn is_by_octets(kind: &[u8]) -> bool
    ensures octets { result ≡ is_by_octets kind.now }
{
    !is_package_id(kind) && !is_target_hardware(kind)
}

fn covers(kind: &[u8], listed: &[u8], value: &[u8]) -> bool
    ensures { result ≡ covers kind.now listed.now value.now }
{
    listed == value
        || is_package_id(kind) && identifier_covers(listed, value)
        || is_target_hardware(kind) && targets_cover(listed, value)
}

// Whether one of the values that are listed, in the contents of this SET, covers the value of an
// attribute of this type. Compares it with each of them.
pub(crate) fn one_covers(kind: &[u8], listed: &[u8], value: &[u8]) -> bool
    requires elements { IsTrue (are_elements listed.now) }
    ensures covered { result
        ≡ list_any (λ one. covers kind.now one value.now) (values_in listed.now) }
{
    let mut items = Cursor::new(listed);
    while let Some((_, _, one)) = items.next() {
        if covers(kind, one, value) {
            return true;
        }
    }
    false
}
