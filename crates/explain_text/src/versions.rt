// Listed package identifiers, looked up by their preferred names.
ghost use Rattle.std.specs.Prelude.{◌≡◌, ◌++◌, IfOk, OnOk, IsPermutation};
ghost use Rattle.der_core.specs.Reads.{Answers};
ghost use Rattle.package_attrs.specs.Covers.{preferred, preferred_of};
ghost use Rattle.explain_text.specs.Keys.{AscendByNumber, is_late_name, key_list, versions_in};
ghost use Rattle.explain_text.specs.Ordered.{lent};

use crate::keys::{in_order, is_up_to};
use der_core::Oid;
use package_attrs::{PackageName, read_identifier};
use std::alloc::{AllocError, Global};

fn preferred(name: &PackageName) -> Option<(Oid, u128)>
    ensures { result ≡ preferred name.now }
{
    match name {
        PackageName::Preferred { id, version } => Some((*id, *version)),
        PackageName::Legacy(_) => None,
    }
}

// The identifier and the version, where the octets are an identifier with a preferred name.
#[tactic(auto, unfolding(package_attrs::specs::Covers::preferred_of))]
fn preferred_of(octets: &[u8]) -> Option<(Oid, u128)>
    ensures exact { Answers (λ name. name) result (preferred_of octets.now) }
{
    match read_identifier(octets) {
        Some(identifier) => preferred(&identifier.name),
        None => None,
    }
}

// Adds that of a value, where it is one.
fn push_version(keys: &mut Vec<(Oid, u128)>, value: &[u8]) -> Result<(), AllocError>
    ensures { OnOk result
        (keys.new.items ≡ keys.old.items ++ key_list (preferred_of value.now)) }
{
    if let Some(key) = preferred_of(value) {
        keys.push(key)?;
    }
    Ok(())
}

// Those of all values, in order.
pub(crate) fn versions_of(alloc: Global, values: &[&[u8]]) -> Result<Vec<(Oid, u128)>, AllocError>
    ensures same { IfOk result
        (λ keys. IsPermutation (versions_in (lent values.now)) keys.items) }
    ensures ordered { IfOk result (λ keys. AscendByNumber keys.items) }
{
    let mut keys = Vec::new(alloc);
    for value in values {
        push_version(&mut keys, value)?;
    }
    Ok(in_order(keys))
}

// Whether one of the values is a preferred name of which this is the same version or a later one.
pub(crate) fn is_late_name(keys: &[(Oid, u128)], values: &[&[u8]], value: &[u8]) -> bool
    requires ordered { AscendByNumber keys.now }
    requires same { IsPermutation (versions_in (lent values.now)) keys.now }
    ensures { result ≡ is_late_name (lent values.now) value.now }
{
    match preferred_of(value) {
        Some(key) => is_up_to(keys, key.0.octets(), key.1),
        None => false,
    }
}
