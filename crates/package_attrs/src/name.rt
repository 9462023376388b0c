// Names of packages, and what makes packages of a name stale.
ghost use Rattle.std.specs.Prelude.{◌++◌, ℕ, List, option_map};
ghost use Rattle.der_core.specs.Element.{AreOctets};
ghost use Rattle.der_core.specs.Reads.{Reads, Answers};
ghost use Rattle.package_attrs.specs.declared.name.PackageName.{PackageName};
ghost use Rattle.package_attrs.specs.Identifier.{name_text, IsName};
ghost use Rattle.package_attrs.specs.Reading.{pair_of, name_at, stale_at};

use crate::fields::read_octets_at;
use der_core::{Cursor, Octets64, Oid, read_oid, read_u128, tags};

/// What a package is called (RFC 4108, section 2.2.3).
#[derive(Clone, Copy, Debug)]
pub enum PackageName {
    /// An identifier of the kind of package, and the package's version.
    Preferred { id: Oid, version: u128 },
    /// 1 to 64 octets whose meaning is the vendor's.
    Legacy(Octets64),
}

/// Which packages of a name are stale (RFC 4108, section 2.2.3).
#[derive(Clone, Copy, Debug)]
pub enum Stale {
    /// The greatest version that is stale.
    Upto(u128),
    /// 1 to 64 octets whose meaning is the vendor's.
    Legacy(Octets64),
}

// A preferred name's identifier and version.
#[tactic(auto, unfolding(crate::specs::Reading::pair_of))]
fn read_preferred(parts: &[u8]) -> Option<(Oid, u128)>
    ensures exact { Answers (λ pair. pair) result (pair_of parts.now) }
{
    let mut parts = Cursor::new(parts);
    let id = read_oid(parts.tagged(tags::OBJECT_IDENTIFIER)?)?;
    let version = read_u128(parts.tagged(tags::INTEGER)?)?;
    if parts.at_end() {
        Some((id, version))
    } else {
        None
    }
}

#[tactic(auto, unfolding(crate::specs::Reading::name_at, crate::specs::Reading::octets_at))]
fn read_front(fields: &mut Cursor<'_>) -> Option<PackageName>
    ensures exact { Answers (λ name. (name, fields.new)) result (name_at fields.old) }
{
    if fields.is_at(tags::SEQUENCE) {
        let (id, version) = read_preferred(fields.tagged(tags::SEQUENCE)?)?;
        Some(PackageName::Preferred { id, version })
    } else {
        Some(PackageName::Legacy(read_octets_at(fields)?))
    }
}

/// Passes the name at the front (RFC 4108, section 2.2.3). None exactly where the text of no name
/// stands there, and then no clause says how far the cursor has come.
pub fn read_name(fields: &mut Cursor<'_>) -> Option<PackageName>
    ensures spelled { AreOctets fields.old
        → Reads {V = PackageName × List ℕ} (λ x. name_text x.0 ++ x.1) (λ x. IsName x.0)
        fields.old (option_map (λ name. (name, fields.new)) result) }
    ensures exact { Answers (λ name. (name, fields.new)) result (name_at fields.old) }
{
    read_front(fields)
}

// The stale value at the front.
#[tactic(auto, unfolding(crate::specs::Reading::stale_at, crate::specs::Reading::octets_at))]
pub(crate) fn read_stale(fields: &mut Cursor<'_>) -> Option<Stale>
    ensures exact { Answers (λ stale. (stale, fields.new)) result (stale_at fields.old) }
{
    if fields.is_at(tags::INTEGER) {
        Some(Stale::Upto(read_u128(fields.tagged(tags::INTEGER)?)?))
    } else {
        Some(Stale::Legacy(read_octets_at(fields)?))
    }
}
