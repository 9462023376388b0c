// Whether a listed value of an attribute covers another value.
ghost use Rattle.std.specs.Prelude.{◌≡◌, ◌↔◌, ℕ, List, IsTrue, bytes_eq};
ghost use Rattle.std.specs.List.{list_any};
ghost use Rattle.der_core.specs.Element.{AreOctets};
ghost use Rattle.der_core.specs.Reads.{Answers};
ghost use Rattle.package_attrs.specs.ListReading.{targets_of};
ghost use Rattle.package_attrs.specs.Covers.{IdentifierCovers, TargetsCover, preferred, preferred_of, is_late};
ghost use Rattle.package_attrs.specs.Covers.{are_among, identifier_covers, targets_cover};

use crate::{PackageName, Targets, read_identifier, read_targets};
use der_core::Oid;

/// Whether a listed package identifier covers this one: they are equal octet for octet, or both
/// have preferred names of one package and this one has the listed version or a greater one.
/// Takes no memory, and time linear in the octets.
pub fn identifier_covers(listed: &[u8], value: &[u8]) -> bool
    ensures covers { IsTrue result ↔ IdentifierCovers listed.now value.now }
    ensures exact { result ≡ identifier_covers listed.now value.now }
{
    tells_identifier(listed, value)
}

fn tells_identifier(listed: &[u8], value: &[u8]) -> bool
    ensures { result ≡ identifier_covers listed.now value.now }
{
    listed == value || is_late(preferred_of(listed), preferred_of(value))
}

// The identifier and the version, where the octets are an identifier with a preferred name.
#[tactic(auto, unfolding(crate::specs::Covers::preferred_of))]
fn preferred_of(octets: &[u8]) -> Option<(Oid, u128)>
    ensures exact { Answers (λ name. name) result (preferred_of octets.now) }
{
    match read_identifier(octets) {
        Some(identifier) => preferred(&identifier.name),
        None => None,
    }
}

fn preferred(name: &PackageName) -> Option<(Oid, u128)>
    ensures { result ≡ preferred name.now }
{
    match name {
        PackageName::Preferred { id, version } => Some((*id, *version)),
        PackageName::Legacy(_) => None,
    }
}

// Whether both are there, of one package, and the second in this version or a greater one.
fn is_late(least: Option<(Oid, u128)>, name: Option<(Oid, u128)>) -> bool
    ensures { result ≡ is_late least name }
{
    match (least, name) {
        (Some((id, least)), Some((other, version))) => id == other && least <= version,
        _ => false,
    }
}

/// Whether a listed value of hardware types covers this one: they are equal octet for octet, or
/// both are lists of hardware types and each of this one's is among the listed ones. Takes no
/// memory. With n listed types and m of the value it takes at most n * m comparisons: each type is
/// looked for among the listed ones, up to the first that isn't there.
pub fn targets_cover(listed: &[u8], value: &[u8]) -> bool
    ensures covers { IsTrue result ↔ TargetsCover listed.now value.now }
    ensures exact { result ≡ targets_cover listed.now value.now }
{
    tells_targets(listed, value)
}

fn tells_targets(listed: &[u8], value: &[u8]) -> bool
    ensures { result ≡ targets_cover listed.now value.now }
{
    listed == value || covers_each(listed, value)
}

fn covers_each(listed: &[u8], value: &[u8]) -> bool
    ensures { result ≡ are_among (targets_of listed.now) (targets_of value.now) }
{
    match (read_targets(listed), read_targets(value)) {
        (Some(these), Some(mut those)) => those.all(|target| is_among(&these, &target)),
        _ => false,
    }
}

fn is_among(listed: &Targets<'_>, target: &Oid) -> bool
    ensures { result ≡ list_any (λ one. bytes_eq one target.now) listed.now }
{
    listed.iter().any(|one| one == *target)
}

/// A law: of octets the tests tell what is covered.
pub fn covers_are_told()
    ensures identifiers { (listed value : List ℕ) → AreOctets listed → AreOctets value
        → IsTrue (identifier_covers listed value) ↔ IdentifierCovers listed value }
    ensures targets { (listed value : List ℕ) → AreOctets listed → AreOctets value
        → IsTrue (targets_cover listed value) ↔ TargetsCover listed value }
{}
