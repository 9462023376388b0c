// Two package names beside one another.
ghost use Rattle.std.specs.Prelude.{◌≡◌};
ghost use Rattle.config_table.specs.Names.{is_same, is_at_least};

use package_attrs::PackageName;

/// Whether two names are of one package: the same identifier, in whatever version, or the same
/// legacy name.
pub fn is_same(one: &PackageName, other: &PackageName) -> bool
    ensures same { result ≡ is_same one.now other.now }
{
    match (one, other) {
        (PackageName::Preferred { id, .. }, PackageName::Preferred { id: other, .. }) => {
            *id == *other
        }
        (PackageName::Legacy(octets), PackageName::Legacy(other)) => *octets == *other,
        (PackageName::Preferred { .. }, PackageName::Legacy(_)) => false,
        (PackageName::Legacy(_), PackageName::Preferred { .. }) => false,
    }
}

/// Whether the first name has the second's identifier and at least its version, or is that very
/// legacy name.
pub fn is_at_least(one: &PackageName, other: &PackageName) -> bool
    ensures at_least { result ≡ is_at_least one.now other.now }
{
    match (one, other) {
        (
            PackageName::Preferred { id, version },
            PackageName::Preferred {
                id: other,
                version: least,
            },
        ) => *id == *other && *least <= *version,
        (PackageName::Legacy(octets), PackageName::Legacy(other)) => *octets == *other,
        (PackageName::Preferred { .. }, PackageName::Legacy(_)) => false,
        (PackageName::Legacy(_), PackageName::Preferred { .. }) => false,
    }
}
