// What is stale.
ghost use Rattle.std.specs.Prelude.{◌≡◌};
ghost use Rattle.config_table.specs.State.{made_stale, last_stale, greater, stale_number};

use der_core::{Octets64, Oid};
use package_attrs::{PackageName, Stale};

/// What a module takes for stale (RFC 4108, section 2.2.3).
#[derive(Clone, Copy, Debug)]
pub enum StaleEntry {
    /// Each version of the identifier up to this one, itself included.
    Preferred { id: Oid, upto: u128 },
    /// This legacy name.
    Legacy(Octets64),
}

impl StaleEntry {
    /// The entry that a stale value makes beside a name, if it is of the name's kind.
    pub fn made(name: &PackageName, stale: &Stale) -> Option<StaleEntry>
        ensures made { result ≡ made_stale name.now stale.now }
    {
        match (name, stale) {
            (PackageName::Preferred { id, .. }, Stale::Upto(upto)) => Some(StaleEntry::Preferred {
                id: *id,
                upto: *upto,
            }),
            (PackageName::Legacy(_), Stale::Legacy(octets)) => Some(StaleEntry::Legacy(*octets)),
            (PackageName::Preferred { .. }, Stale::Legacy(_)) => None,
            (PackageName::Legacy(_), Stale::Upto(_)) => None,
        }
    }

    /// The last name that the entry makes stale.
    pub fn last(&self) -> PackageName
        ensures last { result ≡ last_stale self.now }
    {
        match self {
            StaleEntry::Preferred { id, upto } => PackageName::Preferred {
                id: *id,
                version: *upto,
            },
            StaleEntry::Legacy(octets) => PackageName::Legacy(*octets),
        }
    }

    // The entry with the greater of the two numbers.
    pub(crate) fn greater(&self, new: &StaleEntry) -> StaleEntry
        ensures greater { result ≡ greater self.now new.now }
    {
        match (self, new) {
            (StaleEntry::Preferred { id, upto }, StaleEntry::Preferred { upto: newest, .. }) => {
                StaleEntry::Preferred {
                    id: *id,
                    upto: (*upto).max(*newest),
                }
            }
            (StaleEntry::Preferred { .. }, StaleEntry::Legacy(_)) => *self,
            (StaleEntry::Legacy(_), _) => *self,
        }
    }

    // The greatest version that is stale, or 0 at a legacy name.
    pub(crate) fn number(&self) -> u128
        ensures number { result ≡ stale_number self.now }
    {
        match self {
            StaleEntry::Preferred { upto, .. } => *upto,
            StaleEntry::Legacy(_) => 0,
        }
    }
}
