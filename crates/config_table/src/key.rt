// A name as the key of a table.
ghost use Rattle.std.specs.Prelude.{◌≡◌};
ghost use Rattle.std.specs.Cmp.{partial_equiv_from_equiv};
ghost use Rattle.std.proofs.lemmas.Cmp.{on_equiv};
ghost use Rattle.config_table.specs.Names.{is_same};
ghost use Rattle.config_table.specs.Keys.{name_hash, is_same-equivalence, is_same-name_hash};

use crate::names::is_same;
use package_attrs::PackageName;
use std::hash::{Hash, Hasher};

// Names of one package are one key, so a preferred name is found by its identifier alone.
#[derive(Clone, Copy, Debug)]
pub(crate) struct Key {
    pub(crate) name: PackageName,
}

impl PartialEq for Key {
    ghost eq = { λ a b. is_same a.name b.name };

    ghost laws = { partial_equiv_from_equiv (on_equiv (λ key. key.name) is_same-equivalence) };

    fn eq(&self, other: &Key) -> bool {
        is_same(&self.name, &other.name)
    }
}

impl Eq for Key {
    ghost laws = { on_equiv (λ key. key.name) is_same-equivalence };
}

impl Hash for Key {
    ghost hash_input = { λ key. name_hash key.name };

    ghost respects_eq = { λ a b. is_same-name_hash a.name b.name };

    fn hash<H: Hasher>(&self, state: &mut H) {
        match &self.name {
            PackageName::Preferred { id, .. } => {
                state.write_u8(0);
                id.octets().hash(state);
            }
            PackageName::Legacy(octets) => {
                state.write_u8(1);
                octets.octets().hash(state);
            }
        }
    }
}
