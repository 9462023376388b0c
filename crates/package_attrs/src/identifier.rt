// What a package is called, and which packages it makes stale.
ghost use Rattle.std.specs.Prelude.{IsTrue};
ghost use Rattle.package_attrs.specs.Kinds.{kinds_match};

use crate::{PackageName, Stale};

/// A package's name, and which packages of that name it makes stale (RFC 4108, section 2.2.3).
#[derive(Clone, Copy, Debug)]
pub struct Identifier {
    pub name: PackageName,
    pub stale: Option<Stale>,

    // the stale value is of the name's kind
    pub ghost alike: { IsTrue (kinds_match name stale) },
}
