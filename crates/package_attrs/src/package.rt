// What a package's signed attributes say.

use crate::{Communities, Dependencies, Identifier, Targets};
use der_core::Oid;

/// A package's type and its dependencies (RFC 4108, section 2.2.9).
#[derive(Drop)]
pub struct Info<'a> {
    pub kind: Option<u128>,
    /// The packages that must be installed, each in its version or a greater one. At most 8.
    pub dependencies: Dependencies<'a>,
}

/// What the signed attributes of a firmware package say (RFC 4108, section 2.2). Its lists
/// stay in place in the attributes, so it takes no memory.
#[derive(Drop)]
pub struct Package<'a> {
    /// The type of the content that is signed (RFC 5652, section 11.1).
    pub content: Oid,
    /// The digest of that content (RFC 5652, section 11.2).
    pub digest: [u8; 32],
    pub identifier: Identifier,
    /// The hardware types that the package is for (RFC 4108, section 2.2.4).
    pub targets: Targets<'a>,
    /// The communities that the package is for. Without any every module is in them.
    pub communities: Option<Communities<'a>>,
    /// The package's type and its dependencies; neither where the attribute isn't there.
    pub info: Info<'a>,
}
