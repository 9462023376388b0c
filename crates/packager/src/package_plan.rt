// What a firmware package is to say.

use attribute_write::NamedCommunity;
use der_core::{Octets64, Oid};
use package_attrs::{Identifier, PackageName};

/// What a signed firmware package is to say (RFC 4108, sections 2.1 and 2.2; RFC 5652, section 5).
/// What is none, or an empty list, isn't written.
#[derive(Drop)]
pub struct PackagePlan {
    /// The package's name, and which packages of that name it makes stale.
    pub identifier: Identifier,
    /// The hardware types that it is for, 1 to 64.
    pub targets: Vec<Oid>,
    /// The communities that it is for, at most 64.
    pub communities: Vec<NamedCommunity>,
    /// The package's type.
    pub kind: Option<u128>,
    /// The packages that it needs, at most 8.
    pub dependencies: Vec<PackageName>,
    /// Certificates, each a whole element, at most 8. They are written in this order.
    pub certificates: Vec<Vec<u8>>,
    /// The key identifier of the signer, 1 to 64 octets.
    pub signer: Octets64,
    /// Whether the content is an OCTET STRING around the image, or the image itself.
    pub wrap: bool,
    /// The image, 1 to 16,777,216 octets.
    pub image: Vec<u8>,
}
