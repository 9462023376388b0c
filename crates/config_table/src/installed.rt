// An installed package.
ghost use Rattle.std.specs.Prelude.{◌≡◌};

use crate::BlockNumbers;
use package_attrs::{Names, PackageName};
use std::alloc::AllocError;

/// An installed package.
#[derive(Debug, Drop)]
pub struct Installed {
    pub name: PackageName,
    /// SHA-256 of the image.
    pub digest: [u8; 32],
    /// The image's length in octets.
    pub length: u32,
    /// The blocks that hold the image.
    pub blocks: BlockNumbers,
    /// The package's type (RFC 4108, section 2.2.9), if it has one.
    pub kind: Option<u128>,
    /// The dependencies that the package was accepted with.
    pub needs: Names,
}

impl Clone for Installed {
    ghost is_clone = { λ a b. b ≡ a };

    fn clone(&self) -> Result<Installed, AllocError> {
        Ok(Installed {
            name: self.name,
            digest: self.digest,
            length: self.length,
            blocks: self.blocks.clone()?,
            kind: self.kind,
            needs: self.needs.clone()?,
        })
    }
}
