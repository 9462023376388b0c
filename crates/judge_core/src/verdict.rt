// Verdicts.

use der_core::{Condition, Octets64};
use package_attrs::{Package, PackageName};

/// The verdict on a whole item.
#[derive(Drop)]
pub enum Verdict<'a> {
    /// All conditions hold.
    Accept {
        package: Package<'a>,
        /// The value octets of eContent (RFC 5652, section 5.2).
        content: &'a [u8],
        /// The image in the content (RFC 4108, section 2.1.5).
        image: &'a [u8],
        /// The key identifier of the anchor that the path ends at.
        anchor_key_id: Octets64,
    },
    /// The first condition that fails, and from condition 20 on the package's name.
    Refuse(Condition, Option<PackageName>),
}

/// A content that isn't kept: where it stands in its item, and what is known of it.
#[derive(Clone, Copy, Debug)]
pub struct Cut {
    /// How many octets of the item stand before it.
    pub place: usize,
    /// How many octets it has.
    pub length: u32,
    /// Its SHA-256.
    pub digest: [u8; 32],
    /// How many octets the image in it has (RFC 4108, section 2.1.5).
    pub image: u32,
}

/// The verdict on an item without its content.
#[derive(Drop)]
pub enum CutVerdict<'a> {
    /// All conditions hold.
    Accept {
        package: Package<'a>,
        /// The key identifier of the anchor that the path ends at.
        anchor_key_id: Octets64,
    },
    /// The first condition that fails, and from condition 20 on the package's name.
    Refuse(Condition, Option<PackageName>),
}
