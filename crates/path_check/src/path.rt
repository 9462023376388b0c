// A path.
use std::marker::Model;

/// A path: the places of its members among the certificates, the signer's first and the one below
/// the anchor last, and the place of the anchor among the anchors. Where the signer is an anchor
/// itself there are no members.
#[derive(Drop)]
pub struct Path {
    pub members: Vec<usize>,
    pub anchor: usize,
}

impl Model for Path {
    ghost use Rattle.path_check.specs.Paths.{PathPlaces};

    ghost Value = { PathPlaces };

    ghost view = { λ p. record { members = p.members.items; anchor = p.anchor } };
}
