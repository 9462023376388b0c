ghost use Rattle.std.specs.Prelude.{◌≤◌};
ghost use Rattle.lms_verify.specs.Kinds.{height};

use lms_verify::{LmsKind, OtsKind};

/// A signing key of one level, whose secrets all follow from SEED (RFC 8554, Appendix A). It isn't
/// copied, and nothing prints it.
#[derive(Drop, PartialEq, Eq)]
pub struct SignKey {
    /// The secret SEED.
    pub seed: [u8; 32],
    /// The identifier I of the key pair.
    pub id: [u8; 16],
    /// The kind of the tree: H5 or H10.
    pub kind: LmsKind,
    pub ots: OtsKind,

    // the tree has 32 or 1,024 leaves
    pub ghost low: { height kind ≤ 10 },
}
