// Laws of the definitions, which no call computes.
ghost use Rattle.std.specs.Prelude.{◌≡◌, ◌↔◌, ℕ, List, ◌∷◌, Some, length, slice_get};
ghost use Rattle.cert_fields.specs.Certificate.{Certificate};
ghost use Rattle.cert_fields.specs.Anchor.{TrustAnchor};
ghost use Rattle.cert_fields.specs.Sid.{SignerIdentifier};
ghost use Rattle.path_check.specs.Conditions.{members_at};
ghost use Rattle.path_check.specs.First.{HasNone, IsFirst};
ghost use Rattle.path_check.specs.Paths.{PathPlaces, PathOf, LeadsTo, IsAboveAt, IsAnchorAboveAt};
ghost use Rattle.path_check.specs.Places.{Rises};

/// A law: a signer has one path at most.
pub fn one_path()
    ensures { (name : SignerIdentifier) (certificates : List Certificate) (anchors : List TrustAnchor)
        (one other : PathPlaces) → PathOf name certificates anchors one
        → PathOf name certificates anchors other → one ≡ other }
{}

/// A law: members lead up exactly where each two that stand one behind the other do, and the anchor
/// is the first above the last of them.
pub fn paths_by_places()
    ensures { (certificates : List Certificate) (anchors : List TrustAnchor) (first anchor : ℕ)
        (more : List ℕ) → LeadsTo certificates anchors first more anchor
        ↔ Rises certificates anchors (first ∷ more) anchor }
{}

/// A law: from a certificate that is itself the first above it, with no anchor above it, nothing
/// leads up.
pub fn no_way_from_its_own_issuer()
    ensures { (certificates : List Certificate) (anchors : List TrustAnchor) (place anchor : ℕ)
        (more : List ℕ) → HasNone (IsAnchorAboveAt certificates place) anchors
        → IsFirst (IsAboveAt certificates place) certificates place
        → LeadsTo certificates anchors place more anchor → ⊥ }
{}

/// A law: a path has as many members as it has places (`count`), and each member is the certificate at
/// the place that stands as far along (`place`).
pub fn members_stand_at_their_places()
    ensures count { (name : SignerIdentifier) (certificates : List Certificate)
        (anchors : List TrustAnchor) (path : PathPlaces) → PathOf name certificates anchors path
        → length (members_at certificates path.members) ≡ length path.members }
    ensures place { (name : SignerIdentifier) (certificates : List Certificate)
        (anchors : List TrustAnchor) (path : PathPlaces) (i place : ℕ)
        → PathOf name certificates anchors path → slice_get path.members i ≡ Some place
        → slice_get (members_at certificates path.members) i ≡ slice_get certificates place }
{}
