// The lists of a module.
ghost use Rattle.std.specs.Prelude.{◌≡◌};

use cert_fields::Anchor;
use der_core::Oid;
use std::marker::Model;

/// Object identifiers, seen as their list.
#[derive(Debug, Drop)]
pub struct Oids {
    oids: Vec<Oid>,
}

impl Model for Oids {
    ghost use Rattle.std.specs.Prelude.{List, ℕ};

    ghost Value = { List (List ℕ) };

    ghost view = { λ a. a.oids.items };
}

impl Oids {
    /// The identifiers of the vector. Takes no memory.
    pub fn new(oids: Vec<Oid>) -> Oids
        ensures oids { result ≡ oids.items }
    {
        Oids { oids }
    }

    pub fn as_slice(&self) -> &[Oid]
        ensures oids { result.now ≡ self.now }
    {
        &self.oids
    }

    /// The vector of the identifiers. Takes no memory.
    pub fn into_vec(self) -> Vec<Oid>
        ensures oids { result.items ≡ self }
    {
        self.oids
    }
}

/// Package types (RFC 4108, section 2.2.9), seen as their list.
#[derive(Debug, Drop)]
pub struct Kinds {
    kinds: Vec<u128>,
}

impl Model for Kinds {
    ghost use Rattle.std.specs.Prelude.{List, ℕ};

    ghost Value = { List ℕ };

    ghost view = { λ a. a.kinds.items };
}

impl Kinds {
    /// The types of the vector. Takes no memory.
    pub fn new(kinds: Vec<u128>) -> Kinds
        ensures kinds { result ≡ kinds.items }
    {
        Kinds { kinds }
    }

    pub fn as_slice(&self) -> &[u128]
        ensures kinds { result.now ≡ self.now }
    {
        &self.kinds
    }

    /// The vector of the types. Takes no memory.
    pub fn into_vec(self) -> Vec<u128>
        ensures kinds { result.items ≡ self }
    {
        self.kinds
    }
}

/// Trust anchors, seen as their list.
#[derive(Debug, Drop)]
pub struct Anchors {
    anchors: Vec<Anchor>,
}

impl Model for Anchors {
    ghost use Rattle.std.specs.Prelude.{List};
    ghost use Rattle.cert_fields.specs.Anchor.{TrustAnchor};

    ghost Value = { List TrustAnchor };

    ghost view = { λ a. a.anchors.items };
}

impl Anchors {
    /// The anchors of the vector. Takes no memory.
    pub fn new(anchors: Vec<Anchor>) -> Anchors
        ensures anchors { result ≡ anchors.items }
    {
        Anchors { anchors }
    }

    pub fn as_slice(&self) -> &[Anchor]
        ensures anchors { result.now ≡ self.now }
    {
        &self.anchors
    }

    /// The vector of the anchors. Takes no memory.
    pub fn into_vec(self) -> Vec<Anchor>
        ensures anchors { result.items ≡ self }
    {
        self.anchors
    }
}
