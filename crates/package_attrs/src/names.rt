// A list of names.
ghost use Rattle.std.specs.Prelude.{◌≡◌};

use crate::PackageName;
use std::alloc::AllocError;
use std::marker::Model;

/// Names in an order, in which one may stand more than once.
#[derive(Debug, Drop)]
pub struct Names {
    names: Vec<PackageName>,
}

impl Model for Names {
    ghost use Rattle.std.specs.Prelude.{List};
    ghost use Rattle.package_attrs.specs.declared.name.PackageName.{PackageName};

    ghost Value = { List PackageName };

    ghost view = { λ a. a.names.items };
}

impl Names {
    /// The names of the vector. Takes no memory.
    pub fn new(names: Vec<PackageName>) -> Names
        ensures names { result ≡ names.items }
    {
        Names { names }
    }

    pub fn as_slice(&self) -> &[PackageName]
        ensures names { result.now ≡ self.now }
    {
        &self.names
    }

    /// The vector of the names. Takes no memory.
    pub fn into_vec(self) -> Vec<PackageName>
        ensures names { result.items ≡ self }
    {
        self.names
    }
}

impl Clone for Names {
    ghost is_clone = { λ a b. b ≡ a };

    fn clone(&self) -> Result<Names, AllocError> {
        Ok(Names {
            names: self.names.clone()?,
        })
    }
}
