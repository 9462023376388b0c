// A list of blocks.
ghost use Rattle.std.specs.Prelude.{◌≡◌};

use std::alloc::AllocError;
use std::marker::Model;

/// The numbers of the blocks of flash that hold an image, in the image's order.
#[derive(Debug, Drop)]
pub struct BlockNumbers {
    numbers: Vec<u16>,
}

impl Model for BlockNumbers {
    ghost use Rattle.std.specs.Prelude.{List, ℕ};

    ghost Value = { List ℕ };

    ghost view = { λ a. a.numbers.items };
}

impl BlockNumbers {
    /// The numbers of the vector. Takes no memory.
    pub fn new(numbers: Vec<u16>) -> BlockNumbers
        ensures numbers { result ≡ numbers.items }
    {
        BlockNumbers { numbers }
    }

    pub fn as_slice(&self) -> &[u16]
        ensures numbers { result.now ≡ self.now }
    {
        &self.numbers
    }

    /// The vector of the numbers. Takes no memory.
    pub fn into_vec(self) -> Vec<u16>
        ensures numbers { result.items ≡ self }
    {
        self.numbers
    }
}

impl Clone for BlockNumbers {
    ghost is_clone = { λ a b. b ≡ a };

    fn clone(&self) -> Result<BlockNumbers, AllocError> {
        Ok(BlockNumbers {
            numbers: self.numbers.clone()?,
        })
    }
}
