// Blocks that a pool handed out.
ghost use Rattle.std.specs.Prelude.{◌≡◌};
ghost use Rattle.block_pool.specs.Numbers.{IsApart};

use std::marker::Model;

/// Blocks that a pool handed out, seen as their numbers, of which none stands twice. They can't be
/// copied, so no block is handed on twice.
#[derive(Drop)]
pub struct Blocks {
    numbers: Vec<u16>,
}

impl Model for Blocks {
    ghost use Rattle.std.specs.Prelude.{ℕ, List};
    ghost use Rattle.block_pool.specs.Numbers.{IsApart};

    ghost Value = { List ℕ };

    ghost view = { λ blocks. blocks.numbers.items };

    ghost invariant = { λ blocks. IsApart blocks.numbers.items };
}

impl Blocks {
    // The blocks of these numbers.
    pub(crate) fn new(numbers: Vec<u16>) -> Blocks
        requires { IsApart numbers.items }
        ensures { result ≡ numbers.items }
    {
        Blocks { numbers }
    }

    /// Their numbers, in the order in which they were handed out.
    pub fn numbers(&self) -> &[u16]
        ensures numbers { result.now ≡ self.now }
        ensures apart { IsApart self.now }
    {
        &self.numbers
    }

    /// Their numbers. The blocks stay live until they are retired.
    pub fn keep(self) -> Vec<u16>
        ensures numbers { result.items ≡ self }
        ensures apart { IsApart self }
    {
        let Blocks { numbers } = self;
        numbers
    }
}
