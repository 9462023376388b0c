// The pool of blocks.
ghost use Rattle.std.specs.Prelude.{◌≡◌, ◌↔◌, ◌≤◌, ◌<◌, false, true, length, take, replicate};
ghost use Rattle.std.specs.Prelude.{All, IfOk, OnErr, IsErrOf, IsTrue, if◌then◌else◌};
ghost use Rattle.block_pool.specs.Numbers.{IsApart};
ghost use Rattle.block_pool.specs.Pools.{IsLive, IsFree, free_numbers, marked};

use crate::Blocks;
use crate::marks::{count_free, least_free, mark, mark_free};
use std::alloc::{AllocError, Global};
use std::marker::Model;

/// Why no blocks were handed out.
#[derive(Clone, Copy, Debug, PartialEq, Eq)]
pub enum PoolFault {
    /// Fewer blocks are free than were asked for.
    NoBlocks,
    Memory,
}

impl From<AllocError> for PoolFault {
    ghost use Rattle.block_pool.specs.declared.pool.PoolFault.TheVariants.{Memory};

    ghost from_gives = { λ _ fault. fault ≡ Memory };

    fn from(_: AllocError) -> PoolFault {
        PoolFault::Memory
    }
}

/// The image blocks of a flash, each free or live, seen as the list that says which are live.
#[derive(Drop)]
pub struct Pool {
    live: Vec<bool>,
}

impl Model for Pool {
    ghost use Rattle.std.specs.Prelude.{List, Bool, length, ◌≤◌};

    ghost Value = { List Bool };

    ghost view = { λ pool. pool.live.items };

    ghost invariant = { λ pool. length pool.live.items ≤ 8192 };
}

impl Pool {
    /// A pool of 1 to 8,192 blocks, all of them free.
    pub fn new(alloc: Global, blocks: u32) -> Result<Pool, AllocError>
        requires least { 1 ≤ blocks }
        requires most { blocks ≤ 8192 }
        ensures ok { IfOk result (λ pool. pool ≡ replicate blocks false) }
    {
        let live = vec![in alloc; false; blocks as usize]?;
        Ok(Pool { live })
    }

    /// The n least free blocks, ascending, which are live from then on.
    pub fn take(&mut self, n: u32) -> Result<Blocks, PoolFault>
        ensures ok { IfOk result (λ blocks. blocks ≡ take n (free_numbers self.old)) }
        ensures after { IfOk result (λ blocks. self.new ≡ marked true blocks self.old) }
        ensures none { IsErrOf result PoolFault.NoBlocks ↔ (length (free_numbers self.old) < n) }
        ensures err { OnErr result (self.new ≡ self.old) }
    {
        if count_free(&self.live) < n {
            return Err(PoolFault::NoBlocks);
        }
        let numbers = least_free(*self.live.allocator(), &self.live, n)?;
        mark(&mut self.live, &numbers, true);
        Ok(Blocks::new(numbers))
    }

    /// Frees blocks that this pool handed out.
    pub fn give(&mut self, blocks: Blocks)
        requires live { All (IsLive self.old) blocks }
        ensures after { self.new ≡ marked false blocks self.old }
    {
        mark(&mut self.live, blocks.numbers(), false);
    }

    /// Makes free blocks live. False exactly where a number isn't below the pool's size, is live or
    /// stands twice; then nothing changes.
    pub fn hold(&mut self, numbers: &[u16]) -> bool
        ensures held { IsTrue result ↔ (All (IsFree self.old) numbers.now × IsApart numbers.now) }
        ensures after { self.new ≡ (if result then marked true numbers.now self.old else self.old) }
    {
        mark_free(&mut self.live, numbers)
    }

    /// Frees live blocks.
    pub fn retire(&mut self, numbers: &[u16])
        requires live { All (IsLive self.old) numbers.now }
        requires apart { IsApart numbers.now }
        ensures after { self.new ≡ marked false numbers.now self.old }
    {
        mark(&mut self.live, numbers, false);
    }

    /// Whether the block of this number is live. One that isn't below the pool's size isn't.
    pub fn live(&self, block: u16) -> bool
        ensures live { IsTrue result ↔ IsLive self.now block }
    {
        match self.live.get(usize::from(block)) {
            Some(live) => *live,
            None => false,
        }
    }

    /// How many blocks are free.
    pub fn free(&self) -> u32
        ensures count { result ≡ length (free_numbers self.now) }
        ensures most { length self.now ≤ 8192 }
    {
        count_free(&self.live)
    }
}
