// The blocks of a stream.
ghost use Rattle.std.specs.Prelude.{◌≡◌, [], unwrap_or, IfOk, OnErr};
ghost use Rattle.block_pool.specs.Numbers.{IsApart};
ghost use Rattle.content_stream.specs.Plans.{TakesBlocks};

use block_pool::{Blocks, Pool, PoolFault};
use std::alloc::AllocError;

// The n least free blocks, where there are as many.
pub(crate) fn take_blocks(pool: &mut Pool, n: u32) -> Result<Option<Blocks>, AllocError>
    ensures blocks { IfOk result (λ blocks. TakesBlocks n pool.old pool.new blocks) }
    ensures apart { IfOk result (λ blocks. IsApart (unwrap_or blocks [])) }
    ensures err { OnErr result (pool.new ≡ pool.old) }
{
    match pool.take(n) {
        Ok(blocks) => {
            // its contract says that no number stands twice
            let _numbers = blocks.numbers();
            Ok(Some(blocks))
        }
        Err(PoolFault::NoBlocks) => Ok(None),
        Err(PoolFault::Memory) => Err(AllocError),
    }
}
