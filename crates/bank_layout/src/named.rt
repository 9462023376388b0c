// The blocks that a state names.
ghost use Rattle.std.specs.Prelude.{◌≡◌, ◌↔◌, ◌≤◌, ◌*◌, length, IfOk, IfSome, IsSome};
ghost use Rattle.block_pool.specs.Pools.{LiveExactly};
ghost use Rattle.bank_layout.specs.Manifest.{AreOwnBlocks, named_blocks};

use block_pool::Pool;
use config_table::State;
use std::alloc::{AllocError, Global};

/// The pool of the image blocks of a module of this capacity, of which exactly those that the state
/// names are live. None exactly where one of them is none of the module's, stands twice, or they are
/// more than the capacity.
pub fn pool_of(alloc: Global, state: &State, capacity: u32) -> Result<Option<Pool>, AllocError>
    requires least { 1 ≤ capacity }
    requires most { capacity ≤ 4096 }
    ensures found { IfOk result (λ found.
        IsSome found ↔ AreOwnBlocks capacity (named_blocks state.now)) }
    ensures live { IfOk result (λ found. IfSome found (λ pool.
        LiveExactly pool (named_blocks state.now))) }
    ensures size { IfOk result (λ found. IfSome found (λ pool. length pool ≡ 2 * capacity)) }
{
    let mut pool = Pool::new(alloc, 2 * capacity)?;
    let mut left = capacity as usize;
    for place in 0..state.packages() {
        let Some(installed) = state.package(place) else {
            unreachable!();
        };
        let numbers = installed.blocks.as_slice();
        if numbers.len() > left {
            return Ok(None);
        }
        if !pool.hold(numbers) {
            return Ok(None);
        }
        left -= numbers.len();
    }
    Ok(Some(pool))
}
