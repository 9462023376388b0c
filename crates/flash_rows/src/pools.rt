// What no clause says: that blocks are handed out with ample memory.
ghost use Rattle.std.specs.Prelude.{◌≡◌, false, true, replicate, All, IsTrue};
ghost use Rattle.block_pool.specs.Numbers.{IsApart};
ghost use Rattle.block_pool.specs.Pools.{IsLive, marked};

use block_pool::{Pool, PoolFault};
use std::alloc::Global;

// Whether so many blocks are handed out, and are these.
fn takes(pool: &mut Pool, count: u32, numbers: &[u16]) -> bool
    ensures { IsTrue result → pool.new ≡ marked true numbers.now pool.old }
{
    match pool.take(count) {
        Ok(taken) => taken.numbers() == numbers,
        Err(_) => false,
    }
}

// The same of blocks that are kept.
fn keeps(pool: &mut Pool, count: u32, numbers: &[u16]) -> bool {
    match pool.take(count) {
        Ok(taken) => taken.keep().as_slice() == numbers,
        Err(_) => false,
    }
}

// Whether fewer than so many are free.
fn lacks(pool: &mut Pool, count: u32) -> bool
    ensures { IsTrue result → pool.new ≡ pool.old }
{
    match pool.take(count) {
        Err(PoolFault::NoBlocks) => true,
        Err(PoolFault::Memory) => false,
        Ok(_) => false,
    }
}

// Takes three blocks of four, and gives them back.
fn gives_back(pool: &mut Pool) -> bool
    requires { pool.old ≡ replicate 4 false }
{
    match pool.take(3) {
        Ok(first) => {
            let taken = first.numbers() == [0, 1, 2].as_slice() && pool.free() == 1;
            if lacks(pool, 2) {
                pool.give(first);
                taken
            } else {
                false
            }
        }
        Err(_) => false,
    }
}

fn hands_out_the_least(alloc: Global) -> bool {
    match Pool::new(alloc, 4) {
        Ok(mut pool) => gives_back(&mut pool) && keeps(&mut pool, 4, &[0, 1, 2, 3]),
        Err(_) => false,
    }
}

// Whether so many blocks are free once these are retired.
fn frees(pool: &mut Pool, numbers: &[u16], free: u32) -> bool
    requires live { All (IsLive pool.old) numbers.now }
    requires apart { IsApart numbers.now }
{
    pool.retire(numbers);
    pool.free() == free
}

fn is_held(pool: &mut Pool) -> bool
    requires { pool.old ≡ replicate 4 false }
{
    !pool.hold(&[0, 1, 1])
        && !pool.hold(&[4])
        && pool.hold(&[1, 3])
        && pool.live(3)
        && !pool.live(0)
        && takes(pool, 2, &[0, 2])
        && lacks(pool, 1)
        && frees(pool, &[1, 3], 2)
}

fn holds_free_blocks_alone(alloc: Global) -> bool {
    match Pool::new(alloc, 4) {
        Ok(mut pool) => is_held(&mut pool),
        Err(_) => false,
    }
}

#[test]
fn hands_out_and_holds(rt: HostRuntime) {
    assert!(rt; hands_out_the_least(rt.alloc()));
    assert!(rt; holds_free_blocks_alone(rt.alloc()));
}
