// The flags of a pool's blocks: which numbers are free, and marking them.
ghost use Rattle.std.specs.Prelude.{◌≡◌, ◌↔◌, ◌≤◌, ◌<◌, true, false, length, take, All, IfOk};
ghost use Rattle.std.specs.Prelude.{IsTrue, if◌then◌else◌};
ghost use Rattle.block_pool.specs.Numbers.{IsApart};
ghost use Rattle.block_pool.specs.Pools.{IsFree, free_numbers, marked};

use std::alloc::{AllocError, Global};

// The block is one of the pool's, and not live.
fn is_free(live: &[bool], block: u16) -> bool
    ensures { IsTrue result ↔ IsFree live.now block }
{
    match live.get(usize::from(block)) {
        Some(live) => !*live,
        None => false,
    }
}

// How many blocks are free.
pub(crate) fn count_free(live: &[bool]) -> u32
    requires { length live.now ≤ 8192 }
    ensures { result ≡ length (free_numbers live.now) }
{
    let mut count = 0;
    for held in live {
        if !*held {
            count += 1;
        }
    }
    count
}

// The n least free numbers, or all where there are fewer.
pub(crate) fn least_free(alloc: Global, live: &[bool], n: u32) -> Result<Vec<u16>, AllocError>
    requires { length live.now ≤ 8192 }
    ensures { IfOk result (λ numbers. numbers.items ≡ take n (free_numbers live.now)) }
{
    let mut numbers = Vec::with_capacity(alloc, n as usize)?;
    for block in 0..live.len() {
        if numbers.len() >= n as usize {
            return Ok(numbers);
        }
        if is_free(live, block as u16) {
            numbers.push(block as u16)?;
        }
    }
    Ok(numbers)
}

// Sets the flags of these blocks.
pub(crate) fn mark(live: &mut Vec<bool>, numbers: &[u16], flag: bool)
    requires { All (λ n. n < length live.old.items) numbers.now }
    ensures marked { live.new.items ≡ marked flag numbers.now live.old.items }
    ensures size { length live.new.items ≡ length live.old.items }
{
    for number in numbers {
        live[usize::from(*number)] = flag;
    }
}

// Makes these blocks live, where each is free and none stands twice; else changes nothing. It marks
// as it goes, and takes the marks back at the first number that isn't free.
pub(crate) fn mark_free(live: &mut Vec<bool>, numbers: &[u16]) -> bool
    ensures held { IsTrue result ↔ (All (IsFree live.old.items) numbers.now × IsApart numbers.now) }
    ensures after { live.new.items
        ≡ (if result then marked true numbers.now live.old.items else live.old.items) }
    ensures size { length live.new.items ≡ length live.old.items }
{
    for i in 0..numbers.len() {
        if !is_free(live, numbers[i]) {
            mark(live, &numbers[..i], false);
            return false;
        }
        live[usize::from(numbers[i])] = true;
    }
    true
}
