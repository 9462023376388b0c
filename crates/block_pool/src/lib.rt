//! The pool of a module's image blocks: which of them are live, and which may be handed out.
//!
//! The blocks are numbered from 0. A block is live while an image stands in it, or is about to; each
//! other one is free. The pool and its numbers are this project's own. A pool is seen as the list
//! that says of each number whether its block is live, so that "as before" is an equation.
//!
//! - `Pool::take` hands out the least free numbers, ascending (`ok`), which are live from then on
//!   (`after`). `NoBlocks` comes exactly where fewer are free (`none`), and an Err leaves the pool
//!   as it was (`err`).
//! - `Pool::give` and `Pool::retire` free blocks (`after`). `Pool::hold` makes free ones live, and
//!   refuses exactly where a number is none of the pool's, is live or stands twice (`held`, `after`).
//! - `Pool::live` and `Pool::free` tell which blocks are live, and how many aren't (`live`, `count`).
//! - `Blocks` holds numbers of which none stands twice (`apart`). It is neither copied nor cloned.
//! - Laws over pools: what is handed out was free (`free_blocks_are_apart`); a mark changes its own
//!   blocks alone (`marks_are_exact`); to give undoes to take (`giving_undoes_taking`); which blocks
//!   are live after a take and after a retirement (`taken_blocks_are_live_too`,
//!   `retired_blocks_leave_the_others`); where the live blocks are few, the others can be taken
//!   (`few_live_leave_room`, `half_of_the_blocks_are_free`).
//!
//! It stands on std alone. The stream of a content and the store of a module stand above it.
//!
//! A block that is dropped with its `Blocks` stays live. Each call takes a time linear in the size
//! of the pool and in the numbers that it is given, which no clause says.
#![tactic(auto)]

mod blocks;
mod laws;
mod marks;
mod pool;

pub use blocks::Blocks;
pub use laws::{
    few_live_leave_room, free_blocks_are_apart, giving_undoes_taking, half_of_the_blocks_are_free,
    marks_are_exact, retired_blocks_leave_the_others, taken_blocks_are_live_too,
};
pub use pool::{Pool, PoolFault};
