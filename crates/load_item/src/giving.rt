// The blocks of an item that isn't accepted.
ghost use Rattle.std.specs.Prelude.{◌≡◌, List, Bool};
ghost use Rattle.load_item.specs.Answers.{GivesBack};

use block_pool::{Pool, free_blocks_are_apart, giving_undoes_taking, marks_are_exact};
use content_stream::Streamed;

// Gives the blocks of a content back, where there are any, so that the pool is as it was before it.
pub(crate) fn give_back(pool: &mut Pool, streamed: Option<Streamed>)
    requires taken { (before : List Bool) × GivesBack before pool.old streamed }
    ensures pool { (before : List Bool) → GivesBack before pool.old streamed → pool.new ≡ before }
{
    free_blocks_are_apart();
    giving_undoes_taking();
    marks_are_exact();
    if let Some(streamed) = streamed {
        let Streamed { blocks, .. } = streamed;
        if let Some(blocks) = blocks {
            pool.give(blocks);
        }
    }
}
