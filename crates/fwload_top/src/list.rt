// The command `list`.
ghost use Rattle.edge_board.specs.Supply.{Supply};
ghost use Rattle.module_store.specs.Store.{HasBlocks, IsStore, IsStoreOf};
ghost use Rattle.fwload_top.specs.Seen.{seen};
ghost use Rattle.fwload_top.specs.AnswersOnce.{AnswersOnce};
ghost use Rattle.fwload_top.specs.List.{list};

use crate::Status;
use crate::reply::send_answer;
use bank_layout::images_have_their_lengths;
use edge_board::Board;
use key_state::spent;
use lms_sign::leaf_count;
use module_store::{Store, open};
use report_text::put_list;
use std::alloc::Global;

// Answers the lines of the module that holds the board. The source has no part in it.
pub(crate) fn list<B: Board>(alloc: Global, board: &mut B) -> Status
    ensures runs { (source : Supply) → AnswersOnce list (seen B.tells_cells B.tells_moments result
        source source (B.view board.old) (B.view board.new)) }
{
    match open(alloc, board) {
        Ok(store) => list_store(alloc, board, &store),
        Err(fault) => Status::from(fault),
    }
}

// The same for the store that the board holds.
fn list_store<B: Board>(alloc: Global, board: &mut B, store: &Store) -> Status
    requires holds { B.tells_cells → IsStoreOf store.now (B.view board.old).cells }
    requires valid { IsStore store.now }
    requires blocks { HasBlocks store.now (B.view board.old).blocks }
    ensures runs { (source : Supply) → AnswersOnce list (seen B.tells_cells B.tells_moments result
        source source (B.view board.old) (B.view board.new)) }
{
    images_have_their_lengths();
    let owner = &store.module;
    let Ok(count) = spent(board, leaf_count(&owner.key)) else {
        return Status::DeviceFault;
    };
    let mut lines = Vec::new(alloc);
    match put_list(
        alloc,
        &mut lines,
        owner,
        store.sequence,
        count,
        &store.state,
    ) {
        Ok(()) => send_answer(board, &lines, Status::Done),
        Err(_) => Status::NoMemory,
    }
}
