// A refused item: its error, with a leaf and without one.
ghost use Rattle.std.specs.Prelude.{◌≡◌, ◌≤◌, ◌<◌, ℕ, List, IsErrOf, OnOk, length};
ghost use Rattle.std.specs.Option.{option_copied};
ghost use Rattle.edge_board.specs.Board.{IsSettled};
ghost use Rattle.bank_layout.specs.Recovery.{standing_of};
ghost use Rattle.judge_core.specs.Verdicts.Verdict.{refuses};
ghost use Rattle.module_store.specs.Store.{HasBlocks, IsStoreOf, manifest_of};
ghost use Rattle.receipt_writer.specs.Answers.{IsNamed};
ghost use Rattle.load_claims.specs.Items.{JudgesAt};
ghost use Rattle.item_answer.specs.Answers.{AnswersItem, EndsAnswer};

use crate::ItemFault;
use crate::making::{early_error, late_error};
use crate::replying::{end_of, reply, reply_plainly};
use bank_layout::rows_stand_apart;
use der_core::Condition;
use edge_board::Board;
use key_state::first_unspent_is_in_the_row;
use lms_sign::KeyTree;
use load_claims::items_follow_each_other;
use module_store::Store;
use package_attrs::PackageName;
use receipt_writer::errors_see_no_image;
use std::alloc::Global;

/// Refuses an item that fails a condition from 30 on: spends the next leaf, where one is left, and sends
/// the error (RFC 4108, section 4), signed or plain. An error has a name from condition 20 on. All memory is
/// taken before the flash is touched.
pub fn refuse_with_leaf<B: Board>(
    alloc: Global,
    store: &Store,
    tree: &mut KeyTree,
    board: &mut B,
    failing: Condition,
    name: Option<&PackageName>,
) -> Result<(), ItemFault>
    requires tree { tree.old ≡ store.now.module.key }
    requires late { 30 ≤ failing }
    requires few { length store.now.state.packages ≤ 64 }
    requires named { IsNamed failing (option_copied name) }
    requires blocks { HasBlocks store.now (B.view board.old).blocks }
    requires settled { B.tells_cells → IsSettled (B.view board.old) }
    requires holds { B.tells_cells → IsStoreOf store.now (B.view board.old).cells }

    // The item is answered, and what a power cut leaves is a part of its run.
    ensures item { B.tells_cells → (at : ℕ) (item : List ℕ) → JudgesAt store.now.module at
        (standing_of store.now.module (manifest_of store.now) (B.view board.old).cells) item
        (refuses failing (option_copied name.entry))
        → AnswersItem B.tells_moments store.now.module at
        (standing_of store.now.module (manifest_of store.now) (B.view board.old).cells) item
        (refuses failing (option_copied name.entry)) (B.view board.old) (B.view board.new) result }

    // The store is still that of the board.
    ensures holds { B.tells_cells → OnOk result (IsStoreOf store.now (B.view board.new).cells) }

    ensures memory { IsErrOf result ItemFault.Memory → board.new ≡ board.old }
    ensures ends { EndsAnswer B.tells_cells 0 (B.view board.old) (B.view board.new) result }
    ensures tree { tree.new ≡ tree.old }
{
    items_follow_each_other::<B>();
    first_unspent_is_in_the_row();
    rows_stand_apart();
    errors_see_no_image();
    match late_error(alloc, store, tree, failing, name) {
        Ok(error) => end_of(reply(board, &store.module, tree, error)),
        Err(_) => Err(ItemFault::Memory),
    }
}

/// Refuses an item that fails a condition below 30: sends the error (RFC 4108, section 4), plain. The key
/// isn't touched.
pub fn refuse_plainly<B: Board>(
    alloc: Global,
    store: &Store,
    board: &mut B,
    failing: Condition,
    name: Option<&PackageName>,
) -> Result<(), ItemFault>
    requires early { failing < 30 }
    requires few { length store.now.state.packages ≤ 64 }
    requires named { IsNamed failing (option_copied name) }
    requires settled { B.tells_cells → IsSettled (B.view board.old) }
    requires holds { B.tells_cells → IsStoreOf store.now (B.view board.old).cells }

    // The item is answered, and what a power cut leaves is a part of its run.
    ensures item { B.tells_cells → (at : ℕ) (item : List ℕ) → JudgesAt store.now.module at
        (standing_of store.now.module (manifest_of store.now) (B.view board.old).cells) item
        (refuses failing (option_copied name.entry))
        → AnswersItem B.tells_moments store.now.module at
        (standing_of store.now.module (manifest_of store.now) (B.view board.old).cells) item
        (refuses failing (option_copied name.entry)) (B.view board.old) (B.view board.new) result }

    // The store is still that of the board.
    ensures holds { B.tells_cells → OnOk result (IsStoreOf store.now (B.view board.new).cells) }

    ensures memory { IsErrOf result ItemFault.Memory → board.new ≡ board.old }
    ensures ends { EndsAnswer B.tells_cells 0 (B.view board.old) (B.view board.new) result }
{
    items_follow_each_other::<B>();
    errors_see_no_image();
    match early_error(alloc, store, failing, name) {
        Ok(octets) => end_of(reply_plainly(board, &octets)),
        Err(_) => Err(ItemFault::Memory),
    }
}
