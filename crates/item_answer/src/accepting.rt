// An accepted item: its install, and then its receipt.
ghost use Rattle.std.specs.Prelude.{◌≡◌, ◌+◌, ℕ, List, [], IsSome, IsErrOf, OnOk, unwrap_or};
ghost use Rattle.sha2.specs.Sha256.{sha256};
ghost use Rattle.edge_board.specs.Board.{IsSettled};
ghost use Rattle.edge_board.specs.Causes.{HasCause};
ghost use Rattle.bank_gate.specs.States.{RisesAtMost};
ghost use Rattle.lms_sign.specs.PublicKeys.{hss_signature_size};
ghost use Rattle.config_table.specs.State.{offer_of, with_package};
ghost use Rattle.config_table.specs.Stored.{Stored};
ghost use Rattle.package_attrs.specs.Description.{Description, description};
ghost use Rattle.bank_layout.specs.Recovery.{image_octets, standing_of};
ghost use Rattle.judge_core.specs.Verdicts.Verdict.{accepts};
ghost use Rattle.module_store.specs.Store.{CanPrepare, HasBlocks, IsQuiet, IsReady, IsStore, IsStoreOf, manifest_of, next_of};
ghost use Rattle.load_claims.specs.Items.{JudgesAt};
ghost use Rattle.item_answer.specs.Answers.{AnswersItem, EndsAnswer, IsAnswerTo};

use crate::ItemFault;
use crate::making::acceptance;
use crate::replying::{end_of, reply};
use answer_write::Answer;
use bank_layout::rows_stand_apart;
use content_stream::Streamed;
use der_core::Octets64;
use edge_board::{Board, Failed};
use key_state::first_unspent_is_in_the_row;
use lms_sign::KeyTree;
use load_claims::{installing_is_inside, items_follow_each_other, steps_follow_each_other};
use module_store::{Ready, Store, install};
use package_attrs::Package;
use std::alloc::Global;

// Installs the package of an accepted item, and then answers the item. It takes no memory.
fn install_and_reply<B: Board>(
    store: &mut Store,
    tree: &mut KeyTree,
    board: &mut B,
    ready: Ready,
    answer: Answer,
) -> Result<(), Failed>
    requires tree { tree.old ≡ store.old.module.key }
    requires size { answer.unsigned.size ≡ hss_signature_size store.old.module.key }
    requires ready { IsReady store.old ready }
    requires blocks { HasBlocks store.old (B.view board.old).blocks }
    requires settled { B.tells_cells → IsSettled (B.view board.old) }
    requires holds { B.tells_cells → IsStoreOf store.old (B.view board.old).cells }
    ensures item { B.tells_cells → (at : ℕ) (item : List ℕ) (described : Description)
        (content image key_id : List ℕ) (stored : Stored) → JudgesAt store.old.module at
        (standing_of store.old.module (manifest_of store.old) (B.view board.old).cells) item
        (accepts described content image key_id)
        → image_octets (B.view board.old).cells stored ≡ image
        → next_of ready ≡ record {
          sequence = store.old.sequence + 1;
          state = with_package (offer_of described) (sha256 image) stored store.old.state;
        }
        → IsAnswerTo store.old.module
        (standing_of store.old.module (manifest_of store.old) (B.view board.old).cells)
        (accepts described content image key_id) answer
        → AnswersItem B.tells_moments store.old.module at
        (standing_of store.old.module (manifest_of store.old) (B.view board.old).cells) item
        (accepts described content image key_id) (B.view board.old) (B.view board.new) result }
    ensures holds { B.tells_cells → OnOk result (IsStoreOf store.new (B.view board.new).cells) }
    ensures owner { store.new.module ≡ store.old.module }
    ensures valid { OnOk result (IsStore store.new) }
    ensures quiet { OnOk result (IsQuiet store.new) }
    ensures settled { B.tells_cells → OnOk result (IsSettled (B.view board.new)) }
    ensures blocks { (B.view board.new).blocks ≡ (B.view board.old).blocks }
    ensures erased { RisesAtMost 34 (B.view board.old).erased (B.view board.new).erased }
    ensures cause { HasCause (B.view board.old).faults (B.view board.new).faults result }
    ensures tree { tree.new ≡ tree.old }
{
    installing_is_inside::<B>();
    steps_follow_each_other::<B>();
    first_unspent_is_in_the_row();
    rows_stand_apart();
    match install(store, board, ready) {
        Ok(()) => reply(board, &store.module, tree, answer),
        Err(_) => Err(Failed),
    }
}

/// Installs the package of an accepted item, whose image was streamed into these blocks, and then sends its
/// receipt (RFC 4108, section 3), signed where a leaf is unspent. `anchor_key` is the key identifier of the
/// anchor at which the signer's path ends. All memory is taken before the flash is touched. After a fault,
/// and after want of memory, the store isn't to be used again.
pub fn accept_item<B: Board>(
    alloc: Global,
    store: &mut Store,
    tree: &mut KeyTree,
    board: &mut B,
    offered: &Package<'_>,
    anchor_key: &Octets64,
    streamed: Streamed,
) -> Result<(), ItemFault>
    requires tree { tree.old ≡ store.old.module.key }
    requires stored { IsSome streamed.blocks }
    requires can { CanPrepare store.old (offer_of (description offered.now)) streamed.image_digest
        (record { length = streamed.length; blocks = unwrap_or streamed.blocks [] }) }
    requires blocks { HasBlocks store.old (B.view board.old).blocks }
    requires settled { B.tells_cells → IsSettled (B.view board.old) }
    requires holds { B.tells_cells → IsStoreOf store.old (B.view board.old).cells }

    // The item is answered, and what a power cut leaves is a part of its run.
    ensures item { B.tells_cells → (at : ℕ) (item content image : List ℕ) → JudgesAt store.old.module at
        (standing_of store.old.module (manifest_of store.old) (B.view board.old).cells) item
        (accepts (description offered.now) content image anchor_key.now)
        → streamed.image_digest ≡ sha256 image
        → image_octets (B.view board.old).cells
        (record { length = streamed.length; blocks = unwrap_or streamed.blocks [] }) ≡ image
        → AnswersItem B.tells_moments store.old.module at
        (standing_of store.old.module (manifest_of store.old) (B.view board.old).cells) item
        (accepts (description offered.now) content image anchor_key.now) (B.view board.old)
        (B.view board.new) result }

    // The store is that of the board again.
    ensures holds { B.tells_cells → OnOk result (IsStoreOf store.new (B.view board.new).cells) }
    ensures owner { store.new.module ≡ store.old.module }
    ensures valid { OnOk result (IsStore store.new) }
    ensures quiet { OnOk result (IsQuiet store.new) }

    ensures memory { IsErrOf result ItemFault.Memory → board.new ≡ board.old }
    ensures ends { EndsAnswer B.tells_cells 34 (B.view board.old) (B.view board.new) result }
    ensures tree { tree.new ≡ tree.old }
{
    items_follow_each_other::<B>();
    match acceptance(alloc, store, tree, offered, anchor_key, streamed) {
        Ok((ready, receipt)) => end_of(install_and_reply(store, tree, board, ready, receipt)),
        Err(_) => Err(ItemFault::Memory),
    }
}
