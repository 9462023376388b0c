// The answer to an item that was read.
ghost use Rattle.std.specs.Prelude.{◌≡◌, ◌≤◌, ◌∷◌, [], ℕ, List, Bool, Option, true, IsSome, Some, OnOk, unwrap_or};
ghost use Rattle.std.specs.Option.{option_copied};
ghost use Rattle.sha2.specs.Sha256.{sha256};
ghost use Rattle.edge_board.specs.Board.{IsSettled};
ghost use Rattle.config_table.specs.State.{offer_of};
ghost use Rattle.package_attrs.specs.Description.{description};
ghost use Rattle.bank_layout.specs.Recovery.{image_octets, standing_of};
ghost use Rattle.judge_core.specs.Verdicts.{bench, Judges};
ghost use Rattle.judge_core.specs.Verdicts.Verdict.{accepts, refuses};
ghost use Rattle.module_store.specs.Store.{CanPrepare, HasBlocks, IsStore, IsStoreOf, manifest_of};
ghost use Rattle.receipt_writer.specs.Answers.{IsNamed};
ghost use Rattle.load_input.specs.Causes.{HasLoadCause};
ghost use Rattle.item_intake.specs.HeldItems.{IsHeldItem};
ghost use Rattle.item_intake.specs.ReadItem.{IsItemRead};
ghost use Rattle.load_item.specs.Answers.{Answers, GivesBack, KeepsStore, StoodWith, turn_result};
ghost use Rattle.load_item.specs.Turns.{IsTurn, turn_items, turn_refuses, turn_erases};

use crate::Turn;
use crate::giving::give_back;
use crate::judging::judge_held;
use bank_layout::{each_image_has_one_holder, images_have_their_lengths};
use cms_signed::Outline;
use cms_signed::laws::messages_have_a_cut;
use content_stream::Streamed;
use der_core::{Condition, Moment, Octets64};
use edge_board::Board;
use item_answer::{ItemFault, accept_item, refuse_plainly, refuse_with_leaf};
use item_intake::{Held, Item, LoadFault};
use judge_core::{
    CutVerdict, accepted_packages_can_be_installed, refusals_have_their_names,
    unread_items_are_refused,
};
use lms_sign::KeyTree;
use load_claims::items_follow_each_other;
use module_store::{Store, packages_with_room_can_be_prepared};
use package_attrs::{Package, PackageName, one_image};
use std::alloc::Global;

// The least condition whose failure is answered with a leaf.
const FIRST_SIGNED: u8 = 30;

// The end of an answer, as that of a turn.
fn turn_of(ended: Result<(), ItemFault>, turn: Turn) -> Result<Turn, LoadFault>
    ensures turn { result ≡ turn_result turn ended }
{
    match ended {
        Ok(()) => Ok(turn),
        Err(ItemFault::Failed) => Err(LoadFault::Device),
        Err(ItemFault::Memory) => Err(LoadFault::Memory),
    }
}

// Refuses an item that fails a condition: with a leaf from condition 30 on, where one is left.
fn refuse<B: Board>(
    alloc: Global,
    store: &Store,
    tree: &mut KeyTree,
    board: &mut B,
    failing: Condition,
    name: Option<&PackageName>,
    turn: Turn,
) -> Result<Turn, LoadFault>
    requires valid { IsStore store.now }
    requires tree { tree.old ≡ store.now.module.key }
    requires named { IsNamed failing (option_copied name) }
    requires blocks { HasBlocks store.now (B.view board.old).blocks }
    requires settled { B.tells_cells → IsSettled (B.view board.old) }
    requires holds { B.tells_cells → IsStoreOf store.now (B.view board.old).cells }
    ensures answers { (at : ℕ) (item : List ℕ) (left : Option (List ℕ))
        → Judges (bench store.now.module store.now.state store.now.sequence at) item
        (refuses failing (option_copied name.entry))
        → IsTurn item left turn → turn_items item turn ≡ item ∷ [] → turn_refuses turn ≡ true
        → Answers B.tells_cells B.tells_moments store.now.module at
        (standing_of store.now.module (manifest_of store.now) (B.view board.old).cells)
        (standing_of store.now.module (manifest_of store.now) (B.view board.new).cells)
        item left (B.view board.old) (B.view board.new) result }
    ensures holds { B.tells_cells → OnOk result (IsStoreOf store.now (B.view board.new).cells) }
    ensures settled { B.tells_cells → OnOk result (IsSettled (B.view board.new)) }
    ensures blocks { (B.view board.new).blocks ≡ (B.view board.old).blocks }
    ensures device { HasLoadCause LoadFault.Device
        (B.view board.old).faults (B.view board.new).faults result }
    ensures tree { tree.new ≡ tree.old }
{
    images_have_their_lengths();
    packages_with_room_can_be_prepared();
    each_image_has_one_holder();
    items_follow_each_other::<B>();
    if failing.number() < FIRST_SIGNED {
        turn_of(refuse_plainly(alloc, store, board, failing, name), turn)
    } else {
        turn_of(
            refuse_with_leaf(alloc, store, tree, board, failing, name),
            turn,
        )
    }
}

// Installs what was accepted, and answers with its receipt.
fn accept<B: Board>(
    alloc: Global,
    store: &mut Store,
    tree: &mut KeyTree,
    board: &mut B,
    offered: &Package<'_>,
    key_id: Octets64,
    streamed: Option<Streamed>,
) -> Result<Turn, LoadFault>
    requires there { IsSome streamed }
    requires can { (s : Streamed) → streamed ≡ Some s → IsSome s.blocks
        × CanPrepare store.old (offer_of (description offered.now)) s.image_digest
        (record { length = s.length; blocks = unwrap_or s.blocks [] }) }
    requires tree { tree.old ≡ store.old.module.key }
    requires blocks { HasBlocks store.old (B.view board.old).blocks }
    requires settled { B.tells_cells → IsSettled (B.view board.old) }
    requires holds { B.tells_cells → IsStoreOf store.old (B.view board.old).cells }
    ensures answers { (at : ℕ) (item content image : List ℕ) (left : Option (List ℕ)) (s : Streamed)
        → Judges (bench store.old.module store.old.state store.old.sequence at) item
        (accepts (description offered.now) content image key_id)
        → streamed ≡ Some s → s.image_digest ≡ sha256 image
        → (B.tells_cells → image_octets (B.view board.old).cells
        (record { length = s.length; blocks = unwrap_or s.blocks [] }) ≡ image)
        → IsTurn item left Turn.Accepted
        → Answers B.tells_cells B.tells_moments store.old.module at
        (standing_of store.old.module (manifest_of store.old) (B.view board.old).cells)
        (standing_of store.old.module (manifest_of store.new) (B.view board.new).cells)
        item left (B.view board.old) (B.view board.new) result }
    ensures keeps { KeepsStore B.tells_cells store.old store.new
        (B.view board.old) (B.view board.new) result }
    ensures device { HasLoadCause LoadFault.Device
        (B.view board.old).faults (B.view board.new).faults result }
    ensures tree { tree.new ≡ tree.old }
{
    images_have_their_lengths();
    each_image_has_one_holder();
    items_follow_each_other::<B>();
    let Some(streamed) = streamed else {
        unreachable!();
    };
    turn_of(
        accept_item(alloc, store, tree, board, offered, &key_id, streamed),
        Turn::Accepted,
    )
}

// Gives back the blocks of what was refused, and answers with an error.
fn refuse_held<B: Board>(
    alloc: Global,
    store: &mut Store,
    tree: &mut KeyTree,
    board: &mut B,
    failing: Condition,
    name: Option<PackageName>,
    streamed: Option<Streamed>,
) -> Result<Turn, LoadFault>
    requires taken { (before : List Bool) × GivesBack before store.old.pool streamed
        × StoodWith store.old before }
    requires tree { tree.old ≡ store.old.module.key }
    requires named { IsNamed failing name }
    requires blocks { HasBlocks store.old (B.view board.old).blocks }
    requires settled { B.tells_cells → IsSettled (B.view board.old) }
    requires holds { B.tells_cells → IsStoreOf store.old (B.view board.old).cells }
    ensures answers { (at : ℕ) (item : List ℕ) (left : Option (List ℕ))
        → Judges (bench store.old.module store.old.state store.old.sequence at) item
        (refuses failing name)
        → IsTurn item left Turn.Refused
        → Answers B.tells_cells B.tells_moments store.old.module at
        (standing_of store.old.module (manifest_of store.old) (B.view board.old).cells)
        (standing_of store.old.module (manifest_of store.new) (B.view board.new).cells)
        item left (B.view board.old) (B.view board.new) result }
    ensures keeps { KeepsStore B.tells_cells store.old store.new
        (B.view board.old) (B.view board.new) result }
    ensures device { HasLoadCause LoadFault.Device
        (B.view board.old).faults (B.view board.new).faults result }
    ensures tree { tree.new ≡ tree.old }
{
    give_back(&mut store.pool, streamed);
    refuse(
        alloc,
        store,
        tree,
        board,
        failing,
        name.as_ref(),
        Turn::Refused,
    )
}

// Judges an item that was read whole, and answers it.
fn answer_whole<B: Board>(
    alloc: Global,
    at: Moment,
    store: &mut Store,
    tree: &mut KeyTree,
    board: &mut B,
    outline: &Outline,
    streamed: Option<Streamed>,
) -> Result<Turn, LoadFault>
    requires some { (before : List Bool) × (octets : List ℕ)
        × IsHeldItem B.tells_cells before store.old.pool (B.view board.old)
        (record { outline = outline.now; streamed = streamed }) octets
        × StoodWith store.old before }
    requires tree { tree.old ≡ store.old.module.key }
    requires blocks { HasBlocks store.old (B.view board.old).blocks }
    requires settled { B.tells_cells → IsSettled (B.view board.old) }
    requires holds { B.tells_cells → IsStoreOf store.old (B.view board.old).cells }
    ensures answers { (before : List Bool) (octets : List ℕ) (left : Option (List ℕ))
        → IsHeldItem B.tells_cells before store.old.pool (B.view board.old)
        (record { outline = outline.now; streamed = streamed }) octets → StoodWith store.old before
        → Answers B.tells_cells B.tells_moments store.old.module at
        (standing_of store.old.module (manifest_of store.old) (B.view board.old).cells)
        (standing_of store.old.module (manifest_of store.new) (B.view board.new).cells)
        octets left (B.view board.old) (B.view board.new) result }
    ensures keeps { KeepsStore B.tells_cells store.old store.new
        (B.view board.old) (B.view board.new) result }
    ensures device { HasLoadCause LoadFault.Device
        (B.view board.old).faults (B.view board.new).faults result }
    ensures tree { tree.new ≡ tree.old }
{
    one_image();
    messages_have_a_cut();
    refusals_have_their_names();
    accepted_packages_can_be_installed();
    packages_with_room_can_be_prepared();
    items_follow_each_other::<B>();
    let owner = &store.module;
    match judge_held(
        alloc,
        owner,
        &store.state,
        store.sequence,
        at,
        outline,
        &streamed,
    ) {
        Err(_) => Err(LoadFault::Memory),
        Ok(verdict) => match verdict {
            CutVerdict::Accept {
                package,
                anchor_key_id,
            } => accept(alloc, store, tree, board, &package, anchor_key_id, streamed),
            CutVerdict::Refuse(failing, name) => {
                refuse_held(alloc, store, tree, board, failing, name, streamed)
            }
        },
    }
}

// Answers an item that was read.
pub(crate) fn answer<B: Board>(
    alloc: Global,
    at: Moment,
    store: &mut Store,
    tree: &mut KeyTree,
    board: &mut B,
    item: Item,
) -> Result<Turn, LoadFault>
    requires some { (before : List Bool) × (octets : List ℕ) × (left : Option (List ℕ))
        × IsItemRead B.tells_cells before store.old.pool (B.view board.old) left octets item
        × StoodWith store.old before }
    requires tree { tree.old ≡ store.old.module.key }
    requires blocks { HasBlocks store.old (B.view board.old).blocks }
    requires settled { B.tells_cells → IsSettled (B.view board.old) }
    requires holds { B.tells_cells → IsStoreOf store.old (B.view board.old).cells }
    ensures answers { (before : List Bool) (octets : List ℕ) (left : Option (List ℕ))
        → IsItemRead B.tells_cells before store.old.pool (B.view board.old) left octets item
        → StoodWith store.old before
        → Answers B.tells_cells B.tells_moments store.old.module at
        (standing_of store.old.module (manifest_of store.old) (B.view board.old).cells)
        (standing_of store.old.module (manifest_of store.new) (B.view board.new).cells)
        octets left (B.view board.old) (B.view board.new) result }
    ensures keeps { KeepsStore B.tells_cells store.old store.new
        (B.view board.old) (B.view board.new) result }
    ensures device { HasLoadCause LoadFault.Device
        (B.view board.old).faults (B.view board.new).faults result }
    ensures tree { tree.new ≡ tree.old }
{
    unread_items_are_refused();
    items_follow_each_other::<B>();
    match item {
        Item::Whole(held) => {
            let Held { outline, streamed } = held;
            answer_whole(alloc, at, store, tree, board, &outline, streamed)
        }
        Item::TooLong => {
            let failing = Condition::numbered(2);
            refuse(alloc, store, tree, board, failing, None, Turn::Refused)
        }
        Item::Unfinished => {
            let failing = Condition::numbered(1);
            refuse(alloc, store, tree, board, failing, None, Turn::Last)
        }
        Item::End => Ok(Turn::End),
    }
}
