// The next item of a source, from its first octet to the last of its answer.
ghost use Rattle.std.specs.Prelude.{◌≡◌, ◌+◌, ◌≤◌, ◌<◌, ◌-◌, ◌^◌, [], length, IfOk, IfErr, OnOk, IsErrOf, MatchResult};
ghost use Rattle.edge_board.specs.Board.{IsSettled};
ghost use Rattle.bank_layout.specs.Recovery.{standing_of};
ghost use Rattle.module_store.specs.Store.{HasBlocks, IsQuiet, IsStore, IsStoreOf, manifest_of};
ghost use Rattle.load_input.specs.Inputs.{IsCounted, ahead};
ghost use Rattle.load_input.specs.Causes.{HasLoadCause};
ghost use Rattle.item_intake.specs.Causes.{excess};
ghost use Rattle.load_item.specs.Turns.{TurnsItem, FailsItem, IsLast};

use crate::Turn;
use crate::answering::answer;
use crate::reading::next_item;
use block_pool::half_of_the_blocks_are_free;
use der_core::Moment;
use edge_board::{Board, Source};
use item_intake::LoadFault;
use lms_sign::KeyTree;
use load_input::Input;
use module_store::{Store, packages_with_room_can_be_prepared};
use std::alloc::Global;

/// Reads the next item of a source, judges it, installs its package where it is accepted, and answers
/// it (RFC 4108, sections 3 and 4). No octet of a further item is asked for before the last octet of
/// the answer is sent. `tree` has the module's key. After a fault the store isn't to be used again.
pub fn answer_item<S: Source, B: Board>(
    alloc: Global,
    at: Moment,
    store: &mut Store,
    tree: &mut KeyTree,
    input: &mut Input,
    source: &mut S,
    board: &mut B,
) -> Result<Turn, LoadFault>
    requires valid { IsStore store.old }
    requires quiet { IsQuiet store.old }
    requires tree { tree.old ≡ store.old.module.key }
    requires blocks { HasBlocks store.old (B.view board.old).blocks }
    requires settled { B.tells_cells → IsSettled (B.view board.old) }
    requires holds { B.tells_cells → IsStoreOf store.old (B.view board.old).cells }

    // The item was answered, or it wasn't.
    ensures turn { IfOk result (TurnsItem B.tells_cells B.tells_moments store.old.module at
        (standing_of store.old.module (manifest_of store.old) (B.view board.old).cells)
        (standing_of store.old.module (manifest_of store.new) (B.view board.new).cells)
        (B.view board.old) (B.view board.new)
        (ahead input.old (S.supply source.old)) (ahead input.new (S.supply source.new))
        input.old.passed input.new.passed) }
    ensures fails { IfErr result (FailsItem B.tells_cells B.tells_moments store.old.module at
        (standing_of store.old.module (manifest_of store.old) (B.view board.old).cells)
        (B.view board.old) (B.view board.new)
        (ahead input.old (S.supply source.old)) (ahead input.new (S.supply source.new))
        input.old.passed input.new.passed input.new.octets) }

    // The store stands for the next item.
    ensures owner { store.new.module ≡ store.old.module }
    ensures tree { tree.new ≡ tree.old }
    ensures valid { OnOk result (IsStore store.new) }
    ensures quiet { OnOk result (IsQuiet store.new) }
    ensures settled { B.tells_cells → OnOk result (IsSettled (B.view board.new)) }
    ensures holds { B.tells_cells → OnOk result (IsStoreOf store.new (B.view board.new).cells) }
    ensures blocks { (B.view board.new).blocks ≡ (B.view board.old).blocks }

    // What is taken and not handed on.
    ensures empty { IfOk result (λ turn. IsLast turn → input.new.octets ≡ []) }
    ensures dry { IsErrOf result LoadFault.Source → input.new.octets ≡ [] }
    ensures later { input.old.passed + length input.old.octets
        ≤ input.new.passed + length input.new.octets }
    ensures within { input.new.passed + length input.new.octets ≤ 2 ^ 32 }
    ensures grows { IfOk result (λ turn. ¬ (IsLast turn) → input.old.passed < input.new.passed) }

    // How much was taken, and why it failed.
    ensures counted { (S.supply source.new).taken < 2 ^ 64 - 1 → MatchResult result
        (λ _. IsCounted 0 input.old input.new
        (S.supply source.old).taken (S.supply source.new).taken)
        (λ fault. IsCounted (excess fault) input.old input.new
        (S.supply source.old).taken (S.supply source.new).taken) }
    ensures whole { IsErrOf result LoadFault.TooLong
        → (input.new.passed ≡ 2 ^ 32) × (input.new.octets ≡ []) }
    ensures source { HasLoadCause LoadFault.Source
        (S.supply source.old).faults (S.supply source.new).faults result }
    ensures device { HasLoadCause LoadFault.Device
        (B.view board.old).faults (B.view board.new).faults result }
{
    half_of_the_blocks_are_free();
    packages_with_room_can_be_prepared();
    let item = next_item(alloc, store, input, source, board)?;
    answer(alloc, at, store, tree, board, item)
}
