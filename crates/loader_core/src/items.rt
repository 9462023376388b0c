// The items of a source, one after the other.
ghost use Rattle.std.specs.Prelude.{◌≡◌, ◌+◌, ◌≤◌, ◌<◌, ◌-◌, ◌^◌, [], length, IfOk, IfErr, OnOk, IsErrOf, MatchResult};
ghost use Rattle.edge_board.specs.Board.{IsSettled};
ghost use Rattle.bank_layout.specs.Recovery.{standing_of};
ghost use Rattle.module_store.specs.Store.{HasBlocks, IsQuiet, IsStore, IsStoreOf, manifest_of};
ghost use Rattle.load_input.specs.Inputs.{IsCounted, ahead};
ghost use Rattle.load_input.specs.Causes.{HasLoadCause};
ghost use Rattle.item_intake.specs.Causes.{excess};
ghost use Rattle.loader_core.specs.Loops.{RunsItems, BreaksRun};

use der_core::Moment;
use edge_board::{Board, Source};
use item_intake::LoadFault;
use lms_sign::KeyTree;
use load_input::Input;
use load_item::{Turn, answer_item};
use module_store::Store;
use std::alloc::Global;

/// Answers the items of a source to its end, each before an octet of the next is asked for, and says
/// whether one was refused. `tree` has the module's key. After a fault the store isn't to be used again.
pub fn answer_items<S: Source, B: Board>(
    alloc: Global,
    at: Moment,
    store: &mut Store,
    tree: &mut KeyTree,
    input: &mut Input,
    source: &mut S,
    board: &mut B,
) -> Result<bool, LoadFault>
    requires valid { IsStore store.old }
    requires quiet { IsQuiet store.old }
    requires tree { tree.old ≡ store.old.module.key }
    requires blocks { HasBlocks store.old (B.view board.old).blocks }
    requires settled { B.tells_cells → IsSettled (B.view board.old) }
    requires holds { B.tells_cells → IsStoreOf store.old (B.view board.old).cells }

    // All items were answered, or the next one wasn't.
    ensures runs { IfOk result (RunsItems B.tells_cells B.tells_moments store.old.module at
        (standing_of store.old.module (manifest_of store.old) (B.view board.old).cells)
        (B.view board.old) (B.view board.new)
        (ahead input.old (S.supply source.old)) (ahead input.new (S.supply source.new))
        input.old.passed input.new.passed) }
    ensures breaks { IfErr result (BreaksRun B.tells_cells B.tells_moments store.old.module at
        (standing_of store.old.module (manifest_of store.old) (B.view board.old).cells)
        (B.view board.old) (B.view board.new)
        (ahead input.old (S.supply source.old)) (ahead input.new (S.supply source.new))
        input.old.passed input.new.passed input.new.octets) }
    ensures settled { B.tells_cells → OnOk result (IsSettled (B.view board.new)) }
    ensures blocks { (B.view board.new).blocks ≡ (B.view board.old).blocks }
    ensures tree { tree.new ≡ tree.old }

    // What is taken and not handed on.
    ensures empty { OnOk result (input.new.octets ≡ []) }
    ensures dry { IsErrOf result LoadFault.Source → input.new.octets ≡ [] }
    ensures within { input.new.passed + length input.new.octets ≤ 2 ^ 32 }

    // How much was taken, and why it failed.
    ensures counted { (S.supply source.new).taken < 2 ^ 64 - 1 → MatchResult result
        (λ _. IsCounted 0 input.old input.new
        (S.supply source.old).taken (S.supply source.new).taken)
        (λ fault. IsCounted (excess fault) input.old input.new
        (S.supply source.old).taken (S.supply source.new).taken) }
    ensures whole { IsErrOf result LoadFault.TooLong
        → (input.new.passed ≡ 2 ^ 32) × (input.new.octets ≡ []) }
    ensures source { HasLoadCause LoadFault.Source
        (S.supply source.old).faults (S.supply source.new).faults result }
    ensures device { HasLoadCause LoadFault.Device
        (B.view board.old).faults (B.view board.new).faults result }
{
    let mut refused = false;
    loop {
        match answer_item(alloc, at, store, tree, input, source, board)? {
            Turn::Accepted => {}
            Turn::Refused => refused = true,
            Turn::Last => return Ok(true),
            Turn::End => return Ok(refused),
        }
    }
}
