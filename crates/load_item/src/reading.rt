// The next item, read for a store.
ghost use Rattle.std.specs.Prelude.{◌≡◌, ◌+◌, ◌-◌, ◌≤◌, ◌<◌, ◌^◌, [], length, IfOk, IfErr, OnOk, MatchResult, IsErrOf};
ghost use Rattle.edge_board.specs.Board.{IsSettled};
ghost use Rattle.edge_board.specs.Runs.{Touches};
ghost use Rattle.content_stream.specs.Plans.{InFree};
ghost use Rattle.module_store.specs.Moments.{Stays};
ghost use Rattle.module_store.specs.Store.{HasBlocks, IsQuiet, IsStore, IsStoreOf, manifest_of};
ghost use Rattle.load_input.specs.Causes.{HasLoadCause};
ghost use Rattle.load_input.specs.Inputs.{IsCounted, ahead};
ghost use Rattle.item_intake.specs.Causes.{excess};
ghost use Rattle.item_intake.specs.ReadItem.{BreaksItem, IsLast, ReadsItem};

use bank_layout::unnamed_blocks_have_no_say;
use edge_board::{Board, Source};
use item_intake::{Item, LoadFault, read_item};
use load_input::Input;
use module_store::Store;
use std::alloc::Global;

// Reads the next item of a source, and puts its content into free blocks of the store. Whatever it
// answers, at each moment since it began a power cut leaves what the store says.
pub(crate) fn next_item<S: Source, B: Board>(
    alloc: Global,
    store: &mut Store,
    input: &mut Input,
    source: &mut S,
    board: &mut B,
) -> Result<Item, LoadFault>
    requires valid { IsStore store.old }
    requires quiet { IsQuiet store.old }
    requires blocks { HasBlocks store.old (B.view board.old).blocks }
    requires settled { B.tells_cells → IsSettled (B.view board.old) }
    requires holds { B.tells_cells → IsStoreOf store.old (B.view board.old).cells }

    // What was read, and what it left.
    ensures read { IfOk result (ReadsItem B.tells_cells store.old.pool store.new.pool
        (B.view board.old).erased (B.view board.new)
        (ahead input.old (S.supply source.old)) (ahead input.new (S.supply source.new))
        input.old.passed input.new.passed) }
    ensures breaks { IfErr result (BreaksItem B.tells_moments store.old.pool
        (B.view board.old).erased (B.view board.new)
        (ahead input.old (S.supply source.old)) (ahead input.new (S.supply source.new))
        input.old.passed input.new.passed) }
    ensures settled { B.tells_cells → OnOk result (IsSettled (B.view board.new)) }

    // The store says what it said, and so does the flash.
    ensures owner { store.new.module ≡ store.old.module }
    ensures says { manifest_of store.new ≡ manifest_of store.old }
    ensures running { store.new.running ≡ store.old.running }
    ensures stays { B.tells_cells → Stays store.old (B.view board.old) (B.view board.new) }
    ensures touches { Touches B.tells_cells (InFree 84 store.old.pool)
        (B.view board.old) (B.view board.new) }

    // What is taken and not handed on, how much was taken, and why it failed.
    ensures empty { IfOk result (λ item. IsLast item → input.new.octets ≡ []) }
    ensures dry { IsErrOf result LoadFault.Source → input.new.octets ≡ [] }
    ensures later { input.old.passed + length input.old.octets
        ≤ input.new.passed + length input.new.octets }
    ensures within { input.new.passed + length input.new.octets ≤ 2 ^ 32 }
    ensures counted { (S.supply source.new).taken < 2 ^ 64 - 1 → MatchResult result
        (λ _. IsCounted 0 input.old input.new
        (S.supply source.old).taken (S.supply source.new).taken)
        (λ fault. IsCounted (excess fault) input.old input.new
        (S.supply source.old).taken (S.supply source.new).taken) }
    ensures whole { IsErrOf result LoadFault.TooLong
        → (input.new.passed ≡ 2 ^ 32) × (input.new.octets ≡ []) }
    ensures source { HasLoadCause LoadFault.Source
        (S.supply source.old).faults (S.supply source.new).faults result }
    ensures device { HasLoadCause LoadFault.Device
        (B.view board.old).faults (B.view board.new).faults result }
{
    unnamed_blocks_have_no_say();
    read_item(alloc, input, source, &mut store.pool, board)
}
