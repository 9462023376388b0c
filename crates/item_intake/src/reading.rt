// The next item of an input.
ghost use Rattle.std.specs.Prelude.{◌≡◌, ◌+◌, ◌-◌, ◌≤◌, ◌<◌, ◌^◌, [], length, IfOk, IfErr, OnOk};
ghost use Rattle.std.specs.Prelude.{MatchResult, IsErrOf};
ghost use Rattle.edge_board.specs.Board.{IsSettled};
ghost use Rattle.edge_board.specs.Runs.{Touches};
ghost use Rattle.content_stream.specs.Plans.{InFree};
ghost use Rattle.load_input.specs.Causes.{HasLoadCause};
ghost use Rattle.load_input.specs.Inputs.{ahead, IsCounted};
ghost use Rattle.item_intake.specs.Causes.{excess};
ghost use Rattle.item_intake.specs.ReadItem.{ReadsItem, BreaksItem, IsLast};

use crate::ending::end_item;
use crate::reader::Reader;
use crate::turns::read_turns;
use crate::{Item, LoadFault};
use block_pool::Pool;
use cms_signed::laws::one_content;
use edge_board::{Board, Source};
use load_input::Input;
use std::alloc::Global;

/// Reads the next item of an input to its end, and not beyond. Its outline is kept; its content goes
/// into free blocks of the pool as it comes, which is where the flash begins behind its block 84. What
/// isn't held gives its blocks back. After a fault the pool isn't to be used again.
pub fn read_item<S: Source, B: Board>(
    alloc: Global,
    input: &mut Input,
    source: &mut S,
    pool: &mut Pool,
    board: &mut B,
) -> Result<Item, LoadFault>
    requires lies { 84 + length pool.old ≤ (B.view board.old).blocks }
    requires settled { B.tells_cells → IsSettled (B.view board.old) }

    // The next octets are an item, or these of them have come.
    ensures read { IfOk result (ReadsItem B.tells_cells pool.old pool.new
        (B.view board.old).erased (B.view board.new)
        (ahead input.old (S.supply source.old)) (ahead input.new (S.supply source.new))
        input.old.passed input.new.passed) }
    ensures breaks { IfErr result (BreaksItem B.tells_moments pool.old
        (B.view board.old).erased (B.view board.new)
        (ahead input.old (S.supply source.old)) (ahead input.new (S.supply source.new))
        input.old.passed input.new.passed) }

    // Free blocks alone have changed, and nothing is pending behind an item.
    ensures settled { B.tells_cells → OnOk result (IsSettled (B.view board.new)) }
    ensures touches { Touches B.tells_cells (InFree 84 pool.old) (B.view board.old) (B.view board.new) }

    // How much was taken, and what of it is left.
    ensures empty { IfOk result (λ item. IsLast item → input.new.octets ≡ []) }
    ensures dry { IsErrOf result LoadFault.Source → input.new.octets ≡ [] }
    ensures whole { IsErrOf result LoadFault.TooLong
        → (input.new.passed ≡ 2 ^ 32) × (input.new.octets ≡ []) }
    ensures later { input.old.passed + length input.old.octets
        ≤ input.new.passed + length input.new.octets }
    ensures within { input.new.passed + length input.new.octets ≤ 2 ^ 32 }
    ensures counted { (S.supply source.new).taken < 2 ^ 64 - 1 → MatchResult result
        (λ _. IsCounted 0 input.old input.new
        (S.supply source.old).taken (S.supply source.new).taken)
        (λ fault. IsCounted (excess fault) input.old input.new
        (S.supply source.old).taken (S.supply source.new).taken) }

    // Why it failed.
    ensures source { HasLoadCause LoadFault.Source
        (S.supply source.old).faults (S.supply source.new).faults result }
    ensures device { HasLoadCause LoadFault.Device
        (B.view board.old).faults (B.view board.new).faults result }
{
    one_content();
    let mut reader = Reader::new(alloc);
    let whole = read_turns(alloc, &mut reader, input, source, pool, board)?;
    let item = end_item(alloc, reader, whole, pool, board)?;
    Ok(item)
}
