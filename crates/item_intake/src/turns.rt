// An item of an input, turn by turn.
ghost use Rattle.std.specs.Prelude.{◌≡◌, ◌+◌, ◌-◌, ◌≤◌, ◌<◌, ◌^◌, [], ℕ, List, length, IfOk};
ghost use Rattle.std.specs.Prelude.{MatchResult, IsErrOf, Option, false};
ghost use Rattle.edge_board.specs.Runs.{Touches};
ghost use Rattle.content_stream.specs.Plans.{InFree};
ghost use Rattle.load_input.specs.Causes.{HasLoadCause};
ghost use Rattle.load_input.specs.Inputs.{IsCounted};
ghost use Rattle.item_intake.specs.Causes.{excess};
ghost use Rattle.item_intake.specs.Inflows.{Start};
ghost use Rattle.item_intake.specs.Reading.{IsReading};
ghost use Rattle.item_intake.specs.Turns.{GoesOn, EndsItem, HasRead, AfterTurn, AfterFault, place_of};

use crate::LoadFault;
use crate::reader::Reader;
use block_pool::Pool;
use edge_board::{Board, Source};
use load_input::Input;
use std::alloc::Global;

/// What a turn came to.
#[derive(Clone, Copy, Debug, PartialEq, Eq)]
pub enum Turn {
    /// The item goes on.
    Goes,
    /// The item has ended, and is a whole SEQUENCE.
    Ends,
    /// The source has ended.
    Stops,
}

// Takes what is there of the item. It is handed on whether or not the item takes it.
fn take_buffered<B: Board>(
    alloc: Global,
    reader: &mut Reader,
    input: &mut Input,
    pool: &mut Pool,
    board: &mut B,
) -> Result<Turn, LoadFault>
    requires some { 0 < length input.old.octets }
    requires reading { (start : Start) × (item : List ℕ)
        × IsReading B.tells_cells B.tells_moments start pool.old (B.view board.old) reader.old item
        × GoesOn item }
    ensures turn { (start : Start) (item : List ℕ) (left : Option (List ℕ))
        → IsReading B.tells_cells B.tells_moments start pool.old (B.view board.old) reader.old item
        → GoesOn item
        → MatchResult result
        (AfterTurn B.tells_cells B.tells_moments start pool.new (B.view board.new) reader.new item
        (place_of input.old left) (place_of input.new left))
        (AfterFault B.tells_cells B.tells_moments start pool.new (B.view board.new) reader.new item
        (place_of input.old left) (place_of input.new left)) }
    ensures not_source { ¬ IsErrOf result LoadFault.Source }
    ensures not_long { ¬ IsErrOf result LoadFault.TooLong }
    ensures not_stops { IfOk result (λ turn. ¬ (turn ≡ Turn.Stops)) }
    ensures touches { (start : Start) (item : List ℕ)
        → IsReading B.tells_cells B.tells_moments start pool.old (B.view board.old) reader.old item
        → Touches B.tells_cells (InFree 84 start.pool) (B.view board.old) (B.view board.new) }
    ensures counted { IsCounted 0 input.old input.new 0 0 }
    ensures progress { input.old.passed < input.new.passed }
    ensures device { HasLoadCause LoadFault.Device
        (B.view board.old).faults (B.view board.new).faults result }
{
    let split = reader.split(input.octets());
    let result = reader.put(alloc, pool, board, &input.octets()[..split.n]);
    input.pass(split.n);
    result?;
    if split.ends {
        Ok(Turn::Ends)
    } else {
        Ok(Turn::Goes)
    }
}

// One turn: takes the next piece where nothing is there, and what of it is the item's.
fn take_turn<S: Source, B: Board>(
    alloc: Global,
    reader: &mut Reader,
    input: &mut Input,
    source: &mut S,
    pool: &mut Pool,
    board: &mut B,
) -> Result<Turn, LoadFault>
    requires reading { (start : Start) × (item : List ℕ)
        × IsReading B.tells_cells B.tells_moments start pool.old (B.view board.old) reader.old item
        × GoesOn item }
    ensures turn { (start : Start) (item : List ℕ)
        → IsReading B.tells_cells B.tells_moments start pool.old (B.view board.old) reader.old item
        → GoesOn item
        → MatchResult result
        (AfterTurn B.tells_cells B.tells_moments start pool.new (B.view board.new) reader.new item
        (place_of input.old (S.supply source.old).left) (place_of input.new (S.supply source.new).left))
        (AfterFault B.tells_cells B.tells_moments start pool.new (B.view board.new) reader.new item
        (place_of input.old (S.supply source.old).left)
        (place_of input.new (S.supply source.new).left)) }
    ensures touches { (start : Start) (item : List ℕ)
        → IsReading B.tells_cells B.tells_moments start pool.old (B.view board.old) reader.old item
        → Touches B.tells_cells (InFree 84 start.pool) (B.view board.old) (B.view board.new) }
    ensures stops { IfOk result (λ turn. turn ≡ Turn.Stops → input.new.octets ≡ []) }
    ensures dry { IsErrOf result LoadFault.Source → input.new.octets ≡ [] }
    ensures whole { IsErrOf result LoadFault.TooLong
        → (input.new.passed ≡ 2 ^ 32) × (input.new.octets ≡ []) }
    ensures later { input.old.passed + length input.old.octets
        ≤ input.new.passed + length input.new.octets }
    ensures within { input.new.passed + length input.new.octets ≤ 2 ^ 32 }
    ensures counted { (S.supply source.new).taken < 2 ^ 64 - 1 → MatchResult result
        (λ _. IsCounted 0 input.old input.new
        (S.supply source.old).taken (S.supply source.new).taken)
        (λ fault. IsCounted (excess fault) input.old input.new
        (S.supply source.old).taken (S.supply source.new).taken) }
    ensures progress { IfOk result (λ turn. turn ≡ Turn.Goes → input.old.passed < input.new.passed) }
    ensures source { HasLoadCause LoadFault.Source
        (S.supply source.old).faults (S.supply source.new).faults result }
    ensures device { HasLoadCause LoadFault.Device
        (B.view board.old).faults (B.view board.new).faults result }
{
    input.fill(source)?;
    if input.octets().is_empty() {
        return Ok(Turn::Stops);
    }
    take_buffered(alloc, reader, input, pool, board)
}

/// Reads an item to its end (true), or to that of the source, in it or before it (false).
pub fn read_turns<S: Source, B: Board>(
    alloc: Global,
    reader: &mut Reader,
    input: &mut Input,
    source: &mut S,
    pool: &mut Pool,
    board: &mut B,
) -> Result<bool, LoadFault>
    requires reading { (start : Start) × (item : List ℕ)
        × IsReading B.tells_cells B.tells_moments start pool.old (B.view board.old) reader.old item
        × GoesOn item }
    ensures read { (start : Start) (item : List ℕ)
        → IsReading B.tells_cells B.tells_moments start pool.old (B.view board.old) reader.old item
        → GoesOn item
        → MatchResult result
        (λ whole. HasRead B.tells_cells B.tells_moments start pool.new (B.view board.new)
        reader.new item (place_of input.old (S.supply source.old).left)
        (place_of input.new (S.supply source.new).left)
        (EndsItem whole (place_of input.new (S.supply source.new).left).0))
        (AfterFault B.tells_cells B.tells_moments start pool.new (B.view board.new) reader.new item
        (place_of input.old (S.supply source.old).left)
        (place_of input.new (S.supply source.new).left)) }
    ensures touches { (start : Start) (item : List ℕ)
        → IsReading B.tells_cells B.tells_moments start pool.old (B.view board.old) reader.old item
        → GoesOn item
        → Touches B.tells_cells (InFree 84 start.pool) (B.view board.old) (B.view board.new) }
    ensures empty { IfOk result (λ whole. whole ≡ false → input.new.octets ≡ []) }
    ensures dry { IsErrOf result LoadFault.Source → input.new.octets ≡ [] }
    ensures whole { IsErrOf result LoadFault.TooLong
        → (input.new.passed ≡ 2 ^ 32) × (input.new.octets ≡ []) }
    ensures later { input.old.passed + length input.old.octets
        ≤ input.new.passed + length input.new.octets }
    ensures within { input.new.passed + length input.new.octets ≤ 2 ^ 32 }
    ensures counted { (S.supply source.new).taken < 2 ^ 64 - 1 → MatchResult result
        (λ _. IsCounted 0 input.old input.new
        (S.supply source.old).taken (S.supply source.new).taken)
        (λ fault. IsCounted (excess fault) input.old input.new
        (S.supply source.old).taken (S.supply source.new).taken) }
    ensures source { HasLoadCause LoadFault.Source
        (S.supply source.old).faults (S.supply source.new).faults result }
    ensures device { HasLoadCause LoadFault.Device
        (B.view board.old).faults (B.view board.new).faults result }
{
    loop {
        match take_turn(alloc, reader, input, source, pool, board)? {
            Turn::Goes => {}
            Turn::Ends => return Ok(true),
            Turn::Stops => return Ok(false),
        }
    }
}
