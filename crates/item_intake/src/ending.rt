// The end of an item: what came of its content, or its blocks given back.
ghost use Rattle.std.specs.Prelude.{◌≡◌, ◌<◌, ℕ, Bool, true, false, List, Option, length, IfOk, OnOk};
ghost use Rattle.edge_board.specs.Board.{IsSettled};
ghost use Rattle.edge_board.specs.Runs.{Touches};
ghost use Rattle.content_stream.specs.Plans.{InFree};
ghost use Rattle.der_core.specs.Items.{IsSequence};
ghost use Rattle.cms_signed.specs.Outline.{content_of};
ghost use Rattle.load_input.specs.Causes.{HasLoadCause};
ghost use Rattle.item_intake.specs.Inflows.{Start, Streams, IsInflow};
ghost use Rattle.item_intake.specs.Intakes.{IsIntake};
ghost use Rattle.item_intake.specs.HeldItems.{HoldsContent, HasStreamed};
ghost use Rattle.item_intake.specs.Reading.{IsReading};
ghost use Rattle.item_intake.specs.Turns.{EndsItem};
ghost use Rattle.item_intake.specs.ReadItem.{IsItemRead, IsLast};

use crate::fault::TakeFault;
use crate::inflow::{Inflow, open_stream};
use crate::intake::Intake;
use crate::reader::Reader;
use crate::{Held, Item};
use block_pool::{Pool, free_blocks_are_apart, giving_undoes_taking, marks_are_exact};
use cms_signed::laws::whole_item;
use content_stream::{
    ContentStream, Streamed, abandon, blocks_lie_below, each_content_has_an_image, finish,
};
use edge_board::Board;
use std::alloc::Global;

// Ends a stream whose whole content was fed.
fn finish_stream<B: Board>(stream: ContentStream, board: &mut B) -> Result<Streamed, TakeFault>
    requires some { (size : ℕ) × (start : Start) × (pool : List Bool) × (content : List ℕ)
        × Streams B.tells_cells B.tells_moments size start pool (B.view board.old) stream content
        × (length content ≡ size) }
    ensures holds { (size : ℕ) (start : Start) (pool : List Bool) (content : List ℕ)
        → Streams B.tells_cells B.tells_moments size start pool (B.view board.old) stream content
        → length content ≡ size
        → IfOk result (HoldsContent B.tells_cells start.pool pool (B.view board.new) content) }
    ensures settled { B.tells_cells → OnOk result (IsSettled (B.view board.new)) }
    ensures touches { (size : ℕ) (start : Start) (pool : List Bool) (content : List ℕ)
        → Streams B.tells_cells B.tells_moments size start pool (B.view board.old) stream content
        → Touches B.tells_cells (InFree 84 start.pool) (B.view board.old) (B.view board.new) }
    ensures erased { (B.view board.new).erased ≡ (B.view board.old).erased }
    ensures device { HasLoadCause TakeFault.Device
        (B.view board.old).faults (B.view board.new).faults result }
{
    blocks_lie_below();
    each_content_has_an_image();
    let streamed = finish(stream, board)?;
    Ok(streamed)
}

// Gives a stream up, and its blocks back.
fn abandon_stream<B: Board>(
    stream: ContentStream,
    pool: &mut Pool,
    board: &mut B,
) -> Result<(), TakeFault>
    requires some { (size : ℕ) × (start : Start) × (content : List ℕ)
        × Streams B.tells_cells B.tells_moments size start pool.old (B.view board.old) stream content }
    ensures pool { (size : ℕ) (start : Start) (content : List ℕ)
        → Streams B.tells_cells B.tells_moments size start pool.old (B.view board.old) stream content
        → OnOk result (pool.new ≡ start.pool) }
    ensures settled { B.tells_cells → OnOk result (IsSettled (B.view board.new)) }
    ensures touches { (size : ℕ) (start : Start) (content : List ℕ)
        → Streams B.tells_cells B.tells_moments size start pool.old (B.view board.old) stream content
        → Touches B.tells_cells (InFree 84 start.pool) (B.view board.old) (B.view board.new) }
    ensures erased { (B.view board.new).erased ≡ (B.view board.old).erased }
    ensures device { HasLoadCause TakeFault.Device
        (B.view board.old).faults (B.view board.new).faults result }
{
    free_blocks_are_apart();
    marks_are_exact();
    giving_undoes_taking();
    match abandon(stream, board)? {
        Some(blocks) => {
            pool.give(blocks);
            Ok(())
        }
        None => Ok(()),
    }
}

impl Inflow {
    // Ends a content of this size that has come whole.
    fn finish<B: Board>(
        self,
        alloc: Global,
        pool: &mut Pool,
        board: &mut B,
        size: u32,
    ) -> Result<Streamed, TakeFault>
        requires some { (start : Start) × (content : List ℕ)
            × IsInflow B.tells_cells B.tells_moments size start pool.old (B.view board.old) self content
            × (length content ≡ size) }
        ensures holds { (start : Start) (content : List ℕ)
            → IsInflow B.tells_cells B.tells_moments size start pool.old (B.view board.old) self content
            → length content ≡ size
            → IfOk result
            (HoldsContent B.tells_cells start.pool pool.new (B.view board.new) content) }
        ensures settled { B.tells_cells → OnOk result (IsSettled (B.view board.new)) }
        ensures touches { (start : Start) (content : List ℕ)
            → IsInflow B.tells_cells B.tells_moments size start pool.old (B.view board.old) self content
            → Touches B.tells_cells (InFree 84 start.pool) (B.view board.old) (B.view board.new) }
        ensures erased { (B.view board.new).erased ≡ (B.view board.old).erased }
        ensures device { HasLoadCause TakeFault.Device
            (B.view board.old).faults (B.view board.new).faults result }
    {
        let Inflow { front, stream } = self;
        match stream {
            Some(stream) => finish_stream(stream, board),
            None => {
                let stream = open_stream(alloc, pool, board, size, &front)?;
                finish_stream(stream, board)
            }
        }
    }

    // Gives a content up.
    fn abandon<B: Board>(self, pool: &mut Pool, board: &mut B) -> Result<(), TakeFault>
        requires some { (size : ℕ) × (start : Start) × (content : List ℕ)
            × IsInflow B.tells_cells B.tells_moments size start pool.old (B.view board.old) self content }
        ensures pool { (size : ℕ) (start : Start) (content : List ℕ)
            → IsInflow B.tells_cells B.tells_moments size start pool.old (B.view board.old) self content
            → OnOk result (pool.new ≡ start.pool) }
        ensures settled { B.tells_cells → OnOk result (IsSettled (B.view board.new)) }
        ensures touches { (size : ℕ) (start : Start) (content : List ℕ)
            → IsInflow B.tells_cells B.tells_moments size start pool.old (B.view board.old) self content
            → Touches B.tells_cells (InFree 84 start.pool) (B.view board.old) (B.view board.new) }
        ensures erased { (B.view board.new).erased ≡ (B.view board.old).erased }
        ensures device { HasLoadCause TakeFault.Device
            (B.view board.old).faults (B.view board.new).faults result }
    {
        let Inflow { front: _, stream } = self;
        match stream {
            Some(stream) => abandon_stream(stream, pool, board),
            None => Ok(()),
        }
    }
}

impl Intake {
    // Ends an item that has come whole.
    fn finish<B: Board>(
        self,
        alloc: Global,
        pool: &mut Pool,
        board: &mut B,
    ) -> Result<Held, TakeFault>
        requires some { (start : Start) × (item : List ℕ)
            × IsIntake B.tells_cells B.tells_moments start pool.old (B.view board.old) self item
            × IsSequence item }
        ensures outline { IfOk result (λ held. held.outline ≡ self.outline) }
        ensures streamed { (start : Start) (item : List ℕ)
            → IsIntake B.tells_cells B.tells_moments start pool.old (B.view board.old) self item
            → IsSequence item
            → IfOk result (λ held. HasStreamed B.tells_cells start.pool pool.new (B.view board.new)
            self.outline.cut (content_of self.outline.cut item) held.streamed) }
        ensures settled { B.tells_cells → OnOk result (IsSettled (B.view board.new)) }
        ensures touches { (start : Start) (item : List ℕ)
            → IsIntake B.tells_cells B.tells_moments start pool.old (B.view board.old) self item
            → Touches B.tells_cells (InFree 84 start.pool) (B.view board.old) (B.view board.new) }
        ensures erased { (B.view board.new).erased ≡ (B.view board.old).erased }
        ensures device { HasLoadCause TakeFault.Device
            (B.view board.old).faults (B.view board.new).faults result }
    {
        whole_item();
        let Intake { outline, inflow } = self;
        match outline.cut() {
            Some((_, size)) => {
                let streamed = inflow.finish(alloc, pool, board, size)?;
                Ok(Held {
                    outline,
                    streamed: Some(streamed),
                })
            }
            None => Ok(Held {
                outline,
                streamed: None,
            }),
        }
    }

    // Gives an item up: its blocks are free again, and nothing is pending.
    fn abandon<B: Board>(self, pool: &mut Pool, board: &mut B) -> Result<(), TakeFault>
        requires some { (start : Start) × (item : List ℕ)
            × IsIntake B.tells_cells B.tells_moments start pool.old (B.view board.old) self item }
        ensures pool { (start : Start) (item : List ℕ)
            → IsIntake B.tells_cells B.tells_moments start pool.old (B.view board.old) self item
            → OnOk result (pool.new ≡ start.pool) }
        ensures settled { B.tells_cells → OnOk result (IsSettled (B.view board.new)) }
        ensures touches { (start : Start) (item : List ℕ)
            → IsIntake B.tells_cells B.tells_moments start pool.old (B.view board.old) self item
            → Touches B.tells_cells (InFree 84 start.pool) (B.view board.old) (B.view board.new) }
        ensures erased { (B.view board.new).erased ≡ (B.view board.old).erased }
        ensures device { HasLoadCause TakeFault.Device
            (B.view board.old).faults (B.view board.new).faults result }
    {
        let Intake { outline: _, inflow } = self;
        inflow.abandon(pool, board)
    }
}

// Ends an item that is a whole SEQUENCE (true), or that the source has ended in or before (false).
pub fn end_item<B: Board>(
    alloc: Global,
    reader: Reader,
    whole: bool,
    pool: &mut Pool,
    board: &mut B,
) -> Result<Item, TakeFault>
    requires reading { (start : Start) × (octets : List ℕ) × (left : Option (List ℕ))
        × IsReading B.tells_cells B.tells_moments start pool.old (B.view board.old) reader octets
        × EndsItem whole left octets }
    ensures item { (start : Start) (octets : List ℕ) (left : Option (List ℕ))
        → IsReading B.tells_cells B.tells_moments start pool.old (B.view board.old) reader octets
        → EndsItem whole left octets
        → IfOk result (IsItemRead B.tells_cells start.pool pool.new (B.view board.new) left octets) }
    ensures last { IfOk result (λ item. IsLast item → whole ≡ false) }
    ensures settled { B.tells_cells → OnOk result (IsSettled (B.view board.new)) }
    ensures touches { (start : Start) (octets : List ℕ)
        → IsReading B.tells_cells B.tells_moments start pool.old (B.view board.old) reader octets
        → Touches B.tells_cells (InFree 84 start.pool) (B.view board.old) (B.view board.new) }
    ensures erased { (B.view board.new).erased ≡ (B.view board.old).erased }
    ensures device { HasLoadCause TakeFault.Device
        (B.view board.old).faults (B.view board.new).faults result }
{
    let Reader {
        started,
        skips,
        intake,
        ..
    } = reader;
    if !whole {
        intake.abandon(pool, board)?;
        if started {
            return Ok(Item::Unfinished);
        }
        return Ok(Item::End);
    }
    if skips {
        intake.abandon(pool, board)?;
        return Ok(Item::TooLong);
    }
    let held = intake.finish(alloc, pool, board)?;
    Ok(Item::Whole(held))
}
