// An item that comes in pieces.
ghost use Rattle.std.specs.Prelude.{◌≡◌, ◌+◌, ◌≤◌, ◌<◌, ◌++◌, [], ℕ, List, Option, length, take};
ghost use Rattle.std.specs.Prelude.{IfOk, IfSome, OnOk, None};
ghost use Rattle.edge_board.specs.Runs.{Touches};
ghost use Rattle.package_attrs.specs.Image.{blocks_for};
ghost use Rattle.content_stream.specs.Plans.{InFree};
ghost use Rattle.cms_signed.specs.Outline.{Sees, added};
ghost use Rattle.load_input.specs.Causes.{HasLoadCause};
ghost use Rattle.item_intake.specs.Inflows.{Start, RisesAtMost};
ghost use Rattle.item_intake.specs.Intakes.{IsOnItsWay, IsIntake};

use crate::fault::TakeFault;
use crate::inflow::Inflow;
use block_pool::Pool;
use cms_signed::{Outline, Part, outline_step};
use der_core::laws::slice_is_octets;
use edge_board::Board;
use std::alloc::Global;

/// An item of which octets have come: its outline, and its content on its way.
#[derive(Drop)]
pub struct Intake {
    pub(crate) outline: Outline,
    pub(crate) inflow: Inflow,
}

// Takes octets that are all of one part: those of the content go on their way.
fn put<B: Board>(
    alloc: Global,
    inflow: &mut Inflow,
    pool: &mut Pool,
    board: &mut B,
    part: Part,
    cut: Option<(usize, u32)>,
    octets: &[u8],
) -> Result<(), TakeFault>
    requires some { (start : Start) × (content : List ℕ)
        × IsOnItsWay B.tells_cells B.tells_moments start pool.old (B.view board.old) inflow.old cut content
        × IfSome cut (λ cut. length content + length (added part octets.now) ≤ cut.1) }
    ensures held { (start : Start) (content : List ℕ)
        → IsOnItsWay B.tells_cells B.tells_moments start pool.old (B.view board.old) inflow.old cut content
        → IfSome cut (λ cut. length content + length (added part octets.now) ≤ cut.1)
        → OnOk result (IsOnItsWay B.tells_cells B.tells_moments start pool.new (B.view board.new)
        inflow.new cut (content ++ added part octets.now)) }
    ensures touches { (start : Start) (content : List ℕ)
        → IsOnItsWay B.tells_cells B.tells_moments start pool.old (B.view board.old) inflow.old cut content
        → Touches B.tells_cells (InFree 84 start.pool) (B.view board.old) (B.view board.new) }
    ensures erased { (start : Start) (content : List ℕ)
        → IsOnItsWay B.tells_cells B.tells_moments start pool.old (B.view board.old) inflow.old cut content
        → RisesAtMost (blocks_for (length content + length octets.now)) start.erased
        (B.view board.new).erased }
    ensures device { HasLoadCause TakeFault.Device
        (B.view board.old).faults (B.view board.new).faults result }
{
    match part {
        Part::Frame => Ok(()),
        Part::Content => put_content(alloc, inflow, pool, board, cut, octets),
    }
}

// Takes octets of the content.
fn put_content<B: Board>(
    alloc: Global,
    inflow: &mut Inflow,
    pool: &mut Pool,
    board: &mut B,
    cut: Option<(usize, u32)>,
    octets: &[u8],
) -> Result<(), TakeFault>
    requires some { (start : Start) × (content : List ℕ)
        × IsOnItsWay B.tells_cells B.tells_moments start pool.old (B.view board.old) inflow.old cut content
        × IfSome cut (λ cut. length content + length octets.now ≤ cut.1) }
    ensures held { (start : Start) (content : List ℕ)
        → IsOnItsWay B.tells_cells B.tells_moments start pool.old (B.view board.old) inflow.old cut content
        → IfSome cut (λ cut. length content + length octets.now ≤ cut.1)
        → OnOk result (IsOnItsWay B.tells_cells B.tells_moments start pool.new (B.view board.new)
        inflow.new cut (content ++ octets.now)) }
    ensures touches { (start : Start) (content : List ℕ)
        → IsOnItsWay B.tells_cells B.tells_moments start pool.old (B.view board.old) inflow.old cut content
        → Touches B.tells_cells (InFree 84 start.pool) (B.view board.old) (B.view board.new) }
    ensures erased { (start : Start) (content : List ℕ)
        → IsOnItsWay B.tells_cells B.tells_moments start pool.old (B.view board.old) inflow.old cut content
        → RisesAtMost (blocks_for (length content + length octets.now)) start.erased
        (B.view board.new).erased }
    ensures device { HasLoadCause TakeFault.Device
        (B.view board.old).faults (B.view board.new).faults result }
{
    let Some((_, size)) = cut else {
        return Ok(());
    };
    inflow.take(alloc, pool, board, size, octets)
}

impl Intake {
    /// An item of which nothing has come.
    pub fn new(alloc: Global) -> Intake
        ensures outline { Sees result.outline [] }
        ensures front { result.inflow.front.items ≡ [] }
        ensures none { result.inflow.stream ≡ None }
    {
        Intake {
            outline: Outline::new(alloc),
            inflow: Inflow::new(alloc),
        }
    }

    // Takes the front of a piece, and answers how many octets it had.
    fn take_part<B: Board>(
        &mut self,
        alloc: Global,
        pool: &mut Pool,
        board: &mut B,
        piece: &[u8],
    ) -> Result<usize, TakeFault>
        requires some { (start : Start) × (item : List ℕ)
            × IsIntake B.tells_cells B.tells_moments start pool.old (B.view board.old) self.old item }
        ensures within { IfOk result (λ n. (n ≤ length piece.now) × (0 < length piece.now → 0 < n)) }
        ensures intake { (start : Start) (item : List ℕ)
            → IsIntake B.tells_cells B.tells_moments start pool.old (B.view board.old) self.old item
            → IfOk result (λ n. IsIntake B.tells_cells B.tells_moments start pool.new (B.view board.new)
            self.new (item ++ take n piece.now)) }
        ensures touches { (start : Start) (item : List ℕ)
            → IsIntake B.tells_cells B.tells_moments start pool.old (B.view board.old) self.old item
            → Touches B.tells_cells (InFree 84 start.pool) (B.view board.old) (B.view board.new) }
        ensures erased { (start : Start) (item : List ℕ)
            → IsIntake B.tells_cells B.tells_moments start pool.old (B.view board.old) self.old item
            → RisesAtMost (blocks_for (length item + length piece.now)) start.erased
            (B.view board.new).erased }
        ensures device { HasLoadCause TakeFault.Device
            (B.view board.old).faults (B.view board.new).faults result }
    {
        let taken = outline_step(&mut self.outline, piece)?;
        let cut = self.outline.cut();
        let octets = &piece[..taken.n];
        slice_is_octets(octets);
        put(
            alloc,
            &mut self.inflow,
            pool,
            board,
            taken.part,
            cut,
            octets,
        )?;
        Ok(taken.n)
    }

    /// Takes the next octets of the item.
    pub fn take<B: Board>(
        &mut self,
        alloc: Global,
        pool: &mut Pool,
        board: &mut B,
        piece: &[u8],
    ) -> Result<(), TakeFault>
        requires some { (start : Start) × (item : List ℕ)
            × IsIntake B.tells_cells B.tells_moments start pool.old (B.view board.old) self.old item }
        ensures intake { (start : Start) (item : List ℕ)
            → IsIntake B.tells_cells B.tells_moments start pool.old (B.view board.old) self.old item
            → OnOk result (IsIntake B.tells_cells B.tells_moments start pool.new (B.view board.new)
            self.new (item ++ piece.now)) }
        ensures touches { (start : Start) (item : List ℕ)
            → IsIntake B.tells_cells B.tells_moments start pool.old (B.view board.old) self.old item
            → Touches B.tells_cells (InFree 84 start.pool) (B.view board.old) (B.view board.new) }
        ensures erased { (start : Start) (item : List ℕ)
            → IsIntake B.tells_cells B.tells_moments start pool.old (B.view board.old) self.old item
            → RisesAtMost (blocks_for (length item + length piece.now)) start.erased
            (B.view board.new).erased }
        ensures device { HasLoadCause TakeFault.Device
            (B.view board.old).faults (B.view board.new).faults result }
    {
        let mut rest = piece;
        while !rest.is_empty() {
            let n = self.take_part(alloc, pool, board, rest)?;
            rest = &rest[n..];
        }
        Ok(())
    }
}
