// An item of a stream, piece by piece.
ghost use Rattle.std.specs.Prelude.{◌≡◌, ◌+◌, ◌≤◌, ◌<◌, ◌++◌, ℕ, true, false, List, length, take, OnOk};
ghost use Rattle.edge_board.specs.Runs.{Touches};
ghost use Rattle.package_attrs.specs.Image.{blocks_for};
ghost use Rattle.content_stream.specs.Plans.{InFree};
ghost use Rattle.der_core.specs.Items.{IsSequence, HasSequence, BeginsSequence};
ghost use Rattle.der_core.specs.Progress.{Declares, Sees};
ghost use Rattle.load_input.specs.Causes.{HasLoadCause};
ghost use Rattle.item_intake.specs.Inflows.{Start, RisesAtMost};
ghost use Rattle.judge_core.specs.Conditions.{most_contents};
ghost use Rattle.item_intake.specs.Reading.{IsPast, HasSplit, IsTaking, IsFresh, SplitsOff};

use crate::fault::TakeFault;
use crate::intake::Intake;
use block_pool::Pool;
use der_core::{Splitter, Step, declared, split_step};
use edge_board::Board;
use judge_core::MOST_CONTENTS;
use std::alloc::Global;

/// An item of which octets have come: where it ends, and what is kept of it.
#[derive(Drop)]
pub struct Reader {
    pub(crate) splitter: Splitter,
    // whether any octet has come
    pub(crate) started: bool,
    // whether it is read past
    pub(crate) skips: bool,
    pub(crate) intake: Intake,
}

/// The front of a piece that belongs to the item.
#[derive(Clone, Copy)]
pub struct Split {
    pub n: usize,
    pub ends: bool,
}

// Whether an item is read past: it was so far, begins no SEQUENCE, or declares more contents than
// are kept.
fn is_past(skips: bool, splitter: &Splitter, step: Step) -> bool
    ensures was { skips ≡ true → result ≡ true }
    ensures past { (item : List ℕ) → (skips ≡ true → IsPast item) → Sees splitter.now item
        → (step ≡ Step.Rest → BeginsSequence item → ⊥) → result ≡ true → IsPast item }
    ensures kept { (item : List ℕ) → Sees splitter.now item → result ≡ false
        → (size : ℕ) → Declares item size → size ≤ most_contents }
{
    if skips {
        return true;
    }
    if let Step::Rest = step {
        return true;
    }
    match declared(splitter) {
        Some(size) => size > MOST_CONTENTS,
        None => false,
    }
}

// The front of the piece that a step gives the item.
fn part_of(step: Step, size: usize) -> Split
    ensures ends { (n : ℕ) → step ≡ Step.Ends n → (result.n ≡ n) × (result.ends ≡ true) }
    ensures more { step ≡ Step.More → (result.n ≡ size) × (result.ends ≡ false) }
    ensures rest { step ≡ Step.Rest → (result.n ≡ size) × (result.ends ≡ false) }
{
    match step {
        Step::Ends(n) => Split { n, ends: true },
        Step::More => Split {
            n: size,
            ends: false,
        },
        Step::Rest => Split {
            n: size,
            ends: false,
        },
    }
}

impl Reader {
    /// An item of which nothing has come.
    pub fn new(alloc: Global) -> Reader
        ensures fresh { IsFresh result }
    {
        Reader {
            splitter: Splitter::new(),
            started: false,
            skips: false,
            intake: Intake::new(alloc),
        }
    }

    /// Finds what of a piece belongs to the item.
    pub fn split(&mut self, piece: &[u8]) -> Split
        requires some { 0 < length piece.now }
        ensures within { (result.n ≤ length piece.now) × (0 < result.n) }
        ensures intake { self.new.intake ≡ self.old.intake }
        ensures sticky { self.old.skips ≡ true → self.new.skips ≡ true }
        ensures split { (item : List ℕ) → HasSplit self.old.splitter self.old.started self.old.skips item
            → (HasSequence item → ⊥)
            → HasSplit self.new.splitter self.new.started self.new.skips
            (item ++ take result.n piece.now)
            × SplitsOff result.ends (item ++ take result.n piece.now) }
    {
        let step = split_step(&mut self.splitter, piece);
        self.started = true;
        self.skips = is_past(self.skips, &self.splitter, step);
        part_of(step, piece.len())
    }

    /// Takes octets of the item, unless it is read past.
    pub fn put<B: Board>(
        &mut self,
        alloc: Global,
        pool: &mut Pool,
        board: &mut B,
        octets: &[u8],
    ) -> Result<(), TakeFault>
        requires some { (start : Start) × (item : List ℕ)
            × IsTaking B.tells_cells B.tells_moments start pool.old (B.view board.old)
            self.old.intake self.old.skips item }
        ensures same { (self.new.splitter ≡ self.old.splitter) × (self.new.started ≡ self.old.started)
            × (self.new.skips ≡ self.old.skips) }
        ensures taking { (start : Start) (item : List ℕ)
            → IsTaking B.tells_cells B.tells_moments start pool.old (B.view board.old)
            self.old.intake self.old.skips item
            → OnOk result (IsTaking B.tells_cells B.tells_moments start pool.new (B.view board.new)
            self.new.intake self.new.skips (item ++ octets.now)) }
        ensures touches { (start : Start) (item : List ℕ)
            → IsTaking B.tells_cells B.tells_moments start pool.old (B.view board.old)
            self.old.intake self.old.skips item
            → Touches B.tells_cells (InFree 84 start.pool) (B.view board.old) (B.view board.new) }
        ensures erased { (start : Start) (item : List ℕ)
            → IsTaking B.tells_cells B.tells_moments start pool.old (B.view board.old)
            self.old.intake self.old.skips item
            → RisesAtMost (blocks_for (length item + length octets.now)) start.erased
            (B.view board.new).erased }
        ensures device { HasLoadCause TakeFault.Device
            (B.view board.old).faults (B.view board.new).faults result }
    {
        if self.skips {
            return Ok(());
        }
        self.intake.take(alloc, pool, board, octets)
    }
}
