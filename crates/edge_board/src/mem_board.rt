// A board in memory.
ghost use Rattle.std.specs.Prelude.{◌≡◌, ◌+◌, ◌-◌, ◌*◌, ◌<◌, ◌≤◌, ◌^◌, ◌↔◌, [], length, min, replicate, IsErr, IfOk, IfSome, IsSome, OnOk, OnErr, MatchResult, vec_len, vec_capacity};
ghost use Rattle.edge_board.specs.Board.{IsSettled};
ghost use Rattle.edge_board.specs.BoardPlan.{IsToFail, GoesOn, StandsStill};
ghost use Rattle.edge_board.specs.Calls.{ReadsAt, ErasesBlock, ProgramsAt, BlanksAt, Syncs, SendsSome};
ghost use Rattle.edge_board.specs.Events.{run, begun, view_honest};
ghost use Rattle.edge_board.specs.Picks.{IsPicked};

use crate::cells::{clear_flags, copy_octets, copy_of, mark_filled, mark_written, read_octets};
use crate::event::{BoardEvent, record_fill, record_program, record_send};
use crate::pick::{Pick, pick_cells};
use crate::schedule::Schedule;
use crate::{BLOCK, Board, Failed};
use std::alloc::{AllocError, Global};

/// A board in memory, which fails where its maker planned it, and tells all that it is asked.
///
/// It keeps a record of its calls, step by step, so that each moment of them can be asked for what
/// a power cut leaves. Its calls that answer a Result are numbered from 0. Those whose numbers are
/// listed fail, and all from one number on; so does a program or a send that is out of room. A
/// clause sees all of it by `board_plan`.
#[derive(Drop)]
pub struct MemBoard {
    blocks: u32,
    // the cells at its start
    base: Vec<u8>,
    cells: Vec<u8>,
    pending: Vec<bool>,
    synced: Vec<u8>,
    sent: Vec<u8>,
    events: Vec<BoardEvent>,
    erased: u64,
    schedule: Schedule,
    ghost least: { 1 ≤ blocks },
    ghost most: { blocks ≤ 8276 },
    ghost sized: { length base.items ≡ 4096 * blocks },

    // The record leads to what stands here, and has steps left for each call that is.
    ghost stands: { run (begun base.items) events.items ≡ record {
      cells = cells.items;
      pending = pending.items;
      synced = synced.items;
      sent = sent.items;
    } },
    ghost few: { erased ≤ schedule.made },
    ghost steps: { vec_len events + 2 * (schedule.calls - schedule.made) + schedule.room
        ≤ vec_capacity events },
    ghost spare: { vec_len sent + schedule.room ≤ vec_capacity sent },
}

// How many steps a record has at most: two for each call, and one for each octet. None where that
// is more than a list can have.
fn step_count(calls: u64, room: usize) -> Option<usize>
    ensures some { IfSome result (λ steps. steps ≡ 2 * calls + room) }
    ensures fits { 2 * calls + room < 2 ^ 64 → IsSome result }
{
    usize::try_from(calls)
        .ok()?
        .checked_mul(2)?
        .checked_add(room)
}

impl MemBoard {
    ghost use Rattle.edge_board.specs.MemBoard.{mem_view, board_plan, synced_cells, Begins};
    ghost use Rattle.edge_board.specs.Schedules.{plan_of};

    // A board that begins with these cells.
    fn with_cells(
        alloc: Global,
        blocks: u32,
        cells: Vec<u8>,
        schedule: Schedule,
    ) -> Result<MemBoard, AllocError>
        requires least { 1 ≤ blocks }
        requires most { blocks ≤ 8276 }
        requires size { length cells.items ≡ 4096 * blocks }
        requires made { schedule.made ≡ 0 }
        requires faults { schedule.faults ≡ 0 }
        ensures begins { IfOk result (Begins blocks cells.items) }
        ensures plan { IfOk result (λ b. board_plan b ≡ plan_of schedule) }
    {
        let size = cells.len();
        let room = schedule.room();
        let steps = step_count(schedule.calls(), room).ok_or(AllocError)?;
        Ok(MemBoard {
            blocks,
            base: copy_of(alloc, &cells)?,
            pending: vec![in alloc; false; size]?,
            synced: copy_of(alloc, &cells)?,
            sent: Vec::with_capacity(alloc, room)?,
            events: Vec::with_capacity(alloc, steps)?,
            erased: 0,
            schedule,
            cells,
        })
    }

    /// A board of so many blocks, whose calls fail as planned: those with the listed numbers, all
    /// from the number `calls` on, and what passes `room` octets of programs and sends together.
    /// It reserves its record at once.
    pub fn new(
        alloc: Global,
        blocks: u32,
        failing: Vec<u64>,
        calls: u64,
        room: usize,
    ) -> Result<MemBoard, AllocError>
        requires least { 1 ≤ blocks }
        requires most { blocks ≤ 8276 }
        ensures begins { IfOk result (Begins blocks (replicate (4096 * blocks) 255)) }
        ensures plan { IfOk result (λ b. board_plan b ≡ record {
          made = 0;
          failing = failing.items;
          calls = calls;
          room = room;
          faults = 0;
        }) }
    {
        let cells = vec![in alloc; 0xffu8; (BLOCK * blocks) as usize]?;
        MemBoard::with_cells(alloc, blocks, cells, Schedule::new(failing, calls, room))
    }

    /// The board after a power cut: the picked image, nothing pending, nothing sent, and a new
    /// record and room. Want of memory hands nothing back.
    pub fn stopped(
        self,
        alloc: Global,
        pick: Pick,
        calls: u64,
        room: usize,
    ) -> Result<MemBoard, AllocError>
        ensures begins { IfOk result (λ b. Begins (mem_view self).blocks (mem_view b).cells b) }
        ensures image { IfOk result (λ b. IsPicked pick (mem_view self).pending
            (mem_view self).cells (synced_cells self) (mem_view b).cells) }
        ensures keep { pick ≡ Pick.Keep
            → IfOk result (λ b. (mem_view b).cells ≡ (mem_view self).cells) }
        ensures plan { IfOk result (λ b. board_plan b ≡ record {
          made = 0;
          failing = [];
          calls = calls;
          room = room;
          faults = 0;
        }) }
    {
        let MemBoard {
            blocks,
            base: _,
            mut cells,
            pending,
            synced,
            sent: _,
            events: _,
            erased: _,
            schedule: _,
        } = self;
        pick_cells(&mut cells, &pending, &synced, pick);
        let schedule = Schedule::new(Vec::new(alloc), calls, room);
        MemBoard::with_cells(alloc, blocks, cells, schedule)
    }

    /// What was sent.
    pub fn sent_octets(&self) -> &[u8]
        ensures sent { (mem_view self.now).sent result.now }
    {
        &self.sent
    }

    /// How many blocks were erased.
    pub fn erase_count(&self) -> u64
        ensures erased { result ≡ (mem_view self.now).erased }
    {
        self.erased
    }
}

impl Board for MemBoard {
    ghost use Rattle.edge_board.specs.MemBoard.{mem_view, board_plan, synced_cells};

    ghost tells_cells = { Unit {0} };

    ghost tells_moments = { Unit {0} };

    ghost view = { mem_view };

    ghost honest = { λ b. view_honest b.blocks b.base.items b.events.items b.erased b.schedule.faults
        b.least b.most b.sized };

    fn blocks(&self) -> u32 {
        self.blocks
    }

    fn read(&mut self, at: u32, into: &mut [u8]) -> Result<(), Failed>
        requires within { at + length into.old ≤ 4096 * (mem_view self.old).blocks }
        ensures reads { ReadsAt (Unit {0}) (Unit {0}) at into.new (mem_view self.old)
            (mem_view self.new) result }
        ensures fails { IsErr result ↔ IsToFail 0 (board_plan self.old) }
        ensures plan { GoesOn 0 (board_plan self.old) (board_plan self.new) result }
        ensures failed { OnErr result (StandsStill (mem_view self.old) (mem_view self.new)) }
        ensures synced { synced_cells self.new ≡ synced_cells self.old }
    {
        self.schedule.count(0)?;
        read_octets(&self.cells, at as usize, into);
        Ok(())
    }

    fn erase(&mut self, block: u32) -> Result<(), Failed>
        requires within { block < (mem_view self.old).blocks }
        ensures erases { ErasesBlock (Unit {0}) (Unit {0}) block (mem_view self.old)
            (mem_view self.new) result }
        ensures fails { IsErr result ↔ IsToFail 0 (board_plan self.old) }
        ensures plan { GoesOn 0 (board_plan self.old) (board_plan self.new) result }
        ensures failed { OnErr result (StandsStill (mem_view self.old) (mem_view self.new)) }
        ensures synced { synced_cells self.new ≡ synced_cells self.old }
    {
        self.schedule.count(0)?;
        let at = BLOCK * block;
        record_fill(&mut self.events, at, BLOCK, 0xff);
        mark_filled(
            &mut self.pending,
            &mut self.cells,
            at as usize,
            BLOCK as usize,
            0xff,
        );
        self.erased += 1;
        Ok(())
    }

    fn program(&mut self, at: u32, bytes: &[u8]) -> Result<(), Failed>
        requires within { at + length bytes.now ≤ 4096 * (mem_view self.old).blocks }
        ensures programs { ProgramsAt (Unit {0}) (Unit {0}) at bytes.now (mem_view self.old)
            (mem_view self.new) result }

        // It needs room for all of its octets.
        ensures fails { IsErr result ↔ IsToFail (length bytes.now) (board_plan self.old) }
        ensures plan { GoesOn (length bytes.now) (board_plan self.old) (board_plan self.new)
            result }
        ensures failed { OnErr result (StandsStill (mem_view self.old) (mem_view self.new)) }
        ensures synced { synced_cells self.new ≡ synced_cells self.old }
    {
        self.schedule.count(bytes.len())?;
        record_program(&mut self.events, at, bytes);
        mark_written(&mut self.pending, &mut self.cells, at as usize, bytes);
        Ok(())
    }

    fn blank(&mut self, at: u32) -> Result<(), Failed>
        requires within { at < 4096 * (mem_view self.old).blocks }
        ensures blanks { BlanksAt (Unit {0}) (Unit {0}) at (mem_view self.old) (mem_view self.new)
            result }
        ensures fails { IsErr result ↔ IsToFail 0 (board_plan self.old) }
        ensures plan { GoesOn 0 (board_plan self.old) (board_plan self.new) result }
        ensures failed { OnErr result (StandsStill (mem_view self.old) (mem_view self.new)) }
        ensures synced { synced_cells self.new ≡ synced_cells self.old }
    {
        self.schedule.count(0)?;
        record_fill(&mut self.events, at, 1, 0);
        mark_filled(&mut self.pending, &mut self.cells, at as usize, 1, 0);
        Ok(())
    }

    fn sync(&mut self) -> Result<(), Failed>
        ensures syncs { Syncs (Unit {0}) (Unit {0}) (mem_view self.old) (mem_view self.new) result }
        ensures fails { IsErr result ↔ IsToFail 0 (board_plan self.old) }
        ensures plan { GoesOn 0 (board_plan self.old) (board_plan self.new) result }
        ensures failed { OnErr result (StandsStill (mem_view self.old) (mem_view self.new)) }

        // What reads now is what `Pick::Before` gives back.
        ensures synced { MatchResult result
            (λ _. synced_cells self.new ≡ (mem_view self.new).cells)
            (λ _. synced_cells self.new ≡ synced_cells self.old) }
    {
        self.schedule.count(0)?;
        self.events.push_reserved(BoardEvent::Sync);
        clear_flags(&mut self.pending);
        copy_octets(&mut self.synced, &self.cells);
        Ok(())
    }

    fn send(&mut self, bytes: &[u8]) -> Result<usize, Failed>
        ensures sends { SendsSome (Unit {0}) (Unit {0}) bytes.now (mem_view self.old)
            (mem_view self.new) result }

        // It needs room for one octet, if there is any, and takes as many as there is room for.
        ensures fails { IsErr result ↔ IsToFail (min 1 (length bytes.now)) (board_plan self.old) }
        ensures taken { IfOk result
            (λ n. n ≡ min (board_plan self.old).room (length bytes.now)) }
        ensures plan { GoesOn (min (board_plan self.old).room (length bytes.now))
            (board_plan self.old) (board_plan self.new) result }
        ensures failed { OnErr result (StandsStill (mem_view self.old) (mem_view self.new)) }
        ensures synced { synced_cells self.new ≡ synced_cells self.old }
    {
        let taken = self.schedule.room().min(bytes.len());
        let needed = bytes.len().min(1).max(taken);
        self.schedule.count(needed)?;
        record_send(&mut self.events, &mut self.sent, &bytes[..taken]);
        Ok(taken)
    }
}
