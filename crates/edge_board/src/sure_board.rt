// A board that never fails.
ghost use Rattle.std.specs.Prelude.{◌≡◌, ◌+◌, ◌*◌, ◌<◌, ◌≤◌, List, ℕ, [], length, replicate, IsOk, IsOkAnd, IfOk};
ghost use Rattle.edge_board.specs.Board.{IsSettled};
ghost use Rattle.edge_board.specs.Calls.{ReadsAt, ErasesBlock, ProgramsAt, BlanksAt, Syncs, SendsSome};
ghost use Rattle.edge_board.specs.SureViews.{cells_honest};
ghost use Rattle.sha2.specs.Sha256.{sha256};

use crate::cells::{clear_flags, mark_filled, mark_written, read_octets};
use crate::{BLOCK, Board, Failed};
use sha2::{Digest, Sha256};
use std::alloc::{AllocError, Global};

/// A board in memory that never fails, and keeps no octet of what is sent.
///
/// It tells its cells, and no moments. Its count of faults is always 0. Of what was sent it keeps
/// the SHA-256 state, and its test `sent` holds of the lists that this state has taken in.
#[derive(Drop)]
pub struct SureBoard {
    blocks: u32,
    cells: Vec<u8>,
    pending: Vec<bool>,
    hash: Sha256,
    ghost least: { 1 ≤ blocks },
    ghost most: { blocks ≤ 8276 },
    ghost sized: { length cells.items ≡ 4096 * blocks },
    ghost flags: { length pending.items ≡ 4096 * blocks },
}

impl SureBoard {
    ghost use Rattle.edge_board.specs.SureBoard.{sure_view};

    /// A board of so many blocks, whose cells all read FF.
    pub fn new(alloc: Global, blocks: u32) -> Result<SureBoard, AllocError>
        requires least { 1 ≤ blocks }
        requires most { blocks ≤ 8276 }
        ensures blocks { IfOk result (λ b. (sure_view b).blocks ≡ blocks) }
        ensures cells { IfOk result (λ b. (sure_view b).cells ≡ replicate (4096 * blocks) 255) }
        ensures settled { IfOk result (λ b. IsSettled (sure_view b)) }
        ensures sent { IfOk result (λ b. (sure_view b).sent []) }
        ensures faults { IfOk result (λ b. (sure_view b).faults ≡ 0) }
    {
        let size = (BLOCK * blocks) as usize;
        Ok(SureBoard {
            blocks,
            cells: vec![in alloc; 0xffu8; size]?,
            pending: vec![in alloc; false; size]?,
            hash: Sha256::new(),
        })
    }

    /// The SHA-256 of what was sent.
    pub fn digest(self) -> [u8; 32]
        ensures digest { (s : List ℕ) → (sure_view self).sent s → result ≡ sha256 s }
    {
        let SureBoard { hash, .. } = self;
        hash.finalize()
    }
}

impl Board for SureBoard {
    ghost use Rattle.edge_board.specs.SureBoard.{sure_view};

    ghost tells_cells = { Unit {0} };

    ghost tells_moments = { ⊥ };

    ghost view = { sure_view };

    ghost honest = { λ b. cells_honest b.blocks b.cells.items b.pending.items (sure_view b).sent
        b.least b.most b.sized };

    fn blocks(&self) -> u32 {
        self.blocks
    }

    fn read(&mut self, at: u32, into: &mut [u8]) -> Result<(), Failed>
        requires within { at + length into.old ≤ 4096 * (sure_view self.old).blocks }
        ensures reads { ReadsAt (Unit {0}) ⊥ at into.new (sure_view self.old) (sure_view self.new)
            result }
        ensures ok { IsOk result }
    {
        read_octets(&self.cells, at as usize, into);
        Ok(())
    }

    fn erase(&mut self, block: u32) -> Result<(), Failed>
        requires within { block < (sure_view self.old).blocks }
        ensures erases { ErasesBlock (Unit {0}) ⊥ block (sure_view self.old) (sure_view self.new)
            result }
        ensures ok { IsOk result }
    {
        let at = (BLOCK * block) as usize;
        mark_filled(&mut self.pending, &mut self.cells, at, BLOCK as usize, 0xff);
        Ok(())
    }

    fn program(&mut self, at: u32, bytes: &[u8]) -> Result<(), Failed>
        requires within { at + length bytes.now ≤ 4096 * (sure_view self.old).blocks }
        ensures programs { ProgramsAt (Unit {0}) ⊥ at bytes.now (sure_view self.old)
            (sure_view self.new) result }
        ensures ok { IsOk result }
    {
        mark_written(&mut self.pending, &mut self.cells, at as usize, bytes);
        Ok(())
    }

    fn blank(&mut self, at: u32) -> Result<(), Failed>
        requires within { at < 4096 * (sure_view self.old).blocks }
        ensures blanks { BlanksAt (Unit {0}) ⊥ at (sure_view self.old) (sure_view self.new)
            result }
        ensures ok { IsOk result }
    {
        mark_filled(&mut self.pending, &mut self.cells, at as usize, 1, 0);
        Ok(())
    }

    fn sync(&mut self) -> Result<(), Failed>
        ensures syncs { Syncs (Unit {0}) ⊥ (sure_view self.old) (sure_view self.new) result }
        ensures ok { IsOk result }
    {
        clear_flags(&mut self.pending);
        Ok(())
    }

    fn send(&mut self, bytes: &[u8]) -> Result<usize, Failed>
        ensures sends { SendsSome (Unit {0}) ⊥ bytes.now (sure_view self.old) (sure_view self.new)
            result }

        // It takes all of them.
        ensures ok { IsOkAnd result (λ n. n ≡ length bytes.now) }
    {
        self.hash.update(bytes);
        Ok(bytes.len())
    }
}
