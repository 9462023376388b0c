// A bank whose body may be written.
ghost use Rattle.std.specs.Prelude.{◌≡◌, ◌*◌, ◌<◌, length, IfOk, OnOk};
ghost use Rattle.edge_board.specs.Causes.{HasCause};
ghost use Rattle.edge_board.specs.Board.{Nowhere, Within, InBlock, AllRead};
ghost use Rattle.edge_board.specs.Runs.{Touches};
ghost use Rattle.bank_gate.specs.Places.{LiesBelow, LiesInBody};
ghost use Rattle.bank_gate.specs.States.{IsShut, IsSealed, Stands, Copies, RisesAtMost};

use super::Sealed;
use crate::{Fault, Place};
use edge_board::{BLOCK, Board};
use std::marker::Model;

/// A bank that no power cut leaves open, and whose body is written. `Closed::wipe` and the calls
/// that write give one, and it can't be copied.
pub struct Wiped {
    pub(super) place: Place,
}

impl Model for Wiped {
    ghost use Rattle.bank_gate.specs.declared.place.Place.{Place};
    ghost use Rattle.bank_gate.specs.Places.{IsPlace};

    ghost Value = { Place };

    ghost view = { λ bank. bank.place };

    ghost invariant = { λ bank. IsPlace bank.place };
}

impl Wiped {
    /// Erases one block of the area.
    pub fn erase<B: Board>(self, board: &mut B, block: u32) -> Result<Wiped, Fault>
        requires lies { LiesBelow (B.view board.old).blocks self }
        requires block { Within self.area self.area_blocks block }
        requires shut { B.tells_cells → IsShut self (B.view board.old) }
        ensures place { IfOk result (λ wiped. wiped ≡ self) }
        ensures shut { B.tells_cells → IsShut self (B.view board.new) }
        ensures reads { B.tells_cells → OnOk result (AllRead (4096 * block) 4096 255
            (B.view board.new).cells) }
        ensures touches { Touches B.tells_cells (InBlock block)
            (B.view board.old) (B.view board.new) }
        ensures erased { RisesAtMost 1 (B.view board.old).erased (B.view board.new).erased }
        ensures cause { HasCause (B.view board.old).faults (B.view board.new).faults result }
    {
        let Wiped { place } = self;
        board.erase(block)?;
        Ok(Wiped { place })
    }

    /// Programs octets of the manifest or of the area, from position `at` on. They read FF.
    pub fn put<B: Board>(self, board: &mut B, at: u32, bytes: &[u8]) -> Result<Wiped, Fault>
        requires lies { LiesBelow (B.view board.old).blocks self }
        requires inside { LiesInBody self at (length bytes.now) }
        requires blank { B.tells_cells
            → AllRead at (length bytes.now) 255 (B.view board.old).cells }
        requires shut { B.tells_cells → IsShut self (B.view board.old) }
        ensures place { IfOk result (λ wiped. wiped ≡ self) }
        ensures shut { B.tells_cells → IsShut self (B.view board.new) }
        ensures reads { B.tells_cells → OnOk result (Stands at bytes.now (B.view board.new).cells) }
        ensures touches { Touches B.tells_cells (Within at (length bytes.now))
            (B.view board.old) (B.view board.new) }
        ensures erased { (B.view board.new).erased ≡ (B.view board.old).erased }
        ensures cause { HasCause (B.view board.old).faults (B.view board.new).faults result }
    {
        let Wiped { place } = self;
        board.program(at, bytes)?;
        Ok(Wiped { place })
    }

    /// Copies a block of the board to a block of the area that reads FF.
    pub fn copy<B: Board>(self, board: &mut B, from: u32, to: u32) -> Result<Wiped, Fault>
        requires lies { LiesBelow (B.view board.old).blocks self }
        requires from { from < (B.view board.old).blocks }
        requires to { Within self.area self.area_blocks to }
        requires blank { B.tells_cells → AllRead (4096 * to) 4096 255 (B.view board.old).cells }
        requires shut { B.tells_cells → IsShut self (B.view board.old) }
        ensures place { IfOk result (λ wiped. wiped ≡ self) }
        ensures shut { B.tells_cells → IsShut self (B.view board.new) }
        ensures reads { B.tells_cells → OnOk result (Copies (4096 * from) (4096 * to) 4096
            (B.view board.old).cells (B.view board.new).cells) }
        ensures touches { Touches B.tells_cells (InBlock to)
            (B.view board.old) (B.view board.new) }
        ensures erased { (B.view board.new).erased ≡ (B.view board.old).erased }
        ensures cause { HasCause (B.view board.old).faults (B.view board.new).faults result }
    {
        let Wiped { place } = self;
        let mut block = [0u8; BLOCK as usize];
        board.read(BLOCK * from, &mut block)?;
        board.program(BLOCK * to, &block)?;
        Ok(Wiped { place })
    }

    /// Makes sure of the body: with Ok it is the same after each power cut.
    pub fn seal<B: Board>(self, board: &mut B) -> Result<Sealed, Fault>
        requires shut { B.tells_cells → IsShut self (B.view board.old) }
        ensures place { IfOk result (λ sealed. sealed ≡ self) }
        ensures shut { B.tells_cells → IsShut self (B.view board.new) }
        ensures sealed { B.tells_cells → OnOk result (IsSealed self (B.view board.new)) }
        ensures cells { B.tells_cells → (B.view board.new).cells ≡ (B.view board.old).cells }
        ensures touches { Touches B.tells_cells Nowhere (B.view board.old) (B.view board.new) }
        ensures erased { (B.view board.new).erased ≡ (B.view board.old).erased }
        ensures cause { HasCause (B.view board.old).faults (B.view board.new).faults result }
    {
        let Wiped { place } = self;
        board.sync()?;
        Ok(Sealed { place })
    }
}
