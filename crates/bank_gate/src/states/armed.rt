// A bank whose gate may be opened.
ghost use Rattle.std.specs.Prelude.{◌≡◌, IfOk, OnOk};
ghost use Rattle.edge_board.specs.Causes.{HasCause};
ghost use Rattle.edge_board.specs.Board.{Within};
ghost use Rattle.edge_board.specs.Runs.{Touches};
ghost use Rattle.bank_gate.specs.Places.{LiesBelow, gate_at};
ghost use Rattle.bank_gate.specs.States.{IsArmed, IsOpened};

use super::Opened;
use crate::gate::OPEN;
use crate::{Fault, Place};
use edge_board::{BLOCK, Board};
use std::marker::Model;

/// A bank whose gate is FF, over a body that stands, with nothing pending. `Sealed::rearm` alone
/// gives one, and it can't be copied.
pub struct Armed {
    pub(super) place: Place,
}

impl Model for Armed {
    ghost use Rattle.bank_gate.specs.declared.place.Place.{Place};
    ghost use Rattle.bank_gate.specs.Places.{IsPlace};

    ghost Value = { Place };

    ghost view = { λ bank. bank.place };

    ghost invariant = { λ bank. IsPlace bank.place };
}

impl Armed {
    /// Opens the gate, and makes sure of it.
    pub fn open<B: Board>(self, board: &mut B) -> Result<Opened, Fault>
        requires lies { LiesBelow (B.view board.old).blocks self }
        requires armed { B.tells_cells → IsArmed self (B.view board.old) }
        ensures place { IfOk result (λ opened. opened ≡ self) }
        ensures opened { B.tells_cells → OnOk result (IsOpened self (B.view board.new)) }
        ensures touches { Touches B.tells_cells (Within (gate_at self) 1)
            (B.view board.old) (B.view board.new) }
        ensures erased { (B.view board.new).erased ≡ (B.view board.old).erased }
        ensures cause { HasCause (B.view board.old).faults (B.view board.new).faults result }
    {
        let Armed { place } = self;
        board.program(BLOCK * place.gate, &[OPEN])?;
        board.sync()?;
        Ok(Opened { place })
    }
}
