// A bank that is to be written.
ghost use Rattle.std.specs.Prelude.{◌≡◌, IfOk, OnOk};
ghost use Rattle.edge_board.specs.Causes.{HasCause};
ghost use Rattle.edge_board.specs.Board.{Nowhere, Within, IsSettled, cell};
ghost use Rattle.edge_board.specs.Runs.{Touches};
ghost use Rattle.bank_gate.specs.Places.{LiesBelow, IsPlace, gate_at};
ghost use Rattle.bank_gate.specs.States.{IsOpen, IsShut};

use super::Closed;
use crate::{Fault, Place, is_open};
use edge_board::{BLOCK, Board};
use std::marker::Model;

/// A bank that is to be written, while nothing is pending on the board. It can't be copied or let
/// go: each call takes it and gives the next state.
pub struct Idle {
    pub(super) place: Place,
}

impl Model for Idle {
    ghost use Rattle.bank_gate.specs.declared.place.Place.{Place};
    ghost use Rattle.bank_gate.specs.Places.{IsPlace};

    ghost Value = { Place };

    ghost view = { λ bank. bank.place };

    ghost invariant = { λ bank. IsPlace bank.place };
}

impl Idle {
    /// The way in: a bank that is to be written.
    pub fn new(place: Place) -> Idle
        requires lies { IsPlace place }
        ensures place { result ≡ place }
    {
        Idle { place }
    }

    /// Closes the gate: blanks an open one, and makes sure of it. A gate that isn't open is left
    /// as it is, since a blank would make it pending, and a pending octet may read as 0F.
    pub fn close<B: Board>(self, board: &mut B) -> Result<Closed, Fault>
        requires lies { LiesBelow (B.view board.old).blocks self }
        requires idle { B.tells_cells → IsSettled (B.view board.old) }
        ensures place { IfOk result (λ closed. closed ≡ self) }
        ensures settled { B.tells_cells → OnOk result (IsSettled (B.view board.new)) }
        ensures shut { B.tells_cells → OnOk result (IsShut self (B.view board.new)) }
        ensures blanked { B.tells_cells → IsOpen self (B.view board.old).cells
            → OnOk result (cell (B.view board.new).cells (gate_at self) ≡ 0) }

        // Where the gate isn't open, nothing is written.
        ensures already { B.tells_cells → ¬ IsOpen self (B.view board.old).cells
            → Touches B.tells_cells Nowhere (B.view board.old) (B.view board.new) }
        ensures touches { Touches B.tells_cells (Within (gate_at self) 1)
            (B.view board.old) (B.view board.new) }
        ensures erased { (B.view board.new).erased ≡ (B.view board.old).erased }
        ensures cause { HasCause (B.view board.old).faults (B.view board.new).faults result }
    {
        let Idle { place } = self;
        if !is_open(board, place)? {
            return Ok(Closed { place });
        }
        board.blank(BLOCK * place.gate)?;
        board.sync()?;
        Ok(Closed { place })
    }
}
