// A bank whose body stands.
ghost use Rattle.std.specs.Prelude.{◌≡◌, IfOk, OnOk};
ghost use Rattle.edge_board.specs.Causes.{HasCause};
ghost use Rattle.edge_board.specs.Board.{InBlock, AllRead};
ghost use Rattle.edge_board.specs.Runs.{Touches};
ghost use Rattle.bank_gate.specs.Places.{LiesBelow, gate_at};
ghost use Rattle.bank_gate.specs.States.{IsSealed, IsArmed, RisesAtMost};

use super::Armed;
use crate::{Fault, Place};
use edge_board::Board;
use std::marker::Model;

/// A bank that isn't open, and whose body stands after each power cut, since nothing is pending.
/// `Wiped::seal` alone gives one, and it can't be copied.
pub struct Sealed {
    pub(super) place: Place,
}

impl Model for Sealed {
    ghost use Rattle.bank_gate.specs.declared.place.Place.{Place};
    ghost use Rattle.bank_gate.specs.Places.{IsPlace};

    ghost Value = { Place };

    ghost view = { λ bank. bank.place };

    ghost invariant = { λ bank. IsPlace bank.place };
}

impl Sealed {
    /// Erases the gate's block, over a body that is sealed, and makes sure of it.
    pub fn rearm<B: Board>(self, board: &mut B) -> Result<Armed, Fault>
        requires lies { LiesBelow (B.view board.old).blocks self }
        requires sealed { B.tells_cells → IsSealed self (B.view board.old) }
        ensures place { IfOk result (λ armed. armed ≡ self) }
        ensures armed { B.tells_cells → OnOk result (IsArmed self (B.view board.new)) }
        ensures reads { B.tells_cells → OnOk result (AllRead (gate_at self) 4096 255
            (B.view board.new).cells) }
        ensures touches { Touches B.tells_cells (InBlock self.gate)
            (B.view board.old) (B.view board.new) }
        ensures erased { RisesAtMost 1 (B.view board.old).erased (B.view board.new).erased }
        ensures cause { HasCause (B.view board.old).faults (B.view board.new).faults result }
    {
        let Sealed { place } = self;
        board.erase(place.gate)?;
        board.sync()?;
        Ok(Armed { place })
    }
}
