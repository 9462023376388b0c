// A bank whose gate is shut.
ghost use Rattle.std.specs.Prelude.{◌≡◌, ◌*◌, IfOk, OnOk};
ghost use Rattle.edge_board.specs.Causes.{HasCause};
ghost use Rattle.edge_board.specs.Board.{AllRead};
ghost use Rattle.edge_board.specs.Runs.{Touches};
ghost use Rattle.bank_gate.specs.Places.{LiesBelow, InManifest};
ghost use Rattle.bank_gate.specs.States.{IsShut, RisesAtMost};

use super::Wiped;
use crate::{Fault, Place};
use edge_board::Board;
use std::marker::Model;

/// A bank that no power cut leaves open. `Idle::close` alone gives one, and it can't be copied.
pub struct Closed {
    pub(super) place: Place,
}

impl Model for Closed {
    ghost use Rattle.bank_gate.specs.declared.place.Place.{Place};
    ghost use Rattle.bank_gate.specs.Places.{IsPlace};

    ghost Value = { Place };

    ghost view = { λ bank. bank.place };

    ghost invariant = { λ bank. IsPlace bank.place };
}

impl Closed {
    /// Erases the manifest's blocks.
    pub fn wipe<B: Board>(self, board: &mut B) -> Result<Wiped, Fault>
        requires lies { LiesBelow (B.view board.old).blocks self }
        requires shut { B.tells_cells → IsShut self (B.view board.old) }
        ensures place { IfOk result (λ wiped. wiped ≡ self) }
        ensures shut { B.tells_cells → IsShut self (B.view board.new) }
        ensures reads { B.tells_cells → OnOk result (AllRead (4096 * self.manifest)
            (4096 * self.manifest_blocks) 255 (B.view board.new).cells) }
        ensures touches { Touches B.tells_cells (InManifest self)
            (B.view board.old) (B.view board.new) }
        ensures erased { RisesAtMost self.manifest_blocks (B.view board.old).erased
            (B.view board.new).erased }
        ensures cause { HasCause (B.view board.old).faults (B.view board.new).faults result }
    {
        let Closed { place } = self;
        for block in place.manifest..place.manifest + place.manifest_blocks {
            board.erase(block)?;
        }
        Ok(Wiped { place })
    }
}
