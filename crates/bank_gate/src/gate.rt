// The gate of a bank: the first octet of its block.
ghost use Rattle.std.specs.Prelude.{◌≡◌, ◌<◌, ◌↔◌, IfOk, true};
ghost use Rattle.edge_board.specs.Causes.{HasCause};
ghost use Rattle.edge_board.specs.Board.{Nowhere, Unchanged};
ghost use Rattle.edge_board.specs.Runs.{Touches};
ghost use Rattle.bank_gate.specs.States.{IsOpen};

use crate::{Fault, Place};
use edge_board::{BLOCK, Board};

// the octet of an open gate
pub(crate) const OPEN: u8 = 0x0f;

/// Whether the gate of a bank is open, as it reads now.
pub fn is_open<B: Board>(board: &mut B, place: Place) -> Result<bool, Fault>
    requires lies { place.gate < (B.view board.old).blocks }
    ensures gate { B.tells_cells
        → IfOk result (λ answer. (answer ≡ true) ↔ IsOpen place (B.view board.old).cells) }
    ensures unchanged { B.tells_cells → Unchanged (B.view board.old) (B.view board.new) }
    ensures touches { Touches B.tells_cells Nowhere (B.view board.old) (B.view board.new) }
    ensures erased { (B.view board.new).erased ≡ (B.view board.old).erased }
    ensures cause { HasCause (B.view board.old).faults (B.view board.new).faults result }
{
    let mut gate = [0u8; 1];
    board.read(BLOCK * place.gate, &mut gate)?;
    Ok(gate[0] == OPEN)
}
