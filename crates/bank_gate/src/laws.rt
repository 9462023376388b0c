// Laws over boards, for the layers that make several calls.
ghost use Rattle.std.specs.Prelude.{◌≡◌, ◌↔◌, ℕ, List, Bool};
ghost use Rattle.edge_board.specs.Board.{IsSettled, Leaves, InBlock, Keeps, Nowhere, Within, cell};
ghost use Rattle.edge_board.specs.Runs.{LeavesOnly, Touches};
ghost use Rattle.bank_gate.specs.declared.place.Place.{Place};
ghost use Rattle.bank_gate.specs.Places.{IsPlace, LiesBelow, InBody, gate_at};
ghost use Rattle.bank_gate.specs.States.{IsOpen, IsOpened, IsSealed, IsShut};
ghost use Rattle.bank_gate.specs.Writing.{InSet, WritesBehind, RewriteMoment};

use edge_board::Board;

/// A law: that a gate is shut says exactly that no power cut leaves it open.
pub fn shut_is_no_open_image<B: Board>()
    ensures images { B.tells_cells → (board : B) (place : Place) → LiesBelow (B.view board).blocks place
        → (IsShut place (B.view board)
        ↔ ((image : List ℕ) → Leaves (B.view board) image → ¬ IsOpen place image)) }
{}

/// A law: where nothing is pending, a power cut leaves the cells as they read. So the body of a
/// sealed, armed or opened bank stands after each, an armed gate is FF, and an opened one is 0F.
pub fn settled_board_has_one_image<B: Board>()
    ensures image { B.tells_cells → (board : B) (image : List ℕ) → IsSettled (B.view board)
        → Leaves (B.view board) image → image ≡ (B.view board).cells }
{}

/// A law: a run of calls that writes the body alone opens a shut gate at no moment.
pub fn no_open_gate_while_written<B: Board>()
    ensures shut { B.tells_cells → (old new : B) (place : Place) (image sent : List ℕ) → IsPlace place
        → IsShut place (B.view old)
        → Touches B.tells_cells (InBody place) (B.view old) (B.view new)
        → (B.view new).might (B.view old).clock image sent → ¬ IsOpen place image }
{}

/// A law: a run of calls that writes the gate's block alone, over a board where nothing is pending,
/// leaves the body as it was at each moment: so do `rearm` and `open`.
pub fn body_stands_while_switched<B: Board>()
    ensures body { B.tells_cells → (old new : B) (place : Place) (image sent : List ℕ) (i : ℕ)
        → IsPlace place → IsSettled (B.view old)
        → Touches B.tells_cells (InBlock place.gate) (B.view old) (B.view new)
        → (B.view new).might (B.view old).clock image sent
        → InBody place i → cell image i ≡ cell (B.view old).cells i }
{}

/// A law: a gate is closed, and then calls that spare it change the free positions behind it. In
/// each image the gate is open only where nothing has changed since.
pub fn calls_write_behind_a_closed_gate<B: Board>()
    ensures close { B.tells_cells → (start new : B) (place : Place) (free : ℕ → Bool)
        → IsSettled (B.view start)
        → Touches B.tells_cells (Within (gate_at place) 1) (B.view start) (B.view new)
        → (¬ IsOpen place (B.view start).cells
        → Touches B.tells_cells Nowhere (B.view start) (B.view new))
        → WritesBehind B.tells_cells place (InSet free) (B.view start) (B.view new) }
    ensures then { B.tells_cells → (start old new : B) (place : Place) (free : ℕ → Bool)
        → IsSettled (B.view start) → ¬ InSet free (gate_at place)
        → WritesBehind B.tells_cells place (InSet free) (B.view start) (B.view old)
        → IsShut place (B.view old)
        → Touches B.tells_cells (InSet free) (B.view old) (B.view new)
        → WritesBehind B.tells_cells place (InSet free) (B.view start) (B.view new) }
{}

/// A law: from the close of a gate to its opening over the sealed body, each image with an open
/// gate is the start, or has the sealed body; with the Ok of `open` each has it.
pub fn rewriting_leaves_old_or_sealed<B: Board>()
    ensures written { B.tells_cells → (start new : B) (place : Place) (free : ℕ → Bool)
        → IsSettled (B.view start)
        → WritesBehind B.tells_cells place (InSet free) (B.view start) (B.view new)
        → LeavesOnly (B.view start) (B.view new)
        (RewriteMoment place (InSet free) (λ image. ⊥) (B.view start)) }
    ensures opening { B.tells_cells → (start sealed new : B) (place : Place) (free : ℕ → Bool)
        → IsSettled (B.view start)
        → WritesBehind B.tells_cells place (InSet free) (B.view start) (B.view sealed)
        → IsSealed place (B.view sealed)
        → Touches B.tells_cells (InBlock place.gate) (B.view sealed) (B.view new)
        → LeavesOnly (B.view start) (B.view new)
        (RewriteMoment place (InSet free) (Keeps (InBlock place.gate) (B.view sealed).cells)
        (B.view start)) }
    ensures opened { B.tells_cells → (sealed new : B) (place : Place) (image : List ℕ)
        → Touches B.tells_cells (InBlock place.gate) (B.view sealed) (B.view new)
        → IsOpened place (B.view new) → Leaves (B.view new) image
        → IsOpen place image × Keeps (InBlock place.gate) (B.view sealed).cells image }
{}
