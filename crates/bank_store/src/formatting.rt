// What the formats of a key board and of a module share.
ghost use Rattle.std.specs.Prelude.{◌≡◌, ◌⊎◌, ◌+◌, ◌≤◌, ◌<◌, length, IfErr, IfOk, IsErr, IsErrOf, OnOk};
ghost use Rattle.edge_board.specs.Causes.{HasCause, Rose};
ghost use Rattle.edge_board.specs.Board.{AllRead, InBlock, IsSettled, Nowhere};
ghost use Rattle.edge_board.specs.Runs.{Touches};
ghost use Rattle.bank_gate.specs.States.{IsOpened, IsSealed, IsShut, RisesAtMost, Stands};
ghost use Rattle.bank_gate.specs.Writing.{WritesBehind};
ghost use Rattle.key_state.specs.KeyBlock.{row_start};
ghost use Rattle.bank_layout.specs.Layout.{factory, record_start, InKeyBody};
ghost use Rattle.bank_layout.specs.Recovery.{IsHeld, Recovers};
ghost use Rattle.bank_layout.specs.Recovery.Holder.{nobody};
ghost use Rattle.bank_store.specs.Layout.{factory_with};

use crate::{FormatFault, is_held};
use bank_gate::{Fault, Idle, Place, Sealed, Wiped};
use bank_layout::{FACTORY, RECORD};
use edge_board::Board;
use key_state::KEY_BLOCK;
use std::alloc::Global;

// Makes sure that nobody holds the board and that it has so many blocks. It begins with a `sync`.
pub(crate) fn check_free<B: Board>(
    alloc: Global,
    board: &mut B,
    blocks: u32,
) -> Result<(), FormatFault>
    ensures free { B.tells_cells → OnOk result (Recovers (B.view board.old).cells nobody) }
    ensures blocks { OnOk result (blocks ≤ (B.view board.new).blocks) }
    ensures already_held { B.tells_cells → IsErrOf result FormatFault.AlreadyHeld
        → IsHeld (B.view board.old).cells }
    ensures held_blocks { IsErrOf result FormatFault.AlreadyHeld
        → 18 ≤ (B.view board.old).blocks }
    ensures too_small { IsErrOf result FormatFault.TooSmall → (B.view board.old).blocks < blocks }
    ensures held { B.tells_cells → IsHeld (B.view board.old).cells
        → IsErrOf result FormatFault.AlreadyHeld ⊎ IsErrOf result FormatFault.Fault
        ⊎ IsErrOf result FormatFault.Memory }
    ensures small { (B.view board.old).blocks < blocks → IsErr result }
    ensures smallest { (B.view board.old).blocks < blocks → (B.view board.old).blocks < 18
        → IsErrOf result FormatFault.TooSmall ⊎ IsErrOf result FormatFault.Fault }
    ensures settled { B.tells_cells → ¬ IsErrOf result FormatFault.Fault
        → IsSettled (B.view board.new) }
    ensures unchanged { B.tells_cells → (B.view board.new).cells ≡ (B.view board.old).cells }
    ensures touches { Touches B.tells_cells Nowhere (B.view board.old) (B.view board.new) }
    ensures erased { (B.view board.new).erased ≡ (B.view board.old).erased }
    ensures later { (B.view board.old).faults ≤ (B.view board.new).faults }
    ensures calm { ¬ IsErrOf result FormatFault.Fault
        → (B.view board.new).faults ≡ (B.view board.old).faults }
    ensures fault { IsErrOf result FormatFault.Fault
        → Rose (B.view board.old).faults (B.view board.new).faults }
{
    if is_held(alloc, board)? {
        return Err(FormatFault::AlreadyHeld);
    }
    if board.blocks() < blocks {
        return Err(FormatFault::TooSmall);
    }
    Ok(())
}

// Closes the factory gate, and writes the record and a key block of FF behind it. The area of the
// factory's bank has so many blocks.
pub(crate) fn write_front<B: Board>(
    board: &mut B,
    area_blocks: u32,
    octets: &[u8],
) -> Result<Wiped, Fault>
    requires blocks { 17 + area_blocks ≤ (B.view board.old).blocks }
    requires some { 1 ≤ area_blocks }
    requires most { area_blocks ≤ 35 }
    requires settled { B.tells_cells → IsSettled (B.view board.old) }
    requires fits { length octets.now ≤ 65536 }
    ensures place { IfOk result (λ wiped. wiped ≡ factory_with area_blocks) }
    ensures shut { B.tells_cells → OnOk result (IsShut factory (B.view board.new)) }
    ensures record { B.tells_cells → OnOk result (Stands record_start octets.now
        (B.view board.new).cells) }
    ensures row { B.tells_cells → OnOk result (AllRead row_start 4096 255
        (B.view board.new).cells) }
    ensures writes { WritesBehind B.tells_cells factory InKeyBody
        (B.view board.old) (B.view board.new) }
    ensures erased { RisesAtMost 17 (B.view board.old).erased (B.view board.new).erased }
    ensures cause { HasCause (B.view board.old).faults (B.view board.new).faults result }
{
    let place = Place {
        area_blocks,
        ..FACTORY
    };
    let closed = Idle::new(place).close(board)?;
    let wiped = closed.wipe(board)?;
    let put = wiped.put(board, RECORD, octets)?;
    put.erase(board, KEY_BLOCK)
}

// Opens the factory gate over a body that is sealed.
pub(crate) fn open_gate<B: Board>(board: &mut B, sealed: Sealed) -> Result<(), Fault>
    requires gate { sealed.gate ≡ 0 }
    requires blocks { sealed.manifest + sealed.manifest_blocks ≤ (B.view board.old).blocks }
    requires area { sealed.area + sealed.area_blocks ≤ (B.view board.old).blocks }
    requires sealed { B.tells_cells → IsSealed factory (B.view board.old) }
    ensures opened { B.tells_cells → OnOk result (IsOpened factory (B.view board.new)) }
    ensures touches { Touches B.tells_cells (InBlock 0) (B.view board.old) (B.view board.new) }
    ensures erased { RisesAtMost 1 (B.view board.old).erased (B.view board.new).erased }
    ensures cause { HasCause (B.view board.old).faults (B.view board.new).faults result }
{
    let armed = sealed.rearm(board)?;
    let opened = armed.open(board)?;
    opened.done();
    Ok(())
}
