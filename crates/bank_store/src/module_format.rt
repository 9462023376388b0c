// Formatting a board for a module.
ghost use Rattle.std.specs.Prelude.{◌≡◌, ◌≤◌, ◌<◌, ◌⊎◌, ◌+◌, ◌*◌, length, IfErr, IfOk, IsErr, IsErrOf, OnOk};
ghost use Rattle.edge_board.specs.Causes.{HasCause, Rose};
ghost use Rattle.edge_board.specs.Board.{AllRead, InBlock, IsSettled, Nowhere};
ghost use Rattle.edge_board.specs.Runs.{LeavesOnly, Touches};
ghost use Rattle.bank_gate.specs.States.{IsOpen, IsSealed, IsShut, RisesAtMost, Stands};
ghost use Rattle.bank_gate.specs.Writing.{WritesBehind};
ghost use Rattle.key_state.specs.KeyBlock.{row_start};
ghost use Rattle.module_record.specs.ModuleRecord.{HasLimits, module_text};
ghost use Rattle.bank_layout.specs.declared.bank.Bank.{Bank as BankName};
ghost use Rattle.bank_layout.specs.Layout.{factory, record_start, place_of, gate_block, first_image_block};
ghost use Rattle.bank_layout.specs.Recovery.{IsHeld};
ghost use Rattle.bank_store.specs.Layout.{module_factory, InModuleBody, InModuleFormat};
ghost use Rattle.bank_store.specs.Formats.{FormatMoment, RecoversToNewModule};

use crate::FormatFault;
use crate::formatting::{check_free, open_gate, write_front};
use bank_gate::{Fault, Sealed, Wiped};
use bank_layout::{Bank, FIRST_IMAGE_BLOCK, a_fresh_module_is_empty};
use edge_board::Board;
use module_record::{Module, put_module};
use std::alloc::{AllocError, Global};

// how many blocks of the factory's bank lie behind its record: from the key block to the gate's
// block of bank 1
const MODULE_AREA: u32 = 35;

/// Makes a board that nobody holds a module's: with Ok it recovers to this module with nothing
/// installed, and no leaf of its key is spent. It begins with a `sync`. Whatever it answers, at each
/// moment since the board is held as it was, by nobody, or by this module with all its leaves. Its
/// record must fit 16 blocks, as that of each module with short subjects does: a law of
/// `module_record`.
pub fn format<B: Board>(alloc: Global, board: &mut B, holder: &Module) -> Result<(), FormatFault>
    requires limits { HasLimits holder.now }
    requires fits { length (module_text holder.now) ≤ 65536 }
    ensures formatted { B.tells_cells
        → OnOk result (RecoversToNewModule (B.view board.new).cells holder.now) }
    ensures blocks { OnOk result
        (first_image_block + 2 * holder.now.capacity ≤ (B.view board.new).blocks) }
    ensures settled { B.tells_cells → ¬ IsErrOf result FormatFault.Fault
        → IsSettled (B.view board.new) }

    // Each refusal but want of memory comes exactly where its cause holds, unless the board fails
    // or memory is wanting. Where both causes hold, the board is held already.
    ensures already_held { B.tells_cells → IsErrOf result FormatFault.AlreadyHeld
        → IsHeld (B.view board.old).cells }
    ensures held_blocks { IsErrOf result FormatFault.AlreadyHeld
        → 18 ≤ (B.view board.old).blocks }
    ensures too_small { IsErrOf result FormatFault.TooSmall
        → (B.view board.old).blocks < first_image_block + 2 * holder.now.capacity }
    ensures held { B.tells_cells → IsHeld (B.view board.old).cells
        → IsErrOf result FormatFault.AlreadyHeld ⊎ IsErrOf result FormatFault.Fault
        ⊎ IsErrOf result FormatFault.Memory }
    ensures small { (B.view board.old).blocks < first_image_block + 2 * holder.now.capacity
        → IsErr result }

    // A refusal comes before anything is written, and on a board that is too small nothing is
    // written whatever is answered.
    ensures refused { IfErr result (λ fault. ¬ (fault ≡ FormatFault.Fault)
        → Touches B.tells_cells Nowhere (B.view board.old) (B.view board.new)
        × ((B.view board.new).erased ≡ (B.view board.old).erased)) }
    ensures small_stays { (B.view board.old).blocks < first_image_block + 2 * holder.now.capacity
        → Touches B.tells_cells Nowhere (B.view board.old) (B.view board.new)
        × ((B.view board.new).erased ≡ (B.view board.old).erased) }

    // What a power cut at any moment leaves, where nothing was pending.
    ensures moments { B.tells_cells → IsSettled (B.view board.old)
        → LeavesOnly (B.view board.old) (B.view board.new)
        (FormatMoment InModuleFormat (λ image. RecoversToNewModule image holder.now)
        (B.view board.old)) }
    ensures touches { Touches B.tells_cells InModuleFormat
        (B.view board.old) (B.view board.new) }
    ensures erased { RisesAtMost 20 (B.view board.old).erased (B.view board.new).erased }
    ensures later { (B.view board.old).faults ≤ (B.view board.new).faults }
    ensures calm { ¬ IsErrOf result FormatFault.Fault
        → (B.view board.new).faults ≡ (B.view board.old).faults }
    ensures fault { IsErrOf result FormatFault.Fault
        → Rose (B.view board.old).faults (B.view board.new).faults }
{
    a_fresh_module_is_empty();
    check_free(alloc, board, FIRST_IMAGE_BLOCK + 2 * holder.capacity)?;
    let record = module_record(alloc, holder)?;
    let sealed = write_module_body(board, &record)?;
    open_gate(board, sealed)?;
    Ok(())
}

// The octets of a module's record.
fn module_record(alloc: Global, holder: &Module) -> Result<Vec<u8>, AllocError>
    requires fits { length (module_text holder.now) ≤ 65536 }
    ensures text { IfOk result (λ octets. octets.items ≡ module_text holder.now) }
{
    let mut record = Vec::new(alloc);
    put_module(alloc, &mut record, holder)?;
    Ok(record)
}

// Closes the factory gate, and writes behind it the record, a key block of FF, and gates of FF for
// the two banks.
fn write_module_body<B: Board>(board: &mut B, octets: &[u8]) -> Result<Sealed, Fault>
    requires blocks { 84 ≤ (B.view board.old).blocks }
    requires settled { B.tells_cells → IsSettled (B.view board.old) }
    requires fits { length octets.now ≤ 65536 }
    ensures place { IfOk result (λ sealed. sealed ≡ module_factory) }
    ensures sealed { B.tells_cells → OnOk result (IsSealed factory (B.view board.new)) }
    ensures record { B.tells_cells → OnOk result (Stands record_start octets.now
        (B.view board.new).cells) }
    ensures row { B.tells_cells → OnOk result (AllRead row_start 4096 255
        (B.view board.new).cells) }
    ensures gates { B.tells_cells → OnOk result ((bank : BankName)
        → ¬ IsOpen (place_of bank) (B.view board.new).cells) }
    ensures writes { WritesBehind B.tells_cells factory InModuleBody
        (B.view board.old) (B.view board.new) }
    ensures erased { RisesAtMost 19 (B.view board.old).erased (B.view board.new).erased }
    ensures cause { HasCause (B.view board.old).faults (B.view board.new).faults result }
{
    let wiped = write_front(board, MODULE_AREA, octets)?;
    let wiped = shut_bank(board, wiped, Bank::Zero)?;
    let wiped = shut_bank(board, wiped, Bank::One)?;
    wiped.seal(board)
}

// Erases the block of a bank's gate, behind the closed factory gate.
fn shut_bank<B: Board>(board: &mut B, wiped: Wiped, bank: Bank) -> Result<Wiped, Fault>
    requires blocks { 84 ≤ (B.view board.old).blocks }
    requires place { wiped ≡ module_factory }
    requires shut { B.tells_cells → IsShut factory (B.view board.old) }
    ensures place { IfOk result (λ wiped. wiped ≡ module_factory) }
    ensures shut { B.tells_cells → IsShut factory (B.view board.new) }
    ensures bank { B.tells_cells → OnOk result
        (¬ IsOpen (place_of bank) (B.view board.new).cells) }
    ensures touches { Touches B.tells_cells (InBlock (gate_block bank))
        (B.view board.old) (B.view board.new) }
    ensures erased { RisesAtMost 1 (B.view board.old).erased (B.view board.new).erased }
    ensures cause { HasCause (B.view board.old).faults (B.view board.new).faults result }
{
    wiped.erase(board, bank.place().gate)
}
