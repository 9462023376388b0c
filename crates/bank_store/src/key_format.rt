// Formatting a board for a key.
ghost use Rattle.std.specs.Prelude.{◌≡◌, ◌≤◌, ◌<◌, ◌⊎◌, length, IfErr, IfOk, IsErrOf, OnOk};
ghost use Rattle.edge_board.specs.Causes.{HasCause, Rose};
ghost use Rattle.edge_board.specs.Board.{AllRead, IsSettled, Nowhere};
ghost use Rattle.edge_board.specs.Runs.{LeavesOnly, Touches};
ghost use Rattle.bank_gate.specs.States.{IsSealed, RisesAtMost, Stands};
ghost use Rattle.bank_gate.specs.Writing.{WritesBehind};
ghost use Rattle.key_state.specs.KeyBlock.{row_start};
ghost use Rattle.lms_sign.specs.PublicKeys.{IsSignKey};
ghost use Rattle.module_record.specs.KeyRecord.{key_record_text};
ghost use Rattle.bank_layout.specs.Layout.{factory, record_start, InKeyBody, InKeyBoard};
ghost use Rattle.bank_layout.specs.Recovery.{IsHeld};
ghost use Rattle.bank_store.specs.Formats.{FormatMoment, RecoversToNewKey};

use crate::FormatFault;
use crate::formatting::{check_free, open_gate, write_front};
use bank_gate::{Fault, Sealed};
use bank_layout::KEY_BOARD_BLOCKS;
use edge_board::Board;
use lms_sign::SignKey;
use module_record::put_key_record;
use std::alloc::{AllocError, Global};

// how many blocks of the factory's bank lie behind its record: the key block
const KEY_AREA: u32 = 1;

/// Makes a board that nobody holds a key board: with Ok it recovers to this key, and no leaf of it
/// is spent. It begins with a `sync`. Whatever it answers, at each moment since the board is held
/// as it was, by nobody, or by this key with all its leaves.
pub fn format_key<B: Board>(alloc: Global, board: &mut B, key: &SignKey) -> Result<(), FormatFault>
    ensures formatted { B.tells_cells
        → OnOk result (RecoversToNewKey (B.view board.new).cells key.now) }
    ensures blocks { OnOk result (18 ≤ (B.view board.new).blocks) }
    ensures settled { B.tells_cells → ¬ IsErrOf result FormatFault.Fault
        → IsSettled (B.view board.new) }

    // Each refusal but want of memory comes exactly where its cause holds, unless the board fails
    // or memory is wanting.
    ensures already_held { B.tells_cells → IsErrOf result FormatFault.AlreadyHeld
        → IsHeld (B.view board.old).cells }
    ensures held_blocks { IsErrOf result FormatFault.AlreadyHeld
        → 18 ≤ (B.view board.old).blocks }
    ensures too_small { IsErrOf result FormatFault.TooSmall → (B.view board.old).blocks < 18 }
    ensures held { B.tells_cells → IsHeld (B.view board.old).cells
        → IsErrOf result FormatFault.AlreadyHeld ⊎ IsErrOf result FormatFault.Fault
        ⊎ IsErrOf result FormatFault.Memory }
    ensures small { (B.view board.old).blocks < 18
        → IsErrOf result FormatFault.TooSmall ⊎ IsErrOf result FormatFault.Fault }

    // A refusal comes before anything is written, and on a board that is too small nothing is
    // written whatever is answered.
    ensures refused { IfErr result (λ fault. ¬ (fault ≡ FormatFault.Fault)
        → Touches B.tells_cells Nowhere (B.view board.old) (B.view board.new)
        × ((B.view board.new).erased ≡ (B.view board.old).erased)) }
    ensures small_stays { (B.view board.old).blocks < 18
        → Touches B.tells_cells Nowhere (B.view board.old) (B.view board.new)
        × ((B.view board.new).erased ≡ (B.view board.old).erased) }

    // What a power cut at any moment leaves, where nothing was pending.
    ensures moments { B.tells_cells → IsSettled (B.view board.old)
        → LeavesOnly (B.view board.old) (B.view board.new)
        (FormatMoment InKeyBoard (λ image. RecoversToNewKey image key.now) (B.view board.old)) }
    ensures touches { Touches B.tells_cells InKeyBoard (B.view board.old) (B.view board.new) }
    ensures erased { RisesAtMost 18 (B.view board.old).erased (B.view board.new).erased }
    ensures later { (B.view board.old).faults ≤ (B.view board.new).faults }
    ensures calm { ¬ IsErrOf result FormatFault.Fault
        → (B.view board.new).faults ≡ (B.view board.old).faults }
    ensures fault { IsErrOf result FormatFault.Fault
        → Rose (B.view board.old).faults (B.view board.new).faults }
{
    check_free(alloc, board, KEY_BOARD_BLOCKS)?;
    let record = key_record(alloc, key)?;
    let sealed = write_body(board, &record)?;
    open_gate(board, sealed)?;
    Ok(())
}

// The octets of a key's record.
fn key_record(alloc: Global, key: &SignKey) -> Result<Vec<u8>, AllocError>
    ensures text { IfOk result (λ octets. octets.items ≡ key_record_text key.now) }
    ensures valid { OnOk result (IsSignKey key.now) }
{
    let mut record = Vec::new(alloc);
    put_key_record(alloc, &mut record, key)?;
    Ok(record)
}

// Closes the factory gate, and writes the record and a key block of FF behind it.
fn write_body<B: Board>(board: &mut B, octets: &[u8]) -> Result<Sealed, Fault>
    requires blocks { 18 ≤ (B.view board.old).blocks }
    requires settled { B.tells_cells → IsSettled (B.view board.old) }
    requires fits { length octets.now ≤ 65536 }
    ensures place { IfOk result (λ sealed. sealed ≡ factory) }
    ensures sealed { B.tells_cells → OnOk result (IsSealed factory (B.view board.new)) }
    ensures record { B.tells_cells → OnOk result (Stands record_start octets.now
        (B.view board.new).cells) }
    ensures row { B.tells_cells → OnOk result (AllRead row_start 4096 255
        (B.view board.new).cells) }
    ensures writes { WritesBehind B.tells_cells factory InKeyBody
        (B.view board.old) (B.view board.new) }
    ensures erased { RisesAtMost 17 (B.view board.old).erased (B.view board.new).erased }
    ensures cause { HasCause (B.view board.old).faults (B.view board.new).faults result }
{
    let wiped = write_front(board, KEY_AREA, octets)?;
    wiped.seal(board)
}
