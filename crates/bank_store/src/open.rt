// Who holds a board, and opening one.
ghost use Rattle.std.specs.Prelude.{◌≡◌, ◌≤◌, ◌<◌, ◌↔◌, IfOk, IfSome, IfNone, IsErr, IsErrOf, IsOk, OnOk, true, false};
ghost use Rattle.edge_board.specs.Causes.{HasCause, Rose};
ghost use Rattle.edge_board.specs.Board.{IsSettled, Nowhere};
ghost use Rattle.edge_board.specs.Runs.{LeavesOnly, Touches};
ghost use Rattle.lms_sign.specs.declared.key.SignKey.{SignKey};
ghost use Rattle.bank_layout.specs.Recovery.{HoldsKey, Recovers, IsHeld};
ghost use Rattle.bank_layout.specs.Recovery.Holder.{nobody};
ghost use Rattle.module_store.specs.Store.{HoldsNoModule};

use crate::{HolderFault, KeyFault};
use bank_gate::{Fault, is_open};
use bank_layout::{FACTORY, KEY_BOARD_BLOCKS, RECORD};
use edge_board::Board;
use lms_sign::SignKey;
use module_record::read_key_record;
use module_store::{OpenFault, Store, open};
use std::alloc::Global;

// more octets than a key record has
const FRONT: usize = 128;

/// Whether somebody holds the board: a key or a module. It begins with a `sync`. Where no key holds
/// it, what is read of a module takes memory.
pub fn is_held<B: Board>(alloc: Global, board: &mut B) -> Result<bool, HolderFault>
    ensures held { B.tells_cells
        → IfOk result (λ held. (held ≡ true) ↔ IsHeld (B.view board.old).cells) }
    ensures nobody { B.tells_cells
        → IfOk result (λ held. (held ≡ false) ↔ Recovers (B.view board.old).cells nobody) }

    // A board of fewer than 18 blocks isn't held, and takes no memory.
    ensures blocks { IfOk result (λ held. held ≡ true → 18 ≤ (B.view board.new).blocks) }
    ensures memory { IsErrOf result HolderFault.Memory → 18 ≤ (B.view board.new).blocks }

    // Nothing changes, and where nothing was pending a power cut leaves the cells alone.
    ensures unchanged { B.tells_cells → (B.view board.new).cells ≡ (B.view board.old).cells }
    ensures settled { B.tells_cells → ¬ IsErrOf result HolderFault.Fault
        → IsSettled (B.view board.new) }
    ensures only_image { B.tells_cells → IsSettled (B.view board.old)
        → LeavesOnly (B.view board.old) (B.view board.new)
        (λ image s. (image ≡ (B.view board.old).cells) × (B.view board.old).sent s) }
    ensures touches { Touches B.tells_cells Nowhere (B.view board.old) (B.view board.new) }
    ensures erased { (B.view board.new).erased ≡ (B.view board.old).erased }
    ensures later { (B.view board.old).faults ≤ (B.view board.new).faults }
    ensures calm { ¬ IsErrOf result HolderFault.Fault
        → (B.view board.new).faults ≡ (B.view board.old).faults }
    ensures fault { IsErrOf result HolderFault.Fault
        → Rose (B.view board.old).faults (B.view board.new).faults }
{
    if held_key(board)?.is_some() {
        return Ok(true);
    }
    is_modules(alloc, board)
}

// Whether a module holds the board, after a sync.
fn is_modules<B: Board>(alloc: Global, board: &mut B) -> Result<bool, HolderFault>
    ensures held { B.tells_cells → IfOk result (λ held. held ≡ true
        → ¬ HoldsNoModule (B.view board.old).cells) }
    ensures none { B.tells_cells → IfOk result (λ held. held ≡ false
        → HoldsNoModule (B.view board.old).cells) }
    ensures blocks { IfOk result (λ held. held ≡ true → 18 ≤ (B.view board.new).blocks) }
    ensures memory { IsErrOf result HolderFault.Memory → 18 ≤ (B.view board.new).blocks }
    ensures unchanged { B.tells_cells → (B.view board.new).cells ≡ (B.view board.old).cells }
    ensures settled { B.tells_cells → ¬ IsErrOf result HolderFault.Fault
        → IsSettled (B.view board.new) }
    ensures touches { Touches B.tells_cells Nowhere (B.view board.old) (B.view board.new) }
    ensures erased { (B.view board.new).erased ≡ (B.view board.old).erased }
    ensures later { (B.view board.old).faults ≤ (B.view board.new).faults }
    ensures calm { ¬ IsErrOf result HolderFault.Fault
        → (B.view board.new).faults ≡ (B.view board.old).faults }
    ensures fault { IsErrOf result HolderFault.Fault
        → Rose (B.view board.old).faults (B.view board.new).faults }
{
    told_by(open(alloc, board))
}

// Whether a store was opened, where that is known.
fn told_by(opened: Result<Store, OpenFault>) -> Result<bool, HolderFault>
    ensures held { IfOk result (λ held. held ≡ true → IsOk opened) }
    ensures none { IfOk result (λ held. held ≡ false → IsErrOf opened OpenFault.NotAModule) }
    ensures fault { IsErrOf result HolderFault.Fault ↔ IsErrOf opened OpenFault.Fault }
    ensures memory { IsErrOf result HolderFault.Memory → IsErrOf opened OpenFault.Memory }
{
    match opened {
        Ok(_) => Ok(true),
        Err(OpenFault::NotAModule) => Ok(false),
        Err(OpenFault::Fault) => Err(HolderFault::Fault),
        Err(OpenFault::Memory) => Err(HolderFault::Memory),
    }
}

/// Reads the key of a key board. It begins with a `sync`.
pub fn open_key<B: Board>(board: &mut B) -> Result<SignKey, KeyFault>
    ensures key { B.tells_cells → IfOk result (λ key. HoldsKey (B.view board.old).cells key) }
    ensures blocks { OnOk result (18 ≤ (B.view board.new).blocks) }

    // No key is answered exactly where no key holds the board, unless the board fails.
    ensures not_a_key { B.tells_cells → IsErrOf result KeyFault.NotAKey
        → (key : SignKey) → ¬ HoldsKey (B.view board.old).cells key }
    ensures refuses { B.tells_cells → ((key : SignKey) → ¬ HoldsKey (B.view board.old).cells key)
        → IsErr result }

    // Nothing changes, and where nothing was pending a power cut leaves the cells alone.
    ensures unchanged { B.tells_cells → (B.view board.new).cells ≡ (B.view board.old).cells }
    ensures settled { B.tells_cells → ¬ IsErrOf result KeyFault.Fault
        → IsSettled (B.view board.new) }
    ensures only_image { B.tells_cells → IsSettled (B.view board.old)
        → LeavesOnly (B.view board.old) (B.view board.new)
        (λ image s. (image ≡ (B.view board.old).cells) × (B.view board.old).sent s) }
    ensures touches { Touches B.tells_cells Nowhere (B.view board.old) (B.view board.new) }
    ensures erased { (B.view board.new).erased ≡ (B.view board.old).erased }
    ensures later { (B.view board.old).faults ≤ (B.view board.new).faults }
    ensures calm { ¬ IsErrOf result KeyFault.Fault
        → (B.view board.new).faults ≡ (B.view board.old).faults }
    ensures fault { IsErrOf result KeyFault.Fault
        → Rose (B.view board.old).faults (B.view board.new).faults }
{
    held_key(board)?.ok_or(KeyFault::NotAKey)
}

// The key that holds the board, after a sync.
fn held_key<B: Board>(board: &mut B) -> Result<Option<SignKey>, Fault>
    ensures key { B.tells_cells → IfOk result (λ holder.
        IfSome holder (λ key. HoldsKey (B.view board.old).cells key)) }
    ensures none { B.tells_cells → IfOk result (λ holder.
        IfNone holder ((key : SignKey) → ¬ HoldsKey (B.view board.old).cells key)) }
    ensures blocks { IfOk result (λ holder. IfSome holder (λ _. 18 ≤ (B.view board.new).blocks)) }
    ensures unchanged { B.tells_cells → (B.view board.new).cells ≡ (B.view board.old).cells }
    ensures settled { B.tells_cells → OnOk result (IsSettled (B.view board.new)) }
    ensures touches { Touches B.tells_cells Nowhere (B.view board.old) (B.view board.new) }
    ensures erased { (B.view board.new).erased ≡ (B.view board.old).erased }
    ensures cause { HasCause (B.view board.old).faults (B.view board.new).faults result }
{
    board.sync()?;
    if board.blocks() < KEY_BOARD_BLOCKS {
        return Ok(None);
    }
    if !is_open(board, FACTORY)? {
        return Ok(None);
    }
    let mut front = [0u8; FRONT];
    board.read(RECORD, &mut front)?;
    Ok(read_key_record(&front))
}
