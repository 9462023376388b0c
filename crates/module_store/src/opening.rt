// Opening the store of a module.
ghost use Rattle.std.specs.Prelude.{◌≡◌, ◌≤◌, ◌<◌, ◌+◌, ◌*◌, ◌↔◌, IfOk, IfSome, IfNone, IsErr, IsErrOf, Some, length, take, drop, true};
ghost use Rattle.edge_board.specs.Board.{IsSettled, Nowhere, Unchanged};
ghost use Rattle.edge_board.specs.Causes.{Rose};
ghost use Rattle.edge_board.specs.Runs.{LeavesOnly, Touches};
ghost use Rattle.bank_gate.specs.States.{IsOpen};
ghost use Rattle.bank_layout.specs.Layout.{factory, first_image_block, record_octets, key_board_size, place_of};
ghost use Rattle.bank_layout.specs.Manifest.{IsManifest, Manifest};
ghost use Rattle.bank_layout.specs.Recovery.{IsOver, Recovers, standing_of};
ghost use Rattle.bank_layout.specs.Recovery.Holder.{module_board};
ghost use Rattle.module_record.specs.ModuleRecord.{IsModule};
ghost use Rattle.module_store.specs.Choice.{manifest_in, choice};
ghost use Rattle.module_store.specs.Faults.{HasOpenCause};
ghost use Rattle.module_store.specs.Store.{HoldsNoModule, IsOwnedBy, IsStore, IsStoreOf, IsQuiet, HasBlocks, manifest_of};

use crate::{OpenFault, Store};
use bank_gate::is_open;
use bank_layout::{
    Bank, FACTORY, FIRST_IMAGE_BLOCK, KEY_BOARD_BLOCKS, RECORD, pool_of, read_manifest,
};
use config_table::State;
use edge_board::{BLOCK, Board};
use module_record::{Module, one_module_record_each, read_module};
use std::alloc::{AllocError, Global};

// How many octets blocks 1 to 16 have.
const RECORD_SIZE: usize = 65536;

// How many octets the 32 blocks of a manifest have.
const MANIFEST_SIZE: usize = 131072;

/// Opens the store of the module that holds the board. It begins with a `sync`.
pub fn open<B: Board>(alloc: Global, board: &mut B) -> Result<Store, OpenFault>
    ensures store { B.tells_cells → IfOk result (λ s. IsStoreOf s (B.view board.old).cells) }
    ensures recovers { B.tells_cells → IfOk result (λ s. Recovers (B.view board.old).cells
        (module_board s.module (standing_of s.module (manifest_of s) (B.view board.old).cells))) }
    ensures valid { IfOk result IsStore }
    ensures quiet { IfOk result IsQuiet }
    ensures blocks { IfOk result (λ s. HasBlocks s (B.view board.new).blocks) }

    // No store is answered exactly where no module holds the board, unless the board fails or
    // memory is wanting, which a board of fewer than 18 blocks doesn't take.
    ensures not_a_module { B.tells_cells → IsErrOf result OpenFault.NotAModule
        → HoldsNoModule (B.view board.old).cells }
    ensures refuses { B.tells_cells → HoldsNoModule (B.view board.old).cells → IsErr result }
    ensures memory { IsErrOf result OpenFault.Memory → 18 ≤ (B.view board.new).blocks }

    // Nothing changes, and where nothing was pending a power cut leaves the cells alone.
    ensures unchanged { B.tells_cells → (B.view board.new).cells ≡ (B.view board.old).cells }
    ensures settled { B.tells_cells → ¬ IsErrOf result OpenFault.Fault
        → IsSettled (B.view board.new) }
    ensures only_image { B.tells_cells → IsSettled (B.view board.old)
        → LeavesOnly (B.view board.old) (B.view board.new)
        (λ image s. (image ≡ (B.view board.old).cells) × (B.view board.old).sent s) }
    ensures touches { Touches B.tells_cells Nowhere (B.view board.old) (B.view board.new) }
    ensures erased { (B.view board.new).erased ≡ (B.view board.old).erased }
    ensures later { (B.view board.old).faults ≤ (B.view board.new).faults }
    ensures calm { ¬ IsErrOf result OpenFault.Fault
        → (B.view board.new).faults ≡ (B.view board.old).faults }
    ensures fault { IsErrOf result OpenFault.Fault
        → Rose (B.view board.old).faults (B.view board.new).faults }
{
    board.sync()?;
    let Some(owner) = read_owner(alloc, board)? else {
        return Err(OpenFault::NotAModule);
    };
    read_banks(alloc, board, owner)
}

// The module that the board is of. None where it is none's.
fn read_owner<B: Board>(alloc: Global, board: &mut B) -> Result<Option<Module>, OpenFault>
    ensures owner { B.tells_cells → IfOk result (λ found. (m : Module)
        → (found ≡ Some m) ↔ IsOwnedBy (B.view board.old).cells m) }
    ensures valid { IfOk result (λ found. IfSome found IsModule) }
    ensures blocks { IfOk result (λ found. IfSome found (λ m.
        first_image_block + 2 * m.capacity ≤ (B.view board.new).blocks)) }
    ensures no_refusal { ¬ IsErrOf result OpenFault.NotAModule }
    ensures memory { IsErrOf result OpenFault.Memory → 18 ≤ (B.view board.new).blocks }
    ensures unchanged { B.tells_cells → (B.view board.new).cells ≡ (B.view board.old).cells }
    ensures touches { Touches B.tells_cells Nowhere (B.view board.old) (B.view board.new) }
    ensures erased { (B.view board.new).erased ≡ (B.view board.old).erased }
    ensures cause { HasOpenCause (B.view board.old).faults (B.view board.new).faults result }
{
    let Some(record) = read_record(alloc, board)? else {
        return Ok(None);
    };
    let Some(owner) = read_module(alloc, &record)? else {
        return Ok(None);
    };
    if has_room(board.blocks(), owner.capacity) {
        Ok(Some(owner))
    } else {
        Ok(None)
    }
}

// The octets of blocks 1 to 16 where the factory gate is open. None where it isn't, or where the
// board has fewer than 18 blocks.
fn read_record<B: Board>(alloc: Global, board: &mut B) -> Result<Option<Vec<u8>>, OpenFault>
    ensures record { B.tells_cells → IfOk result (λ found. IfSome found (λ octets.
        IsOpen factory (B.view board.old).cells
        × (key_board_size ≤ length (B.view board.old).cells)
        × (octets.items ≡ record_octets (B.view board.old).cells))) }
    ensures none { B.tells_cells → IfOk result (λ found. IfNone found
        (key_board_size ≤ length (B.view board.old).cells
        → ¬ IsOpen factory (B.view board.old).cells)) }
    ensures no_refusal { ¬ IsErrOf result OpenFault.NotAModule }
    ensures memory { IsErrOf result OpenFault.Memory → 18 ≤ (B.view board.new).blocks }
    ensures blocks { IfOk result (λ found. IfSome found (λ _. 18 ≤ (B.view board.new).blocks)) }
    ensures unchanged { B.tells_cells → (B.view board.new).cells ≡ (B.view board.old).cells }
    ensures touches { Touches B.tells_cells Nowhere (B.view board.old) (B.view board.new) }
    ensures erased { (B.view board.new).erased ≡ (B.view board.old).erased }
    ensures cause { HasOpenCause (B.view board.old).faults (B.view board.new).faults result }
{
    if board.blocks() < KEY_BOARD_BLOCKS || !is_open(board, FACTORY)? {
        return Ok(None);
    }
    Ok(Some(read_octets(alloc, board, RECORD, RECORD_SIZE)?))
}

// So many octets from this position on.
fn read_octets<B: Board>(
    alloc: Global,
    board: &mut B,
    at: u32,
    count: usize,
) -> Result<Vec<u8>, OpenFault>
    requires lies { at + count ≤ 4096 * (B.view board.old).blocks }
    ensures octets { B.tells_cells → IfOk result (λ octets.
        octets.items ≡ take count (drop at (B.view board.old).cells)) }
    ensures no_refusal { ¬ IsErrOf result OpenFault.NotAModule }
    ensures unchanged { B.tells_cells → Unchanged (B.view board.old) (B.view board.new) }
    ensures touches { Touches B.tells_cells Nowhere (B.view board.old) (B.view board.new) }
    ensures erased { (B.view board.new).erased ≡ (B.view board.old).erased }
    ensures cause { HasOpenCause (B.view board.old).faults (B.view board.new).faults result }
{
    let mut octets = zeros(alloc, count)?;
    board.read(at, &mut octets)?;
    Ok(octets)
}

// So many octets 00.
fn zeros(alloc: Global, count: usize) -> Result<Vec<u8>, AllocError>
    ensures { IfOk result (λ octets. length octets.items ≡ count) }
{
    vec![in alloc; 0; count]
}

// Whether a board of so many blocks is large enough for a module of this capacity.
fn has_room(blocks: u32, capacity: u32) -> bool
    ensures { (result ≡ true) ↔ 84 + 2 * capacity ≤ blocks }
{
    u64::from(FIRST_IMAGE_BLOCK) + 2 * u64::from(capacity) <= u64::from(blocks)
}

// The store of a module, by the gates and manifests of its two banks. NotAModule where an open gate
// isn't over a valid manifest.
fn read_banks<B: Board>(alloc: Global, board: &mut B, owner: Module) -> Result<Store, OpenFault>
    requires valid { IsModule owner }
    requires blocks { first_image_block + 2 * owner.capacity ≤ (B.view board.old).blocks }
    requires owned { B.tells_cells → IsOwnedBy (B.view board.old).cells owner }
    ensures store { B.tells_cells → IfOk result (λ s. IsStoreOf s (B.view board.old).cells) }
    ensures valid { IfOk result IsStore }
    ensures quiet { IfOk result IsQuiet }
    ensures blocks { IfOk result (λ s. HasBlocks s (B.view board.new).blocks) }
    ensures none { B.tells_cells → IsErrOf result OpenFault.NotAModule
        → HoldsNoModule (B.view board.old).cells }
    ensures unchanged { B.tells_cells → (B.view board.new).cells ≡ (B.view board.old).cells }
    ensures touches { Touches B.tells_cells Nowhere (B.view board.old) (B.view board.new) }
    ensures erased { (B.view board.new).erased ≡ (B.view board.old).erased }
    ensures cause { HasOpenCause (B.view board.old).faults (B.view board.new).faults result }
{
    one_module_record_each();
    let zero = read_bank(alloc, board, Bank::Zero, owner.capacity)?;
    let one = read_bank(alloc, board, Bank::One, owner.capacity)?;
    Ok(store_of(alloc, owner, zero, one)?)
}

// The sequence number and the state of a bank's manifest. None where its gate isn't open;
// NotAModule where it is open, and not over a manifest that is valid for the capacity.
fn read_bank<B: Board>(
    alloc: Global,
    board: &mut B,
    bank: Bank,
    capacity: u32,
) -> Result<Option<(u64, State)>, OpenFault>
    requires blocks { 84 ≤ (B.view board.old).blocks }
    ensures over { B.tells_cells → IfOk result (λ found. IfSome found (λ x.
        IsOver capacity (B.view board.old).cells bank
        (record { sequence = x.0; state = x.1 }))) }
    ensures valid { IfOk result (λ found. IfSome found (λ x.
        IsManifest capacity (record { sequence = x.0; state = x.1 }))) }
    ensures shut { B.tells_cells → IfOk result (λ found.
        IfNone found (¬ IsOpen (place_of bank) (B.view board.old).cells)) }
    ensures none { B.tells_cells → IsErrOf result OpenFault.NotAModule
        → IsOpen (place_of bank) (B.view board.old).cells
        × ((m : Manifest) → ¬ IsOver capacity (B.view board.old).cells bank m) }
    ensures unchanged { B.tells_cells → (B.view board.new).cells ≡ (B.view board.old).cells }
    ensures touches { Touches B.tells_cells Nowhere (B.view board.old) (B.view board.new) }
    ensures erased { (B.view board.new).erased ≡ (B.view board.old).erased }
    ensures cause { HasOpenCause (B.view board.old).faults (B.view board.new).faults result }
{
    let place = bank.place();
    if !is_open(board, place)? {
        return Ok(None);
    }
    let octets = read_octets(alloc, board, BLOCK * place.manifest, MANIFEST_SIZE)?;
    match read_manifest(alloc, &octets, capacity)? {
        Some(found) => Ok(Some(found)),
        None => Err(OpenFault::NotAModule),
    }
}

// What runs, of what the gates of bank 0 and bank 1 are over where they are open.
fn in_force(
    alloc: Global,
    zero: Option<(u64, State)>,
    one: Option<(u64, State)>,
) -> (Option<Bank>, u64, State)
    ensures { (result.0, record { sequence = result.1; state = result.2 }) ≡ choice zero one }
{
    match (zero, one) {
        (None, None) => (None, 0, State::new(alloc)),
        (Some((sequence, state)), None) => (Some(Bank::Zero), sequence, state),
        (None, Some((sequence, state))) => (Some(Bank::One), sequence, state),
        (Some((first, zero)), Some((second, one))) => {
            if second <= first {
                (Some(Bank::Zero), first, zero)
            } else {
                (Some(Bank::One), second, one)
            }
        }
    }
}

// The store of a module whose banks' open gates are over these manifests.
fn store_of(
    alloc: Global,
    owner: Module,
    zero: Option<(u64, State)>,
    one: Option<(u64, State)>,
) -> Result<Store, AllocError>
    requires owner { IsModule owner }
    requires zero { IfSome zero (λ x. IsManifest owner.capacity (manifest_in x)) }
    requires one { IfSome one (λ x. IsManifest owner.capacity (manifest_in x)) }
    ensures owner { IfOk result (λ s. s.module ≡ owner) }
    ensures chosen { IfOk result (λ s. (s.running, manifest_of s) ≡ choice zero one) }
    ensures valid { IfOk result IsStore }
    ensures quiet { IfOk result IsQuiet }
{
    let (running, sequence, state) = in_force(alloc, zero, one);
    let Some(pool) = pool_of(alloc, &state, owner.capacity)? else {
        unreachable!();
    };
    Ok(Store {
        module: owner,
        sequence,
        state,
        running,
        pool,
    })
}
