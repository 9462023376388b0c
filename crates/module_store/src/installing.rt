// Installing a package whose image stands in free blocks.
ghost use Rattle.std.specs.Prelude.{◌≡◌, ◌≤◌, ◌+◌, [], IsSome, All, false, IfOk, OnOk, length, unwrap_or};
ghost use Rattle.edge_board.specs.Board.{InBlock, IsSettled};
ghost use Rattle.edge_board.specs.Causes.{HasCause};
ghost use Rattle.edge_board.specs.Runs.{LeavesOnly, Touches};
ghost use Rattle.bank_gate.specs.Places.{InManifest};
ghost use Rattle.bank_gate.specs.States.{IsOpened, IsSealed, RisesAtMost, Stands};
ghost use Rattle.bank_gate.specs.Writing.{WritesBehind};
ghost use Rattle.block_pool.specs.Numbers.{IsApart};
ghost use Rattle.block_pool.specs.Pools.{IsLive, marked};
ghost use Rattle.config_table.specs.State.{offer_of, with_package};
ghost use Rattle.package_attrs.specs.Description.{description};
ghost use Rattle.bank_layout.specs.Layout.{InBank, gate_block, manifest_start, place_of};
ghost use Rattle.bank_layout.specs.Changes.{OldOrNew, spare};
ghost use Rattle.bank_layout.specs.Recovery.{standing_of};
ghost use Rattle.module_store.specs.Store.{CanPrepare, HasBlocks, IsQuiet, IsReady, IsStore, IsStoreOf, manifest_of, next_of};
ghost use Rattle.module_store.specs.Store.{replaced_blocks};

use crate::Store;
use bank_gate::{Fault, Idle, Sealed};
use bank_layout::{
    Bank, an_install_leaves_old_or_new, installed_states_are_kept, manifests_fit, put_manifest,
    writing_leaves_old_or_new,
};
use block_pool::{Pool, retired_blocks_leave_the_others};
use config_table::{BlockNumbers, State};
use content_stream::Streamed;
use edge_board::{BLOCK, Board};
use package_attrs::{Package, PackageName};
use std::alloc::{AllocError, Global};

/// An install that is ready: the state with the package, and the text of its manifest. It is made
/// by `prepare` for a store as it stands, and can't be copied.
#[derive(Drop)]
pub struct Ready {
    name: PackageName,
    sequence: u64,
    state: State,
    octets: Vec<u8>,
}

/// Makes the install of a package ready whose image was streamed into these blocks. The store stays
/// as it is. On want of memory the blocks are gone, and the store isn't to be used again.
pub fn prepare(
    alloc: Global,
    store: &Store,
    offered: &Package<'_>,
    streamed: Streamed,
) -> Result<Ready, AllocError>
    requires stored { IsSome streamed.blocks }
    requires can { CanPrepare store.now (offer_of (description offered.now)) streamed.image_digest
        (record { length = streamed.length; blocks = unwrap_or streamed.blocks [] }) }
    ensures ready { IfOk result (IsReady store.now) }
    ensures made { IfOk result (λ ready. next_of ready ≡ record {
      sequence = store.now.sequence + 1;
      state = with_package (offer_of (description offered.now)) streamed.image_digest
          (record { length = streamed.length; blocks = unwrap_or streamed.blocks [] })
          store.now.state;
    }) }
{
    installed_states_are_kept();
    manifests_fit();
    let Streamed {
        content_digest: _,
        image_digest,
        length,
        blocks,
    } = streamed;
    let Some(blocks) = blocks else {
        unreachable!();
    };
    let numbers = BlockNumbers::new(blocks.keep());
    let state = store
        .state
        .copy()?
        .with_package(offered, image_digest, length, numbers)?;
    let sequence = store.sequence + 1;
    let mut octets = Vec::new(alloc);
    put_manifest(alloc, &mut octets, sequence, &state)?;
    Ok(Ready {
        name: offered.identifier.name,
        sequence,
        state,
        octets,
    })
}

/// Installs what is ready: with Ok it stands there after each power cut, and the store is that of
/// the board again, with the replaced image's blocks free. It takes no memory. After a fault the
/// store isn't to be used again.
pub fn install<B: Board>(store: &mut Store, board: &mut B, ready: Ready) -> Result<(), Fault>
    requires ready { IsReady store.old ready }
    requires blocks { HasBlocks store.old (B.view board.old).blocks }
    requires settled { B.tells_cells → IsSettled (B.view board.old) }
    requires holds { B.tells_cells → IsStoreOf store.old (B.view board.old).cells }

    // With Ok what was ready stands there, and the store says so.
    ensures holds { B.tells_cells → OnOk result (IsStoreOf store.new (B.view board.new).cells) }
    ensures standing { B.tells_cells → OnOk result
        (standing_of store.old.module (next_of ready) (B.view board.new).cells
        ≡ standing_of store.old.module (next_of ready) (B.view board.old).cells) }
    ensures owner { store.new.module ≡ store.old.module }
    ensures installed { OnOk result (manifest_of store.new ≡ next_of ready) }
    ensures valid { OnOk result (IsStore store.new) }
    ensures quiet { OnOk result (IsQuiet store.new) }
    ensures settled { B.tells_cells → OnOk result (IsSettled (B.view board.new)) }

    // What a power cut at any moment leaves: what was there, or what is installed. Nothing is sent.
    ensures moments { B.tells_cells → LeavesOnly (B.view board.old) (B.view board.new)
        (λ image s. OldOrNew (B.view board.old).cells image store.old.module
        (manifest_of store.old) (next_of ready) × (B.view board.old).sent s) }
    ensures touches { Touches B.tells_cells (InBank (spare store.old.running))
        (B.view board.old) (B.view board.new) }
    ensures erased { RisesAtMost 34 (B.view board.old).erased (B.view board.new).erased }
    ensures cause { HasCause (B.view board.old).faults (B.view board.new).faults result }
{
    writing_leaves_old_or_new();
    an_install_leaves_old_or_new::<B>();
    installed_states_are_kept();
    manifests_fit();
    let bank = spare(store.running);
    let sealed = write_manifest(board, bank, &ready.octets)?;
    switch(board, bank, sealed)?;
    advance(store, bank, ready);
    Ok(())
}

// The bank that an install writes: the one that doesn't run.
fn spare(running: Option<Bank>) -> Bank
    ensures { result ≡ spare running }
{
    match running {
        Some(bank) => bank.other(),
        None => Bank::Zero,
    }
}

// Closes the bank's gate, and writes a manifest behind it.
fn write_manifest<B: Board>(board: &mut B, bank: Bank, octets: &[u8]) -> Result<Sealed, Fault>
    requires blocks { 84 ≤ (B.view board.old).blocks }
    requires fits { length octets.now ≤ 131072 }
    requires settled { B.tells_cells → IsSettled (B.view board.old) }
    ensures place { IfOk result (λ sealed. sealed ≡ place_of bank) }
    ensures sealed { B.tells_cells → OnOk result (IsSealed (place_of bank) (B.view board.new)) }
    ensures stands { B.tells_cells → OnOk result
        (Stands (manifest_start bank) octets.now (B.view board.new).cells) }
    ensures writes { WritesBehind B.tells_cells (place_of bank) (InManifest (place_of bank))
        (B.view board.old) (B.view board.new) }
    ensures erased { RisesAtMost 32 (B.view board.old).erased (B.view board.new).erased }
    ensures cause { HasCause (B.view board.old).faults (B.view board.new).faults result }
{
    let place = bank.place();
    let closed = Idle::new(place).close(board)?;
    let wiped = closed.wipe(board)?;
    let put = wiped.put(board, BLOCK * place.manifest, octets)?;
    put.seal(board)
}

// Opens the bank's gate over a manifest that is sealed.
fn switch<B: Board>(board: &mut B, bank: Bank, sealed: Sealed) -> Result<(), Fault>
    requires blocks { 84 ≤ (B.view board.old).blocks }
    requires place { sealed ≡ place_of bank }
    requires sealed { B.tells_cells → IsSealed (place_of bank) (B.view board.old) }
    ensures opened { B.tells_cells → OnOk result (IsOpened (place_of bank) (B.view board.new)) }
    ensures touches { Touches B.tells_cells (InBlock (gate_block bank))
        (B.view board.old) (B.view board.new) }
    ensures erased { RisesAtMost 1 (B.view board.old).erased (B.view board.new).erased }
    ensures cause { HasCause (B.view board.old).faults (B.view board.new).faults result }
{
    let armed = sealed.rearm(board)?;
    let opened = armed.open(board)?;
    opened.done();
    Ok(())
}

// Frees the blocks of the package that one of this name replaces.
fn retire_replaced(pool: &mut Pool, state: &State, name: &PackageName)
    requires live { All (IsLive pool.old) (replaced_blocks name.now state.now.packages) }
    requires apart { IsApart (replaced_blocks name.now state.now.packages) }
    ensures after { pool.new
        ≡ marked false (replaced_blocks name.now state.now.packages) pool.old }
{
    if let Some(replaced) = state.find(name) {
        pool.retire(replaced.blocks.as_slice());
    }
}

// The store after what was ready was installed in this bank: the blocks of the image that it
// replaces are free.
fn advance(store: &mut Store, bank: Bank, ready: Ready)
    requires ready { IsReady store.old ready }
    ensures owner { store.new.module ≡ store.old.module }
    ensures running { store.new.running ≡ Some bank }
    ensures installed { manifest_of store.new ≡ next_of ready }
    ensures valid { IsStore store.new }
    ensures quiet { IsQuiet store.new }
{
    retired_blocks_leave_the_others();
    installed_states_are_kept();
    retire_replaced(&mut store.pool, &store.state, &ready.name);
    store.sequence = ready.sequence;
    store.state = ready.state;
    store.running = Some(bank);
}
