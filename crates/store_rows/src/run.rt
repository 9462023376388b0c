// Streaming an image to a module's board, and installing it.
ghost use Rattle.std.specs.Prelude.{◌≡◌, ◌+◌, ◌≤◌, ◌<◌, ◌^◌, [], length, unwrap_or, IfOk, IfSome, IsSome, IsTrue};
ghost use Rattle.edge_board.specs.MemBoard.{mem_view};
ghost use Rattle.edge_board.specs.Board.{IsSettled};
ghost use Rattle.config_table.specs.State.{offer_of, with_package};
ghost use Rattle.package_attrs.specs.Description.{description};
ghost use Rattle.bank_layout.specs.Manifest.{named_blocks};
ghost use Rattle.module_record.specs.ModuleRecord.{IsModule};
ghost use Rattle.module_store.specs.Store.{CanPrepare, HasBlocks, IsQuiet, IsReady, IsStore, IsStoreOf, manifest_of};
ghost use Rattle.store_rows.specs.Plain.{IsPlain};
ghost use Rattle.store_rows.specs.InStep.{HasRoom, StreamsInto};

use bank_layout::{Bank, FIRST_IMAGE_BLOCK, pool_of};
use block_pool::{Pool, taken_blocks_are_live_too};
use config_table::{BlockNumbers, State};
use content_stream::{ContentStream, Streamed, feed, finish};
use der_core::read_oid;
use edge_board::{BLOCK, MemBoard};
use module_store::{Ready, Store, install, open, prepare};
use package_attrs::{Dependencies, Identifier, Info, Package, PackageName, read_targets};
use std::alloc::{AllocError, Global};

// More installs than a row makes.
const MOST_INSTALLS: u64 = 1_000;

// What a store says: the sequence number, the bank that runs, the first block of its first package's
// image, and how many blocks are free.
pub(crate) type Told = (u64, Option<Bank>, Option<u16>, u32);

// The first block of the image at this place of the store's packages.
pub(crate) fn block_at(store: &Store, place: usize) -> Option<u16> {
    store
        .state
        .package(place)?
        .blocks
        .as_slice()
        .first()
        .copied()
}

pub(crate) fn told(store: &Store) -> Told {
    let free = store.pool.free();
    (store.sequence, store.running, block_at(store, 0), free)
}

// The hardware types of each package: 1.2.3 (RFC 4108, section 2.2.4).
const TARGETS: &[u8] = b"\x30\x04\x06\x02\x2a\x03";

// The package 1.2.3.ID in a version (RFC 4108, section 2.2.3), without a type and needs.
pub(crate) fn package(id: u8, version: u8) -> Option<Package<'static>>
    ensures plain { IfSome result (λ p. IsPlain (description p)) }
{
    let id = read_oid(&[0x2a, 0x03, id])?;
    Some(Package {
        content: id,
        digest: [0; 32],
        identifier: Identifier {
            name: PackageName::Preferred {
                id,
                version: u128::from(version),
            },
            stale: None,
        },
        targets: read_targets(TARGETS)?,
        communities: None,
        info: Info {
            kind: None,
            dependencies: Dependencies::none(),
        },
    })
}

// Streams an image into free blocks of the pool.
pub(crate) fn stream_image(
    alloc: Global,
    pool: &mut Pool,
    board: &mut MemBoard,
    image: &[u8],
) -> Option<Streamed>
    requires few { length image.now < 2 ^ 32 }
    requires lies { 84 + length pool.old ≤ (mem_view board.old).blocks }
    ensures streams { IfSome result (λ streamed. StreamsInto pool.old pool.new streamed.blocks
        (mem_view board.old) (mem_view board.new)) }
{
    let front = &image[..image.len().min(6)];
    let size = image.len() as u32;
    let Ok(mut stream) = ContentStream::new(alloc, pool, FIRST_IMAGE_BLOCK, size, front) else {
        return None;
    };
    let Ok(()) = feed(&mut stream, board, image) else {
        return None;
    };
    finish(stream, board).ok()
}

// Streams an image into blocks of a module's board that no package uses.
fn streamed(alloc: Global, board: &mut MemBoard, image: &[u8]) -> Option<Streamed>
    requires few { length image.now < 2 ^ 32 }
{
    match open(alloc, board) {
        Ok(mut store) => stream_image(alloc, &mut store.pool, board, image),
        Err(_) => None,
    }
}

// The state of the store with the package, whose image has this digest and stands in these blocks.
fn state_with(
    alloc: Global,
    store: &Store,
    offered: &Package<'_>,
    digest: [u8; 32],
    size: u32,
    numbers: &[u16],
) -> Result<State, AllocError>
    ensures { IfOk result (λ state. state ≡ with_package (offer_of (description offered.now)) digest
        (record { length = size; blocks = numbers.now }) store.now.state) }
{
    let numbers = BlockNumbers::new(numbers.to_vec(alloc)?);
    store
        .state
        .copy()?
        .with_package(offered, digest, size, numbers)
}

// Whether a module of this capacity has room for the state.
fn has_room(alloc: Global, state: &State, capacity: u32) -> bool
    requires least { 1 ≤ capacity }
    requires most { capacity ≤ 4096 }
    ensures fit { IsTrue result → length (named_blocks state.now) ≤ capacity }
    ensures packages { IsTrue result → length state.now.packages ≤ 64 }
    ensures stale { IsTrue result → length state.now.stale ≤ 256 }
{
    if state.packages() > 64 || state.stale_entries() > 256 {
        return false;
    }
    match pool_of(alloc, state, capacity) {
        Ok(pool) => pool.is_some(),
        Err(_) => false,
    }
}

// Whether the module of the store has room for the state with the package.
fn has_room_with(
    alloc: Global,
    store: &Store,
    offered: &Package<'_>,
    digest: [u8; 32],
    size: u32,
    numbers: &[u16],
) -> bool
    requires owner { IsModule store.now.module }
    ensures digest { length digest ≡ 32 }
    ensures fit { IsTrue result → length (named_blocks (with_package
        (offer_of (description offered.now)) digest
        (record { length = size; blocks = numbers.now }) store.now.state))
        ≤ store.now.module.capacity }
    ensures packages { IsTrue result → length (with_package
        (offer_of (description offered.now)) digest
        (record { length = size; blocks = numbers.now }) store.now.state).packages ≤ 64 }
    ensures stale { IsTrue result → length (with_package
        (offer_of (description offered.now)) digest
        (record { length = size; blocks = numbers.now }) store.now.state).stale ≤ 256 }
{
    match state_with(alloc, store, offered, digest, size, numbers) {
        Ok(next) => has_room(alloc, &next, store.module.capacity),
        Err(_) => false,
    }
}

// Whether the store has room for the package with an image that was streamed.
pub(crate) fn takes_in(
    alloc: Global,
    store: &Store,
    offered: &Package<'_>,
    streamed: &Streamed,
) -> bool
    requires owner { IsModule store.now.module }
    ensures stored { IsTrue result → IsSome streamed.now.blocks }
    ensures room { IsTrue result → HasRoom store.now (offer_of (description offered.now))
        streamed.now.image_digest (record {
          length = streamed.now.length;
          blocks = unwrap_or streamed.now.blocks [];
        }) }
{
    let Some(blocks) = &streamed.blocks else {
        return false;
    };
    let numbers = blocks.numbers();
    let size = streamed.length;
    if store.sequence > MOST_INSTALLS
        || size == 0
        || numbers.len() != size.div_ceil(BLOCK) as usize
    {
        return false;
    }
    has_room_with(alloc, store, offered, streamed.image_digest, size, numbers)
}

// Takes the blocks of an image that was streamed, where the store has room for the package with it:
// whether they are taken.
fn takes_blocks(
    alloc: Global,
    store: &mut Store,
    offered: &Package<'_>,
    streamed: &Streamed,
) -> bool
    requires plain { IsPlain (description offered.now) }
    requires valid { IsStore store.old }
    requires quiet { IsQuiet store.old }
    ensures stored { IsTrue result → IsSome streamed.now.blocks }
    ensures can { IsTrue result → CanPrepare store.new (offer_of (description offered.now))
        streamed.now.image_digest (record {
          length = streamed.now.length;
          blocks = unwrap_or streamed.now.blocks [];
        }) }
    ensures owner { store.new.module ≡ store.old.module }
    ensures running { store.new.running ≡ store.old.running }
    ensures manifest { manifest_of store.new ≡ manifest_of store.old }
{
    taken_blocks_are_live_too();
    if !takes_in(alloc, store, offered, streamed) {
        return false;
    }
    match &streamed.blocks {
        Some(blocks) => store.pool.hold(blocks.numbers()),
        None => false,
    }
}

// Makes the install of the package ready. None where its blocks aren't taken.
fn make_ready(
    alloc: Global,
    store: &mut Store,
    offered: &Package<'_>,
    streamed: Streamed,
) -> Option<Ready>
    requires plain { IsPlain (description offered.now) }
    requires valid { IsStore store.old }
    requires quiet { IsQuiet store.old }
    ensures ready { IfSome result (IsReady store.new) }
    ensures owner { store.new.module ≡ store.old.module }
    ensures running { store.new.running ≡ store.old.running }
    ensures manifest { manifest_of store.new ≡ manifest_of store.old }
{
    if takes_blocks(alloc, store, offered, &streamed) {
        prepare(alloc, store, offered, streamed).ok()
    } else {
        None
    }
}

// Installs the package, whose image was streamed, in the board's store: whether it is done.
fn is_installed(
    alloc: Global,
    store: &mut Store,
    board: &mut MemBoard,
    offered: &Package<'_>,
    streamed: Streamed,
) -> bool
    requires plain { IsPlain (description offered.now) }
    requires valid { IsStore store.old }
    requires quiet { IsQuiet store.old }
    requires blocks { HasBlocks store.old (mem_view board.old).blocks }
    requires settled { IsSettled (mem_view board.old) }
    requires holds { IsStoreOf store.old (mem_view board.old).cells }
{
    match make_ready(alloc, store, offered, streamed) {
        Some(ready) => install(store, board, ready).is_ok(),
        None => false,
    }
}

// Opens the store anew and installs the package: what the store says then.
fn install_streamed(
    alloc: Global,
    board: &mut MemBoard,
    offered: &Package<'_>,
    streamed: Streamed,
) -> Option<Told>
    requires plain { IsPlain (description offered.now) }
{
    match open(alloc, board) {
        Ok(mut store) => {
            let installed = is_installed(alloc, &mut store, board, offered, streamed);
            if installed { Some(told(&store)) } else { None }
        }
        Err(_) => None,
    }
}

// Streams the image of 1.2.3.ID in a version, opens the store anew and installs it there: what that
// store says then. None where the board fails or has no room, or memory is wanting.
pub(crate) fn install_image(
    alloc: Global,
    board: &mut MemBoard,
    id: u8,
    version: u8,
    image: &[u8],
) -> Option<Told>
    requires few { length image.now < 2 ^ 32 }
{
    let offered = package(id, version)?;
    let streamed = streamed(alloc, board, image)?;
    install_streamed(alloc, board, &offered, streamed)
}
