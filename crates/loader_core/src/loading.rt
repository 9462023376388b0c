// A run of `load`.
ghost use Rattle.std.specs.Prelude.{◌≡◌, [], IfOk};
ghost use Rattle.loader_core.specs.Loading.{LoadRuns, LoadReady, LoadUndisturbed, IsComplete, load_seen};
ghost use Rattle.loader_core.specs.Endings.{fault_ending, full_ending, open_ending};

use crate::items::answer_items;
use bank_layout::each_image_has_one_holder;
use der_core::Moment;
use edge_board::{Board, Source};
use item_intake::LoadFault;
use lms_sign::{KeyTree, SignKey};
use load_input::Input;
use module_store::{OpenFault, open};
use std::alloc::{AllocError, Global};

/// How a run of `load` ends.
#[derive(Clone, Copy, Debug, PartialEq, Eq)]
pub enum Ending {
    /// Each item was answered, and none was refused.
    Done,
    /// Each item was answered, and at least one was refused.
    SomeRefused,
    /// No module holds the board.
    NotAModule,
    /// A call of the board failed.
    DeviceFault,
    /// A read of the source failed.
    SourceFault,
    /// The source gives more than 2^32 octets.
    InputTooLong,
    /// Memory is wanting.
    NoMemory,
}

// How a run ends that opened no store.
fn open_ending_of(fault: OpenFault) -> Ending
    ensures ending { result ≡ open_ending fault }
{
    match fault {
        OpenFault::NotAModule => Ending::NotAModule,
        OpenFault::Fault => Ending::DeviceFault,
        OpenFault::Memory => Ending::NoMemory,
    }
}

// How a run ends that answered all items.
fn full_ending_of(refused: bool) -> Ending
    ensures ending { result ≡ full_ending refused }
{
    if refused {
        Ending::SomeRefused
    } else {
        Ending::Done
    }
}

// How a run ends with a fault.
fn fault_ending_of(fault: LoadFault) -> Ending
    ensures ending { result ≡ fault_ending fault }
{
    match fault {
        LoadFault::Device => Ending::DeviceFault,
        LoadFault::Source => Ending::SourceFault,
        LoadFault::TooLong => Ending::InputTooLong,
        LoadFault::Memory => Ending::NoMemory,
    }
}

// The memory of a run: a tree of the key, and an input of which nothing was taken.
fn make_room(alloc: Global, key: &SignKey) -> Result<(KeyTree, Input), AllocError>
    ensures tree { IfOk result (λ room. room.0 ≡ key.now) }
    ensures input { IfOk result (λ room. room.1 ≡ record { octets = []; passed = 0 }) }
{
    let key = SignKey {
        seed: key.seed,
        id: key.id,
        kind: key.kind,
        ots: key.ots,
    };
    Ok((KeyTree::new(alloc, key)?, Input::new(alloc)?))
}

/// Loads the packages that a source gives into the module that holds the board (RFC 4108): each item is
/// judged at this moment and answered before the next octet is asked for.
pub fn load<S: Source, B: Board>(alloc: Global, at: Moment, source: &mut S, board: &mut B) -> Ending
    ensures runs { LoadRuns at (load_seen B.tells_cells B.tells_moments result (S.supply source.old)
        (S.supply source.new) (B.view board.old) (B.view board.new)) }
    ensures complete { LoadReady (load_seen B.tells_cells B.tells_moments result (S.supply source.old)
        (S.supply source.new) (B.view board.old) (B.view board.new))
        → LoadUndisturbed (load_seen B.tells_cells B.tells_moments result (S.supply source.old)
        (S.supply source.new) (B.view board.old) (B.view board.new))
        → IsComplete result }
{
    each_image_has_one_holder();
    let mut store = match open(alloc, board) {
        Ok(store) => store,
        Err(fault) => return open_ending_of(fault),
    };
    let (mut tree, mut input) = match make_room(alloc, &store.module.key) {
        Ok(room) => room,
        Err(_) => return Ending::NoMemory,
    };
    match answer_items(alloc, at, &mut store, &mut tree, &mut input, source, board) {
        Ok(refused) => full_ending_of(refused),
        Err(fault) => fault_ending_of(fault),
    }
}
