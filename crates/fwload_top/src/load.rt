// The command `load`.
ghost use Rattle.std.specs.Prelude.{◌≡◌};
ghost use Rattle.fwload_top.specs.Seen.{seen};
ghost use Rattle.fwload_top.specs.Load.{RunsLoad};

use crate::Status;
use der_core::Moment;
use edge_board::{Board, Source};
use loader_core::Ending;
use std::alloc::Global;

impl From<Ending> for Status {
    ghost use Rattle.fwload_top.specs.Load.{status_of};

    ghost from_gives = { λ ending status. status ≡ status_of ending };

    fn from(ending: Ending) -> Status {
        match ending {
            Ending::Done => Status::Done,
            Ending::SomeRefused => Status::SomeRefused,
            Ending::NotAModule => Status::NotAModule,
            Ending::DeviceFault => Status::DeviceFault,
            Ending::SourceFault => Status::SourceFault,
            Ending::InputTooLong => Status::InputTooLong,
            Ending::NoMemory => Status::NoMemory,
        }
    }
}

// Loads the packages of the source into the module that holds the board, as the loader does.
pub(crate) fn load<S: Source, B: Board>(
    alloc: Global,
    at: Moment,
    source: &mut S,
    board: &mut B,
) -> Status
    ensures runs { RunsLoad at (seen B.tells_cells B.tells_moments result
        (S.supply source.old) (S.supply source.new) (B.view board.old) (B.view board.new)) }
{
    Status::from(loader_core::load(alloc, at, source, board))
}
