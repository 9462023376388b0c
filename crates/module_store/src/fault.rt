// Why a store isn't opened.
ghost use Rattle.std.specs.Prelude.{◌≡◌};

use bank_gate::Fault;
use edge_board::Failed;
use std::alloc::AllocError;
use thiserror::Error;

/// Why no store was opened.
#[derive(Clone, Copy, Debug, PartialEq, Eq, Error)]
pub enum OpenFault {
    /// No module holds the board.
    #[error("the board holds no module")]
    NotAModule,
    /// The board has failed. The module is to be restarted.
    #[error("the board has failed")]
    Fault,
    #[error("out of memory")]
    Memory,
}

impl From<Failed> for OpenFault {
    ghost use Rattle.module_store.specs.declared.fault.OpenFault.TheVariants.{Fault};

    ghost from_gives = { λ _ fault. fault ≡ Fault };

    fn from(_: Failed) -> Self {
        OpenFault::Fault
    }
}

impl From<Fault> for OpenFault {
    ghost use Rattle.module_store.specs.declared.fault.OpenFault.TheVariants.{Fault};

    ghost from_gives = { λ _ fault. fault ≡ Fault };

    fn from(_: bank_gate::Fault) -> Self {
        OpenFault::Fault
    }
}

impl From<AllocError> for OpenFault {
    ghost use Rattle.module_store.specs.declared.fault.OpenFault.TheVariants.{Memory};

    ghost from_gives = { λ _ fault. fault ≡ Memory };

    fn from(_: AllocError) -> Self {
        OpenFault::Memory
    }
}
