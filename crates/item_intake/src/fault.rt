// Why no item is answered.
ghost use Rattle.std.specs.Prelude.{◌≡◌};

use edge_board::Failed;
use load_input::ReadFault;
use std::alloc::AllocError;

/// Why octets of an item aren't taken.
#[derive(Clone, Copy, Debug, PartialEq, Eq)]
pub enum TakeFault {
    /// The board has failed.
    Device,
    Memory,
}

impl From<Failed> for TakeFault {
    ghost use Rattle.item_intake.specs.declared.fault.TakeFault.TheVariants.{Device};

    ghost from_gives = { λ _ fault. fault ≡ Device };

    fn from(_: Failed) -> TakeFault {
        TakeFault::Device
    }
}

impl From<AllocError> for TakeFault {
    ghost use Rattle.item_intake.specs.declared.fault.TakeFault.TheVariants.{Memory};

    ghost from_gives = { λ _ fault. fault ≡ Memory };

    fn from(_: AllocError) -> TakeFault {
        TakeFault::Memory
    }
}

/// Why an item isn't read to its end, or isn't answered.
#[derive(Clone, Copy, Debug, PartialEq, Eq)]
pub enum LoadFault {
    /// The board has failed.
    Device,
    /// The source has failed.
    Source,
    /// The source has given an octet more than the limit of an input.
    TooLong,
    Memory,
}

impl From<TakeFault> for LoadFault {
    ghost use Rattle.item_intake.specs.Causes.{take_fault};

    ghost from_gives = { λ taken fault. fault ≡ take_fault taken };

    fn from(fault: TakeFault) -> LoadFault {
        match fault {
            TakeFault::Device => LoadFault::Device,
            TakeFault::Memory => LoadFault::Memory,
        }
    }
}

impl From<ReadFault> for LoadFault {
    ghost use Rattle.item_intake.specs.Causes.{read_fault};

    ghost from_gives = { λ read fault. fault ≡ read_fault read };

    fn from(fault: ReadFault) -> LoadFault {
        match fault {
            ReadFault::Failed => LoadFault::Source,
            ReadFault::TooLong => LoadFault::TooLong,
        }
    }
}
