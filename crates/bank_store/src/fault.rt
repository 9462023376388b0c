// Why a board isn't opened or formatted.
ghost use Rattle.std.specs.Prelude.{◌≡◌};

use bank_gate::Fault;
use std::alloc::AllocError;
use thiserror::Error;

/// Why no key was read.
#[derive(Clone, Copy, Debug, PartialEq, Eq, Error)]
pub enum KeyFault {
    /// No key holds the board.
    #[error("the board holds no key")]
    NotAKey,
    /// The board has failed. The module is to be restarted.
    #[error("the board has failed")]
    Fault,
}

impl From<Fault> for KeyFault {
    ghost use Rattle.bank_store.specs.declared.fault.KeyFault.TheVariants.{Fault};

    ghost from_gives = { λ _ fault. fault ≡ Fault };

    fn from(_: bank_gate::Fault) -> Self {
        KeyFault::Fault
    }
}

/// Why it isn't known whether the board is held.
#[derive(Clone, Copy, Debug, PartialEq, Eq, Error)]
pub enum HolderFault {
    /// The board has failed. The module is to be restarted.
    #[error("the board has failed")]
    Fault,
    #[error("out of memory")]
    Memory,
}

impl From<Fault> for HolderFault {
    ghost use Rattle.bank_store.specs.declared.fault.HolderFault.TheVariants.{Fault};

    ghost from_gives = { λ _ fault. fault ≡ Fault };

    fn from(_: bank_gate::Fault) -> Self {
        HolderFault::Fault
    }
}

/// Why a board wasn't formatted.
#[derive(Clone, Copy, Debug, PartialEq, Eq, Error)]
pub enum FormatFault {
    /// The board doesn't recover to nobody.
    #[error("the board is held already")]
    AlreadyHeld,
    /// The board has too few blocks.
    #[error("the board is too small")]
    TooSmall,
    /// The board has failed. The module is to be restarted.
    #[error("the board has failed")]
    Fault,
    #[error("out of memory")]
    Memory,
}

impl From<HolderFault> for FormatFault {
    ghost use Rattle.bank_store.specs.Faults.{format_fault};

    ghost from_gives = { λ holder fault. fault ≡ format_fault holder };

    fn from(fault: HolderFault) -> Self {
        match fault {
            HolderFault::Fault => FormatFault::Fault,
            HolderFault::Memory => FormatFault::Memory,
        }
    }
}

impl From<Fault> for FormatFault {
    ghost use Rattle.bank_store.specs.declared.fault.FormatFault.TheVariants.{Fault};

    ghost from_gives = { λ _ fault. fault ≡ Fault };

    fn from(_: bank_gate::Fault) -> Self {
        FormatFault::Fault
    }
}

impl From<AllocError> for FormatFault {
    ghost use Rattle.bank_store.specs.declared.fault.FormatFault.TheVariants.{Memory};

    ghost from_gives = { λ _ fault. fault ≡ Memory };

    fn from(_: AllocError) -> Self {
        FormatFault::Memory
    }
}
