// Why a package isn't accepted.
ghost use Rattle.std.specs.Prelude.{◌≡◌};
ghost use Rattle.judge_core.specs.FaultOf.{of_find, of_path};

use der_core::Condition;
use path_check::{FindFault, PathFault};
use std::alloc::AllocError;

// Why no more is asked.
#[derive(Clone, Copy)]
pub(crate) enum Fault {
    // The first condition that fails.
    Fails(Condition),
    Memory,
}

impl From<AllocError> for Fault {
    ghost use Rattle.judge_core.specs.declared.fault.Fault.TheVariants.{Memory};

    ghost from_gives = { λ _ fault. fault ≡ Memory };

    fn from(_: AllocError) -> Fault {
        Fault::Memory
    }
}

// Of a search: where there is no path, condition 22 fails.
pub(crate) fn of_find(fault: FindFault) -> Fault
    ensures { result ≡ of_find fault }
{
    match fault {
        FindFault::NoAnchor => Fault::Fails(Condition::numbered(22)),
        FindFault::Memory => Fault::Memory,
    }
}

// Of a check.
pub(crate) fn of_path(fault: PathFault) -> Fault
    ensures { result ≡ of_path fault }
{
    match fault {
        PathFault::Fails(failing) => Fault::Fails(failing),
        PathFault::Memory => Fault::Memory,
    }
}
