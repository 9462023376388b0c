// How a run ends that needs a module and opens no store.
ghost use Rattle.std.specs.Prelude.{◌≡◌};

use crate::Status;
use module_store::OpenFault;

impl From<OpenFault> for Status {
    ghost use Rattle.fwload_top.specs.Standing.{unopened};

    ghost from_gives = { λ fault status. status ≡ unopened fault };

    fn from(fault: OpenFault) -> Status {
        match fault {
            OpenFault::NotAModule => Status::NotAModule,
            OpenFault::Fault => Status::DeviceFault,
            OpenFault::Memory => Status::NoMemory,
        }
    }
}
