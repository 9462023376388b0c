//! The program: `fwload FLASHFILE COMMAND ..` runs a command over standard input, a flash in a
//! file and standard output, and ends with the status of the run.
//!
//! The number of each status is proved (`exit`: `number`). What `run` promises is said in
//! `fwload_top`, and no clause speaks of what `main` hands it. It prints nothing itself.
//! Where the system doesn't give the words as text, it ends with the status of wrong words, and
//! where memory for them is wanting, with that of no memory. Without words the flash file has the
//! empty name.
#![tactic(auto)]

ghost use Rattle.std.specs.Prelude.{◌≡◌};
ghost use Rattle.std.specs.Process.{exit_status};
ghost use Rattle.fwload.specs.Exit.{exit_number};

use edge_board::{FileBoard, StdSource};
use fwload_top::{Status, run};
use std::env;
use std::io::ErrorKind;
use std::process::ExitCode;

// The status as the number that the program ends with.
fn exit(status: Status) -> ExitCode
    ensures number { exit_status result ≡ exit_number status }
{
    ExitCode::from(status as u8)
}

fn main(rt: HostRuntime) -> ExitCode {
    let given = match env::args(&rt) {
        Ok(given) => given,
        Err(error) if error.kind() == ErrorKind::OutOfMemory => return exit(Status::NoMemory),
        Err(_) => return exit(Status::Usage),
    };
    let mut words = Vec::new(rt.alloc());
    for word in given.skip(1) {
        if words.push(word).is_err() {
            return exit(Status::NoMemory);
        }
    }
    let name = match words.as_slice() {
        [name, ..] => name.as_str(),
        [] => "",
    };
    let mut source = StdSource::new(&rt);
    let mut board = FileBoard::new(&rt, name);
    exit(run(rt.alloc(), &words, &mut source, &mut board))
}
