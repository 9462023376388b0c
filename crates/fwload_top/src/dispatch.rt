// From the words to the command, and to the status.
ghost use Rattle.std.specs.Prelude.{◌≡◌, ◌↔◌};
ghost use Rattle.fwload_top.specs.Words.{Asks};
ghost use Rattle.fwload_top.specs.Seen.{seen};
ghost use Rattle.fwload_top.specs.HasCauses.{HasCauses};
ghost use Rattle.fwload_top.specs.Commands.{promise, Completes};

use crate::explain::explain;
use crate::ident::ident;
use crate::list::list;
use crate::load::load;
use crate::making::{HolderKind, make};
use crate::rehearse::rehearse;
use crate::sigcheck::sigcheck;
use crate::signing::{Product, sign};
use crate::words::command_of;
use crate::{Command, Status};
use edge_board::{Board, Source};
use std::alloc::Global;

/// Does what the words ask for, over a source of octets and a board.
///
/// The first word names the flash file for the caller and means nothing here; the second is the
/// command. What a source or a board doesn't tell of itself no clause speaks of.
pub fn run<S: Source, B: Board>(
    alloc: Global,
    words: &[String],
    source: &mut S,
    board: &mut B,
) -> Status
    // Usage comes exactly where the words are no command, and then nothing was done.
    ensures usage { (result ≡ Status.Usage) ↔ ((c : Command) → Asks words.now c → ⊥) }
    ensures untouched { result ≡ Status.Usage
        → (source.new ≡ source.old) × (board.new ≡ board.old) }

    // A fault comes exactly where a call failed, InputTooLong exactly where more octets than the
    // command's limit were taken, which is one octet more at most, and some statuses are silent.
    ensures causes { (c : Command) → Asks words.now c
        → HasCauses (promise c).limit (seen B.tells_cells B.tells_moments result
        (S.supply source.old) (S.supply source.new) (B.view board.old) (B.view board.new)) }

    // What the command answers, and what a power cut at any moment leaves.
    ensures answers { (c : Command) → Asks words.now c
        → (promise c).Runs (seen B.tells_cells B.tells_moments result
        (S.supply source.old) (S.supply source.new) (B.view board.old) (B.view board.new)) }

    // Over the board and the input that it needs, and where no call failed, the command is done, or
    // memory was wanting.
    ensures complete { (c : Command) → Asks words.now c
        → Completes (promise c) (seen B.tells_cells B.tells_moments result
        (S.supply source.old) (S.supply source.new) (B.view board.old) (B.view board.new)) }
{
    match command_of(words) {
        None => Status::Usage,
        Some(command) => obey(alloc, command, source, board),
    }
}

// Does what a command asks for.
fn obey<S: Source, B: Board>(
    alloc: Global,
    command: Command,
    source: &mut S,
    board: &mut B,
) -> Status
    ensures runs { (promise command).Runs (seen B.tells_cells B.tells_moments result
        (S.supply source.old) (S.supply source.new) (B.view board.old) (B.view board.new)) }
{
    match command {
        Command::Ident => ident(alloc, source, board),
        Command::Sigcheck => sigcheck(alloc, source, board),
        Command::Rehearse(at) => rehearse(alloc, at, source, board),
        Command::Explain(at) => explain(alloc, at, source, board),
        Command::KeyNew => make(alloc, HolderKind::Key, source, board),
        Command::Make => make(alloc, HolderKind::Module, source, board),
        Command::List => list(alloc, board),
        Command::Issue => sign(alloc, Product::Certificate, source, board),
        Command::Pack => sign(alloc, Product::Package, source, board),
        Command::Load(at) => load(alloc, at, source, board),
    }
}
