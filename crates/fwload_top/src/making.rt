// The commands `key-new` and `make`.
ghost use Rattle.std.specs.Prelude.{◌≡◌, ◌≤◌, ◌<◌, ℕ, List, length, IfOk, IfErr, IsErrOf, OnOk};
ghost use Rattle.edge_board.specs.Supply.{Supply};
ghost use Rattle.edge_board.specs.Board.{IsSettled, Nowhere};
ghost use Rattle.edge_board.specs.Causes.{Rose};
ghost use Rattle.edge_board.specs.Runs.{LeavesOnly, Touches};
ghost use Rattle.bank_layout.specs.Recovery.{IsHeld};
ghost use Rattle.bank_store.specs.Formats.{FormatMoment};
ghost use Rattle.fwload_top.specs.Input.{WasRead};
ghost use Rattle.fwload_top.specs.Meaning.{input_limit};
ghost use Rattle.fwload_top.specs.Seen.{seen};
ghost use Rattle.fwload_top.specs.AnswersOnce.{AnswersOnce};
ghost use Rattle.fwload_top.specs.BadLine.{IsFoundBad};
ghost use Rattle.fwload_top.specs.Making.{making, CanHold, InFormat, IsBadAt, IsFree, IsRecipeOf, RecoversToNew, board_blocks};

use crate::Status;
use crate::bad_line::refuse;
use crate::input::read_input;
use crate::key_line::made_line;
use crate::reply::send_answer;
use bank_store::{FormatFault, HolderFault, format, format_key, is_held};
use edge_board::{Board, Source};
use lms_sign::SignKey;
use module_record::Module;
use recipe_text::{RecipeFault, read_key_recipe, read_module_recipe};
use std::alloc::Global;

// The answer where the board is held already.
const HELD: &[u8] = b"refused module\n";

// The answer where the board has too few blocks.
const SMALL: &[u8] = b"refused board\n";

/// Whom a run of `key-new` or `make` makes a board for.
#[derive(Clone, Copy, Debug)]
pub enum HolderKind {
    /// A signing key (RFC 8554).
    Key,
    /// A module that installs firmware packages (RFC 4108, section 1.2).
    Module,
}

/// Who is to hold a board.
#[derive(Drop)]
pub enum NewHolder {
    Key(SignKey),
    Module(Module),
}

impl NewHolder {
    // Makes a board that nobody holds this holder's.
    fn format<B: Board>(&self, alloc: Global, board: &mut B) -> Result<(), FormatFault>
        requires valid { CanHold self.now }
        ensures formatted { B.tells_cells
            → OnOk result (RecoversToNew (B.view board.new).cells self.now) }
        ensures blocks { OnOk result (board_blocks self.now ≤ (B.view board.new).blocks) }
        ensures settled { B.tells_cells → ¬ IsErrOf result FormatFault.Fault
            → IsSettled (B.view board.new) }
        ensures already_held { B.tells_cells → IsErrOf result FormatFault.AlreadyHeld
            → IsHeld (B.view board.old).cells }
        ensures held_blocks { IsErrOf result FormatFault.AlreadyHeld
            → 18 ≤ (B.view board.old).blocks }
        ensures too_small { IsErrOf result FormatFault.TooSmall
            → (B.view board.old).blocks < board_blocks self.now }
        ensures refused { IfErr result (λ fault. ¬ (fault ≡ FormatFault.Fault)
            → Touches B.tells_cells Nowhere (B.view board.old) (B.view board.new)) }
        ensures small_stays { (B.view board.old).blocks < board_blocks self.now
            → Touches B.tells_cells Nowhere (B.view board.old) (B.view board.new) }
        ensures moments { B.tells_cells → IsSettled (B.view board.old)
            → LeavesOnly (B.view board.old) (B.view board.new)
            (FormatMoment (InFormat self.now) (λ image. RecoversToNew image self.now)
            (B.view board.old)) }
        ensures touches { Touches B.tells_cells (InFormat self.now)
            (B.view board.old) (B.view board.new) }
        ensures later { (B.view board.old).faults ≤ (B.view board.new).faults }
        ensures calm { ¬ IsErrOf result FormatFault.Fault
            → (B.view board.new).faults ≡ (B.view board.old).faults }
        ensures fault { IsErrOf result FormatFault.Fault
            → Rose (B.view board.old).faults (B.view board.new).faults }
    {
        match self {
            NewHolder::Key(key) => format_key(alloc, board, key),
            NewHolder::Module(owner) => format(alloc, board, owner),
        }
    }
}

// Makes a board that nobody holds the board of the key or the module whose recipe the input is.
pub(crate) fn make<S: Source, B: Board>(
    alloc: Global,
    kind: HolderKind,
    source: &mut S,
    board: &mut B,
) -> Status
    ensures runs { AnswersOnce (making kind) (seen B.tells_cells B.tells_moments result
        (S.supply source.old) (S.supply source.new) (B.view board.old) (B.view board.new)) }
{
    match is_held(alloc, board) {
        Ok(true) => send_answer(board, HELD, Status::Refused),
        Ok(false) => make_free(alloc, kind, source, board),
        Err(HolderFault::Fault) => Status::DeviceFault,
        Err(HolderFault::Memory) => Status::NoMemory,
    }
}

// The same for a board that nobody holds.
fn make_free<S: Source, B: Board>(
    alloc: Global,
    kind: HolderKind,
    source: &mut S,
    board: &mut B,
) -> Status
    requires free { B.tells_cells → IsFree (B.view board.old).cells }
    ensures runs { AnswersOnce (making kind) (seen B.tells_cells B.tells_moments result
        (S.supply source.old) (S.supply source.new) (B.view board.old) (B.view board.new)) }
{
    let input = match read_input(alloc, source) {
        Ok(input) => input,
        Err(fault) => return Status::from(fault),
    };
    match read_holder(alloc, kind, &input) {
        Ok(holder) => make_for(alloc, board, &holder),
        Err(fault) => refuse(alloc, board, fault),
    }
}

// The holder whose recipe the text is.
fn read_holder(alloc: Global, kind: HolderKind, recipe: &[u8]) -> Result<NewHolder, RecipeFault>
    requires few { length recipe.now ≤ input_limit }
    ensures good { IfOk result (λ holder. IsRecipeOf kind recipe.now holder) }
    ensures valid { IfOk result CanHold }
    ensures bad { IfErr result (IsFoundBad (IsBadAt kind recipe.now)) }
{
    match kind {
        HolderKind::Key => match read_key_recipe(recipe) {
            Ok(key) => Ok(NewHolder::Key(key)),
            Err(bad) => Err(RecipeFault::Bad(bad)),
        },
        HolderKind::Module => match read_module_recipe(alloc, recipe) {
            Ok(owner) => Ok(NewHolder::Module(owner)),
            Err(fault) => Err(fault),
        },
    }
}

// Makes the board this holder's. The line is made before anything is written.
fn make_for<B: Board>(alloc: Global, board: &mut B, holder: &NewHolder) -> Status
    requires free { B.tells_cells → IsFree (B.view board.old).cells }
    requires valid { CanHold holder.now }
    ensures runs { (kind : HolderKind) (source source' : Supply) (input : List ℕ)
        → WasRead source source' input → IsRecipeOf kind input holder.now
        → AnswersOnce (making kind) (seen B.tells_cells B.tells_moments
        result source source' (B.view board.old) (B.view board.new)) }
{
    let Ok(line) = made_line(alloc, holder) else {
        return Status::NoMemory;
    };
    match holder.format(alloc, board) {
        Ok(()) => send_answer(board, line.as_bytes(), Status::Done),
        Err(FormatFault::AlreadyHeld) => send_answer(board, HELD, Status::Refused),
        Err(FormatFault::TooSmall) => send_answer(board, SMALL, Status::Refused),
        Err(FormatFault::Fault) => Status::DeviceFault,
        Err(FormatFault::Memory) => Status::NoMemory,
    }
}
