// The command `rehearse`.
ghost use Rattle.fwload_top.specs.Seen.{seen};
ghost use Rattle.fwload_top.specs.AnswersOnce.{AnswersOnce};
ghost use Rattle.fwload_top.specs.Rehearse.{rehearse};

use crate::Status;
use crate::input::read_input;
use crate::rehearsal::rehearse_input;
use crate::reply::send_answer;
use der_core::Moment;
use edge_board::{Board, Source};
use std::alloc::Global;

// Answers the verdicts on the input's attribute sets, and what they leave installed.
pub(crate) fn rehearse<S: Source, B: Board>(
    alloc: Global,
    at: Moment,
    source: &mut S,
    board: &mut B,
) -> Status
    ensures runs { AnswersOnce (rehearse at) (seen B.tells_cells B.tells_moments result
        (S.supply source.old) (S.supply source.new) (B.view board.old) (B.view board.new)) }
{
    let input = match read_input(alloc, source) {
        Ok(input) => input,
        Err(fault) => return Status::from(fault),
    };
    match rehearse_input(alloc, at, &input) {
        Ok(done) => send_answer(board, &done.lines, done.status()),
        Err(_) => Status::NoMemory,
    }
}
