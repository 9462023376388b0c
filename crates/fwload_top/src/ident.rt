// The command `ident`.
ghost use Rattle.fwload_top.specs.Seen.{seen};
ghost use Rattle.fwload_top.specs.AnswersOnce.{AnswersOnce};
ghost use Rattle.fwload_top.specs.Ident.{ident};

use crate::Status;
use crate::input::read_input;
use crate::reply::send_answer;
use edge_board::{Board, Source};
use package_attrs::read_identifier;
use report_text::put_identifier_line;
use std::alloc::Global;

// Answers the identifier that the input spells by its line.
pub(crate) fn ident<S: Source, B: Board>(alloc: Global, source: &mut S, board: &mut B) -> Status
    ensures runs { AnswersOnce ident (seen B.tells_cells B.tells_moments result
        (S.supply source.old) (S.supply source.new) (B.view board.old) (B.view board.new)) }
{
    let input = match read_input(alloc, source) {
        Ok(input) => input,
        Err(fault) => return Status::from(fault),
    };
    let Some(identifier) = read_identifier(&input) else {
        return send_answer(board, b"refused input\n", Status::Refused);
    };
    let mut line = Vec::new(alloc);
    match put_identifier_line(alloc, &mut line, &identifier) {
        Ok(()) => send_answer(board, &line, Status::Done),
        Err(_) => Status::NoMemory,
    }
}
