// The command `sigcheck`.
ghost use Rattle.fwload_top.specs.Seen.{seen};
ghost use Rattle.fwload_top.specs.AnswersOnce.{AnswersOnce};
ghost use Rattle.fwload_top.specs.Sigcheck.{sigcheck};

use crate::Status;
use crate::input::read_input;
use crate::reply::send_answer;
use crate::triple::read_triple;
use edge_board::{Board, Source};
use hss_chain::{hss_check, hss_key};
use std::alloc::Global;

// Answers whether the signature of the message holds under the key.
pub(crate) fn sigcheck<S: Source, B: Board>(alloc: Global, source: &mut S, board: &mut B) -> Status
    ensures runs { AnswersOnce sigcheck (seen B.tells_cells B.tells_moments result
        (S.supply source.old) (S.supply source.new) (B.view board.old) (B.view board.new)) }
{
    let input = match read_input(alloc, source) {
        Ok(input) => input,
        Err(fault) => return Status::from(fault),
    };
    let Some(triple) = read_triple(&input) else {
        return send_answer(board, b"refused input\n", Status::Refused);
    };
    let Some(key) = hss_key(triple.key) else {
        return send_answer(board, b"refused key\n", Status::Refused);
    };
    if hss_check(&key, triple.message, &[], triple.signature) {
        send_answer(board, b"good\n", Status::Done)
    } else {
        send_answer(board, b"bad\n", Status::SomeRefused)
    }
}
