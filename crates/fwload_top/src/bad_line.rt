// The answer to a recipe that is none.
ghost use Rattle.std.specs.Prelude.{◌≡◌, ◌⊎◌, ℕ, string_bytes, IfOk};
ghost use Rattle.fwload_top.specs.BadLine.{line_refused, IsBad};
ghost use Rattle.fwload_top.specs.Reply.{Replies};

use crate::Status;
use crate::reply::send_answer;
use edge_board::Board;
use recipe_text::{BadLine, RecipeFault};
use std::alloc::{AllocError, Global};

fn bad_line(alloc: Global, bad: BadLine) -> Result<String, AllocError>
    ensures line { IfOk result (λ line. string_bytes line ≡ line_refused bad.0) }
{
    let number = bad.0;
    format!(in alloc; "refused line {number}\n")
}

// Says which line of a recipe is bad. Memory for it may be wanting, and then the board isn't called.
pub(crate) fn refuse_line<B: Board>(alloc: Global, board: &mut B, bad: BadLine) -> Status
    ensures said { ((result ≡ Status.NoMemory) × (board.new ≡ board.old))
        ⊎ Replies B.tells_cells B.tells_moments Status.Refused result (line_refused bad.0)
        (B.view board.old) (B.view board.new) }
{
    match bad_line(alloc, bad) {
        Ok(line) => send_answer(board, line.as_bytes(), Status::Refused),
        Err(_) => Status::NoMemory,
    }
}

// Says why a text is no recipe. Memory may have been wanting, and then the board isn't called.
pub(crate) fn refuse<B: Board>(alloc: Global, board: &mut B, fault: RecipeFault) -> Status
    ensures said { ((result ≡ Status.NoMemory) × (board.new ≡ board.old))
        ⊎ ((n : ℕ) × IsBad fault n × Replies B.tells_cells B.tells_moments Status.Refused result
        (line_refused n) (B.view board.old) (B.view board.new)) }
{
    match fault {
        RecipeFault::Bad(bad) => refuse_line(alloc, board, bad),
        RecipeFault::Memory => Status::NoMemory,
    }
}
