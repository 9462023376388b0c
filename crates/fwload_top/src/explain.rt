// The command `explain`.
ghost use Rattle.std.specs.Prelude.{◌≡◌, ◌≤◌, IfOk};
ghost use Rattle.module_store.specs.Store.{HasBlocks, IsStore, IsStoreOf};
ghost use Rattle.judge_core.specs.Verdicts.{bench};
ghost use Rattle.judge_core.specs.Views.{verdict_view};
ghost use Rattle.fwload_top.specs.Seen.{seen};
ghost use Rattle.fwload_top.specs.AnswersOnce.{AnswersOnce};
ghost use Rattle.fwload_top.specs.Explain.{explain, ArePathLines, Explains, IsFront, answer_status, refused_by};

use crate::Status;
use crate::input::read_input;
use crate::reply::send_answer;
use bank_layout::images_have_their_lengths;
use der_core::{Condition, Moment};
use edge_board::{Board, Source};
use explain_text::{put_grant, put_path, put_verdict};
use judge_core::{PathGrant, Verdict, judge, path_grant};
use module_record::Module;
use module_store::{Store, open};
use std::alloc::{AllocError, Global};

// Answers what the path of the package permits that the input is, and the verdict on it.
pub(crate) fn explain<S: Source, B: Board>(
    alloc: Global,
    at: Moment,
    source: &mut S,
    board: &mut B,
) -> Status
    ensures runs { AnswersOnce (explain at) (seen B.tells_cells B.tells_moments result
        (S.supply source.old) (S.supply source.new) (B.view board.old) (B.view board.new)) }
{
    match open(alloc, board) {
        Ok(store) => explain_by(alloc, at, &store, source, board),
        Err(fault) => Status::from(fault),
    }
}

// The same by the store that the board holds.
fn explain_by<S: Source, B: Board>(
    alloc: Global,
    at: Moment,
    store: &Store,
    source: &mut S,
    board: &mut B,
) -> Status
    requires holds { B.tells_cells → IsStoreOf store.now (B.view board.old).cells }
    requires valid { IsStore store.now }
    requires blocks { HasBlocks store.now (B.view board.old).blocks }
    ensures runs { AnswersOnce (explain at) (seen B.tells_cells B.tells_moments result
        (S.supply source.old) (S.supply source.new) (B.view board.old) (B.view board.new)) }
{
    images_have_their_lengths();
    let input = match read_input(alloc, source) {
        Ok(input) => input,
        Err(fault) => return Status::from(fault),
    };
    match explain_item(alloc, at, store, &input) {
        Ok(done) => send_answer(board, &done.lines, done.status()),
        Err(_) => Status::NoMemory,
    }
}

// The lines of an item, and the condition that it fails first.
#[derive(Drop)]
struct Explanation {
    lines: Vec<u8>,
    refused: Option<Condition>,
}

impl Explanation {
    // The status that goes with the lines.
    fn status(&self) -> Status
        ensures { result ≡ answer_status self.now.refused }
    {
        match self.refused {
            Some(_) => Status::SomeRefused,
            None => Status::Done,
        }
    }
}

// The lines of an item, over what stands in the store.
fn explain_item(
    alloc: Global,
    at: Moment,
    store: &Store,
    item: &[u8],
) -> Result<Explanation, AllocError>
    requires valid { IsStore store.now }
    ensures explains { IfOk result (λ done.
        Explains (bench store.now.module store.now.state store.now.sequence at) item.now
        done.refused done.lines.items) }
{
    let mut lines = front_of(alloc, &store.module, item)?;
    let refused = refusal(judge(alloc, &store.module, &store.state, store.sequence, at, item)?);
    put_verdict(alloc, &mut lines, refused)?;
    Ok(Explanation { lines, refused })
}

// The condition by which a verdict refuses.
fn refusal(verdict: Verdict<'_>) -> Option<Condition>
    ensures { result ≡ refused_by (verdict_view verdict.entry) }
{
    match verdict {
        Verdict::Accept { .. } => None,
        Verdict::Refuse(condition, _) => Some(condition),
    }
}

// The lines of an item's path and of what it permits. None where there is no path.
fn front_of(alloc: Global, owner: &Module, item: &[u8]) -> Result<Vec<u8>, AllocError>
    ensures front { IfOk result (λ lines. IsFront owner.now item.now lines.items) }
{
    match path_grant(alloc, owner, item)? {
        Some(told) => Ok(path_lines(alloc, &told)?),
        None => Ok(Vec::new(alloc)),
    }
}

// The lines of a path and of what it permits.
fn path_lines(alloc: Global, told: &PathGrant<'_>) -> Result<Vec<u8>, AllocError>
    ensures lines { IfOk result (λ lines. ArePathLines told.now lines.items) }
{
    let mut lines = Vec::new(alloc);
    put_path(alloc, &mut lines, told.certificates, told.anchor)?;
    put_grant(alloc, &mut lines, &told.grant)?;
    Ok(lines)
}
