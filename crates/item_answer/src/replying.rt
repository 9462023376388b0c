// Answers over a board, with a leaf and without one. They take no memory.
ghost use Rattle.std.specs.Prelude.{◌≡◌, ◌≤◌, ℕ, List, false, OnOk, IfOk, IsTrue};
ghost use Rattle.edge_board.specs.Board.{IsSettled, Nowhere};
ghost use Rattle.edge_board.specs.Causes.{HasCause};
ghost use Rattle.edge_board.specs.Runs.{Changes, Touches};
ghost use Rattle.key_state.specs.KeyBlock.{FirstUnspent, IsLeafCount, row_of};
ghost use Rattle.lms_sign.specs.PublicKeys.{leaf_count, hss_signature_size};
ghost use Rattle.bank_layout.specs.Recovery.{Standing, Recovers};
ghost use Rattle.bank_layout.specs.Recovery.Holder.{module_board};
ghost use Rattle.judge_core.specs.Verdicts.{Verdict};
ghost use Rattle.load_claims.specs.Items.{JudgesAt, answer as said_by, after, uses_leaf};
ghost use Rattle.load_claims.specs.Boards.{IsInstalled};
ghost use Rattle.item_answer.specs.Answers.{AnswersItem, IsAnswerTo, ended};

use crate::ItemFault;
use answer_write::{Answer, finish_plain, finish_signed};
use edge_board::{Board, Failed, send_all};
use key_state::{SpendFault, row_has_a_place_a_leaf, spend};
use lms_sign::{KeyTree, leaf_count};
use load_claims::{
    items_follow_each_other, sending_is_inside, spending_is_inside, steps_follow_each_other,
};
use module_record::Module;

// The octets of an answer: signed with the key's next leaf, or plain where none is left.
fn finish_answer<B: Board>(
    board: &mut B,
    owner: &Module,
    tree: &mut KeyTree,
    answer: Answer,
) -> Result<Vec<u8>, Failed>
    requires tree { tree.old ≡ owner.now.key }
    requires size { answer.unsigned.size ≡ hss_signature_size owner.now.key }
    requires blocks { 18 ≤ (B.view board.old).blocks }
    requires settled { B.tells_cells → IsSettled (B.view board.old) }
    ensures count { IsLeafCount (leaf_count owner.now.key) }
    ensures touches { Touches B.tells_cells
        (FirstUnspent (leaf_count owner.now.key) (B.view board.old).cells)
        (B.view board.old) (B.view board.new) }
    ensures settled { B.tells_cells → OnOk result (IsSettled (B.view board.new)) }
    ensures found { B.tells_cells → OnOk result ((at : ℕ) (start : Standing) (item : List ℕ)
        (verdict : Verdict) → IsTrue (uses_leaf verdict)
        → IsInstalled owner.now at start item verdict (B.view board.old)
        → Recovers (B.view board.new).cells (module_board owner.now (after start verdict))) }
    ensures octets { B.tells_cells → IfOk result (λ octets. (start : Standing) (verdict : Verdict)
        → start.row ≡ row_of (leaf_count owner.now.key) (B.view board.old).cells
        → IsTrue (uses_leaf verdict) → IsAnswerTo owner.now start verdict answer
        → octets.items ≡ said_by owner.now start verdict) }
    ensures erased { (B.view board.new).erased ≡ (B.view board.old).erased }
    ensures cause { HasCause (B.view board.old).faults (B.view board.new).faults result }
    ensures tree { tree.new ≡ tree.old }
{
    spending_is_inside::<B>();
    row_has_a_place_a_leaf::<B>();
    match spend(board, leaf_count(&owner.key)) {
        Ok(leaf) => Ok(finish_signed(answer, tree, leaf)),
        Err(SpendFault::AllSpent) => Ok(finish_plain(answer)),
        Err(SpendFault::Fault) => Err(Failed),
    }
}

// Answers an item for which a leaf is used: spends the next leaf, where one is left, and then sends the
// answer. Its package is installed by then, where it was accepted.
pub(crate) fn reply<B: Board>(
    board: &mut B,
    owner: &Module,
    tree: &mut KeyTree,
    answer: Answer,
) -> Result<(), Failed>
    requires tree { tree.old ≡ owner.now.key }
    requires size { answer.unsigned.size ≡ hss_signature_size owner.now.key }
    requires blocks { 18 ≤ (B.view board.old).blocks }
    requires settled { B.tells_cells → IsSettled (B.view board.old) }
    ensures item { B.tells_cells → (at : ℕ) (start : Standing) (item : List ℕ) (verdict : Verdict)
        → IsTrue (uses_leaf verdict) → IsAnswerTo owner.now start verdict answer
        → IsInstalled owner.now at start item verdict (B.view board.old)
        → AnswersItem B.tells_moments owner.now at start item verdict (B.view board.old)
        (B.view board.new) result }
    ensures count { IsLeafCount (leaf_count owner.now.key) }
    ensures changes { Changes B.tells_cells
        (FirstUnspent (leaf_count owner.now.key) (B.view board.old).cells)
        (B.view board.old) (B.view board.new) }
    ensures settled { B.tells_cells → OnOk result (IsSettled (B.view board.new)) }
    ensures erased { (B.view board.new).erased ≡ (B.view board.old).erased }
    ensures cause { HasCause (B.view board.old).faults (B.view board.new).faults result }
    ensures tree { tree.new ≡ tree.old }
{
    steps_follow_each_other::<B>();
    spending_is_inside::<B>();
    sending_is_inside::<B>();
    match finish_answer(board, owner, tree, answer) {
        Ok(octets) => send_all(board, &octets),
        Err(failed) => Err(failed),
    }
}

// Answers an item for which no leaf is used: sends the plain answer. The key isn't touched.
pub(crate) fn reply_plainly<B: Board>(board: &mut B, octets: &[u8]) -> Result<(), Failed>
    requires settled { B.tells_cells → IsSettled (B.view board.old) }
    ensures item { B.tells_cells → (owner : Module) (at : ℕ) (start : Standing) (item : List ℕ)
        (verdict : Verdict) → uses_leaf verdict ≡ false → octets.now ≡ said_by owner start verdict
        → JudgesAt owner at start item verdict
        → Recovers (B.view board.old).cells (module_board owner start)
        → AnswersItem B.tells_moments owner at start item verdict (B.view board.old)
        (B.view board.new) result }
    ensures changes { Changes B.tells_cells Nowhere (B.view board.old) (B.view board.new) }
    ensures settled { B.tells_cells → OnOk result (IsSettled (B.view board.new)) }
    ensures erased { (B.view board.new).erased ≡ (B.view board.old).erased }
    ensures cause { HasCause (B.view board.old).faults (B.view board.new).faults result }
{
    sending_is_inside::<B>();
    items_follow_each_other::<B>();
    send_all(board, octets)
}

// The end of an answer on the board, as that of an item.
pub(crate) fn end_of(sent: Result<(), Failed>) -> Result<(), ItemFault>
    ensures end { result ≡ ended sent }
{
    match sent {
        Ok(()) => Ok(()),
        Err(_) => Err(ItemFault::Failed),
    }
}
