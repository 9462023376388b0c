// The commands `issue` and `pack`.
ghost use Rattle.std.specs.Prelude.{◌≡◌, ◌≤◌, ℕ, List, length, IfOk, IfErr};
ghost use Rattle.edge_board.specs.Supply.{Supply};
ghost use Rattle.lms_sign.specs.PublicKeys.{hss_signature_size};
ghost use Rattle.packager.specs.SigningRuns.{Output};
ghost use Rattle.bank_layout.specs.Recovery.{HoldsKey};
ghost use Rattle.fwload_top.specs.Input.{WasRead};
ghost use Rattle.fwload_top.specs.Meaning.{input_limit};
ghost use Rattle.fwload_top.specs.Seen.{seen};
ghost use Rattle.fwload_top.specs.AnswersOnce.{AnswersOnce};
ghost use Rattle.fwload_top.specs.BadLine.{IsFoundBad};
ghost use Rattle.fwload_top.specs.Signing.{signing, IsBadAt, IsToSign};

use crate::Status;
use crate::bad_line::refuse;
use crate::input::read_input;
use crate::reply::send_answer;
use bank_layout::each_image_has_one_holder;
use bank_store::{KeyFault, open_key};
use edge_board::{Board, Source};
use key_state::{SpendFault, spend};
use lms_sign::{SignKey, leaf_count};
use packager::laws::finished_is_the_output;
use packager::{Unsigned, finish, issue, pack};
use recipe_text::{RecipeFault, read_cert_recipe, read_package_recipe};
use std::alloc::Global;

/// What a run of `issue` or `pack` signs.
#[derive(Clone, Copy, Debug)]
pub enum Product {
    /// A certificate (RFC 5280, section 4.1).
    Certificate,
    /// A firmware package (RFC 4108, section 2).
    Package,
}

// Signs what the recipe that the input is says, with the next leaf of the key that holds the board.
pub(crate) fn sign<S: Source, B: Board>(
    alloc: Global,
    product: Product,
    source: &mut S,
    board: &mut B,
) -> Status
    ensures runs { AnswersOnce (signing product) (seen B.tells_cells B.tells_moments result
        (S.supply source.old) (S.supply source.new) (B.view board.old) (B.view board.new)) }
{
    match open_key(board) {
        Ok(key) => sign_by(alloc, product, &key, source, board),
        Err(KeyFault::NotAKey) => Status::NotAModule,
        Err(KeyFault::Fault) => Status::DeviceFault,
    }
}

// The same with the key that holds the board.
fn sign_by<S: Source, B: Board>(
    alloc: Global,
    product: Product,
    key: &SignKey,
    source: &mut S,
    board: &mut B,
) -> Status
    requires key { B.tells_cells → HoldsKey (B.view board.old).cells key.now }
    requires blocks { 18 ≤ (B.view board.old).blocks }
    ensures runs { AnswersOnce (signing product) (seen B.tells_cells B.tells_moments result
        (S.supply source.old) (S.supply source.new) (B.view board.old) (B.view board.new)) }
{
    let input = match read_input(alloc, source) {
        Ok(input) => input,
        Err(fault) => return Status::from(fault),
    };
    match unsigned(alloc, product, &input, key) {
        Ok(unsigned) => spend_and_send(board, product, key, unsigned),
        Err(fault) => refuse(alloc, board, fault),
    }
}

// What the recipe says, before it is signed. All memory is taken here.
fn unsigned(
    alloc: Global,
    product: Product,
    recipe: &[u8],
    key: &SignKey,
) -> Result<Unsigned, RecipeFault>
    requires few { length recipe.now ≤ input_limit }
    ensures size { IfOk result (λ unsigned. unsigned.size ≡ hss_signature_size key.now) }
    ensures to_sign { IfOk result (λ unsigned. (output : Output)
        × IsToSign product recipe.now key.now unsigned output) }
    ensures bad { IfErr result (IsFoundBad (IsBadAt product recipe.now)) }
{
    finished_is_the_output();
    match product {
        Product::Certificate => match read_cert_recipe(alloc, recipe) {
            Ok(plan) => Ok(issue(alloc, &plan, key)?),
            Err(fault) => Err(fault),
        },
        Product::Package => match read_package_recipe(alloc, recipe) {
            Ok(plan) => Ok(pack(alloc, &plan, key)?),
            Err(fault) => Err(fault),
        },
    }
}

// Spends a leaf, signs with it, and sends. It takes no memory.
fn spend_and_send<B: Board>(
    board: &mut B,
    product: Product,
    key: &SignKey,
    unsigned: Unsigned,
) -> Status
    requires key { B.tells_cells → HoldsKey (B.view board.old).cells key.now }
    requires blocks { 18 ≤ (B.view board.old).blocks }
    requires size { unsigned.size ≡ hss_signature_size key.now }
    ensures runs { (source source' : Supply) (input : List ℕ) (output : Output)
        → WasRead source source' input → IsToSign product input key.now unsigned output
        → AnswersOnce (signing product) (seen B.tells_cells B.tells_moments result source source'
        (B.view board.old) (B.view board.new)) }
{
    each_image_has_one_holder();
    match spend(board, leaf_count(key)) {
        Ok(leaf) => send_answer(board, &finish(unsigned, key, leaf), Status::Done),
        Err(SpendFault::AllSpent) => Status::KeySpent,
        Err(SpendFault::Fault) => Status::DeviceFault,
    }
}
