// All that an answer needs, before the flash is touched.
ghost use Rattle.std.specs.Prelude.{◌≡◌, ◌+◌, ◌≤◌, [], IsSome, IfOk, length, unwrap_or};
ghost use Rattle.std.specs.Option.{option_copied};
ghost use Rattle.config_table.specs.State.{offer_of, with_package};
ghost use Rattle.package_attrs.specs.Description.{description};
ghost use Rattle.module_store.specs.Store.{CanPrepare, IsReady, next_of};
ghost use Rattle.receipt_writer.specs.Answers.{IsNamed, receipt_text, error_text};
ghost use Rattle.answer_write.specs.Answers.{load_receipt, load_error, plain_answer};
ghost use Rattle.answer_write.specs.Reserved.{IsReserved};

use answer_write::{Answer, AnswerKind, plain_octets, reserve_answer};
use config_table::State;
use content_stream::Streamed;
use der_core::{Condition, Octets64};
use lms_sign::{KeyTree, key_id};
use module_record::Module;
use module_store::{Ready, Store, prepare};
use package_attrs::{Package, PackageName};
use receipt_writer::{put_error, put_receipt};
use std::alloc::{AllocError, Global};

// The receipt of an accepted package, in both forms.
fn receipt(
    alloc: Global,
    owner: &Module,
    tree: &mut KeyTree,
    name: &PackageName,
    anchor_key: &Octets64,
) -> Result<Answer, AllocError>
    requires tree { tree.old ≡ owner.now.key }
    ensures answer { IfOk result (λ answer. IsReserved owner.now load_receipt
        (receipt_text owner.now name.now anchor_key.now) answer) }
    ensures tree { tree.new ≡ tree.old }
{
    let mut text = Vec::new(alloc);
    put_receipt(alloc, &mut text, owner, name, anchor_key)?;
    let signer = key_id(&tree.public());
    reserve_answer(alloc, owner, &signer, AnswerKind::Receipt, &text)
}

// The install of an accepted package, and its receipt.
pub(crate) fn acceptance(
    alloc: Global,
    store: &Store,
    tree: &mut KeyTree,
    offered: &Package<'_>,
    anchor_key: &Octets64,
    streamed: Streamed,
) -> Result<(Ready, Answer), AllocError>
    requires tree { tree.old ≡ store.now.module.key }
    requires stored { IsSome streamed.blocks }
    requires can { CanPrepare store.now (offer_of (description offered.now)) streamed.image_digest
        (record { length = streamed.length; blocks = unwrap_or streamed.blocks [] }) }
    ensures ready { IfOk result (λ x. IsReady store.now x.0) }
    ensures made { IfOk result (λ x. next_of x.0 ≡ record {
      sequence = store.now.sequence + 1;
      state = with_package (offer_of (description offered.now)) streamed.image_digest
          (record { length = streamed.length; blocks = unwrap_or streamed.blocks [] })
          store.now.state;
    }) }
    ensures answer { IfOk result (λ x. IsReserved store.now.module load_receipt
        (receipt_text store.now.module (description offered.now).identifier.name anchor_key.now)
        x.1) }
    ensures tree { tree.new ≡ tree.old }
{
    let answer = receipt(
        alloc,
        &store.module,
        tree,
        &offered.identifier.name,
        anchor_key,
    )?;
    let ready = prepare(alloc, store, offered, streamed)?;
    Ok((ready, answer))
}

// The text of the error for a refused item.
fn error(
    alloc: Global,
    store: &Store,
    failing: Condition,
    name: Option<&PackageName>,
) -> Result<Vec<u8>, AllocError>
    requires few { length store.now.state.packages ≤ 64 }
    requires named { IsNamed failing (option_copied name) }
    ensures text { IfOk result (λ text. text.items
        ≡ error_text store.now.module store.now.state failing (option_copied name.entry)) }
    ensures most { IfOk result (λ text. length text.items ≤ 8500) }
{
    let mut text = Vec::new(alloc);
    put_error(alloc, &mut text, &store.module, &store.state, failing, name)?;
    Ok(text)
}

// The error for a refused item, in both forms.
pub(crate) fn late_error(
    alloc: Global,
    store: &Store,
    tree: &mut KeyTree,
    failing: Condition,
    name: Option<&PackageName>,
) -> Result<Answer, AllocError>
    requires tree { tree.old ≡ store.now.module.key }
    requires few { length store.now.state.packages ≤ 64 }
    requires named { IsNamed failing (option_copied name) }
    ensures answer { IfOk result (λ answer. IsReserved store.now.module load_error
        (error_text store.now.module store.now.state failing (option_copied name.entry)) answer) }
    ensures tree { tree.new ≡ tree.old }
{
    let text = error(alloc, store, failing, name)?;
    let signer = key_id(&tree.public());
    reserve_answer(alloc, &store.module, &signer, AnswerKind::Error, &text)
}

// The error for a refused item, plain.
pub(crate) fn early_error(
    alloc: Global,
    store: &Store,
    failing: Condition,
    name: Option<&PackageName>,
) -> Result<Vec<u8>, AllocError>
    requires few { length store.now.state.packages ≤ 64 }
    requires named { IsNamed failing (option_copied name) }
    ensures octets { IfOk result (λ octets. octets.items ≡ plain_answer load_error
        (error_text store.now.module store.now.state failing (option_copied name.entry))) }
{
    let text = error(alloc, store, failing, name)?;
    plain_octets(alloc, AnswerKind::Error, &text)
}
