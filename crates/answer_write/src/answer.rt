// Answers, in both of their forms.
ghost use Rattle.std.specs.Prelude.{◌≡◌, ◌<◌, ◌≤◌, ◌+◌, ◌^◌, List, ℕ, IfOk, length, map};
ghost use Rattle.std.specs.List.{concat};
ghost use Rattle.sha2.specs.Sha256.{sha256};
ghost use Rattle.der_core.specs.Attribute.{attribute_text};
ghost use Rattle.lms_sign.specs.PublicKeys.{key_id, leaf_count, hss_signature_size};
ghost use Rattle.lms_sign.specs.Roots.{public_key};
ghost use Rattle.answer_write.specs.Answers.{plain_answer, signed_answer, answer_attributes};
ghost use Rattle.answer_write.specs.Kinds.{type_of};
ghost use Rattle.answer_write.specs.Reserved.{IsReserved};

use crate::kind::AnswerKind;
use der_core::tags;
use der_write::put_tlv;
use key_state::Leaf;
use lms_sign::{KeyTree, signatures_hold};
use module_record::Module;
use sha2::{Digest, Sha256};
use signed_write::{
    Draft, Unsigned, begin_message, finish_by_tree, push_content_type, push_message_digest,
};
use std::alloc::{AllocError, Global};
use std::marker::Model;

/// An answer in both of its forms, signed but for the leaf, and plain: so that whichever is sent takes
/// no more memory.
#[derive(Drop)]
pub struct Answer {
    plain: Vec<u8>,
    unsigned: Unsigned,
}

impl Model for Answer {
    ghost use Rattle.answer_write.specs.Reserved.{Forms};

    ghost Value = { Forms };

    ghost view = { λ a. record { plain = a.plain.items; unsigned = a.unsigned } };
}

/// The answer of this kind and text without a signature: a ContentInfo of its type around the text, a
/// whole element (RFC 5652, section 3). The one refusal is for want of memory.
#[tactic(auto, unfolding(crate::specs::Answers::plain_answer))]
pub fn plain_octets(alloc: Global, kind: AnswerKind, text: &[u8]) -> Result<Vec<u8>, AllocError>
    requires few { length text.now ≤ 2 ^ 24 }
    ensures octets { IfOk result (λ out. out.items ≡ plain_answer (type_of kind) text.now) }
    ensures most { IfOk result (λ out. length out.items ≤ length text.now + 30) }
{
    let mut contents = Vec::new(alloc);
    put_tlv(
        alloc,
        &mut contents,
        tags::OBJECT_IDENTIFIER,
        &kind.content_type(),
    )?;
    put_tlv(alloc, &mut contents, tags::CONSTRUCTED_0, text)?;
    let mut out = Vec::new(alloc);
    put_tlv(alloc, &mut out, tags::SEQUENCE, &contents)?;
    Ok(out)
}

// The signed attributes of an answer of this type whose text has this digest, in no order.
fn attributes(
    alloc: Global,
    kind: &[u8],
    text: &[u8],
    digest: &[u8; 32],
) -> Result<Vec<Vec<u8>>, AllocError>
    requires kind { length kind.now ≤ 64 }
    requires digest { digest.now ≡ sha256 text.now }
    ensures ok { IfOk result (λ parts. map (λ part. part.items) parts.items
        ≡ map attribute_text (answer_attributes kind.now text.now)) }
    ensures most { IfOk result (λ parts.
        length (concat (map (λ part. part.items) parts.items)) ≤ length kind.now + 208) }
{
    let mut parts = Vec::new(alloc);
    push_content_type(alloc, &mut parts, kind)?;
    push_message_digest(alloc, &mut parts, digest)?;
    Ok(parts)
}

/// The answer of this kind and text by a module, in both forms. `signer` is what names the module's
/// key, which is handed in, since the whole tree of the key is computed for it. The one refusal is
/// for want of memory.
pub fn reserve_answer(
    alloc: Global,
    owner: &Module,
    signer: &[u8; 20],
    kind: AnswerKind,
    text: &[u8],
) -> Result<Answer, AllocError>
    requires signer { signer.now ≡ key_id (public_key owner.now.key) }
    requires few { length text.now ≤ 2 ^ 24 }
    ensures answer { IfOk result (λ answer. IsReserved owner.now (type_of kind) text.now answer) }
    ensures most { IfOk result (λ answer. length answer.plain ≤ length text.now + 30) }
    ensures most_signed { IfOk result (λ answer.
        length answer.unsigned.before ≤ length text.now + 620) }
{
    signatures_hold();
    let content_type = kind.content_type();
    let digest = Sha256::digest(text);
    let attributes = attributes(alloc, &content_type, text, &digest)?;
    let draft = Draft {
        content_type: &content_type,
        front: &[],
        content: text,
        certificates: &[],
        signer,
        attributes: &attributes,
    };
    let unsigned = begin_message(alloc, &draft, &owner.key)?;
    let plain = plain_octets(alloc, kind, text)?;
    Ok(Answer { plain, unsigned })
}

/// The answer, signed with this leaf by the module's key, which keeps the nodes of its tree. It takes no
/// memory.
pub fn finish_signed(answer: Answer, tree: &mut KeyTree, leaf: Leaf) -> Vec<u8>
    requires leaf { leaf < leaf_count tree.old }
    requires size { answer.unsigned.size ≡ hss_signature_size tree.old }
    ensures octets { (owner : Module) (kind text : List ℕ) → owner.key ≡ tree.old
        → IsReserved owner kind text answer → result.items ≡ signed_answer owner leaf kind text }
    ensures size { length result.items ≡ length answer.unsigned.before + answer.unsigned.size }
    ensures unchanged { tree.new ≡ tree.old }
{
    signatures_hold();
    finish_by_tree(answer.unsigned, tree, leaf)
}

/// The answer without a signature. It takes no memory.
pub fn finish_plain(answer: Answer) -> Vec<u8>
    ensures octets { (owner : Module) (kind text : List ℕ) → IsReserved owner kind text answer
        → result.items ≡ plain_answer kind text }
{
    answer.plain
}
