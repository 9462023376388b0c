// Whole answers, worked by hand from RFC 4108, sections 3 and 4, and RFC 5652, sections 3 and 5. The
// identifier of the key, whose secret is zero, and the digest of the text were computed apart from this
// program, by RFC 8554, sections 4 and 5, and Appendix A.
ghost use Rattle.std.specs.Prelude.{◌≡◌, ◌≤◌, ◌^◌, length, IfSome};
ghost use Rattle.lms_sign.specs.PublicKeys.{hss_signature_size};

use crate::answers::owner;
use crate::packages::first_leaf;
use answer_write::{Answer, AnswerKind, finish_plain, finish_signed, plain_octets, reserve_answer};
use lms_sign::{KeyTree, SignKey, key_id, leaf_count, public};
use module_record::Module;
use std::alloc::Global;

// The receipt for 1.2.3.1 in version 7 by the anchor A1.
const RECEIPT: &[u8; 23] = b"\x30\x15\x06\x02\x2a\x03\x04\x02\x00\x01\
    \x30\x08\x06\x03\x2a\x03\x01\x02\x01\x07\x04\x01\xa1";

const PLAIN_RECEIPT: &[u8; 40] =
    b"\x30\x26\x06\x0b\x2a\x86\x48\x86\xf7\x0d\x01\x09\x10\x01\x11\xa0\x17\
    \x30\x15\x06\x02\x2a\x03\x04\x02\x00\x01\x30\x08\x06\x03\x2a\x03\x01\x02\x01\x07\x04\x01\xa1";

// The receipt, signed, up to its signature of 2,352 octets.
const SIGNED_FRONT: &[u8; 227] =
    b"\x30\x82\x0a\x0f\x06\x09\x2a\x86\x48\x86\xf7\x0d\x01\x07\x02\xa0\x82\x0a\x00\
    \x30\x82\x09\xfc\x02\x01\x03\x31\x0d\x30\x0b\x06\x09\x60\x86\x48\x01\x65\x03\x04\x02\x01\
    \x30\x28\x06\x0b\x2a\x86\x48\x86\xf7\x0d\x01\x09\x10\x01\x11\xa0\x19\x04\x17\
    \x30\x15\x06\x02\x2a\x03\x04\x02\x00\x01\x30\x08\x06\x03\x2a\x03\x01\x02\x01\x07\x04\x01\xa1\
    \x31\x82\x09\xbc\x30\x82\x09\xb8\x02\x01\x03\
    \x80\x14\x28\x9e\x6a\xe1\x9f\xd0\x2f\x5a\xe3\x6b\x48\x8c\x57\x49\x60\x53\x3c\xee\xf2\xfa\
    \x30\x0b\x06\x09\x60\x86\x48\x01\x65\x03\x04\x02\x01\
    \xa0\x4d\x30\x1a\x06\x09\x2a\x86\x48\x86\xf7\x0d\x01\x09\x03\
    \x31\x0d\x06\x0b\x2a\x86\x48\x86\xf7\x0d\x01\x09\x10\x01\x11\
    \x30\x2f\x06\x09\x2a\x86\x48\x86\xf7\x0d\x01\x09\x04\x31\x22\x04\x20\
    \xe1\x7b\x05\x3d\x48\xf9\x34\x8d\xfa\x0e\xba\x28\x68\x1a\xd0\xcf\
    \xdf\x85\x65\x87\x9c\x97\x28\xed\x92\x98\x2d\x63\xa7\x8e\xb6\x64\
    \x30\x0d\x06\x0b\x2a\x86\x48\x86\xf7\x0d\x01\x09\x10\x03\x11\x04\x82\x09\x30";

// Whether the error of this text is this without a signature.
fn is_plain_error(alloc: Global, text: &[u8], whole: &[u8]) -> bool {
    if text.len() > 100 {
        return false;
    }
    match plain_octets(alloc, AnswerKind::Error, text) {
        Ok(octets) => octets.as_slice() == whole,
        Err(_) => false,
    }
}

// No element, and a package that an installed one needs in another version.
fn errors_are_plain(alloc: Global) -> bool {
    is_plain_error(
        alloc,
        b"\x30\x0e\x06\x02\x2a\x03\x04\x02\x00\x01\x0a\x01\x01\x02\x01\x01",
        b"\x30\x1f\x06\x0b\x2a\x86\x48\x86\xf7\x0d\x01\x09\x10\x01\x12\xa0\x10\
        \x30\x0e\x06\x02\x2a\x03\x04\x02\x00\x01\x0a\x01\x01\x02\x01\x01",
    ) && is_plain_error(
        alloc,
        b"\x30\x35\x06\x02\x2a\x03\x04\x02\x00\x01\x0a\x01\x24\x02\x01\x24\
        \x30\x08\x06\x03\x2a\x03\x02\x02\x01\x03\
        \xa1\x1b\x30\x0a\x30\x08\x06\x03\x2a\x03\x02\x02\x01\x04\
        \x30\x0d\x02\x01\x01\x30\x08\x06\x03\x2a\x03\x03\x02\x01\x01",
        b"\x30\x46\x06\x0b\x2a\x86\x48\x86\xf7\x0d\x01\x09\x10\x01\x12\xa0\x37\
        \x30\x35\x06\x02\x2a\x03\x04\x02\x00\x01\x0a\x01\x24\x02\x01\x24\
        \x30\x08\x06\x03\x2a\x03\x02\x02\x01\x03\
        \xa1\x1b\x30\x0a\x30\x08\x06\x03\x2a\x03\x02\x02\x01\x04\
        \x30\x0d\x02\x01\x01\x30\x08\x06\x03\x2a\x03\x03\x02\x01\x01",
    )
}

// The receipt in both forms.
fn reserved(alloc: Global, owner: &Module) -> Option<Answer>
    ensures size { IfSome result
        (λ answer. answer.unsigned.size ≡ hss_signature_size owner.now.key) }
{
    let signer = key_id(&public(&owner.key));
    match reserve_answer(alloc, owner, &signer, AnswerKind::Receipt, RECEIPT) {
        Ok(answer) => Some(answer),
        Err(_) => None,
    }
}

fn receipt_is_plain(alloc: Global) -> bool {
    let Some(owner) = owner(alloc) else {
        return false;
    };
    match reserved(alloc, &owner) {
        Some(answer) => finish_plain(answer).as_slice() == PLAIN_RECEIPT.as_slice(),
        None => false,
    }
}

// A module's key, with the nodes of its tree.
fn tree_of(alloc: Global, owner: &Module) -> Option<KeyTree>
    ensures key { IfSome result (λ tree. tree ≡ owner.now.key) }
{
    let key = SignKey {
        seed: owner.key.seed,
        id: owner.key.id,
        kind: owner.key.kind,
        ots: owner.key.ots,
    };
    match KeyTree::new(alloc, key) {
        Ok(tree) => Some(tree),
        Err(_) => None,
    }
}

// Whether the receipt that is signed with the key's first leaf begins so, and has so many octets.
fn is_signed(alloc: Global, front: &[u8], size: usize) -> bool {
    let Some(owner) = owner(alloc) else {
        return false;
    };
    if leaf_count(&owner.key) != 32 {
        return false;
    }
    let Some(leaf) = first_leaf(alloc) else {
        return false;
    };
    let Some(mut tree) = tree_of(alloc, &owner) else {
        return false;
    };
    match reserved(alloc, &owner) {
        Some(answer) => {
            let octets = finish_signed(answer, &mut tree, leaf);
            octets.len() == size && octets.starts_with(front)
        }
        None => false,
    }
}

#[test]
fn answers_are_whole(rt: HostRuntime) {
    assert!(rt; errors_are_plain(rt.alloc()) && receipt_is_plain(rt.alloc()));
    assert!(rt; is_signed(rt.alloc(), SIGNED_FRONT, 2579));
}
