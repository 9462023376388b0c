// Rows of a signing key: its root, its signatures and its octets, as another signer makes them.
ghost use Rattle.std.specs.Prelude.{◌≡◌, ◌≤◌, length};
ghost use Rattle.lms_sign.specs.PublicKeys.{hss_signature_size};

use crate::vectors::{LOWER_KEY, MESSAGE};
use edge_board::{Board, MemBoard};
use hss_chain::{HssKey, hss_check, hss_key};
use key_state::{ROW, spend};
use lms_sign::{SignKey, key_id, key_octets, leaf_count, public, sign, signature_size};
use lms_verify::{LmsKind, OtsKind};
use sha2::{Digest, Sha256};
use std::alloc::Global;

// Marks so many leaves as spent: whether it is done.
fn spends<B: Board>(board: &mut B, count: usize) -> bool
    requires blocks { 18 ≤ (B.view board.old).blocks }
    ensures blocks { (B.view board.new).blocks ≡ (B.view board.old).blocks }
{
    let row = [0u8; 8];
    board.program(ROW, &row[..count.min(8)]).is_ok()
}

// Signs the message, cut in two, with the leaf behind them: whether it is done.
fn signs_next<B: Board>(board: &mut B, key: &SignKey, message: &[u8], out: &mut [u8]) -> bool
    requires blocks { 18 ≤ (B.view board.old).blocks }
    requires size { length out.old ≡ hss_signature_size key.now }
{
    match spend(board, leaf_count(key)) {
        Ok(leaf) => {
            let (first, rest) = message.split_at(message.len() / 2);
            sign(key, leaf, first, rest, out);
            true
        }
        Err(_) => false,
    }
}

// The same on a board of its own, where so many leaves are spent.
fn signs_with(alloc: Global, key: &SignKey, leaf: usize, message: &[u8], out: &mut [u8]) -> bool
    requires size { length out.old ≡ hss_signature_size key.now }
{
    match MemBoard::new(alloc, 18, Vec::new(alloc), 4, 1024) {
        Ok(mut board) => spends(&mut board, leaf) && signs_next(&mut board, key, message, out),
        Err(_) => false,
    }
}

// Whether the signature has this digest, and holds for the message alone.
fn holds(top: &HssKey, message: &[u8], signature: &[u8], digest: &[u8; 32]) -> bool {
    hss_check(top, message, b"", signature)
        && !hss_check(top, b"another", b"", signature)
        && Sha256::digest(signature) == *digest
}

// Whether that is so of the key's signature with a leaf, before which all are spent.
fn signs(
    alloc: Global,
    key: &SignKey,
    top: &HssKey,
    leaf: usize,
    message: &[u8],
    digest: &[u8; 32],
) -> bool {
    match vec![in alloc; 0u8; signature_size(key)] {
        Ok(mut octets) => {
            signs_with(alloc, key, leaf, message, &mut octets)
                && holds(top, message, &octets, digest)
        }
        Err(_) => false,
    }
}

// The keys of the two levels of RFC 8554, Appendix F, test case 2.
fn upper() -> SignKey {
    SignKey {
        seed: UPPER_SEED,
        id: UPPER_ID,
        kind: LmsKind::H10,
        ots: OtsKind::W4,
    }
}

fn lower() -> SignKey {
    SignKey {
        seed: LOWER_SEED,
        id: LOWER_ID,
        kind: LmsKind::H5,
        ots: OtsKind::W8,
    }
}

const UPPER_SEED: [u8; 32] = *b"\
    \x55\x8b\x89\x66\xc4\x8a\xe9\xcb\x89\x8b\x42\x3c\x83\x44\x3a\xae\
    \x01\x4a\x72\xf1\xb1\xab\x5c\xc8\x5c\xf1\xd8\x92\x90\x3b\x54\x39";

const UPPER_ID: [u8; 16] = *b"\xd0\x8f\xab\xd4\xa2\x09\x1f\xf0\xa8\xcb\x4e\xd8\x34\xe7\x45\x34";

const LOWER_SEED: [u8; 32] = *b"\
    \xa1\xc4\x69\x6e\x26\x08\x03\x5a\x88\x61\x00\xd0\x5c\xd9\x99\x45\
    \xeb\x33\x70\x73\x18\x84\xa8\x23\x5e\x2f\xb3\xd4\xd7\x1f\x25\x47";

const LOWER_ID: [u8; 16] = *b"\x21\x5f\x83\xb7\xcc\xb9\xac\xbc\xd0\x8d\xb9\x7b\x0d\x04\xdc\x2b";

// The root T[1] of each, which stands there, and the digest of its signature alone, as
// `tests/lms_vectors.py` at the top of the repository makes it from the seeds that stand there. The
// upper one signs the lower key.
const UPPER_ROOT: [u8; 32] = *b"\
    \x32\xa5\x88\x85\xcd\x9b\xa0\x43\x12\x35\x46\x6b\xff\x96\x51\xc6\
    \xc9\x21\x24\x40\x4d\x45\xfa\x53\xcf\x16\x1c\x28\xf1\xad\x5a\x8e";

const UPPER_DIGEST: [u8; 32] = *b"\
    \xbf\x76\x23\x72\xb3\x52\xbd\xce\xd8\x72\x72\xc4\xa6\x81\x68\x58\
    \x29\x0f\x8a\xe5\xd4\x39\x78\xea\xe8\x0a\x01\xb2\x4e\x53\xbb\x6c";

const LOWER_ROOT: [u8; 32] = *b"\
    \xa1\xcd\x03\x58\x33\xe0\xe9\x00\x59\x60\x3f\x26\xe0\x7a\xd2\xaa\
    \xd1\x52\x33\x8e\x7a\x5e\x59\x84\xbc\xd5\xf7\xbb\x4e\xba\x40\xb7";

const LOWER_DIGEST: [u8; 32] = *b"\
    \xa5\x8c\xcf\x1f\x4d\x52\x9a\x72\xbf\x1d\x0b\x2a\x5b\x19\xb3\xa1\
    \x3b\xbf\x6c\x4a\x1d\x7b\x00\xfa\x58\x44\x28\x08\x53\xfa\x74\xbc";

// Whether the key has this root and so many leaves.
fn is_tree(key: &SignKey, top: &HssKey, root: &[u8; 32], leaves: u32) -> bool {
    top.top.root == *root && leaf_count(key) == leaves
}

fn lower_is_that_of_the_standard(alloc: Global) -> bool {
    let key = lower();
    let top = public(&key);
    is_tree(&key, &top, &LOWER_ROOT, 32) && signs(alloc, &key, &top, 4, MESSAGE, &LOWER_DIGEST)
}

fn upper_is_that_of_the_standard(alloc: Global) -> bool {
    let key = upper();
    let top = public(&key);
    is_tree(&key, &top, &UPPER_ROOT, 1024) && signs(alloc, &key, &top, 3, LOWER_KEY, &UPPER_DIGEST)
}

// One test a level, as the interpreter has a limit for each, and the upper tree has 1,024 leaves.
#[test]
fn lower_level_is_that_of_the_standard(rt: HostRuntime) {
    assert!(rt; lower_is_that_of_the_standard(rt.alloc()));
}

#[test]
fn upper_level_is_that_of_the_standard(rt: HostRuntime) {
    assert!(rt; upper_is_that_of_the_standard(rt.alloc()));
}

// A seed and an identifier, and the digests of signatures of the two other kinds of one-time keys, by
// the same script.
const SEED: [u8; 32] = *b"\
    \x40\x41\x42\x43\x44\x45\x46\x47\x48\x49\x4a\x4b\x4c\x4d\x4e\x4f\
    \x50\x51\x52\x53\x54\x55\x56\x57\x58\x59\x5a\x5b\x5c\x5d\x5e\x5f";

const ID: [u8; 16] = *b"\x00\x01\x02\x03\x04\x05\x06\x07\x08\x09\x0a\x0b\x0c\x0d\x0e\x0f";

const W1_DIGEST: [u8; 32] = *b"\
    \x75\x15\x30\x8b\x4b\x30\x39\x82\x26\x90\x1e\x77\xca\xca\xad\xdc\
    \xaf\x91\xea\x51\x9f\x53\xa6\xa2\xc6\xdf\x7f\x53\x85\xba\xc4\x4a";

const W2_DIGEST: [u8; 32] = *b"\
    \xa0\x4d\x7c\x2c\x0e\x5d\x5f\x83\xfd\xcd\x26\xad\xa7\x3a\x93\xf7\
    \x79\x59\x48\xcc\xb8\xa0\x34\x1b\x10\x42\x57\xcd\x38\x30\xb2\xcf";

// Whether the digest of the signature of "message" by leaf 5 is this one.
fn signs_by(alloc: Global, ots: OtsKind, digest: &[u8; 32]) -> bool {
    let key = SignKey {
        seed: SEED,
        id: ID,
        kind: LmsKind::H5,
        ots,
    };
    signs(alloc, &key, &public(&key), 5, b"message", digest)
}

fn others_are_those_of_another_signer(alloc: Global) -> bool {
    signs_by(alloc, OtsKind::W1, &W1_DIGEST) && signs_by(alloc, OtsKind::W2, &W2_DIGEST)
}

// The octets of the key with SEED and I of octets 01, by the same script, and its name.
const OCTETS: [u8; 60] = *b"\
    \x00\x00\x00\x01\x00\x00\x00\x05\x00\x00\x00\x03\x01\x01\x01\x01\
    \x01\x01\x01\x01\x01\x01\x01\x01\x01\x01\x01\x01\x66\xbf\x6f\x58\
    \x16\xee\xe4\xbb\xf3\x3c\x50\xac\xb4\x80\xe0\x9b\x41\x69\xeb\xb5\
    \x33\x37\x29\x59\xbc\x43\x15\xc3\x88\xe5\x01\xac";

const NAME: [u8; 20] = *b"\
    \x9e\x24\xe3\x04\xe0\xb8\x33\x08\x3b\x09\xc8\xc4\x6f\x3c\x6d\xfa\
    \xcb\x46\x9c\xb8";

fn is_written_and_read() -> bool {
    let key = public(&SignKey {
        seed: [1; 32],
        id: [1; 16],
        kind: LmsKind::H5,
        ots: OtsKind::W4,
    });
    key_octets(&key) == OCTETS && key_id(&key) == NAME && hss_key(&OCTETS) == Some(key)
}

#[test]
fn signatures_and_keys_are_those_of_another_signer(rt: HostRuntime) {
    assert!(rt; others_are_those_of_another_signer(rt.alloc()));
    assert!(rt; is_written_and_read());
}
