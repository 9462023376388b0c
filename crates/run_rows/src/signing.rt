// Rows of `issue` and `pack`, over key boards in memory that fail, or are cut off and used again.
use crate::row::{says, source_of, status_of};
use bank_store::open_key;
use cert_fields::read_cert;
use cms_signed::read_signed;
use edge_board::{MemBoard, Pick};
use fwload_top::Status;
use hss_chain::hss_check;
use lms_sign::public;
use std::alloc::Global;

// The recipe of a key with SEED and I of octets 01.
const KEY: &str = "key H5 W4 0101010101010101010101010101010101010101010101010101010101010101 \
     01010101010101010101010101010101\n";

// The octets of the line that `key-new` sends of it.
const KEY_LINE: usize = 166;

// A certificate of that key, of a hardware module.
const CERTIFICATE: &str = "serial 01\nissuer root\nsubject signer0\nfrom 20200101000000\n\
     to 20491231235959\npublic 00000001000000050000000301010101010101010101010101010101\
     66bf6f5816eee4bbf33c50acb480e09b4169ebb533372959bc4315c388e501ac\n\
     hardware 1.2.3 0001\nsubjectkey a1\n";

// A package whose image is `hello`.
const PACKAGE: &str = "package 1.2.3.1 7\ntarget 1.2.3\nsigner A1\nimage 68656c6c6f\n";

// Whether a run of the words over a text ends so.
fn ends_so(alloc: Global, words: &str, text: &str, board: &mut MemBoard, wanted: Status) -> bool {
    match source_of(alloc, text.as_bytes(), &[]) {
        Ok(mut source) => status_of(alloc, words, &mut source, board) == Some(wanted),
        Err(_) => false,
    }
}

// A board of 18 blocks that is made a key board, of which the calls of these numbers fail then.
fn key_board(alloc: Global, failing: &[u64]) -> Option<MemBoard> {
    let failing = failing.to_vec(alloc).ok()?;
    match MemBoard::new(alloc, 18, failing, 1000, 10_000) {
        Ok(mut board) => {
            let made = ends_so(alloc, "f key-new", KEY, &mut board, Status::Done);
            if made { Some(board) } else { None }
        }
        Err(_) => None,
    }
}

// A key board after a restart, which stops behind so many calls or octets.
fn restarted(alloc: Global, calls: u64, room: usize) -> Option<MemBoard> {
    key_board(alloc, &[])?
        .stopped(alloc, Pick::Keep, calls, room)
        .ok()
}

// The leaf number, below 256, of the 2,352 octets of a signature at the end.
fn leaf_of(sent: &[u8]) -> Option<u8> {
    if sent.len() < 2352 {
        return None;
    }
    Some(sent[sent.len() - 2345])
}

// Whether the board signs with this leaf, and tells nothing else.
fn signs_with(alloc: Global, words: &str, recipe: &str, board: &mut MemBoard, leaf: u8) -> bool {
    ends_so(alloc, words, recipe, board, Status::Done) && leaf_of(board.sent_octets()) == Some(leaf)
}

// ---- what is sent

// The extensions of the certificate: a subject key identifier, and a hardware module's name.
const EXTENSIONS: &[u8] = b"\x30\x2f\
    \x30\x0a\x06\x03\x55\x1d\x0e\x04\x03\x04\x01\xa1\
    \x30\x21\x06\x03\x55\x1d\x11\x04\x1a\x30\x18\xa0\x16\x06\x08\x2b\x06\x01\x05\x05\x07\x08\x04\
    \xa0\x0a\x30\x08\x06\x02\x2a\x03\x04\x02\x00\x01";

// Whether the key of the board checks the signature of these octets.
fn is_signed_by(board: &mut MemBoard, signed: &[u8], signature: &[u8]) -> bool {
    match open_key(board) {
        Ok(key) => hss_check(&public(&key), signed, &[], signature),
        Err(_) => false,
    }
}

fn is_certificate(octets: &[u8], other: &mut MemBoard) -> bool {
    match read_cert(octets) {
        Some(cert) => {
            cert.signed.extensions == Some(EXTENSIONS)
                && is_signed_by(other, cert.tbs, cert.signature.octets)
        }
        None => false,
    }
}

fn issues(alloc: Global, board: &mut MemBoard) -> bool {
    if !signs_with(alloc, "f issue", CERTIFICATE, board, 0) {
        return false;
    }
    match key_board(alloc, &[]) {
        Some(mut other) => is_certificate(board.sent_octets(), &mut other),
        None => false,
    }
}

fn a_key_issues(alloc: Global) -> bool {
    match restarted(alloc, 100, 10_000) {
        Some(mut board) => issues(alloc, &mut board),
        None => false,
    }
}

#[test]
fn a_certificate_is_issued(rt: HostRuntime) {
    assert!(rt; a_key_issues(rt.alloc()));
}

// The encapContentInfo of the package, and where it stands.
const CONTENT: &[u8] = b"\x30\x16\x06\x0b\x2a\x86\x48\x86\xf7\x0d\x01\x09\x10\x01\x10\
    \xa0\x07\x04\x05hello";

const CONTENT_AT: usize = 41;

fn is_package(alloc: Global, sent: &[u8]) -> bool {
    let end = CONTENT_AT + CONTENT.len();
    if sent.len() <= end || &sent[CONTENT_AT..end] != CONTENT {
        return false;
    }
    match read_signed(alloc, sent) {
        Ok(signed) => signed.content == b"hello".as_slice(),
        Err(_) => false,
    }
}

fn a_key_packs(alloc: Global) -> bool {
    match restarted(alloc, 100, 10_000) {
        Some(mut board) => {
            signs_with(alloc, "f pack", PACKAGE, &mut board, 0)
                && is_package(alloc, board.sent_octets())
        }
        None => false,
    }
}

#[test]
fn a_package_is_packed(rt: HostRuntime) {
    assert!(rt; a_key_packs(rt.alloc()));
}

// ---- leaves

// The board after a restart, where it signs with this leaf then.
fn signed_again(alloc: Global, board: MemBoard, leaf: u8) -> Option<MemBoard> {
    match board.stopped(alloc, Pick::Keep, 100, 10_000) {
        Ok(mut board) => {
            let signed = signs_with(alloc, "f issue", CERTIFICATE, &mut board, leaf);
            if signed { Some(board) } else { None }
        }
        Err(_) => None,
    }
}

// A key board, each of whose leaves has signed.
fn spent(alloc: Global) -> Option<MemBoard> {
    let mut board = key_board(alloc, &[])?;
    for leaf in 0..32 {
        board = signed_again(alloc, board, leaf)?;
    }
    board.stopped(alloc, Pick::Keep, 100, 10_000).ok()
}

// A bad recipe is told before that none is left.
fn is_spent(a: Global, board: &mut MemBoard) -> bool {
    says(
        a,
        "f issue",
        CERTIFICATE.as_bytes(),
        board,
        Status::KeySpent,
        "",
    ) && says(a, "f pack", PACKAGE.as_bytes(), board, Status::KeySpent, "")
        && says(
            a,
            "f issue",
            b"serial 0\n",
            board,
            Status::Refused,
            "refused line 1\n",
        )
}

// Each certificate is signed with a leaf of its own.
fn leaves_are_spent(alloc: Global) -> bool {
    match spent(alloc) {
        Some(mut board) => is_spent(alloc, &mut board),
        None => false,
    }
}

#[test]
fn a_key_signs_as_often_as_it_has_leaves(rt: HostRuntime) {
    assert!(rt; leaves_are_spent(rt.alloc()));
}

// Whether the board signs a package with this leaf after a power cut.
fn packs_after(alloc: Global, board: MemBoard, pick: Pick, leaf: u8) -> bool {
    match board.stopped(alloc, pick, 100, 10_000) {
        Ok(mut board) => signs_with(alloc, "f pack", PACKAGE, &mut board, leaf),
        Err(_) => false,
    }
}

// A recipe that is refused at its third line costs no leaf.
fn costs_no_leaf(alloc: Global, recipe: &str) -> bool {
    match restarted(alloc, 100, 10_000) {
        Some(mut board) => {
            let line = "refused line 3\n";
            let text = recipe.as_bytes();
            let refused = says(alloc, "f pack", text, &mut board, Status::Refused, line);
            let packs = packs_after(alloc, board, Pick::Keep, 0);
            refused && packs
        }
        None => false,
    }
}

// A board that no key holds signs nothing.
fn no_key_signs(a: Global) -> bool {
    match MemBoard::new(a, 18, Vec::new(a), 100, 10_000) {
        Ok(mut board) => {
            says(
                a,
                "f pack",
                PACKAGE.as_bytes(),
                &mut board,
                Status::NotAModule,
                "",
            ) && says(
                a,
                "f issue",
                CERTIFICATE.as_bytes(),
                &mut board,
                Status::NotAModule,
                "",
            )
        }
        Err(_) => false,
    }
}

fn refusals_cost_no_leaf(alloc: Global) -> bool {
    let mixed = "package 1.2.3.1 7\ntarget 1.2.3\nlegacystale 41\nsigner A1\nimage 00\n";
    let short = "package 1.2.3.1 7\ntarget 1.2.3\n";
    costs_no_leaf(alloc, mixed) && costs_no_leaf(alloc, short) && no_key_signs(alloc)
}

#[test]
fn a_refusal_costs_no_leaf(rt: HostRuntime) {
    assert!(rt; refusals_cost_no_leaf(rt.alloc()));
}

// ---- a power cut

// Whether a run that is cut off behind so many calls or octets ends so, and the next run signs with
// this leaf.
fn cut_off(alloc: Global, calls: u64, room: usize, pick: Pick, wanted: Status, leaf: u8) -> bool {
    match restarted(alloc, calls, room) {
        Some(mut board) => {
            let ended = ends_so(alloc, "f issue", CERTIFICATE, &mut board, wanted);
            let packs = packs_after(alloc, board, pick, leaf);
            ended && packs
        }
        None => false,
    }
}

// A sync, two reads of opening and one of the row come first, then a leaf is blanked and synced, and
// the octets are sent last.
fn cut_anywhere(alloc: Global, pick: Pick, unsynced: u8) -> bool {
    for calls in 0..=4 {
        if !cut_off(alloc, calls, 10_000, pick, Status::DeviceFault, 0) {
            return false;
        }
    }
    cut_off(alloc, 5, 10_000, pick, Status::DeviceFault, unsynced)
        && cut_off(alloc, 6, 10_000, pick, Status::DeviceFault, 1)
        && cut_off(alloc, 7, 1, pick, Status::DeviceFault, 1)
        && cut_off(alloc, 7, 10_000, pick, Status::Done, 1)
}

#[test]
fn a_leaf_that_was_seen_is_spent(rt: HostRuntime) {
    let alloc = rt.alloc();
    assert!(rt; cut_anywhere(alloc, Pick::Keep, 1) && cut_anywhere(alloc, Pick::Before, 0));
    assert!(rt; cut_anywhere(alloc, Pick::Fill(0x0f), 1));
    assert!(rt; cut_anywhere(alloc, Pick::Fill(0), 1));
}

// Whether the failed run sent nothing.
fn fails(alloc: Global, board: &mut MemBoard) -> bool {
    ends_so(alloc, "f issue", CERTIFICATE, board, Status::DeviceFault)
        && board.sent_octets().len() == KEY_LINE
}

fn issues_after(alloc: Global, board: MemBoard, pick: Pick, leaf: u8) -> bool {
    match board.stopped(alloc, pick, 100, 10_000) {
        Ok(mut board) => signs_with(alloc, "f issue", CERTIFICATE, &mut board, leaf),
        Err(_) => false,
    }
}

// One call fails, of which the first 33 are those of `key-new`, and the next run signs with this
// leaf.
fn one_fails(alloc: Global, call: u64, pick: Pick, leaf: u8) -> bool {
    match key_board(alloc, &[call]) {
        Some(mut board) => {
            let failed = fails(alloc, &mut board);
            let issues = issues_after(alloc, board, pick, leaf);
            failed && issues
        }
        None => false,
    }
}

fn each_fails(alloc: Global) -> bool {
    for call in 33..=37 {
        if !one_fails(alloc, call, Pick::Keep, 0) {
            return false;
        }
    }
    one_fails(alloc, 38, Pick::Keep, 1)
        && one_fails(alloc, 38, Pick::Before, 0)
        && one_fails(alloc, 39, Pick::Before, 1)
}

#[test]
fn a_call_that_fails_ends_it(rt: HostRuntime) {
    assert!(rt; each_fails(rt.alloc()));
}
