// Packages that need others, on a module each of whose leaves is spent (RFC 4108, sections 2.2.4, 4.1 and
// 4.2, and this project's own).
use crate::flash::{begins_hex, module_board, spent_with};
use crate::row::{LOAD, Sent, loads_each, says};
use crate::vectors::{NEEDED, NEEDING, NEEDING_OF_TYPE, OLD_NEEDING, OVER_OLD};
use fwload_top::Status;
use judge_bench::signer::package;
use std::alloc::Global;

// Whether a module with this manifest that loads the package by these lines answers this, and lists the
// rest then.
fn loads_one(
    alloc: Global,
    manifest: &str,
    lines: &str,
    wanted: Status,
    sent: &str,
    listed: &str,
) -> bool {
    let flash = spent_with(manifest);
    loads_each(alloc, flash, &[lines], wanted, Sent::Hex(sent), listed)
}

// ---- what it needs

const NEEDED_LISTED: &str = "module 1.2.3 0001 capacity 16\nsequence 1\nspent 32 of 32\n\
     package preferred 1.2.3.2 4 length 4096 \
     sha256 0000000000000000000000000000000000000000000000000000000000000000\n";

const NOT_INSTALLED: &str = "3037060b2a864886f70d0109100112a028302606022a03040200010a011f020122\
     300806032a0301020107a10c300a300806032a0302020104";

const TOO_OLD: &str = "3037060b2a864886f70d0109100112a028302606022a03040200010a0120020123\
     300806032a0301020107a10c300a300806032a0302020104";

const RECEIPT_OF_7: &str = "3026060b2a864886f70d0109100111a017301506022a0304020001\
     300806032a03010201070401a1";

const MET_LISTED: &str = "module 1.2.3 0001 capacity 16\nsequence 2\nspent 32 of 32\n\
     package preferred 1.2.3.2 4 length 4096 \
     sha256 0000000000000000000000000000000000000000000000000000000000000000\n\
     package preferred 1.2.3.1 7 length 1 \
     sha256 aaa9402664f1a41f40ebbc52c9993eb66aeb366602958fdfaa283b71e64db123\n";

// 1.2.3.2 version 4 alone is installed.
#[test]
fn a_need_is_installed(rt: HostRuntime) {
    let a = rt.alloc();
    let refused = Status::SomeRefused;
    let missing = "package 1.2.3.1 7\ndepends 1.2.3.9 1\n";
    assert!(rt; loads_one(a, NEEDED, missing, refused, NOT_INSTALLED, NEEDED_LISTED));
    let greater = "package 1.2.3.1 7\ndepends 1.2.3.2 5\n";
    assert!(rt; loads_one(a, NEEDED, greater, refused, TOO_OLD, NEEDED_LISTED));
    let met = "package 1.2.3.1 7\ndepends 1.2.3.2 4\n";
    assert!(rt; loads_one(a, NEEDED, met, Status::Done, RECEIPT_OF_7, MET_LISTED));
}

// ---- what others need

const NEEDING_LISTED: &str = "module 1.2.3 0001 capacity 16\nsequence 2\nspent 32 of 32\n\
     package preferred 1.2.3.2 4 length 4096 \
     sha256 0000000000000000000000000000000000000000000000000000000000000000\n\
     package preferred 1.2.3.3 1 length 4096 \
     sha256 0000000000000000000000000000000000000000000000000000000000000000\n";

const BREAKS: &str = "3043060b2a864886f70d0109100112a034303206022a03040200010a0124020124\
     300806032a0302020103a118300a300806032a0302020104300a300806032a0303020101";

const BREAKS_OF_TYPE: &str = "3046060b2a864886f70d0109100112a037303506022a03040200010a0124020124\
     300806032a0302020103a11b300a300806032a0302020104300d020101300806032a0303020101";

const RECEIPT_OF_5: &str = "3026060b2a864886f70d0109100111a017301506022a0304020001\
     300806032a03020201050401a1";

const RAISED_LISTED: &str = "module 1.2.3 0001 capacity 16\nsequence 3\nspent 32 of 32\n\
     package preferred 1.2.3.2 5 length 1 \
     sha256 aaa9402664f1a41f40ebbc52c9993eb66aeb366602958fdfaa283b71e64db123\n\
     package preferred 1.2.3.3 1 length 4096 \
     sha256 0000000000000000000000000000000000000000000000000000000000000000\n";

// 1.2.3.3 needs 1.2.3.2 version 4, and has a type or none.
#[test]
fn a_need_stays_met(rt: HostRuntime) {
    let a = rt.alloc();
    let refused = Status::SomeRefused;
    let lower = "package 1.2.3.2 3\n";
    assert!(rt; loads_one(a, NEEDING, lower, refused, BREAKS, NEEDING_LISTED));
    assert!(rt;
        loads_one(
            a,
            NEEDING_OF_TYPE,
            lower,
            refused,
            BREAKS_OF_TYPE,
            NEEDING_LISTED
        )
    );
    let greater = "package 1.2.3.2 5\n";
    assert!(rt;
        loads_one(
            a,
            NEEDING,
            greater,
            Status::Done,
            RECEIPT_OF_5,
            RAISED_LISTED
        )
    );
}

// ---- a flash of format 1

const RECEIPT_OF_3: &str = "3026060b2a864886f70d0109100111a017301506022a0304020001\
     300806032a03020201030401a1";

const LOWER: &str = "package 1.2.3.2 3\ntarget 1.2.3\nsigner a1\nimage 68\n";

// Whether a module with this manifest in bank 0 that loads these octets answers so, and has another in
// bank 1 then.
fn writes(alloc: Global, manifest: &str, item: &[u8], sent: &str, over: &str) -> bool {
    match module_board(alloc, spent_with(manifest)) {
        Some(mut board) => {
            says(alloc, LOAD, item, &mut board, Status::Done, Sent::Hex(sent))
                && begins_hex(alloc, &mut board, 52, over)
        }
        None => false,
    }
}

fn no_needs_are_kept(alloc: Global) -> bool {
    match package(alloc, 1, LOWER, &[]) {
        Some(item) => writes(alloc, OLD_NEEDING, &item, RECEIPT_OF_3, OVER_OLD),
        None => false,
    }
}

// It keeps no needs, so the lower version breaks none; what is written is of format 2.
#[test]
fn format_1_keeps_no_needs(rt: HostRuntime) {
    assert!(rt; no_needs_are_kept(rt.alloc()));
}
