// Stale versions, communities and the sequence number (RFC 4108, section 2.2, and this project's own).
use crate::flash::{FRESH, holding};
use crate::row::{Sent, loads_each};
use crate::vectors::{COMMUNITY_ANSWERS, LAST, LAST_ANSWER, STALE_ANSWERS};
use fwload_top::Status;

const STALE: &str = "module 1.2.3 0001 capacity 16\nsequence 4\nspent 5 of 32\n\
     package preferred 1.2.3.1 6 length 1 \
     sha256 aaa9402664f1a41f40ebbc52c9993eb66aeb366602958fdfaa283b71e64db123\n\
     package preferred 1.2.3.2 1 length 1 \
     sha256 aaa9402664f1a41f40ebbc52c9993eb66aeb366602958fdfaa283b71e64db123\n\
     stale preferred 1.2.3.1 5\n";

// Versions up to 5 are stale by the first package; a greater one takes its place, and again.
#[test]
fn a_stale_version_is_refused(rt: HostRuntime) {
    let each = [
        "package 1.2.3.1 4\nstale 5\n",
        "package 1.2.3.2 1\n",
        "package 1.2.3.1 5\n",
        "package 1.2.3.1 6\n",
        "package 1.2.3.1 6\n",
    ];
    let sent = Sent::Digest(STALE_ANSWERS);
    assert!(rt; loads_each(rt.alloc(), FRESH, &each, Status::SomeRefused, sent, STALE));
}

const WITHIN: &str = "module 1.2.3 0001 capacity 16\nsequence 1\nspent 3 of 32\n\
     package preferred 1.2.3.1 7 length 1 \
     sha256 aaa9402664f1a41f40ebbc52c9993eb66aeb366602958fdfaa283b71e64db123\n";

// The module's serial number 00 01 is in the first block alone: the second is above it, and the numbers
// of the third are shorter.
#[test]
fn other_serial_numbers_are_refused(rt: HostRuntime) {
    let each = [
        "package 1.2.3.1 7\nmodule 1.2.3 block 0001 0001\n",
        "package 1.2.3.1 7\nmodule 1.2.3 block 0002 0009\n",
        "package 1.2.3.1 7\nmodule 1.2.3 block 00 ff\n",
    ];
    let sent = Sent::Digest(COMMUNITY_ANSWERS);
    assert!(rt; loads_each(rt.alloc(), FRESH, &each, Status::SomeRefused, sent, WITHIN));
}

const AT_THE_LAST: &str = "module 1.2.3 0001 capacity 16\n\
     sequence 18446744073709551615\nspent 1 of 32\n";

// After the last sequence number nothing is installed.
#[test]
fn the_last_sequence_number_is_kept(rt: HostRuntime) {
    let flash = holding(LAST);
    let each = ["package 1.2.3.1 7\n"];
    let sent = Sent::Digest(LAST_ANSWER);
    assert!(rt;
        loads_each(
            rt.alloc(),
            flash,
            &each,
            Status::SomeRefused,
            sent,
            AT_THE_LAST
        )
    );
}
