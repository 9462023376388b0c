// Paths to the signer, and what they permit (RFC 5280, section 6.1; RFC 6010, section 4). Their refusals
// aren't signed.
use crate::flash::FRESH;
use crate::row::{Sent, loads};
use crate::vectors::RECEIPT;
use fwload_top::Status;
use judge_bench::signer::{CA, SIGNER, certificate, package};
use std::alloc::Global;

const NOTHING: &str = "module 1.2.3 0001 capacity 16\nsequence 0\nspent 0 of 32\n";

const INSTALLED: &str = "module 1.2.3 0001 capacity 16\nsequence 1\nspent 1 of 32\n\
     package preferred 1.2.3.1 7 length 1 \
     sha256 aaa9402664f1a41f40ebbc52c9993eb66aeb366602958fdfaa283b71e64db123\n";

fn accepts(alloc: Global, item: Option<Vec<u8>>) -> bool {
    match item {
        Some(item) => loads(
            alloc,
            FRESH,
            &item,
            Status::Done,
            Sent::Hex(RECEIPT),
            INSTALLED,
        ),
        None => false,
    }
}

fn refuses(alloc: Global, item: Option<Vec<u8>>, sent: &str) -> bool {
    match item {
        Some(item) => loads(
            alloc,
            FRESH,
            &item,
            Status::SomeRefused,
            Sent::Hex(sent),
            NOTHING,
        ),
        None => false,
    }
}

// ---- what a path permits

// A firmware package may be signed, or any content; or the package 1.2.3.1 version 7 and later.
const FIRMWARE: &str = "constraint 300f300d060b2a864886f70d0109100110\n";

const ANY: &str = "constraint 300f300d060b2a864886f70d0109100100\n";

const VERSION_7: &str =
    "constraint 302e302c060b2a864886f70d0109100110301d301b060b2a864886f70d0109100223\
    310c300a300806032a0301020107\n";

// The package by these lines of a signer under an authority, whose certificates have these constraints,
// if any.
fn under(alloc: Global, authority: &str, signer: &str, lines: &str) -> Option<Vec<u8>> {
    let ca = certificate(alloc, 1, 2, CA, authority)?;
    let own = certificate(alloc, 2, 3, SIGNER, signer)?;
    package(alloc, 3, lines, &[&own, &ca])
}

const FIRST: &str = "package 1.2.3.1 7\ntarget 1.2.3\nsigner b3\nimage 68\n";

const SECOND: &str = "package 1.2.3.2 7\ntarget 1.2.3\nsigner b3\nimage 68\n";

// The answers to them where the path doesn't permit them.
const FIRST_REFUSED: &str = "3029060b2a864886f70d0109100112a01a301806022a03040200010a010b02011c\
     300806032a0301020107";

const SECOND_REFUSED: &str = "3029060b2a864886f70d0109100112a01a301806022a03040200010a010b02011c\
     300806032a0302020107";

// The authority permits one package, and the signer any content; then the signer's certificate has no
// constraints; the anchor has none either, which permits all.
#[test]
fn a_path_permits_what_each_permits(rt: HostRuntime) {
    let a = rt.alloc();
    assert!(rt; refuses(a, under(a, VERSION_7, ANY, SECOND), SECOND_REFUSED));
    assert!(rt; accepts(a, under(a, VERSION_7, ANY, FIRST)));
    assert!(rt; refuses(a, under(a, FIRMWARE, "", FIRST), FIRST_REFUSED));
    assert!(rt; accepts(a, under(a, FIRMWARE, FIRMWARE, FIRST)));
}

// ---- how long it is

// An authority that takes no other below it; the same with a new key, issued by itself; and another that
// this issues.
const LAST: &str = "serial 02\nissuer root\nsubject ca1\nfrom 20200101000000\nto 20401231235959\n\
    subjectkey b2\nauthoritykey a1\nca 0\nusage certsign\n";

const NEW_KEY: &str = "serial 03\nissuer ca1\nsubject ca1\nfrom 20200101000000\nto 20401231235959\n\
    subjectkey b3\nauthoritykey b2\nca -\nusage certsign\n";

const BELOW: &str = "serial 04\nissuer ca1\nsubject ca2\nfrom 20200101000000\nto 20401231235959\n\
    subjectkey b4\nauthoritykey b3\nca -\nusage certsign\n";

// The signer's certificate under the new key, and under the other authority.
const UNDER_NEW_KEY: &str = "serial 05\nissuer ca1\nsubject signer\nfrom 20200101000000\n\
    to 20401231235959\nsubjectkey b5\nauthoritykey b3\n";

const UNDER_BELOW: &str = "serial 05\nissuer ca2\nsubject signer\nfrom 20200101000000\n\
    to 20401231235959\nsubjectkey b5\nauthoritykey b4\n";

const PACKAGE: &str = "package 1.2.3.1 7\ntarget 1.2.3\nsigner b5\nimage 68\n";

const TOO_LONG: &str = "3029060b2a864886f70d0109100112a01a301806022a03040200010a0105020119\
     300806032a0301020107";

fn under_new_key(alloc: Global) -> Option<Vec<u8>> {
    let last = certificate(alloc, 1, 2, LAST, FIRMWARE)?;
    let new_key = certificate(alloc, 2, 3, NEW_KEY, FIRMWARE)?;
    let own = certificate(alloc, 3, 5, UNDER_NEW_KEY, FIRMWARE)?;
    package(alloc, 5, PACKAGE, &[&own, &new_key, &last])
}

fn under_another(alloc: Global) -> Option<Vec<u8>> {
    let last = certificate(alloc, 1, 2, LAST, FIRMWARE)?;
    let new_key = certificate(alloc, 2, 3, NEW_KEY, FIRMWARE)?;
    let below = certificate(alloc, 3, 4, BELOW, FIRMWARE)?;
    let own = certificate(alloc, 4, 5, UNDER_BELOW, FIRMWARE)?;
    package(alloc, 5, PACKAGE, &[&own, &below, &new_key, &last])
}

// An authority that is issued by itself isn't counted; another is.
#[test]
fn a_new_key_is_not_counted(rt: HostRuntime) {
    let a = rt.alloc();
    assert!(rt; accepts(a, under_new_key(a)) && refuses(a, under_another(a), TOO_LONG));
}
