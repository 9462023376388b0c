// The conditions 1 to 9 and the octets of an item's head: an item on which each is the first that fails,
// and items that fail two neighbours (RFC 5652, sections 3, 5.1 and 5.2; RFC 4108, section 2.1.5).
use crate::row::{Bend, bends, bends_both, says};
use judge_bench::case::{Case, plain_bench};
use judge_bench::octets::element;
use judge_bench::parts::{behind_content, item_of};
use judge_bench::verdict::{verdict_by, verdict_of};
use std::alloc::Global;

// The version of signed data, and that of its signer, as others that are read.
const FIRST: Bend<'_> = (b"\x02\x01\x03\x31\x0d", b"\x02\x01\x01\x31\x0d");

const FOURTH: Bend<'_> = (b"\x02\x01\x03\x31\x0d", b"\x02\x01\x04\x31\x0d");

const FIFTH: Bend<'_> = (b"\x02\x01\x03\x31\x0d", b"\x02\x01\x05\x31\x0d");

const SIGNER_FIRST: Bend<'_> = (b"\x02\x01\x03\x80\x01", b"\x02\x01\x01\x80\x01");

// Whether the package as it is has this verdict.
fn is_plain(alloc: Global, wanted: u8) -> bool {
    match Case::plain(alloc) {
        Some(case) => case.says(&case.item) == Some(wanted),
        None => false,
    }
}

#[test]
fn a_package_is_accepted(rt: HostRuntime) {
    let a = rt.alloc();
    assert!(rt; is_plain(a, 0) && bends(a, FIRST, 0) && bends(a, FOURTH, 0));
    assert!(rt; bends(a, FIFTH, 0) && bends(a, SIGNER_FIRST, 0));
}

// Whether the package without its last octet has this verdict, or with an octet 00 behind it.
fn is_cut(alloc: Global, wanted: u8) -> bool {
    let Some(case) = Case::plain(alloc) else {
        return false;
    };
    match case.item.split_last() {
        Some((_, front)) => case.says(front) == Some(wanted),
        None => false,
    }
}

fn is_longer(alloc: Global, wanted: u8) -> bool {
    let Some(mut case) = Case::plain(alloc) else {
        return false;
    };
    case.item.push(0).is_ok() && case.says(&case.item) == Some(wanted)
}

// No octets, a head alone, another tag, an octet too few and one too many; and then an empty element.
#[test]
fn an_item_is_one_element(rt: HostRuntime) {
    let a = rt.alloc();
    assert!(rt; says(a, b"", 1) && says(a, b"\x30", 1) && says(a, b"\x30\x00", 3));
    assert!(rt; bends(a, (b"\x30\x82", b"\x31\x82"), 1) && is_cut(a, 1) && is_longer(a, 1));
}

// The verdict on an element of this tag with so many octets 00.
fn of_zeros(alloc: Global, tag: u8, size: usize) -> Option<u8> {
    let zeros = vec![in alloc; 0u8; size].ok()?;
    let item = element(alloc, tag, &zeros)?;
    let bench = plain_bench(alloc)?;
    verdict_by(alloc, &bench, &item, 65_536)
}

// The greatest item and one that is too long, which isn't signed data either, and one of another tag.
#[test]
fn an_item_is_not_too_long(rt: HostRuntime) {
    let a = rt.alloc();
    assert!(rt; of_zeros(a, 0x30, 17_825_792) == Some(3));
    assert!(rt; of_zeros(a, 0x30, 17_825_793) == Some(2));
    assert!(rt; of_zeros(a, 0x31, 17_825_793) == Some(1));
}

// Another version of signed data, and other octets where its type and the tag [0] stand.
const VERSION: Bend<'_> = (b"\x02\x01\x03\x31\x0d", b"\x02\x01\x02\x31\x0d");

const TAG: Bend<'_> = (b"\x07\x02\xa0\x82", b"\x07\x02\xa1\x82");

const TYPE: Bend<'_> = (b"\x07\x02\xa0\x82", b"\x07\x01\xa0\x82");

const TAG_AND_TYPE: Bend<'_> = (b"\x07\x02\xa0\x82", b"\x07\x01\xa1\x82");

const DATA: &[u8] = b"\x30\x0f\x06\x09\x2a\x86\x48\x86\xf7\x0d\x01\x07\x01\xa0\x02\x04\x00";

// Another tag than [0], another type, and both; another version, and that with another type.
#[test]
fn an_item_is_signed_data(rt: HostRuntime) {
    let a = rt.alloc();
    assert!(rt; bends(a, TAG, 3) && bends(a, TAG_AND_TYPE, 3) && bends(a, TYPE, 4));
    assert!(rt; says(a, DATA, 4) && bends(a, VERSION, 5) && bends_both(a, TYPE, VERSION, 4));
}

// A package of 48 octets, without a signer.
const SHORT: &[u8] = b"\x30\x2e\x06\x09\x2a\x86\x48\x86\xf7\x0d\x01\x07\x02\xa0\x21\x30\
    \x1f\x02\x01\x03\x31\x00\x30\x16\x06\x0b\x2a\x86\x48\x86\xf7\x0d\
    \x01\x09\x10\x01\x10\xa0\x07\x04\x05hello\x31\x00";

// The same with the lengths of encapContentInfo, its [0] and eContent that run past signed data, and
// with that of eContent alone.
const PAST: &[u8] = b"\x30\x2e\x06\x09\x2a\x86\x48\x86\xf7\x0d\x01\x07\x02\xa0\x21\x30\
    \x1f\x02\x01\x03\x31\x00\x30\x7f\x06\x0b\x2a\x86\x48\x86\xf7\x0d\
    \x01\x09\x10\x01\x10\xa0\x7d\x04\x7bhello\x31\x00";

const PAST_CONTENT: &[u8] = b"\x30\x2e\x06\x09\x2a\x86\x48\x86\xf7\x0d\x01\x07\x02\xa0\x21\x30\
    \x1f\x02\x01\x03\x31\x00\x30\x16\x06\x0b\x2a\x86\x48\x86\xf7\x0d\
    \x01\x09\x10\x01\x10\xa0\x07\x04\x7fhello\x31\x00";

// The content with a length that runs past what is around it, and with another tag.
const LONG: Bend<'_> = (b"\x04\x05hello", b"\x04\x7fhello");

const NO_OCTETS: Bend<'_> = (b"\x04\x05hello", b"\x05\x05hello");

// Lengths that run past what is around them, another tag than that of an OCTET STRING, and that with
// another version.
#[test]
fn a_content_has_its_form(rt: HostRuntime) {
    let a = rt.alloc();
    assert!(rt; says(a, SHORT, 13) && says(a, PAST, 5) && says(a, PAST_CONTENT, 6));
    assert!(rt;
        bends(a, LONG, 6) && bends(a, NO_OCTETS, 6) && bends_both(a, VERSION, NO_OCTETS, 5)
    );
}

// The content `hello` of type id-encryptedData, its eContent as it is and with another tag.
const ENCRYPTED: &[u8] =
    b"\x30\x14\x06\x09\x2a\x86\x48\x86\xf7\x0d\x01\x07\x06\xa0\x07\x04\x05hello";

const ENCRYPTED_OTHER: &[u8] =
    b"\x30\x14\x06\x09\x2a\x86\x48\x86\xf7\x0d\x01\x07\x06\xa0\x07\x05\x05hello";

// A content of type id-ct-firmwareLoadReceipt, or of id-ct-compressedData, that isn't there.
const NO_RECEIPT: &[u8] = b"\x30\x0d\x06\x0b\x2a\x86\x48\x86\xf7\x0d\x01\x09\x10\x01\x11";

const NOT_COMPRESSED: &[u8] = b"\x30\x0d\x06\x0b\x2a\x86\x48\x86\xf7\x0d\x01\x09\x10\x01\x09";

// The same types in place of the package's.
const COMPRESSED: Bend<'_> = (b"\x10\x01\x10\xa0\x07", b"\x10\x01\x09\xa0\x07");

const RECEIPT: Bend<'_> = (b"\x10\x01\x10\xa0\x07", b"\x10\x01\x11\xa0\x07");

// Whether the package with this content has this verdict.
fn has(alloc: Global, content: &[u8], wanted: u8) -> bool {
    let Some(case) = Case::plain(alloc) else {
        return false;
    };
    let Some(behind) = behind_content(&case.item) else {
        return false;
    };
    verdict_of(alloc, &case.bench, item_of(alloc, content, behind)) == Some(wanted)
}

// Each type that isn't taken: those of encrypted and compressed data fail the third condition on the
// type too. No type fails both of the first two.
#[test]
fn a_content_is_a_firmware_package(rt: HostRuntime) {
    let a = rt.alloc();
    assert!(rt; has(a, ENCRYPTED, 7) && has(a, ENCRYPTED_OTHER, 6));
    assert!(rt; bends(a, COMPRESSED, 8) && has(a, NOT_COMPRESSED, 8));
    assert!(rt; bends(a, RECEIPT, 9) && has(a, NO_RECEIPT, 9));
}
