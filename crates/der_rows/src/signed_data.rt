// Octets worked by hand from RFC 5652, sections 3 and 5.1 to 5.4, and X.690.
ghost use Rattle.std.specs.Prelude.{◌<◌};

use cms_signed::content_types::FIRMWARE_PACKAGE;
use cms_signed::{
    Outline, Part, SignedFault, SignedView, outline_step, read_signed, read_signed_of,
};
use der_core::read_oid;
use std::alloc::Global;

// A package of the content `hello`, without certificates, and with one signer: its key identifier is
// A1, SHA-256, one signed attribute of type 1.2 without values, HSS/LMS, and a signature of one octet.
const ITEM: &[u8; 96] =
    b"\x30\x5e\x06\x09\x2a\x86\x48\x86\xf7\x0d\x01\x07\x02\xa0\x51\x30\x4f\x02\x01\x03\x31\x00\
    \x30\x16\x06\x0b\x2a\x86\x48\x86\xf7\x0d\x01\x09\x10\x01\x10\xa0\x07\x04\x05hello\
    \x31\x30\x30\x2e\x02\x01\x03\x80\x01\xa1\x30\x0b\x06\x09\x60\x86\x48\x01\x65\x03\x04\x02\x01\
    \xa0\x07\x30\x05\x06\x01\x2a\x31\x00\
    \x30\x0d\x06\x0b\x2a\x86\x48\x86\xf7\x0d\x01\x09\x10\x03\x11\x04\x01\x07";

// One without content octets, and with an empty set of signers.
const EMPTY: &[u8; 43] = b"\x30\x29\x06\x09\x2a\x86\x48\x86\xf7\x0d\x01\x07\x02\xa0\x1c\x30\
    \x1a\x02\x01\x03\x31\x00\x30\x11\x06\x0b\x2a\x86\x48\x86\xf7\x0d\
    \x01\x09\x10\x01\x10\xa0\x02\x04\x00\x31\x00";

// The item with these octets in place of its own.
fn changed(octets: &[(usize, u8)]) -> [u8; 96] {
    let mut item = *ITEM;
    for (place, octet) in octets {
        if let Some(at) = item.get_mut(*place) {
            *at = *octet;
        }
    }
    item
}

// Whether this condition is the first that fails, or, of 0, none does.
fn is_told(answer: &Result<SignedView<'_>, SignedFault>, number: u8) -> bool {
    match answer {
        Ok(_) => number == 0,
        Err(SignedFault::Fails(condition)) => condition.number() == number,
        Err(SignedFault::Memory) => false,
    }
}

pub(crate) fn fails_by(alloc: Global, item: &[u8], number: u8) -> bool {
    is_told(&read_signed(alloc, item), number)
}

// The same of the item with one other octet.
fn bent_fails_by(alloc: Global, place: usize, octet: u8, number: u8) -> bool {
    fails_by(alloc, &changed(&[(place, octet)]), number)
}

#[test]
fn tells_the_first_condition_that_fails(rt: HostRuntime) {
    let alloc = rt.alloc();
    assert!(rt; fails_by(alloc, ITEM, 0));
    // [0] ends before SignedData does, id-data, and encapContentInfo takes signerInfos in
    assert!(rt; bent_fails_by(alloc, 14, 0x50, 3));
    assert!(rt; bent_fails_by(alloc, 12, 0x01, 4));
    assert!(rt; bent_fails_by(alloc, 23, 0x48, 5));
    // id-ct-compressedData
    assert!(rt; bent_fails_by(alloc, 36, 0x09, 8));
    assert!(rt; fails_by(alloc, EMPTY, 13));
    // a signature that is none, an attribute that is none, and each algorithm
    assert!(rt; bent_fails_by(alloc, 93, 0x05, 14));
    assert!(rt; bent_fails_by(alloc, 76, 0x30, 16));
    assert!(rt; bent_fails_by(alloc, 68, 0x02, 17));
    assert!(rt; bent_fails_by(alloc, 92, 0x10, 18));
}

// The content type firmwareLoadReceipt (RFC 4108, section 3).
const RECEIPT: &[u8] = b"\x2a\x86\x48\x86\xf7\x0d\x01\x09\x10\x01\x11";

// The same where a content of this type is asked for.
fn fails_of(alloc: Global, content: &[u8], number: u8) -> bool {
    match read_oid(content) {
        Some(content) => is_told(&read_signed_of(alloc, ITEM, &content), number),
        None => false,
    }
}

#[test]
fn the_content_type_is_that_asked_for(rt: HostRuntime) {
    assert!(rt; fails_of(rt.alloc(), &FIRMWARE_PACKAGE, 0) && fails_of(rt.alloc(), RECEIPT, 9));
    assert!(rt; bent_fails_by(rt.alloc(), 36, 0x11, 9));
}

// Feeds a whole piece, and adds to the count of octets of content.
fn is_fed(outline: &mut Outline, piece: &[u8], count: &mut usize) -> bool {
    let mut rest = piece;
    for _ in 0..piece.len() {
        let Ok(taken) = outline_step(outline, rest) else {
            return false;
        };
        let (_, behind) = rest.split_at(taken.n);
        if taken.part == Part::Content {
            *count = count.wrapping_add(taken.n);
        }
        rest = behind;
    }
    true
}

// How many octets of content an item has that comes in pieces of so many octets.
fn fed(outline: &mut Outline, item: &[u8], size: usize) -> Option<usize>
    requires { 0 < size }
{
    let mut count = 0;
    for piece in item.chunks(size) {
        if !is_fed(outline, piece, &mut count) {
            return None;
        }
    }
    Some(count)
}

// Whether an item that comes in pieces of so many octets has this cut, with all of its content and
// the rest as the frame.
fn is_seen(alloc: Global, item: &[u8], size: usize, cut: Option<(usize, u32)>) -> bool
    requires { 0 < size }
{
    let mut outline = Outline::new(alloc);
    let content = match cut {
        Some((_, content)) => content as usize,
        None => 0,
    };
    fed(&mut outline, item, size) == Some(content)
        && outline.cut() == cut
        && outline.frame().len().wrapping_add(content) == item.len()
}

#[test]
fn an_outline_is_the_same_in_any_pieces(rt: HostRuntime) {
    let alloc = rt.alloc();
    assert!(rt; is_seen(alloc, ITEM, 1, Some((41, 5))));
    assert!(rt; is_seen(alloc, ITEM, 9, Some((41, 5))));
    assert!(rt; is_seen(alloc, ITEM, 96, Some((41, 5))));
    assert!(rt; is_seen(alloc, EMPTY, 41, Some((41, 0))));
}

// Lengths that run past what is around them: that of eContent alone, and those of encapContentInfo,
// of [0] and of eContent.
#[test]
fn lengths_that_run_past_have_no_content(rt: HostRuntime) {
    let alone = changed(&[(40, 0x7f)]);
    assert!(rt; is_seen(rt.alloc(), &alone, 7, None) && fails_by(rt.alloc(), &alone, 6));
    let nested = changed(&[(23, 0x7f), (38, 0x7d), (40, 0x7b)]);
    assert!(rt; is_seen(rt.alloc(), &nested, 7, None) && fails_by(rt.alloc(), &nested, 5));
}
