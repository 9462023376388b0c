// The conditions 10 to 19, in the same way: what stands behind the content, the signer, and the attributes
// (RFC 5652, sections 5.1 to 5.4; RFC 4108, section 2.2).
use crate::row::{Bend, bends, bends_both, says_of};
use der_core::Cursor;
use judge_bench::case::Case;
use judge_bench::octets::element_of;
use judge_bench::parts::{
    CONTENT, HSS_LMS, NO_SIGNER, SHA_256, SIGNER, attributes, behind_content, item_of, signature,
    signers,
};
use std::alloc::Global;

// An encapContentInfo without eContent.
const NO_CONTENT: &[u8] = b"\x30\x0d\x06\x0b\x2a\x86\x48\x86\xf7\x0d\x01\x09\x10\x01\x10";

// An element of this tag, of these octets and then octets 00, so many that with the signers of the package
// a total stands behind the content.
fn padded(alloc: Global, item: &[u8], tag: u8, front: &[u8], total: usize) -> Option<Vec<u8>> {
    let size = total
        .checked_sub(behind_content(item)?.len())?
        .checked_sub(5)?
        .checked_sub(front.len())?;
    match vec![in alloc; 0u8; size] {
        Ok(zeros) => element_of(alloc, tag, &[front, &zeros]),
        Err(_) => None,
    }
}

// Whether the package with this content, and these octets between it and the signers, has this verdict.
fn is_with(alloc: Global, case: &Case, content: &[u8], more: &[u8], wanted: u8) -> bool {
    let Some(signers) = behind_content(&case.item) else {
        return false;
    };
    match [more, signers].concat(alloc) {
        Ok(behind) => says_of(alloc, item_of(alloc, content, &behind), wanted),
        Err(_) => false,
    }
}

// Whether the package with this content has this verdict, where a total of octets stands behind it: in an
// element of this tag that begins with these, and the signers.
fn is_padded(
    alloc: Global,
    content: &[u8],
    (tag, front): (u8, &[u8]),
    total: usize,
    wanted: u8,
) -> bool {
    let Some(case) = Case::plain(alloc) else {
        return false;
    };
    match padded(alloc, &case.item, tag, front, total) {
        Some(more) => is_with(alloc, &case, content, &more, wanted),
        None => false,
    }
}

// Lists of revoked certificates, which aren't looked at, and certificates that aren't any.
const CRLS: (u8, &[u8]) = (0xa1, b"");

const NO_CERTIFICATES: (u8, &[u8]) = (0xa0, b"\x30\x00");

// The most octets that may stand behind the content, and one more.
#[test]
fn octets_behind_the_content_are_few(rt: HostRuntime) {
    let a = rt.alloc();
    assert!(rt;
        is_padded(a, CONTENT, CRLS, 1_048_576, 0) && is_padded(a, CONTENT, CRLS, 1_048_577, 11)
    );
    assert!(rt; is_padded(a, NO_CONTENT, CRLS, 1_048_577, 10));
    assert!(rt; is_padded(a, CONTENT, NO_CERTIFICATES, 1_048_576, 12));
    assert!(rt; is_padded(a, CONTENT, NO_CERTIFICATES, 1_048_577, 11));
}

// Whether the package with these octets between its content and its signers has this verdict, or with
// these in place of its signers.
fn has(alloc: Global, content: &[u8], more: &[u8], wanted: u8) -> bool {
    match Case::plain(alloc) {
        Some(case) => is_with(alloc, &case, content, more, wanted),
        None => false,
    }
}

fn ends(alloc: Global, behind: &[u8], wanted: u8) -> bool {
    says_of(alloc, item_of(alloc, CONTENT, behind), wanted)
}

// No content; certificates that are none, or no elements, or of another form, or no certificates; and
// neither a certificate nor a signer.
#[test]
fn certificates_are_such(rt: HostRuntime) {
    let a = rt.alloc();
    assert!(rt; has(a, NO_CONTENT, b"", 10) && has(a, CONTENT, b"\xa0\x02\x30\x00", 12));
    assert!(rt; has(a, CONTENT, b"\xa0\x01\x30", 12) && has(a, CONTENT, b"\xa0\x02\xa1\x00", 0));
    assert!(rt;
        has(a, CONTENT, b"\xa0\x00\xa1\x00", 0) && ends(a, b"\xa0\x02\x30\x00\x31\x00", 12)
    );
}

// The signer's version 2.
const SECOND: Bend<'_> = (b"\x02\x01\x03\x80\x01", b"\x02\x01\x02\x80\x01");

// No signer, one of another tag, two of them, and two that are no signers.
#[test]
fn there_is_one_signer(rt: HostRuntime) {
    let a = rt.alloc();
    assert!(rt; ends(a, NO_SIGNER, 13) && ends(a, b"\x31\x02\x31\x00", 13));
    assert!(rt; ends(a, b"\x31\x04\x30\x00\x30\x00", 13) && ends(a, b"\x31\x02\x30\x00", 14));
    assert!(rt; bends(a, SECOND, 14));
}

// The front of a signer: its version and key identifier, and its digest algorithm.
type Front<'a> = (&'a [u8], &'a [u8]);

// The set of one signer with this version and key identifier, digest algorithm, signed attributes and
// algorithm, the package's signature, and these octets behind it.
fn signers_with(
    case: &Case,
    front: &[u8],
    digest: &[u8],
    signed: &[u8],
    algorithm: &[u8],
    more: &[u8],
) -> Option<Vec<u8>> {
    let parts = [
        front,
        digest,
        signed,
        algorithm,
        signature(&case.item)?,
        more,
    ];
    signers(case.alloc, &parts)
}

// Whether the package with this front, these signed attributes and this algorithm, and octets behind its
// signature, has this verdict.
fn signs_by(
    case: &Case,
    front: Front<'_>,
    signed: &[u8],
    algorithm: &[u8],
    more: &[u8],
    wanted: u8,
) -> bool {
    match signers_with(case, front.0, front.1, signed, algorithm, more) {
        Some(signers) => ends(case.alloc, &signers, wanted),
        None => false,
    }
}

// The same with its own signed attributes, where no others are given.
fn signs(
    alloc: Global,
    front: Front<'_>,
    signed: Option<&[u8]>,
    algorithm: &[u8],
    more: &[u8],
    wanted: u8,
) -> bool {
    let Some(case) = Case::plain(alloc) else {
        return false;
    };
    if let Some(others) = signed {
        return signs_by(&case, front, others, algorithm, more, wanted);
    }
    match attributes(&case.item) {
        Some(own) => signs_by(&case, front, own, algorithm, more, wanted),
        None => false,
    }
}

// Fronts with version 3 and with version 2, and with SHA-384 and SHA-256 with parameters.
const THIRD: Front<'_> = (SIGNER, SHA_256);

const VERSION_2: Front<'_> = (b"\x02\x01\x02\x80\x01\xa1", SHA_256);

const SHA_384: Front<'_> = (
    SIGNER,
    b"\x30\x0b\x06\x09\x60\x86\x48\x01\x65\x03\x04\x02\x02",
);

const SHA_256_NULL: Front<'_> = (
    SIGNER,
    b"\x30\x0d\x06\x09\x60\x86\x48\x01\x65\x03\x04\x02\x01\x05\x00",
);

const SHA_256_MORE: Front<'_> = (
    SIGNER,
    b"\x30\x0e\x06\x09\x60\x86\x48\x01\x65\x03\x04\x02\x01\x04\x01\x00",
);

// HSS/LMS with parameters.
const HSS_LMS_NULL: &[u8] = b"\x30\x0f\x06\x0b\x2a\x86\x48\x86\xf7\x0d\x01\x09\x10\x03\x11\x05\x00";

// Unsigned attributes of which one type stands twice, and out of order, and such that are none.
const UNSIGNED: &[u8] = b"\xa1\x0e\x30\x05\x06\x01\x2b\x31\x00\x30\x05\x06\x01\x2b\x31\x00";

const NONE: &[u8] = b"\xa1\x02\x05\x00";

// Unsigned attributes may be any; what is none fails beside a wrong version, and beside no signed
// attributes.
#[test]
fn unsigned_attributes_are_attributes(rt: HostRuntime) {
    let a = rt.alloc();
    assert!(rt; signs(a, THIRD, None, HSS_LMS, b"", 0));
    assert!(rt; signs(a, THIRD, None, HSS_LMS, UNSIGNED, 0));
    assert!(rt; signs(a, THIRD, None, HSS_LMS, b"\xa1\x00", 0));
    assert!(rt; signs(a, THIRD, None, HSS_LMS, NONE, 15));
    assert!(rt; signs(a, VERSION_2, None, HSS_LMS, NONE, 14));
    assert!(rt; signs(a, THIRD, Some(b""), HSS_LMS, NONE, 15));
}

// No signed attributes, with another digest too; both algorithms others; parameters; and no attributes
// at all, with another algorithm too.
#[test]
fn algorithms_are_these(rt: HostRuntime) {
    let a = rt.alloc();
    assert!(rt; signs(a, THIRD, Some(b""), HSS_LMS, b"", 16));
    assert!(rt; signs(a, SHA_384, Some(b""), HSS_LMS, b"", 16));
    assert!(rt; signs(a, SHA_384, None, HSS_LMS, b"", 17));
    assert!(rt; signs(a, SHA_256_MORE, None, HSS_LMS, b"", 17));
    assert!(rt; signs(a, SHA_256_NULL, None, HSS_LMS, b"", 0));
    assert!(rt; signs(a, SHA_384, None, SHA_256, b"", 17));
    assert!(rt; signs(a, THIRD, None, SHA_256, b"", 18));
    assert!(rt; signs(a, THIRD, None, HSS_LMS_NULL, b"", 18));
    assert!(rt; signs(a, THIRD, Some(b"\xa0\x00"), SHA_256, b"", 18));
    assert!(rt; signs(a, THIRD, Some(b"\xa0\x00"), HSS_LMS, b"", 19));
}

// The type of the package's identifier, and with it that of the target hardware; another type.
const IDENTIFIER_TWICE: Bend<'_> = (b"\x10\x02\x24\x31", b"\x10\x02\x23\x31");

const NO_IDENTIFIER: Bend<'_> = (b"\x10\x02\x23\x31", b"\x10\x02\x2b\x31");

const NO_TARGETS: Bend<'_> = (b"\x10\x02\x24\x31", b"\x10\x02\x2b\x31");

// Another digest algorithm of the signer.
const DIGEST: Bend<'_> = (
    b"\xa1\x30\x0b\x06\x09\x60\x86\x48\x01\x65\x03\x04\x02\x01",
    b"\xa1\x30\x0b\x06\x09\x60\x86\x48\x01\x65\x03\x04\x02\x02",
);

// One type twice, attributes out of order, and both with another digest algorithm.
#[test]
fn signed_attributes_are_a_set(rt: HostRuntime) {
    let a = rt.alloc();
    assert!(rt; bends(a, IDENTIFIER_TWICE, 16) && bends_both(a, IDENTIFIER_TWICE, DIGEST, 16));
    assert!(rt; bends(a, DIGEST, 17));
}

// The signed attributes of a package with one more in front of the others, or behind them.
fn attributes_with(alloc: Global, item: &[u8], front: &[u8], behind: &[u8]) -> Option<Vec<u8>> {
    let contents = Cursor::new(attributes(item)?).tagged(0xa0)?;
    element_of(alloc, 0xa0, &[front, contents, behind])
}

// Whether the package with an attribute more has this verdict.
fn adds(alloc: Global, front: &[u8], behind: &[u8], wanted: u8) -> bool {
    let Some(case) = Case::plain(alloc) else {
        return false;
    };
    match attributes_with(alloc, &case.item, front, behind) {
        Some(signed) => signs(alloc, THIRD, Some(&signed), HSS_LMS, b"", wanted),
        None => false,
    }
}

// An attribute of another type, and a signing time that is none.
const ANOTHER: &[u8] = b"\x30\x05\x06\x01\x2b\x31\x00";

const TIME: &[u8] = b"\x30\x0f\x06\x09\x2a\x86\x48\x86\xf7\x0d\x01\x09\x05\x31\x02\x05\x00";

// An attribute of another type, which no one looks at, in its place and out of it; what is no attribute;
// and a signing time that is none. Where it stands in its place the signature alone is another.
#[test]
fn signed_attributes_ascend(rt: HostRuntime) {
    let a = rt.alloc();
    assert!(rt; adds(a, ANOTHER, b"", 29) && adds(a, b"", ANOTHER, 16));
    assert!(rt; adds(a, b"\x05\x00", b"", 16) && adds(a, TIME, b"", 19));
}

// Another content type among the attributes, and another algorithm of the signature.
const KIND: Bend<'_> = (b"\x01\x10\x30\x1b", b"\x01\x11\x30\x1b");

const ALGORITHM: Bend<'_> = (b"\x10\x03\x11\x04\x82", b"\x10\x03\x12\x04\x82");

// Other types in place of those of the attributes of the content's type and of the digest; a digest in no
// OCTET STRING, and a package's version that is negative.
const NO_TYPE: Bend<'_> = (b"\x01\x09\x03\x31", b"\x01\x09\x07\x31");

const NO_DIGEST: Bend<'_> = (b"\x01\x09\x04\x31", b"\x01\x09\x06\x31");

const DIGEST_TAG: Bend<'_> = (b"\x31\x22\x04\x20", b"\x31\x22\x05\x20");

const BAD_VERSION: Bend<'_> = (b"\x2a\x03\x01\x02\x01\x07", b"\x2a\x03\x01\x02\x01\x87");

// Each attribute that a package has must be there and of its form, before it is asked what it says.
#[test]
fn signed_attributes_describe_a_package(rt: HostRuntime) {
    let a = rt.alloc();
    assert!(rt; bends(a, NO_IDENTIFIER, 19) && bends(a, NO_TARGETS, 19) && bends(a, NO_TYPE, 19));
    assert!(rt; bends(a, NO_DIGEST, 19) && bends(a, DIGEST_TAG, 19) && bends(a, BAD_VERSION, 19));
    assert!(rt;
        bends_both(a, NO_IDENTIFIER, KIND, 19) && bends_both(a, NO_IDENTIFIER, ALGORITHM, 18)
    );
    assert!(rt; bends(a, ALGORITHM, 18));
}
