// The conditions 20 to 29, in the same way: the values, and the path of the signer (RFC 5652, sections 5.4,
// 5.6, 11.1 and 11.2; RFC 5280, section 6.1; RFC 6010, section 4).
use crate::row::row;
use der_core::Moment;
use judge_bench::case::{Case, plain_bench};
use judge_bench::octets::bent;
use judge_bench::signer::{CA, SIGNER, certificate, package};
use judge_bench::verdict::owner_of;
use judge_core::{Verdict, judge};
use package_attrs::PackageName;
use std::alloc::Global;
use std::test::Fail;

// The lines of a package of that signer.
const PACKAGE: &str = "package 1.2.3.1 7\ntarget 1.2.3\nsigner b3\nimage 68656c6c6f\n";

// A firmware package may be signed, without more.
const FIRMWARE: &str = "constraint 300f300d060b2a864886f70d0109100110\n";

// A package whose signer's certificate has these constraints, if any, and is signed by the key of an
// octet, under the other certificate.
fn signed_by(alloc: Global, above: u8, constraint: &str) -> Option<Case> {
    let ca = certificate(alloc, 1, 2, CA, FIRMWARE)?;
    let signer = certificate(alloc, above, 3, SIGNER, constraint)?;
    let item = package(alloc, 3, PACKAGE, &[&signer, &ca])?;
    let bench = plain_bench(alloc)?;
    Some(Case { alloc, bench, item })
}

// The attribute contentType with another type than the content's, the content `hellp`, and the key
// identifier of another key.
const KIND: (&[u8], &[u8]) = (b"\x01\x10\x30\x1b", b"\x01\x11\x30\x1b");

const CONTENT: (&[u8], &[u8]) = (b"hello", b"hellp");

const SIGNER_ID: (&[u8], &[u8]) = (b"\x80\x01\xa1", b"\x80\x01\xa2");

#[test]
fn values_are_those_of_the_content(rt: HostRuntime) -> Result<(), Fail> {
    let case = Case::plain(rt.alloc()).ok_or("a package")?;
    row(&rt, case.bends(KIND.0, KIND.1), 20);
    row(
        &rt,
        case.bends_both(KIND.0, KIND.1, CONTENT.0, CONTENT.1),
        20,
    );
    row(&rt, case.bends(CONTENT.0, CONTENT.1), 21);
    row(
        &rt,
        case.bends_both(CONTENT.0, CONTENT.1, SIGNER_ID.0, SIGNER_ID.1),
        21,
    );
    row(&rt, case.bends(SIGNER_ID.0, SIGNER_ID.1), 22);
    Ok(())
}

// Whether the name is 1.2.3.1 in version 7.
fn is_named(name: &PackageName) -> bool {
    match name {
        PackageName::Preferred { id, version } => {
            id.octets() == b"\x2a\x03\x01".as_slice() && *version == 7
        }
        PackageName::Legacy(_) => false,
    }
}

// Whether the verdict is a refusal of that package.
fn is_refused(verdict: &Verdict<'_>) -> bool {
    match verdict {
        Verdict::Refuse(_, Some(name)) => is_named(name),
        _ => false,
    }
}

// The same of the item.
fn refuses(case: &Case, item: &[u8]) -> Option<bool> {
    let at = Moment::new(case.bench.at)?;
    let owner = owner_of(case.alloc, &case.bench.record)?;
    match judge(case.alloc, &owner, &case.bench.state, 0, at, item) {
        Ok(verdict) => Some(is_refused(&verdict)),
        Err(_) => None,
    }
}

#[test]
fn a_refusal_names_the_package(rt: HostRuntime) -> Result<(), Fail> {
    let case = Case::plain(rt.alloc()).ok_or("a package")?;
    let item = bent(case.alloc, &case.item, KIND.0, KIND.1).ok_or("a package")?;
    assert_eq!(rt; refuses(&case, &item), Some(true));
    assert_eq!(rt; refuses(&case, &case.item), Some(false));
    Ok(())
}

// The issuer `roos` in place of the anchor's name, and a critical extension that is no one's.
const ISSUER: (&[u8], &[u8]) = (b"\x0c\x04root", b"\x0c\x04roos");

const EXTENSION: (&[u8], &[u8]) = (b"\x55\x1d\x13\x01\x01\xff", b"\x55\x1d\x1e\x01\x01\xff");

// No path, extensions that don't read, and both; and these after the end of a validity.
#[test]
fn a_path_has_extensions(rt: HostRuntime) -> Result<(), Fail> {
    let mut case = Case::two(rt.alloc()).ok_or("a package")?;
    row(&rt, case.says(&case.item), 0);
    row(&rt, case.bends(ISSUER.0, ISSUER.1), 22);
    row(
        &rt,
        case.bends_both(ISSUER.0, ISSUER.1, EXTENSION.0, EXTENSION.1),
        22,
    );
    row(&rt, case.bends(EXTENSION.0, EXTENSION.1), 23);
    case.bench.at = 20_310_101_000_000;
    row(&rt, case.bends(EXTENSION.0, EXTENSION.1), 23);
    Ok(())
}

// The uses of the keys: the upper signs packages, or the signer's certificates alone.
const UPPER_USE: (&[u8], &[u8]) = (b"\x04\x04\x03\x02\x02\x04", b"\x04\x04\x03\x02\x07\x80");

const SIGNER_USE: (&[u8], &[u8]) = (b"\x04\x04\x03\x02\x07\x80", b"\x04\x04\x03\x02\x02\x04");

// Both ends of the validity of the upper certificate, and a second behind them; and an unfit use.
#[test]
fn a_path_is_valid(rt: HostRuntime) -> Result<(), Fail> {
    let mut case = Case::two(rt.alloc()).ok_or("a package")?;
    row(&rt, case.bends(UPPER_USE.0, UPPER_USE.1), 25);
    row(&rt, case.bends(SIGNER_USE.0, SIGNER_USE.1), 25);
    case.bench.at = 20_301_231_235_959;
    row(&rt, case.says(&case.item), 0);
    case.bench.at = 20_310_101_000_000;
    row(&rt, case.says(&case.item), 24);
    row(&rt, case.bends(UPPER_USE.0, UPPER_USE.1), 24);
    case.bench.at = 20_200_101_000_000;
    row(&rt, case.says(&case.item), 0);
    case.bench.at = 20_191_231_235_959;
    row(&rt, case.says(&case.item), 24);
    Ok(())
}

// A key of another algorithm, one of no levels, and another number of a certificate; the last is no
// more what was signed.
const KEY: (&[u8], &[u8]) = (b"\x10\x03\x11\x03\x3d\x00", b"\x10\x03\x12\x03\x3d\x00");

const LEVELS: (&[u8], &[u8]) = (
    b"\x03\x3d\x00\x00\x00\x00\x01",
    b"\x03\x3d\x00\x00\x00\x00\x00",
);

const SERIAL: (&[u8], &[u8]) = (b"\x02\x01\x03\x30\x0d", b"\x02\x01\x04\x30\x0d");

// The algorithm inside of a certificate.
const ALGORITHM: (&[u8], &[u8]) = (
    b"\x02\x01\x03\x30\x0d\x06\x0b\x2a\x86\x48\x86\xf7\x0d\x01\x09\x10\x03\x11",
    b"\x02\x01\x03\x30\x0d\x06\x0b\x2a\x86\x48\x86\xf7\x0d\x01\x09\x10\x03\x12",
);

// A key that is bent is no more what was signed, so it fails both of its conditions.
#[test]
fn keys_and_signatures_are_those_of_the_path(rt: HostRuntime) -> Result<(), Fail> {
    let case = Case::two(rt.alloc()).ok_or("a package")?;
    row(
        &rt,
        case.bends_both(UPPER_USE.0, UPPER_USE.1, KEY.0, KEY.1),
        25,
    );
    row(&rt, case.bends(KEY.0, KEY.1), 26);
    row(&rt, case.bends(LEVELS.0, LEVELS.1), 26);
    row(&rt, case.bends_both(KEY.0, KEY.1, SERIAL.0, SERIAL.1), 26);
    row(&rt, case.bends(SERIAL.0, SERIAL.1), 27);
    row(&rt, case.bends(ALGORITHM.0, ALGORITHM.1), 27);
    Ok(())
}

// The signer's certificate is signed by the key of the anchor, which isn't above it; and it has no
// constraints.
#[test]
fn another_key_signs_no_certificate(rt: HostRuntime) -> Result<(), Fail> {
    let case = signed_by(rt.alloc(), 1, "").ok_or("a package")?;
    row(&rt, case.says(&case.item), 27);
    Ok(())
}

// The package with another last octet.
fn last_bent(case: &Case) -> Option<u8> {
    let mut item = case.item.clone().ok()?;
    let last = item.last_mut()?;
    *last ^= 1;
    case.says(&item)
}

// A signer without constraints, whose signature holds, and doesn't; and one that may sign.
#[test]
fn a_signer_is_permitted(rt: HostRuntime) -> Result<(), Fail> {
    let case = signed_by(rt.alloc(), 2, "").ok_or("a package")?;
    row(&rt, case.bends(SERIAL.0, SERIAL.1), 27);
    row(&rt, case.says(&case.item), 28);
    row(&rt, last_bent(&case), 28);
    let case = Case::two(rt.alloc()).ok_or("a package")?;
    row(&rt, last_bent(&case), 29);
    Ok(())
}

// The hardware type of the module's record.
const HARDWARE: (&[u8], &[u8]) = (b"\x06\x02\x2a\x03\x04\x02", b"\x06\x02\x2a\x04\x04\x02");

// A package under no certificate is verified too, before it is asked what it is for. Its leaf number is
// less than the number of leaves.
#[test]
fn a_signature_holds(rt: HostRuntime) -> Result<(), Fail> {
    let mut case = Case::plain(rt.alloc()).ok_or("a package")?;
    let leaf = b"\x04\x82\x09\x30\x00\x00\x00\x00\x00\x00\x00\x00";
    let none = b"\x04\x82\x09\x30\x00\x00\x00\x00\x00\x00\x00\x20";
    row(&rt, last_bent(&case), 29);
    row(&rt, case.bends(leaf, none), 29);
    case.bench.record = bent(case.alloc, &case.bench.record, HARDWARE.0, HARDWARE.1).ok_or(
        "a record",
    )?;
    row(&rt, last_bent(&case), 29);
    row(&rt, case.says(&case.item), 30);
    Ok(())
}
