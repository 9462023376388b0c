// Longer paths (RFC 5280, section 6.1), and signatures of two levels (RFC 8554, section 6).
use crate::row::row;
use judge_bench::case::{Case, plain_bench};
use judge_bench::module::{LISTS, record_of};
use judge_bench::octets::{bent, element};
use judge_bench::parts::{CONTENT, HSS_LMS, SHA_256, SIGNER, attributes, item_of, signers};
use judge_bench::signer::{certificate, package, public_octets, signature_of};
use judge_bench::verdict::verdict_of;
use std::alloc::Global;
use std::test::Fail;

// An authority that takes no other below it; the same with a new key, issued by itself; and another that
// this issues.
const FIRST: &str = "serial 02\nissuer root\nsubject ca1\nfrom 20200101000000\nto 20401231235959\n\
    subjectkey b2\nauthoritykey a1\nca 0\nusage certsign\n";

const NEW_KEY: &str = "serial 03\nissuer ca1\nsubject ca1\nfrom 20200101000000\nto 20401231235959\n\
    subjectkey b3\nauthoritykey b2\nca -\nusage certsign\n";

const SECOND: &str = "serial 04\nissuer ca1\nsubject ca2\nfrom 20200101000000\nto 20401231235959\n\
    subjectkey b4\nauthoritykey b3\nca -\nusage certsign\n";

// The signer's certificate under the new key, and under the other authority.
const UNDER_FIRST: &str = "serial 05\nissuer ca1\nsubject signer\nfrom 20200101000000\n\
    to 20401231235959\nsubjectkey b5\nauthoritykey b3\n";

const UNDER_SECOND: &str = "serial 05\nissuer ca2\nsubject signer\nfrom 20200101000000\n\
    to 20401231235959\nsubjectkey b5\nauthoritykey b4\n";

const FIRMWARE: &str = "constraint 300f300d060b2a864886f70d0109100110\n";

const PACKAGE: &str = "package 1.2.3.1 7\ntarget 1.2.3\nsigner b5\nimage 68\n";

// The certificates of the authority with both keys.
fn authority(alloc: Global) -> Option<(Vec<u8>, Vec<u8>)> {
    let first = certificate(alloc, 1, 2, FIRST, FIRMWARE)?;
    let new_key = certificate(alloc, 2, 3, NEW_KEY, FIRMWARE)?;
    Some((first, new_key))
}

// The verdict on a package whose signer's certificate the authority issues with its new key.
fn under_new_key(alloc: Global) -> Option<u8> {
    let (first, new_key) = authority(alloc)?;
    let signer = certificate(alloc, 3, 5, UNDER_FIRST, FIRMWARE)?;
    let bench = plain_bench(alloc)?;
    verdict_of(
        alloc,
        &bench,
        package(alloc, 5, PACKAGE, &[&first, &new_key, &signer]),
    )
}

// The same where another authority stands between them.
fn under_another(alloc: Global) -> Option<u8> {
    let (first, new_key) = authority(alloc)?;
    let second = certificate(alloc, 3, 4, SECOND, FIRMWARE)?;
    let signer = certificate(alloc, 4, 5, UNDER_SECOND, FIRMWARE)?;
    let bench = plain_bench(alloc)?;
    verdict_of(
        alloc,
        &bench,
        package(alloc, 5, PACKAGE, &[&first, &new_key, &second, &signer]),
    )
}

// A certificate that is issued by itself isn't counted, and the signer's isn't.
#[test]
fn a_new_key_is_not_counted(rt: HostRuntime) {
    row(&rt, under_new_key(rt.alloc()), 0);
}

#[test]
fn another_authority_is_counted(rt: HostRuntime) {
    row(&rt, under_another(rt.alloc()), 25);
}

// The octets behind the count of levels.
fn behind_levels(octets: &[u8]) -> Option<&[u8]> {
    octets.get(4..)
}

// The module whose anchor has the key of octets 01 with two levels.
fn two_levels(case: &mut Case) -> Option<()> {
    let upper = public_octets(case.alloc, 1)?;
    let key = [b"\x00\x00\x00\x02".as_slice(), behind_levels(&upper)?]
        .concat(case.alloc)
        .ok()?;
    case.bench.record = record_of(case.alloc, LISTS, &key, b"")?;
    Some(())
}

// The signature of the lower key by the upper one.
fn upper_signature(alloc: Global) -> Option<Vec<u8>> {
    let lower = public_octets(alloc, 2)?;
    signature_of(alloc, 1, behind_levels(&lower)?, b"")
}

// A signature of two levels over these signed attributes, as they stand in a signer.
fn signature(alloc: Global, upper: &[u8], attributes: &[u8]) -> Option<Vec<u8>> {
    let lower = signature_of(alloc, 2, b"\x31", attributes.get(1..)?)?;
    let key = public_octets(alloc, 2)?;
    let parts = [
        b"\x00\x00\x00\x01".as_slice(),
        behind_levels(upper)?,
        behind_levels(&key)?,
        behind_levels(&lower)?,
    ];
    match parts.concat(alloc) {
        Ok(octets) => element(alloc, 0x04, &octets),
        Err(_) => None,
    }
}

// The package with that signature.
fn signed_twice(case: &Case, upper: &[u8]) -> Option<Vec<u8>> {
    let attributes = attributes(&case.item)?;
    let signature = signature(case.alloc, upper, attributes)?;
    let signers = signers(
        case.alloc,
        &[SIGNER, SHA_256, attributes, HSS_LMS, &signature],
    )?;
    item_of(case.alloc, CONTENT, &signers)
}

// Both signatures hold; then that of the lower key has another randomizer, and then the signed
// attributes' own has one.
#[test]
fn each_level_is_verified(rt: HostRuntime) -> Result<(), Fail> {
    let alloc = rt.alloc();
    let mut case = Case::plain(alloc).ok_or("a package")?;
    two_levels(&mut case).ok_or("a record")?;
    row(&rt, case.says(&case.item), 29);
    let upper = upper_signature(alloc).ok_or("a signature")?;
    case.item = signed_twice(&case, &upper).ok_or("a package")?;
    row(&rt, case.says(&case.item), 0);
    let randomizer = upper.get(12..44).ok_or("a randomizer")?;
    let item = bent(alloc, &case.item, randomizer, &[0; 32]).ok_or("a package")?;
    row(&rt, case.says(&item), 29);
    Ok(())
}
