// What a path permits (RFC 6010, section 4), by certificates and packages that a packager signs.
use crate::row::row;
use judge_bench::case::{Case, plain_bench};
use judge_bench::module::{LISTS, record_of};
use judge_bench::signer::{CA, SIGNER, certificate, package, public_octets};
use judge_bench::verdict::{verdict, verdict_of};
use std::alloc::Global;
use std::test::Fail;

// A firmware package may be signed, or any content; and a firmware package may not.
const FIRMWARE: &str = "constraint 300f300d060b2a864886f70d0109100110\n";

const ANY: &str = "constraint 300f300d060b2a864886f70d0109100100\n";

const NOT: &[u8] =
    b"\x30\x12\x30\x10\x06\x0b\x2a\x86\x48\x86\xf7\x0d\x01\x09\x10\x01\x10\x0a\x01\x01";

const FIRMWARE_TEXT: &[u8] =
    b"\x30\x0f\x30\x0d\x06\x0b\x2a\x86\x48\x86\xf7\x0d\x01\x09\x10\x01\x10";

// The package 1.2.3.1 in version 7, or 9.
const VERSION_7: &str =
    "constraint 302e302c060b2a864886f70d0109100110301d301b060b2a864886f70d0109100223\
    310c300a300806032a0301020107\n";

const VERSION_9: &str =
    "constraint 302e302c060b2a864886f70d0109100110301d301b060b2a864886f70d0109100223\
    310c300a300806032a0301020109\n";

// The hardware types 1.2.3 and 1.2.4 in one value, or in one each; the legacy name 414243.
const TOGETHER: &str =
    "constraint 302c302a060b2a864886f70d0109100110301b3019060b2a864886f70d0109100224\
    310a300806022a0306022a04\n";

const APART: &str =
    "constraint 302e302c060b2a864886f70d0109100110301d301b060b2a864886f70d0109100224\
    310c300406022a03300406022a04\n";

const LEGACY: &str =
    "constraint 30293027060b2a864886f70d010910011030183016060b2a864886f70d0109100223\
    310730050403414243\n";

// The certificate of an authority and that of a signer under it, with these constraints.
fn chain(alloc: Global, upper: &str, lower: &str) -> Option<(Vec<u8>, Vec<u8>)> {
    let authority = certificate(alloc, 1, 2, CA, upper)?;
    let signer = certificate(alloc, 2, 3, SIGNER, lower)?;
    Some((authority, signer))
}

// The verdict on a package of that signer, by its name and its targets.
fn says(alloc: Global, chain: &(Vec<u8>, Vec<u8>), name: &str) -> Option<u8> {
    let lines = [name, "signer b3\nimage 68\n"].concat(alloc).ok()?;
    let item = package(alloc, 3, &lines, &[&chain.1, &chain.0])?;
    let bench = plain_bench(alloc)?;
    verdict(alloc, &bench, &item)
}

// The authority lists a version, and the signer isn't narrowed.
#[test]
fn a_listed_version_is_the_least(rt: HostRuntime) -> Result<(), Fail> {
    let a = rt.alloc();
    let chain = chain(a, VERSION_7, FIRMWARE).ok_or("certificates")?;
    row(
        &rt,
        says(a, &chain, "package 1.2.3.1 8\nstale 2\ntarget 1.2.3\n"),
        0,
    );
    row(
        &rt,
        says(a, &chain, "package 1.2.3.1 6\ntarget 1.2.3\n"),
        28,
    );
    row(
        &rt,
        says(a, &chain, "package 1.2.3.2 9\ntarget 1.2.3\n"),
        28,
    );
    Ok(())
}

// The same where the signer may sign any content.
#[test]
fn any_content_takes_in_packages(rt: HostRuntime) -> Result<(), Fail> {
    let a = rt.alloc();
    let chain = chain(a, VERSION_7, ANY).ok_or("certificates")?;
    row(
        &rt,
        says(a, &chain, "package 1.2.3.2 7\ntarget 1.2.3\n"),
        28,
    );
    row(&rt, says(a, &chain, "package 1.2.3.1 7\ntarget 1.2.3\n"), 0);
    Ok(())
}

// The signer lists a greater version.
#[test]
fn each_member_permits(rt: HostRuntime) -> Result<(), Fail> {
    let a = rt.alloc();
    let chain = chain(a, VERSION_7, VERSION_9).ok_or("certificates")?;
    row(
        &rt,
        says(a, &chain, "package 1.2.3.1 8\ntarget 1.2.3\n"),
        28,
    );
    row(&rt, says(a, &chain, "package 1.2.3.1 9\ntarget 1.2.3\n"), 0);
    Ok(())
}

// A listed hardware value covers those whose types are among its own.
#[test]
fn listed_hardware_is_the_most(rt: HostRuntime) -> Result<(), Fail> {
    let a = rt.alloc();
    let chain = chain(a, TOGETHER, ANY).ok_or("certificates")?;
    row(&rt, says(a, &chain, "package 1.2.3.1 7\ntarget 1.2.3\n"), 0);
    row(
        &rt,
        says(a, &chain, "package 1.2.3.1 7\ntarget 1.2.3\ntarget 1.2.5\n"),
        28,
    );
    Ok(())
}

// Two values don't cover together.
#[test]
fn one_hardware_value_covers(rt: HostRuntime) -> Result<(), Fail> {
    let a = rt.alloc();
    let chain = chain(a, APART, ANY).ok_or("certificates")?;
    row(
        &rt,
        says(a, &chain, "package 1.2.3.1 7\ntarget 1.2.3\ntarget 1.2.4\n"),
        28,
    );
    row(&rt, says(a, &chain, "package 1.2.3.1 7\ntarget 1.2.3\n"), 0);
    Ok(())
}

// A listed legacy name covers itself, without a stale value.
#[test]
fn a_legacy_name_covers_itself(rt: HostRuntime) -> Result<(), Fail> {
    let a = rt.alloc();
    let chain = chain(a, LEGACY, ANY).ok_or("certificates")?;
    row(&rt, says(a, &chain, "legacy 414243\ntarget 1.2.3\n"), 0);
    row(
        &rt,
        says(a, &chain, "legacy 414243\nlegacystale 41\ntarget 1.2.3\n"),
        28,
    );
    Ok(())
}

// The lines of a signer's certificate right under the anchor.
const UNDER_ROOT: &str = "serial 03\nissuer root\nsubject signer\nfrom 20200101000000\n\
    to 20401231235959\nsubjectkey b3\nauthoritykey a1\nusage sign\n";

// The verdict on a package of that signer, with these constraints.
fn under_root(alloc: Global, constraint: &str) -> Option<u8> {
    let signer = certificate(alloc, 1, 3, UNDER_ROOT, constraint)?;
    let lines = "package 1.2.3.1 7\ntarget 1.2.3\nsigner b3\nimage 68\n";
    let bench = plain_bench(alloc)?;
    verdict_of(alloc, &bench, package(alloc, 3, lines, &[&signer]))
}

// An anchor without constraints permits all, and a certificate without them nothing.
#[test]
fn a_certificate_must_permit(rt: HostRuntime) {
    let a = rt.alloc();
    row(&rt, under_root(a, ""), 28);
    row(&rt, under_root(a, FIRMWARE), 0);
}

// The verdict on a package where the anchor has these constraints.
fn under_anchor(case: &mut Case, constraints: &[u8]) -> Option<u8> {
    let key = public_octets(case.alloc, 1)?;
    case.bench.record = record_of(case.alloc, LISTS, &key, constraints)?;
    case.says(&case.item)
}

#[test]
fn an_anchor_must_permit(rt: HostRuntime) -> Result<(), Fail> {
    let mut case = Case::plain(rt.alloc()).ok_or("a package")?;
    row(&rt, under_anchor(&mut case, NOT), 28);
    row(&rt, under_anchor(&mut case, FIRMWARE_TEXT), 0);
    Ok(())
}
