// Each condition on an item of which it is the least that fails, by both calls.

use crate::row::{judged, judged_cut};
use crate::vectors as items;
use std::alloc::Global;
use std::test::Fail;

// Whether both calls tell this condition, or accept where it is 0.
fn tells(
    alloc: Global,
    record: &[u8],
    sequence: u64,
    item: &[u8],
    number: u8,
) -> Result<bool, Fail> {
    let whole = judged(alloc, record, sequence, item)?;
    let cut = judged_cut(alloc, record, sequence, item)?;
    Ok(whole == number && cut == number)
}

// The same of the module of the items.
fn is(alloc: Global, item: &[u8], number: u8) -> Result<bool, Fail> {
    tells(alloc, items::MODULE, 0, item, number)
}

#[test]
fn packages_are_accepted(rt: HostRuntime) -> Result<(), Fail> {
    assert!(rt; is(rt.alloc(), items::GOOD, 0)?);
    assert!(rt; is(rt.alloc(), items::BY_ANCHOR, 0)?);
    Ok(())
}

#[test]
fn octets_are_refused(rt: HostRuntime) -> Result<(), Fail> {
    let alloc = rt.alloc();
    assert!(rt; is(alloc, &items::GOOD[1..], 1)?);
    assert!(rt; is(alloc, items::FAILS_3, 3)?);
    assert!(rt; is(alloc, items::FAILS_4, 4)?);
    assert!(rt; is(alloc, items::FAILS_5, 5)?);
    assert!(rt; is(alloc, items::FAILS_6, 6)?);
    assert!(rt; is(alloc, items::FAILS_7, 7)?);
    assert!(rt; is(alloc, items::FAILS_8, 8)?);
    assert!(rt; is(alloc, items::FAILS_9, 9)?);
    assert!(rt; is(alloc, items::FAILS_10, 10)?);
    assert!(rt; is(alloc, items::FAILS_12, 12)?);
    assert!(rt; is(alloc, items::FAILS_13, 13)?);
    Ok(())
}

#[test]
fn signers_are_refused(rt: HostRuntime) -> Result<(), Fail> {
    let alloc = rt.alloc();
    assert!(rt; is(alloc, items::FAILS_14, 14)?);
    assert!(rt; is(alloc, items::FAILS_15, 15)?);
    assert!(rt; is(alloc, items::FAILS_16, 16)?);
    assert!(rt; is(alloc, items::FAILS_17, 17)?);
    assert!(rt; is(alloc, items::FAILS_18, 18)?);
    assert!(rt; is(alloc, items::FAILS_19, 19)?);
    assert!(rt; is(alloc, items::FAILS_20, 20)?);
    assert!(rt; is(alloc, items::FAILS_21, 21)?);
    Ok(())
}

#[test]
fn paths_are_refused(rt: HostRuntime) -> Result<(), Fail> {
    let alloc = rt.alloc();
    assert!(rt; is(alloc, items::FAILS_22, 22)?);
    assert!(rt; is(alloc, items::FAILS_23, 23)?);
    assert!(rt; is(alloc, items::FAILS_24, 24)?);
    assert!(rt; is(alloc, items::FAILS_25, 25)?);
    assert!(rt; is(alloc, items::FAILS_26, 26)?);
    assert!(rt; is(alloc, items::FAILS_27, 27)?);
    assert!(rt; is(alloc, items::FAILS_28, 28)?);
    Ok(())
}

#[test]
fn rules_are_asked(rt: HostRuntime) -> Result<(), Fail> {
    let alloc = rt.alloc();
    assert!(rt; tells(alloc, items::OTHER_HARDWARE, 0, items::BY_ANCHOR, 30)?);
    assert!(rt; tells(alloc, items::NO_COMMUNITY, 0, items::WITH_RULES, 31)?);
    assert!(rt; tells(alloc, items::NO_TYPE, 0, items::WITH_RULES, 32)?);
    assert!(rt; tells(alloc, items::MODULE, 0, items::WITH_RULES, 34)?);
    assert!(rt; tells(alloc, items::MODULE, 0, items::EMPTY, 37)?);
    assert!(rt; tells(alloc, items::MODULE, u64::MAX, items::BY_ANCHOR, 41)?);
    assert!(rt; tells(alloc, items::SMALL, u64::MAX - 1, items::BY_ANCHOR, 0)?);
    Ok(())
}
