// Rows of `explain` over what a path permits (RFC 6010, section 4; RFC 4108, section 3.2).
use crate::explain::{Grants, permits, refuses};

// Any content may be signed.
const ANY: &str = "constraint 300f300d060b2a864886f70d0109100100\n";

// Firmware packages, with the name 1.2.3.1 from version 7 on.
const FROM_7: &str =
    "constraint 302e302c060b2a864886f70d0109100110301d301b060b2a864886f70d0109100223\
    310c300a300806032a0301020107\n";

// The authority lists that version, and its signer lists nothing.
const ONE_LIST: Grants = Grants {
    authority: FROM_7,
    signer: ANY,
    attributes: "attr 1.2.840.113549.1.9.16.2.35 300a300806032a0301020107\n",
};

#[test]
fn a_listed_version_is_permitted(rt: HostRuntime) {
    assert!(rt; permits(rt.alloc(), &ONE_LIST, "package 1.2.3.1 7\ntarget 1.2.3\n"));
}

#[test]
fn another_name_is_refused(rt: HostRuntime) {
    assert!(rt; refuses(rt.alloc(), &ONE_LIST, "package 1.2.3.2 7\ntarget 1.2.3\n"));
    assert!(rt; refuses(rt.alloc(), &ONE_LIST, "package 1.2.3.2 9\ntarget 1.2.3\n"));
}

// Whatever is stale by it.
#[test]
fn a_greater_version_is_permitted(rt: HostRuntime) {
    let lines = "package 1.2.3.1 8\nstale 2\ntarget 1.2.3\n";
    assert!(rt; permits(rt.alloc(), &ONE_LIST, lines));
}

#[test]
fn a_smaller_version_is_refused(rt: HostRuntime) {
    assert!(rt; refuses(rt.alloc(), &ONE_LIST, "package 1.2.3.1 6\ntarget 1.2.3\n"));
}

// The signer lists that name from version 9 on. Of the two listed values both cover this alone.
const TWO_LISTS: Grants = Grants {
    authority: FROM_7,
    signer: "constraint 302e302c060b2a864886f70d0109100110301d301b060b2a864886f70d0109100223\
        310c300a300806032a0301020109\n",
    attributes: "attr 1.2.840.113549.1.9.16.2.35 300a300806032a0301020109\n",
};

#[test]
fn each_member_permits(rt: HostRuntime) {
    assert!(rt; refuses(rt.alloc(), &TWO_LISTS, "package 1.2.3.1 8\ntarget 1.2.3\n"));
    assert!(rt; permits(rt.alloc(), &TWO_LISTS, "package 1.2.3.1 9\ntarget 1.2.3\n"));
}

// The authority lists the hardware types 1.2.3 and 1.2.4 in one value.
const TOGETHER: Grants = Grants {
    authority: "constraint 302c302a060b2a864886f70d0109100110301b3019060b2a864886f70d0109100224\
        310a300806022a0306022a04\n",
    signer: ANY,
    attributes: "attr 1.2.840.113549.1.9.16.2.36 300806022a0306022a04\n",
};

#[test]
fn some_of_the_listed_hardware_is_permitted(rt: HostRuntime) {
    assert!(rt; permits(rt.alloc(), &TOGETHER, "package 1.2.3.1 7\ntarget 1.2.3\n"));
}

#[test]
fn hardware_that_is_not_listed_is_refused(rt: HostRuntime) {
    let lines = "package 1.2.3.1 7\ntarget 1.2.3\ntarget 1.2.5\n";
    assert!(rt; refuses(rt.alloc(), &TOGETHER, lines));
}

// It lists each in a value of its own.
const APART: Grants = Grants {
    authority: "constraint 302e302c060b2a864886f70d0109100110301d301b060b2a864886f70d0109100224\
        310c300406022a03300406022a04\n",
    signer: ANY,
    attributes: "attr 1.2.840.113549.1.9.16.2.36 300406022a03 300406022a04\n",
};

#[test]
fn two_hardware_values_do_not_cover_together(rt: HostRuntime) {
    let lines = "package 1.2.3.1 7\ntarget 1.2.3\ntarget 1.2.4\n";
    assert!(rt; refuses(rt.alloc(), &APART, lines));
}

// It lists the legacy name 414243, without a stale one.
const LEGACY: Grants = Grants {
    authority: "constraint 30293027060b2a864886f70d010910011030183016060b2a864886f70d0109100223\
        310730050403414243\n",
    signer: ANY,
    attributes: "attr 1.2.840.113549.1.9.16.2.35 30050403414243\n",
};

#[test]
fn a_legacy_name_covers_itself(rt: HostRuntime) {
    let stale = "legacy 414243\nlegacystale 41\ntarget 1.2.3\n";
    assert!(rt; permits(rt.alloc(), &LEGACY, "legacy 414243\ntarget 1.2.3\n"));
    assert!(rt; refuses(rt.alloc(), &LEGACY, stale));
}
