// Octets worked by hand from RFC 4108, section 2.2, RFC 5652, section 11, and X.690.
use attribute_set::read_attribute_set;
use package_attrs::{
    Community, Package, image_of, read_communities, read_info, read_package, read_targets,
};
use std::alloc::Global;

// Attributes of a package: its hardware types, the type of its content, its identifier, and the
// digest of its content.
const TARGETS: &[u8] = b"\x30\x15\x06\x0b\x2a\x86\x48\x86\xf7\x0d\x01\x09\x10\x02\x24\x31\x06\
    \x30\x04\x06\x02\x2a\x03";

const CONTENT: &[u8] = b"\x30\x1a\x06\x09\x2a\x86\x48\x86\xf7\x0d\x01\x09\x03\x31\x0d\
    \x06\x0b\x2a\x86\x48\x86\xf7\x0d\x01\x09\x10\x01\x10";

const IDENTIFIER: &[u8] = b"\x30\x1b\x06\x0b\x2a\x86\x48\x86\xf7\x0d\x01\x09\x10\x02\x23\x31\x0c\
    \x30\x0a\x30\x08\x06\x03\x2a\x03\x01\x02\x01\x07";

const DIGEST: &[u8] = b"\x30\x2f\x06\x09\x2a\x86\x48\x86\xf7\x0d\x01\x09\x04\x31\x22\x04\x20\
    \x00\x00\x00\x00\x00\x00\x00\x00\x00\x00\x00\x00\x00\x00\x00\x00\
    \x00\x00\x00\x00\x00\x00\x00\x00\x00\x00\x00\x00\x00\x00\x00\x00";

// The moment of signing.
const UTC: &[u8] = b"\x30\x1c\x06\x09\x2a\x86\x48\x86\xf7\x0d\x01\x09\x05\x31\x0f\
    \x17\x0d250101000000Z";

// No community.
const COMMUNITIES: &[u8] = b"\x30\x11\x06\x0b\x2a\x86\x48\x86\xf7\x0d\x01\x09\x10\x02\x28\x31\x02\
    \x30\x00";

// Type 5.
const INFO: &[u8] = b"\x30\x14\x06\x0b\x2a\x86\x48\x86\xf7\x0d\x01\x09\x10\x02\x2a\x31\x05\
    \x30\x03\x02\x01\x05";

// Whether it lists hardware types, whether it lists communities where the attribute is there, and
// its type.
type Found = (bool, Option<bool>, Option<u128>);

fn is_package(package: &Package<'_>, wanted: Option<Found>) -> bool {
    let communities = match &package.communities {
        Some(communities) => Some(communities.iter().next().is_some()),
        None => None,
    };
    let has_targets = package.targets.iter().next().is_some();
    wanted == Some((has_targets, communities, package.info.kind))
}

fn is_in(attributes: &[u8], alloc: Global, wanted: Option<Found>) -> bool {
    match read_attribute_set(alloc, attributes) {
        Ok(Some(attributes)) => match read_package(&attributes) {
            Some(package) => is_package(&package, wanted),
            None => wanted.is_none(),
        },
        _ => false,
    }
}

// Whether this is found in the set of these attributes, which stand in its order.
fn is_found(alloc: Global, texts: &[&[u8]], wanted: Option<Found>) -> bool {
    match texts.concat(alloc) {
        Ok(contents) => is_in(&contents, alloc, wanted),
        Err(_) => false,
    }
}

#[test]
fn packages_are_read(rt: HostRuntime) {
    let alloc = rt.alloc();
    let least = [TARGETS, CONTENT, IDENTIFIER, DIGEST];
    let most = [COMMUNITIES, INFO, TARGETS, CONTENT, IDENTIFIER, UTC, DIGEST];
    let without_targets = [CONTENT, IDENTIFIER, DIGEST];
    assert!(rt; is_found(alloc, &least, Some((true, None, None))));
    assert!(rt; is_found(alloc, &most, Some((true, Some(false), Some(5)))));
    assert!(rt; is_found(alloc, &without_targets, None));
}

// Whether the octets list this hardware type, where they list any.
fn lists(octets: &[u8], target: &[u8], wanted: Option<bool>) -> bool {
    match read_targets(octets) {
        Some(mut targets) => wanted == Some(targets.any(|listed| listed.octets() == target)),
        None => wanted.is_none(),
    }
}

#[test]
fn targets_are_read(rt: HostRuntime) {
    let two = b"\x30\x07\x06\x02\x2a\x03\x06\x01\x2a";
    assert!(rt; lists(two, b"\x2a", Some(true)) && lists(two, b"\x03", Some(false)));
    assert!(rt; lists(b"\x30\x04\x04\x02\x2a\x03", b"\x2a\x03", None));
}

// Whether the first community is of modules with serial entries.
fn names_modules(octets: &[u8]) -> Option<bool> {
    match read_communities(octets)?.next()? {
        Community::Modules { serials, .. } => Some(serials.iter().next().is_some()),
        Community::Group(_) => Some(false),
    }
}

// An identifier, and modules of 1.2.3: each one, one of them, those of a block, and a block that
// has one end.
#[test]
fn communities_are_read(rt: HostRuntime) {
    let group = b"\x30\x04\x06\x02\x2a\x03";
    let all = b"\x30\x0a\x30\x08\x06\x02\x2a\x03\x30\x02\x05\x00";
    let single = b"\x30\x0b\x30\x09\x06\x02\x2a\x03\x30\x03\x04\x01\x41";
    let block = b"\x30\x10\x30\x0e\x06\x02\x2a\x03\x30\x08\x30\x06\x04\x01\x42\x04\x01\x41";
    let one_end = b"\x30\x0d\x30\x0b\x06\x02\x2a\x03\x30\x05\x30\x03\x04\x01\x41";
    assert!(rt; names_modules(group) == Some(false) && names_modules(all) == Some(true));
    assert!(rt; names_modules(single) == Some(true) && names_modules(block) == Some(true));
    assert!(rt; names_modules(one_end) == None);
}

// The type, and how many dependencies there are, in memory of their own.
fn info(alloc: Global, octets: &[u8]) -> Option<(Option<u128>, usize)> {
    let info = read_info(octets)?;
    match info.dependencies.to_names(alloc) {
        Ok(names) => Some((info.kind, names.as_slice().len())),
        Err(_) => None,
    }
}

#[test]
fn information_is_read(rt: HostRuntime) {
    let one = b"\x30\x08\x02\x01\x05\x30\x03\x04\x01\x41";
    assert!(rt; info(rt.alloc(), one) == Some((Some(5), 1)));
    assert!(rt; info(rt.alloc(), b"\x30\x00") == Some((None, 0)));
    assert!(rt; info(rt.alloc(), b"\x30\x02\x30\x00") == None);
}

// Whether this is the image of the content.
fn has_image(content: &[u8], image: &[u8]) -> bool {
    image_of(content) == image
}

#[test]
fn the_image_is_unwrapped_once(rt: HostRuntime) {
    assert!(rt; has_image(b"\x04\x05hello", b"hello"));
    assert!(rt; has_image(b"hello", b"hello"));
    assert!(rt; has_image(b"\x04\x01\x41\x00", b"\x04\x01\x41\x00"));
}
