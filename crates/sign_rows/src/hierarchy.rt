// Rows of a key of two levels: its signature, and how many levels a key has.
use crate::vectors::{KEY, LOWER_KEY, LOWER_SIGNATURE, MESSAGE, UPPER_SIGNATURE};
use hss_chain::{HssKey, hss_check, hss_key};

// The signature of the standard.
fn signature() -> [u8; 3860] {
    let mut octets = [0; 3860];
    octets[..2512].copy_from_slice(UPPER_SIGNATURE);
    octets[2512..2568].copy_from_slice(LOWER_KEY);
    octets[2568..].copy_from_slice(LOWER_SIGNATURE);
    octets
}

// That with an octet behind it.
fn longer() -> [u8; 3861] {
    let mut octets = [0; 3861];
    octets[..3860].copy_from_slice(&signature());
    octets
}

// Whether the answer under the key of the standard is this one, for a message in two parts.
fn answers(first: &[u8], rest: &[u8], signature: &[u8], holds: bool) -> bool {
    match hss_key(KEY) {
        Some(key) => hss_check(&key, first, rest, signature) == holds,
        None => false,
    }
}

// The message cut in two, its parts in the other order, and an octet left over and one missing.
fn the_standard_holds(octets: &[u8; 3860]) -> bool {
    let (first, rest) = MESSAGE.split_at(40);
    answers(first, rest, octets, true)
        && answers(rest, first, octets, false)
        && answers(MESSAGE, b"", &longer(), false)
        && answers(MESSAGE, b"", &octets[..3859], false)
}

// The signature with the lowest bit of one octet flipped.
fn bent(at: usize) -> [u8; 3860] {
    let mut octets = signature();
    if let Some(octet) = octets.get_mut(at) {
        *octet ^= 1;
    }
    octets
}

// Whether the answer to that is this one.
fn bends(at: usize, holds: bool) -> bool {
    answers(MESSAGE, b"", &bent(at), holds)
}

// One part of each level and of the key between them: the count of signed keys, path[9] above, the LMS
// kind and the root of the lower key, q below, and path[4] below
fn bent_ones_do_not_hold() -> bool {
    bends(3, false)
        && bends(2511, false)
        && bends(2515, false)
        && bends(2567, false)
        && bends(2571, false)
        && bends(3859, false)
}

// The lower key as a key of one level.
fn lower_key() -> Option<HssKey> {
    let mut octets = [0; 60];
    octets[3] = 1;
    octets[4..].copy_from_slice(LOWER_KEY);
    hss_key(&octets)
}

// Whether the answer to its signature alone, under that key with so many levels, is this one.
fn is_alone(levels: u8, holds: bool) -> bool {
    let mut signature = [0; 1296];
    signature[4..].copy_from_slice(LOWER_SIGNATURE);
    match lower_key() {
        Some(key) => {
            let other = HssKey {
                levels,
                top: key.top,
            };
            hss_check(&other, MESSAGE, b"", &signature) == holds
        }
        None => false,
    }
}

fn one_level_holds_as_one() -> bool {
    is_alone(0, false) && is_alone(1, true) && is_alone(2, false)
}

#[test]
fn signatures_of_two_levels(rt: HostRuntime) {
    assert!(rt; the_standard_holds(&signature()));
    assert!(rt; bent_ones_do_not_hold());
    assert!(rt; one_level_holds_as_one());
}

// Whether these octets are a key of so many levels, or of None, no key.
fn has_levels(octets: &[u8], levels: Option<u8>) -> bool {
    match hss_key(octets) {
        Some(key) => levels == Some(key.levels),
        None => levels.is_none(),
    }
}

// The same of the key with another octet at one place.
fn has_levels_with(at: usize, value: u8, levels: Option<u8>) -> bool {
    let mut octets = *KEY;
    if let Some(octet) = octets.get_mut(at) {
        *octet = value;
    }
    has_levels(&octets, levels)
}

// The key with an octet behind it.
fn longer_key() -> [u8; 61] {
    let mut octets = [0; 61];
    octets[..60].copy_from_slice(KEY);
    octets
}

fn keys_are_read() -> bool {
    has_levels_with(3, 0, None)
        && has_levels_with(3, 1, Some(1))
        && has_levels_with(3, 8, Some(8))
        && has_levels_with(3, 9, None)
        && has_levels_with(2, 1, None)
        && has_levels_with(7, 4, None)
        && has_levels(&longer_key(), None)
}

#[test]
fn keys_have_one_to_eight_levels(rt: HostRuntime) {
    assert!(rt; keys_are_read());
}
