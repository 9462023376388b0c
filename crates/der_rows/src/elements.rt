use der_core::{
    Condition, Cursor, DerFault, LoadErrorCode, Moment, Octets64, Splitter, Step, Time, TimeForm,
    Tlv, declared, read_attr, read_bits, read_bool, read_head, read_int_octets, read_length,
    read_oid, read_time, read_tlv, read_u128, split_pieces, split_step, tags,
};
use std::alloc::Global;

// A test is proved too. The cheapest one has rows that a function joins into one truth value, and
// an `assert!` on that.

fn is_short(octets: &[u8]) -> bool {
    read_tlv(octets) == Err(DerFault::Short)
}

fn is_malformed(octets: &[u8]) -> bool {
    read_tlv(octets) == Err(DerFault::Malformed)
}

// The length octets of X.690, section 8.1.3, and a tag of more than one octet.
fn elements_are_read() -> bool {
    let (tag, head, end) = (0x05, 2, 2);
    is_short(b"")
        && is_short(b"\x30")
        && is_short(b"\x30\x81\x80")
        && is_short(b"\x30\x03\x00")
        && is_malformed(b"\x30\x81\x05")
        && is_malformed(b"\x30\x80")
        && is_malformed(b"\x30\x82\x00")
        && is_malformed(b"\x30\x85")
        && is_malformed(b"\x1f")
        && read_tlv(b"\x05\x00\xff") == Ok(Tlv { tag, head, end })
}

// The head of a SEQUENCE of 2^24 octets that aren't there.
fn heads_are_read() -> bool {
    let rest: &[u8] = b"\x06";
    read_head(b"\x30\x84\x01\x00\x00\x00\x06") == Ok((0x30, 0x0100_0000, rest))
        && read_length(b"\x81\x80\x06") == Ok((128, rest))
}

// Two elements, and a third one whose contents are cut off.
fn elements_are_passed() -> bool {
    let octets: &[u8] = b"\x02\x01\x07\x04\x00\x30\x02\x05";
    let mut cursor = Cursor::new(octets);
    cursor.is_at(tags::INTEGER)
        && cursor.tagged(tags::OCTET_STRING).is_none()
        && cursor.next() == Some((tags::INTEGER, &octets[2..3], &octets[..3]))
        && cursor.tagged(tags::OCTET_STRING) == Some(&octets[5..5])
        && cursor.next().is_none()
        && cursor.rest() == &octets[5..]
        && !cursor.at_end()
        && Cursor::new(&octets[3..]).whole(tags::OCTET_STRING) == Some(&octets[3..5])
}

const GREATEST: &[u8] = b"\x00\xff\xff\xff\xff\xff\xff\xff\xff\xff\xff\xff\xff\xff\xff\xff\xff";

const TOO_GREAT: &[u8] = b"\x01\x00\x00\x00\x00\x00\x00\x00\x00\x00\x00\x00\x00\x00\x00\x00\x00";

// X.690, section 8.3.
fn numbers_are_read() -> bool {
    read_u128(b"\x00") == Some(0)
        && read_u128(b"\x00\x80") == Some(128)
        && read_u128(GREATEST) == Some(u128::MAX)
        && read_u128(b"").is_none()
        && read_u128(b"\x00\x7f").is_none()
        && read_u128(b"\x80").is_none()
        && read_u128(TOO_GREAT).is_none()
        && read_int_octets(b"\xff\x7f") == Some(b"\xff\x7f".as_slice())
}

// X.690, section 8.6.4.2, spells 0A3B5F291CD as 04 0A 3B 5F 29 1C D0.
fn bits_are_read() -> bool {
    let bits: &[u8] = b"\x04\x0a\x3b\x5f\x29\x1c\xd0";
    read_bits(bits) == Some((4, &bits[1..]))
        && read_bool(b"\xff") == Some(true)
        && read_bool(b"\x00") == Some(false)
}

fn is_kept(octets: &[u8]) -> bool {
    match (Octets64::new(octets), Octets64::some(octets)) {
        (Some(any), Some(some)) => any == some && any.octets() == octets,
        _ => false,
    }
}

fn is_identifier(contents: &[u8]) -> bool {
    match (read_oid(contents), read_oid(b"\x2a\x03")) {
        (Some(id), Some(other)) => id.octets() == contents && id != other,
        _ => false,
    }
}

// X.690, section 8.19.2: a subidentifier that is cut off, and those that begin with 80.
fn identifiers_are_read() -> bool {
    is_kept(b"\x00")
        && is_identifier(b"\x88\x37\x03")
        && read_oid(b"").is_none()
        && read_oid(b"\x80\x01").is_none()
        && read_oid(b"\x2a\x80\x01").is_none()
        && read_oid(b"\xff").is_none()
}

fn is_time(form: TimeForm, tag: u8, contents: &[u8], digits: u64) -> bool {
    match (Time::read(tag, contents), Moment::new(digits)) {
        (Some(time), Some(moment)) => {
            time == Time { form, moment } && read_time(tag, contents) == Some(moment)
        }
        _ => false,
    }
}

fn is_before(digits: u64, later: u64) -> bool {
    match (Moment::new(digits), Moment::new(later)) {
        (Some(moment), Some(after)) => moment < after && moment.digits() == digits,
        _ => false,
    }
}

// The same moment in either form, and the first one that a UTCTime spells (RFC 5280, section
// 4.1.2.5).
fn times_are_read() -> bool {
    is_time(TimeForm::Utc, 0x17, b"251201000000Z", 20_251_201_000_000)
        && is_time(
            TimeForm::Generalized,
            0x18,
            b"20251201000000Z",
            20_251_201_000_000,
        )
        && is_time(TimeForm::Utc, 0x17, b"500101000000Z", 19_500_101_000_000)
        && is_before(19_991_231_235_959, 20_000_101_000_000)
}

// The contentType of a firmware package, and attributes of type 1.2 with other values.
const CONTENT_TYPE: &[u8] = b"\x30\x1a\x06\x09\x2a\x86\x48\x86\xf7\x0d\x01\x09\x03\x31\x0d\
    \x06\x0b\x2a\x86\x48\x86\xf7\x0d\x01\x09\x10\x01\x10";

// The size of an attribute's values in octets, and the tag of its one value.
fn is_attribute(element: &[u8], size: usize, tag: Option<u8>) -> bool {
    match read_attr(element) {
        Some(attribute) => {
            let found = match attribute.one_value() {
                Some((found, _, _)) => Some(found),
                None => None,
            };
            attribute.values.len() == size && found == tag
        }
        None => false,
    }
}

fn attributes_are_read() -> bool {
    is_attribute(CONTENT_TYPE, 13, Some(0x06))
        && is_attribute(b"\x30\x05\x06\x01\x2a\x31\x00", 0, None)
        && is_attribute(b"\x30\x09\x06\x01\x2a\x31\x04\x05\x00\x05\x00", 4, None)
        && read_attr(b"\x30\x05\x06\x01\x2a\x31\x00\x00").is_none()
}

// The codes by the numbers of RFC 4108, section 4.1.3, for each condition in turn.
const CODES: [u8; 41] = [
    1, 33, 2, 2, 3, 4, 22, 24, 4, 9, 3, 5, 3, 6, 8, 7, 12, 13, 7, 16, 15, 10, 5, 5, 5, 14, 5, 11,
    15, 27, 29, 30, 28, 31, 32, 36, 34, 33, 99, 99, 99,
];

fn has_code(number: u8, code: u8) -> bool {
    match Condition::new(number) {
        Some(condition) => condition.number() == number && condition.code() == code,
        None => false,
    }
}

fn conditions_have_their_codes() -> bool {
    for number in 1..=41 {
        if !has_code(number, CODES[usize::from(number) - 1]) {
            return false;
        }
    }
    Condition::numbered(41).error() == LoadErrorCode::OtherError
}

#[test]
fn values_are_read(rt: HostRuntime) {
    assert!(rt; elements_are_read());
    assert!(rt; heads_are_read());
    assert!(rt; elements_are_passed());
    assert!(rt; numbers_are_read());
    assert!(rt; bits_are_read());
    assert!(rt; identifiers_are_read());
    assert!(rt; times_are_read());
    assert!(rt; attributes_are_read());
    assert!(rt; conditions_have_their_codes());
}

// A long length where the short form would do (X.690, section 10.1).
fn long_length_is_the_rest() -> bool {
    let mut splitter = Splitter::new();
    split_step(&mut splitter, b"\x30") == Step::More
        && split_step(&mut splitter, b"\x81") == Step::More
        && split_step(&mut splitter, b"\x05") == Step::Rest
        && split_step(&mut splitter, b"") == Step::More
        && split_step(&mut splitter, b"\x30\x00") == Step::Rest
}

// Two items in a piece, which is handed in again from the first one's end on.
fn items_end_in_a_piece() -> bool {
    let mut splitter = Splitter::new();
    split_step(&mut splitter, b"\x30\x00\x30") == Step::Ends(2)
        && split_step(&mut splitter, b"") == Step::More
        && declared(&splitter) == Some(0)
        && split_step(&mut splitter, b"\x30") == Step::More
        && declared(&splitter).is_none()
        && split_step(&mut splitter, b"\x02\x05") == Step::More
        && declared(&splitter) == Some(2)
        && split_step(&mut splitter, b"\x00\xff\xff") == Step::Ends(1)
}

fn are_items(alloc: Global, pieces: &[&[u8]]) -> bool {
    let Ok(items) = split_pieces(alloc, pieces) else {
        return false;
    };
    let [first, second, last] = items.as_slice() else {
        return false;
    };
    first.as_slice() == b"\x30\x03\x01\x02\x03".as_slice()
        && second.as_slice() == b"\x30\x00".as_slice()
        && last.as_slice() == b"\xff".as_slice()
}

// Two SEQUENCEs and one octet (X.690, section 8.9), however they are cut.
fn stream_is_split(alloc: Global) -> bool {
    are_items(alloc, &[b"\x30\x03\x01\x02\x03\x30\x00\xff"])
        && are_items(alloc, &[b"\x30", b"\x03\x01\x02", b"", b"\x03\x30\x00\xff"])
}

fn spells(alloc: Global, contents: &[u8], numbers: &[u128]) -> bool {
    match read_oid(contents) {
        Some(id) => match id.subidentifiers(alloc) {
            Ok(found) => found.as_slice() == numbers,
            Err(_) => false,
        },
        None => false,
    }
}

#[test]
fn stream_and_identifier_are_split(rt: HostRuntime) {
    assert!(rt; long_length_is_the_rest());
    assert!(rt; items_end_in_a_piece());
    assert!(rt; stream_is_split(rt.alloc()));
    // 2.999.3 is the example of X.690, section 8.19.5
    assert!(rt; spells(rt.alloc(), b"\x88\x37\x03", &[1079, 3]));
}
