// Key recipes, and which line of another text is the first bad one.
use lms_verify::{LmsKind, OtsKind};
use recipe_text::read_key_recipe;
use std::alloc::Global;

const SEED_AND_ID: &[u8] = b"0101010101010101010101010101010101010101010101010101010101010101 \
    01010101010101010101010101010101";

// Whether a text has this first bad line, or, of 0, is a key recipe.
fn is_bad_at(text: &[u8], number: u32) -> bool {
    if text.len() > 1000 {
        return false;
    }
    match read_key_recipe(text) {
        Ok(_) => number == 0,
        Err(bad) => bad.0 == number,
    }
}

// The same of a text in which SEED and ID stand between these octets.
fn key_is_bad_at(alloc: Global, before: &[u8], behind: &[u8], number: u32) -> bool {
    let mut text = Vec::new(alloc);
    text.extend_from_slice(before).is_ok()
        && text.extend_from_slice(SEED_AND_ID).is_ok()
        && text.extend_from_slice(behind).is_ok()
        && is_bad_at(&text, number)
}

// Key lines, the third among lines that are skipped, and such lines before a kind that none signs with;
// two texts without the last 0A; and other kinds, and spaces where none may be.
fn tells_a_key_line(alloc: Global) -> bool {
    key_is_bad_at(alloc, b"key H5 W4 ", b"\n", 0)
        && key_is_bad_at(alloc, b"key H10 W1 ", b"\n", 0)
        && key_is_bad_at(alloc, b"# \xff\n\nkey H5 W2 ", b"\n#\xff\n\n", 0)
        && key_is_bad_at(alloc, b"# \xff\n\nkey H15 W4 ", b"\n", 3)
        && key_is_bad_at(alloc, b"\nkey H5 W8 ", b"", 2)
        && key_is_bad_at(alloc, b"key H5 W4 ", b"\n#", 2)
        && key_is_bad_at(alloc, b"key h5 W4 ", b"\n", 1)
        && key_is_bad_at(alloc, b"key W4 H5 ", b"\n", 1)
        && key_is_bad_at(alloc, b"key  H5 W4 ", b"\n", 1)
        && key_is_bad_at(alloc, b"key H5 W4 ", b" \n", 1)
}

// A comment and an empty line, and a second key line.
const AGAIN: &[u8] =
    b"\n#\n\nkey H5 W4 0101010101010101010101010101010101010101010101010101010101010101 \
    01010101010101010101010101010101\n";

// Texts without a key line, with two, and with another line before it.
fn finds_the_first_bad_line(alloc: Global) -> bool {
    is_bad_at(b"", 1)
        && is_bad_at(b"#", 1)
        && is_bad_at(b"# none\n\n", 3)
        && key_is_bad_at(alloc, b"key H5 W4 ", AGAIN, 4)
        && key_is_bad_at(alloc, b"more\nkey H5 W4 ", b"\n", 1)
}

// Hex digits of both cases, mixed.
const MIXED: &[u8] = b"key H10 W8 aAbBcCdDeEfF0011aAbBcCdDeEfF0011aAbBcCdDeEfF0011aAbBcCdDeEfF0011 \
    aAbBcCdDeEfF0011aAbBcCdDeEfF0011\n";

// The parts of the key that it says.
fn reads_the_parts_of_a_key() -> bool {
    let eight = b"\xaa\xbb\xcc\xdd\xee\xff\x00\x11";
    match read_key_recipe(MIXED) {
        Ok(key) => {
            key.seed.starts_with(eight)
                && key.id.starts_with(eight)
                && key.kind == LmsKind::H10
                && key.ots == OtsKind::W8
        }
        Err(_) => false,
    }
}

#[test]
fn reads_key_recipes(rt: HostRuntime) {
    assert!(rt; tells_a_key_line(rt.alloc()));
    assert!(rt; finds_the_first_bad_line(rt.alloc()));
    assert!(rt; reads_the_parts_of_a_key());
}
