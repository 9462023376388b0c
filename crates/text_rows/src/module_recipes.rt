// Recipes of modules, and which line of another text is the first bad one.
use recipe_text::{RecipeFault, read_module_recipe};
use std::alloc::Global;

// A recipe of each kind of line, with two anchors, of which one has constraints: firmwarePackage, and
// that it can be a source (RFC 6010, section 3).
const GOOD: &[u8] =
    b"# a module\nhwtype 1.2.3\nserial 0001\ncapacity 16\ntype 1\ncommunity 1.2.3.100\n\
    key H5 W4 0000000000000000000000000000000000000000000000000000000000000000 00000000000000000000000000000000\n\
    anchor root A1 000000010000000500000003a1a1a1a1a1a1a1a1a1a1a1a1a1a1a1a1a1a1a1a1a1a1a1a1a1a1a1a1a1a1a1a1a1a1a1a1a1a1a1a1a1a1a1a1a1a1a1a1 -\n\
    anchor other A2 000000010000000500000003a1a1a1a1a1a1a1a1a1a1a1a1a1a1a1a1a1a1a1a1a1a1a1a1a1a1a1a1a1a1a1a1a1a1a1a1a1a1a1a1a1a1a1a1a1a1a1a1 \
    300F300D060B2A864886F70D0109100110\n";

// Whether a text has this first bad line, or, of 0, is a module recipe.
fn is_bad_at(alloc: Global, text: &[u8], number: u32) -> bool {
    if text.len() > 1000 {
        return false;
    }
    match read_module_recipe(alloc, text) {
        Ok(_) => number == 0,
        Err(RecipeFault::Bad(bad)) => bad.0 == number,
        Err(RecipeFault::Memory) => false,
    }
}

// A module; half an octet; a serial number that stands twice; capacities that are none; a leading
// zero; and needed lines that are missing.
fn finds_the_first_bad_line(alloc: Global) -> bool {
    is_bad_at(alloc, GOOD, 0)
        && is_bad_at(alloc, b"hwtype 1.2.3\nserial 0\n", 2)
        && is_bad_at(alloc, b"serial 0001\n\nserial 0001\n", 3)
        && is_bad_at(alloc, b"capacity 0\n", 1)
        && is_bad_at(alloc, b"capacity 4096\ncapacity 4097\n", 2)
        && is_bad_at(alloc, b"type 1\ntype 1\ntype 01\n", 3)
        && is_bad_at(alloc, b"hwtype 1.2.3\nserial 0001\ncapacity 16\n", 4)
}

// What an anchor's key ends in: I and T[1] of its first level.
const I_AND_ROOT: &[u8] =
    b"a1a1a1a1a1a1a1a1a1a1a1a1a1a1a1a1a1a1a1a1a1a1a1a1a1a1a1a1a1a1a1a1a1a1a1a1a1a1a1a1a1a1a1a1a1a1a1a1";

// Whether this line is the first bad one of an anchor's line, with these octets before and behind that
// end of its key.
fn anchor_is_bad_at(alloc: Global, before: &[u8], behind: &[u8], number: u32) -> bool {
    let mut text = Vec::new(alloc);
    text.extend_from_slice(before).is_ok()
        && text.extend_from_slice(I_AND_ROOT).is_ok()
        && text.extend_from_slice(behind).is_ok()
        && is_bad_at(alloc, &text, number)
}

const ANCHOR: &[u8] = b"anchor root A1 000000010000000500000003";

// A key of a kind that isn't known, no constraints that are a text, a space too many, and an anchor.
fn tells_anchors(alloc: Global) -> bool {
    anchor_is_bad_at(
        alloc,
        b"anchor root A1 000000010000000A00000003",
        b" -\n",
        1,
    ) && anchor_is_bad_at(alloc, ANCHOR, b" 3000\n", 1)
        && anchor_is_bad_at(alloc, ANCHOR, b" - \n", 1)
        && anchor_is_bad_at(alloc, ANCHOR, b" -\n", 2)
}

#[test]
fn reads_module_recipes(rt: HostRuntime) {
    assert!(rt; finds_the_first_bad_line(rt.alloc()));
    assert!(rt; tells_anchors(rt.alloc()));
}
