// Recipes of packages and certificates, and which line of another text is the first bad one.
use recipe_text::{RecipeFault, read_cert_recipe, read_package_recipe};
use std::alloc::Global;

// Whether a text has this first bad line, or, of 0, is a package recipe.
fn package_is_bad_at(alloc: Global, text: &[u8], number: u32) -> bool {
    if text.len() > 1000 {
        return false;
    }
    match read_package_recipe(alloc, text) {
        Ok(_) => number == 0,
        Err(RecipeFault::Bad(bad)) => bad.0 == number,
        Err(RecipeFault::Memory) => false,
    }
}

// The same of certificate recipes.
fn cert_is_bad_at(alloc: Global, text: &[u8], number: u32) -> bool {
    if text.len() > 1000 {
        return false;
    }
    match read_cert_recipe(alloc, text) {
        Ok(_) => number == 0,
        Err(RecipeFault::Bad(bad)) => bad.0 == number,
        Err(RecipeFault::Memory) => false,
    }
}

const PACKAGE: &[u8] = b"package 1.2.3 7\ntarget 1.2.3\nsigner A1\nimage 68656c6C6F\n";

// A package; a stale value of another kind than the name, and a second one; a needed line that is
// missing; a leading zero; and nothing.
fn finds_the_first_bad_line_of_a_package(alloc: Global) -> bool {
    package_is_bad_at(alloc, PACKAGE, 0)
        && package_is_bad_at(alloc, b"package 1.2.3 7\ntarget 1.2.3\nlegacystale 41\n", 3)
        && package_is_bad_at(alloc, b"stale 5\n#\nlegacystale 41\n", 3)
        && package_is_bad_at(alloc, b"package 1.2.3 7\ntarget 1.2.3\n", 3)
        && package_is_bad_at(alloc, b"package 1.2.3 07\n", 1)
        && package_is_bad_at(alloc, b"", 1)
}

// Words that are no identifiers, and two that are.
fn tells_identifiers(alloc: Global) -> bool {
    package_is_bad_at(alloc, b"target 1.40\n", 1)
        && package_is_bad_at(alloc, b"target 3.1\n", 1)
        && package_is_bad_at(alloc, b"target 1.02.3\n", 1)
        && package_is_bad_at(alloc, b"target 1\n", 1)
        && package_is_bad_at(alloc, b"target 1.39\ntarget 2.999.3\n", 3)
}

// What a certificate must say, with the key of one level of H5 and W4.
const CERT: &[u8] =
    b"serial 01\nissuer root\nsubject leaf\nfrom 20250101000000\nto 20251231235959\n\
    public 000000010000000500000003a1a1a1a1a1a1a1a1a1a1a1a1a1a1a1a1a1a1a1a1a1a1a1a1a1a1a1a1a1a1a1a1a1a1a1a1a1a1a1a1a1a1a1a1a1a1a1a1\n";

// A certificate; a kind of line that stands twice; a serial number that is no INTEGER, and a moment
// that is none; and a needed line that is missing.
fn finds_the_first_bad_line_of_a_certificate(alloc: Global) -> bool {
    cert_is_bad_at(alloc, CERT, 0)
        && cert_is_bad_at(alloc, b"serial 01\nissuer root\nca -\nca 0\n", 4)
        && cert_is_bad_at(alloc, b"serial 0001\n", 1)
        && cert_is_bad_at(alloc, b"from 20251301000000\n", 1)
        && cert_is_bad_at(alloc, b"usage both\nhardware 1.2.3 0001\n", 3)
}

#[test]
fn reads_recipes_of_packages_and_certificates(rt: HostRuntime) {
    assert!(rt; finds_the_first_bad_line_of_a_package(rt.alloc()));
    assert!(rt; tells_identifiers(rt.alloc()));
    assert!(rt; finds_the_first_bad_line_of_a_certificate(rt.alloc()));
}
