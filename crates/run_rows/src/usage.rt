// Words that are no command.
use crate::row::answers_hex;
use fwload_top::Status;
use std::alloc::Global;

// Whether the words are Usage, over the text of an identifier.
fn is_usage(alloc: Global, words: &str) -> bool {
    answers_hex(alloc, words, "30050403414243", Status::Usage, "")
}

fn others_are_usage(a: Global) -> bool {
    is_usage(a, "")
        && is_usage(a, "f")
        && is_usage(a, "f ident now")
        && is_usage(a, "f loads 20250101000000")
        && is_usage(a, "f make now")
        && is_usage(a, "f list now")
        && is_usage(a, "f explain")
        && is_usage(a, "f explain 20251301000000")
        && is_usage(a, "f rehearse")
        && is_usage(a, "f rehearse 20250101000000 now")
        && is_usage(a, "f rehearse 20251301000000")
        && is_usage(a, "f rehearse 20250101240000")
        && is_usage(a, "f rehearse 2025010100000")
        && is_usage(a, "f rehearse +2025010100000")
        && is_usage(a, "f rehearse 20250101000000Z")
}

#[test]
fn other_words_are_usage(rt: HostRuntime) {
    assert!(rt; others_are_usage(rt.alloc()));
}
