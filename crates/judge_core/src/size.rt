// Whether an item is one element and not too long, by the conditions 1 and 2.
ghost use Rattle.std.specs.Prelude.{◌≡◌, ℕ, List};
ghost use Rattle.judge_core.specs.Conditions.{most_contents, size_conditions};
ghost use Rattle.judge_core.specs.Steps.{BeginsLike, Tells};

use der_core::{Condition, read_head, tags};

/// How many octets the contents of an item have at most; this project's own.
pub const MOST_CONTENTS: u32 = 17_825_792;

/// The first of the conditions 1 and 2 that an item fails which begins as these octets do, and has so
/// many more: it is one SEQUENCE, with at most `MOST_CONTENTS` octets of contents. None where both
/// hold.
pub fn first_size_failure(octets: &[u8], more: u32) -> Option<Condition>
    ensures told { (item : List ℕ) → BeginsLike octets.now more item
        → Tells result (size_conditions item) }
    ensures limit { MOST_CONTENTS ≡ most_contents }
{
    let Ok((tag, size, rest)) = read_head(octets) else {
        return Some(Condition::numbered(1));
    };
    if tag != tags::SEQUENCE || rest.len() as u64 + u64::from(more) != u64::from(size) {
        return Some(Condition::numbered(1));
    }
    if size > MOST_CONTENTS {
        return Some(Condition::numbered(2));
    }
    None
}
