ghost use Rattle.std.specs.Prelude.{◌≡◌};
ghost use Rattle.der_core.specs.Boolean.{boolean_contents};
ghost use Rattle.der_core.specs.LeafReading.{boolean_of};
ghost use Rattle.der_core.specs.Reads.{Reads, Answers};

#[tactic(auto, unfolding(crate::specs::LeafReading::boolean_of))]
fn boolean(contents: &[u8]) -> Option<bool>
    ensures { Answers (λ value. value) result (boolean_of contents.now) }
{
    match contents {
        [0x00] => Some(false),
        [0xff] => Some(true),
        _ => None,
    }
}

/// The truth value that the contents of a BOOLEAN spell (X.690, sections 8.2 and 11.1).
pub fn read_bool(contents: &[u8]) -> Option<bool>
    ensures spelled { Reads boolean_contents (λ _. Unit {0}) contents.now result }
    ensures exact { Answers (λ value. value) result (boolean_of contents.now) }
{
    boolean(contents)
}
