ghost use Rattle.std.specs.Prelude.{◌≡◌, option_map};
ghost use Rattle.der_core.specs.Integer.{IsInteger};
ghost use Rattle.der_core.specs.LeafReading.{integer_of};
ghost use Rattle.der_core.specs.Reads.{Reads, Answers};

#[tactic(auto, unfolding(crate::specs::LeafReading::integer_of))]
fn integer(contents: &[u8]) -> Option<&[u8]>
    ensures { Answers (λ octets. octets.now) result (integer_of contents.now) }
{
    match contents {
        [] => None,
        [0x00, 0x00..=0x7f, ..] => None,
        [0xff, 0x80..=0xff, ..] => None,
        _ => Some(contents),
    }
}

/// The contents of an INTEGER or an ENUMERATED, as they stand, where no fewer octets spell their
/// number (X.690, sections 8.3 and 8.4). The number may be negative, and of any size.
pub fn read_int_octets(contents: &[u8]) -> Option<&[u8]>
    ensures spelled { Reads (λ octets. octets) IsInteger contents.now
        (option_map (λ octets. octets.now) result) }
    ensures exact { Answers (λ octets. octets.now) result (integer_of contents.now) }
{
    integer(contents)
}
