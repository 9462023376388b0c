ghost use Rattle.std.specs.Prelude.{◌≡◌, ◌<◌, option_map};
ghost use Rattle.der_core.specs.BitString.{bits_contents, IsBits};
ghost use Rattle.der_core.specs.LeafReading.{are_bits, bits_of};
ghost use Rattle.der_core.specs.Reads.{Reads, Answers};

// Whether octets have so many unused bits at their end, all of them zero.
#[tactic(auto, unfolding(crate::specs::LeafReading::are_bits))]
fn are_bits(unused: u8, octets: &[u8]) -> bool
    ensures { result ≡ are_bits unused octets.now }
{
    match octets {
        [] => unused == 0,
        [.., last] => unused < 8 && *last % (1 << unused) == 0,
    }
}

#[tactic(auto, unfolding(crate::specs::LeafReading::bits_of))]
fn bits(contents: &[u8]) -> Option<(u8, &[u8])>
    ensures { Answers (λ bits. (bits.0, bits.1.now)) result (bits_of contents.now) }
{
    match contents {
        [unused, octets @ ..] if are_bits(*unused, octets) => Some((*unused, octets)),
        _ => None,
    }
}

/// The bits that the contents of a BIT STRING spell: how many bits of the last octet are not
/// used, 0 to 7, and the octets (X.690, sections 8.6 and 11.2). The unused bits are zero.
pub fn read_bits(contents: &[u8]) -> Option<(u8, &[u8])>
    ensures spelled { Reads bits_contents IsBits contents.now
        (option_map (λ bits. (bits.0, bits.1.now)) result) }
    ensures exact { Answers (λ bits. (bits.0, bits.1.now)) result (bits_of contents.now) }
{
    bits(contents)
}
