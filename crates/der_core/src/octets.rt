ghost use Rattle.std.specs.Prelude.{◌≡◌, ◌<◌, ◌≤◌, ◌-◌, ◌++◌, length, replicate, SomeIff};
ghost use Rattle.der_core.specs.Reading.{octets_of};
ghost use Rattle.der_core.specs.Reads.{Answers};

use std::marker::Model;

/// At most 64 octets, kept in place and seen as their list.
#[derive(Clone, Copy, Debug)]
pub struct Octets64 {
    len: usize,

    // The octets, and then 00 to the end.
    bytes: [u8; 64],
}

impl Model for Octets64 {
    ghost use Rattle.std.specs.Prelude.{List, ℕ, ◌≡◌, ◌≤◌, ◌-◌, ◌++◌, length, take, replicate};

    ghost Value = { List ℕ };

    ghost view = { λ a. take a.len a.bytes };

    ghost invariant = { λ a. (a.len ≤ 64) × (length a.bytes ≡ 64)
        × (a.bytes ≡ take a.len a.bytes ++ replicate (64 - a.len) 0) };

    ghost inverse = { λ v. record { len = length v; bytes = v ++ replicate (64 - length v) 0 } };
}

impl Octets64 {
    /// The octets, where there are at most 64 of them.
    pub fn new(octets: &[u8]) -> Option<Octets64>
        ensures kept { SomeIff result (length octets.now ≤ 64) octets.now }
    {
        if octets.len() > 64 {
            return None;
        }
        Some(Octets64 {
            len: octets.len(),
            bytes: padded(octets),
        })
    }

    /// The octets, where there are 1 to 64 of them.
    #[tactic(auto, unfolding(crate::specs::Reading::octets_of))]
    pub fn some(octets: &[u8]) -> Option<Octets64>
        ensures kept { SomeIff result
            ((0 < length octets.now) × (length octets.now ≤ 64)) octets.now }
        ensures exact { Answers (λ octets. octets) result (octets_of octets.now) }
    {
        if octets.is_empty() {
            return None;
        }
        Octets64::new(octets)
    }

    /// The octets that are kept.
    pub fn octets(&self) -> &[u8]
        ensures value { result.now ≡ self.now }
        ensures size { length self.now ≤ 64 }
    {
        &self.bytes[..self.len]
    }
}

impl PartialEq for Octets64 {
    ghost use Rattle.std.specs.Prelude.{nat_eq};
    ghost use Rattle.std.specs.Cmp.Lexicographic.{pointwise};
    ghost use Rattle.std.specs.Cmp.{partial_equiv_from_equiv};
    ghost use Rattle.std.specs.Cmp.Lexicographic.{nat_list_eq_equiv};

    ghost eq = { λ a b. pointwise nat_eq a b };

    ghost laws = { partial_equiv_from_equiv nat_list_eq_equiv };

    // By the octets that are kept.
    fn eq(&self, other: &Octets64) -> bool {
        self.octets() == other.octets()
    }
}

impl Eq for Octets64 {
    ghost use Rattle.std.specs.Cmp.Lexicographic.{nat_list_eq_equiv};

    ghost laws = { nat_list_eq_equiv };
}

// The octets, and then 00 up to 64 octets.
fn padded(octets: &[u8]) -> [u8; 64]
    requires { length octets.now ≤ 64 }
    ensures { result ≡ octets.now ++ replicate (64 - length octets.now) 0 }
{
    let mut bytes = [0; 64];
    bytes[..octets.len()].copy_from_slice(octets);
    bytes
}
