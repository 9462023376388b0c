ghost use Rattle.std.specs.Prelude.{◌≡◌, ◌↔◌, ◌<◌, ◌^◌, SomeIff, IsTrue, is_some, nat_eq, Some};
ghost use Rattle.std.specs.Prelude.{IfOk, IfSome};
ghost use Rattle.der_core.specs.Objects.{IsOid, AreSmall, oid_contents};
ghost use Rattle.der_core.specs.Reading.{subidentifier_step, subidentifiers_of, oid_of};
ghost use Rattle.der_core.specs.Reads.{Answers};

use crate::octets::Octets64;
use std::alloc::{AllocError, Global};
use std::marker::Model;

/// An object identifier, seen as its 1 to 64 contents octets (X.690, section 8.19).
#[derive(Clone, Copy, Debug)]
pub struct Oid {
    contents: Octets64,
}

impl Model for Oid {
    ghost use Rattle.std.specs.Prelude.{List, ℕ};
    ghost use Rattle.der_core.specs.Objects.{IsOid};

    ghost Value = { List ℕ };

    ghost view = { λ a. a.contents };

    ghost invariant = { λ a. IsOid a.contents };

    ghost inverse = { λ v. record { contents = v } };
}

impl Oid {
    /// The contents octets, without tag and length.
    pub fn octets(&self) -> &[u8]
        ensures value { result.now ≡ self.now }
        ensures spelled { IsOid self.now }
    {
        self.contents.octets()
    }

    /// The subidentifiers that the octets spell, the first of them 40a + b for the first two
    /// components a and b (X.690, sections 8.19.2 and 8.19.4).
    pub fn subidentifiers(&self, alloc: Global) -> Result<Vec<u128>, AllocError>
        ensures spelled { IfOk result (λ numbers.
            AreSmall numbers.items × (self.now ≡ oid_contents numbers.items)) }
        ensures exact { IfOk result (λ numbers. subidentifiers_of self.now ≡ Some numbers.items) }
    {
        subidentifiers(alloc, self.octets())
    }
}

impl PartialEq for Oid {
    ghost use Rattle.std.specs.Prelude.{nat_eq};
    ghost use Rattle.std.specs.Cmp.Lexicographic.{pointwise};
    ghost use Rattle.std.specs.Cmp.{partial_equiv_from_equiv};
    ghost use Rattle.std.specs.Cmp.Lexicographic.{nat_list_eq_equiv};

    ghost eq = { λ a b. pointwise nat_eq a b };

    ghost laws = { partial_equiv_from_equiv nat_list_eq_equiv };

    // By the octets.
    fn eq(&self, other: &Oid) -> bool {
        self.octets() == other.octets()
    }
}

impl Eq for Oid {
    ghost use Rattle.std.specs.Cmp.Lexicographic.{nat_list_eq_equiv};

    ghost laws = { nat_list_eq_equiv };
}

/// The identifier with these contents. None where they are no whole subidentifiers in their fewest
/// octets, one of them is 2^128 or more, or there are 0 or more than 64 octets.
#[tactic(auto, using(crate::proofs::Objects::oid_again))]
pub fn read_oid(contents: &[u8]) -> Option<Oid>
    ensures found { SomeIff result (IsOid contents.now) contents.now }
    ensures exact { Answers (λ id. id) result (oid_of contents.now) }
{
    if !is_identifier(contents) {
        return None;
    }
    let octets = Octets64::new(contents)?;
    Some(Oid { contents: octets })
}

// Whether the octets are an identifier's contents.
fn is_identifier(contents: &[u8]) -> bool
    ensures { IsTrue result ↔ IsOid contents.now }
{
    reads_as_identifier(contents)
}

// The same, with the reading alone.
#[tactic(auto, unfolding(crate::specs::Reading::oid_of))]
fn reads_as_identifier(contents: &[u8]) -> bool
    ensures { result ≡ is_some (oid_of contents.now) }
{
    are_subidentifiers(contents) && !contents.is_empty() && contents.len() <= 64
}

// Whether the octets are whole subidentifiers below 2^128, each in its fewest octets.
fn are_subidentifiers(octets: &[u8]) -> bool
    ensures { result ≡ is_some (subidentifiers_of octets.now) }
{
    let mut number = 0;
    for octet in octets {
        match next_number(number, *octet) {
            Some(next) => number = next,
            None => return false,
        }
    }
    number == 0
}

// The subidentifiers that an identifier's contents spell.
fn subidentifiers(alloc: Global, octets: &[u8]) -> Result<Vec<u128>, AllocError>
    requires { IsOid octets.now }
    ensures { IfOk result (λ numbers. subidentifiers_of octets.now ≡ Some numbers.items) }
{
    let mut numbers = Vec::new(alloc);
    let mut number: u128 = 0;
    for octet in octets {
        let Some(next) = next_number(number, *octet) else {
            unreachable!();
        };
        if *octet < 128 {
            numbers.push(number * 128 + *octet as u128)?;
        }
        number = next;
    }
    Ok(numbers)
}

// What the next octet makes of the number so far of a subidentifier: 0 at its last octet.
// None where the number would not be below 2^128, or begins with a digit 0.
#[tactic(auto, unfolding(crate::specs::Reading::subidentifier_step))]
fn next_number(number: u128, octet: u8) -> Option<u128>
    ensures exact { Answers (λ n. n) result (subidentifier_step number octet) }
    ensures small { IfSome result (λ _. number < 2 ^ 121) }
{
    if number == 0 && octet == 128 || number > u128::MAX / 128 {
        None
    } else if octet < 128 {
        Some(0)
    } else {
        Some(number * 128 + (octet - 128) as u128)
    }
}
