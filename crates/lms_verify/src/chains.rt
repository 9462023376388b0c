ghost use Rattle.std.specs.Prelude.{◌≡◌, ℕ, ◌+◌, ◌≤◌, List, ◌∷◌, ◌++◌, length};
ghost use Rattle.lms_verify.specs.Digits.{u16str, u32str, u8str};
ghost use Rattle.lms_verify.specs.OneTime.{chain};
ghost use Rattle.sha2.specs.Sha256.{sha256};

use sha2::{Digest, Sha256};

// Where the octets of a chain's hash have q, the number i of the chain, the place j, and the value.
// They are 55, so that each step is one block of SHA-256.
const Q: usize = 16;

const CHAIN: usize = 20;

const PLACE: usize = 22;

const VALUE: usize = 23;

// Writes the part over the octets from `at` on.
fn put(octets: &mut [u8; 55], at: usize, part: &[u8])
    requires { at + length part.now ≤ 55 }
    ensures { (front middle rest : List ℕ) → length front ≡ at → length middle ≡ length part.now
        → octets.old ≡ front ++ (middle ++ rest) → octets.new ≡ front ++ (part.now ++ rest) }
{
    octets[at..at + part.len()].copy_from_slice(part);
}

// The octets that a step at place 0 hashes.
fn step_octets(id: &[u8; 16], q: u32, i: u16, value: &[u8]) -> [u8; 55]
    requires { length value.now ≡ 32 }
    ensures { result ≡ id.now ++ u32str q ++ u16str i ++ u8str 0 ++ value.now }
{
    let mut octets = [0u8; 55];
    put(&mut octets, 0, id);
    put(&mut octets, Q, &q.to_be_bytes());
    put(&mut octets, CHAIN, &i.to_be_bytes());
    put(&mut octets, VALUE, value);
    octets
}

// The step at place `j`, in place: its digest is the next value.
fn take_step(octets: &mut [u8; 55], j: u8)
    ensures { (front value : List ℕ) (k : ℕ) → length front ≡ 22 → octets.old ≡ front ++ k ∷ value
        → octets.new ≡ front ++ j ∷ sha256 (front ++ j ∷ value) }
{
    octets[PLACE] = j;
    let digest = Sha256::digest(&*octets);
    put(octets, VALUE, &digest);
}

/// Chain `i` of leaf `q` from place `from` to place `to`: the value after the steps `from` to `to - 1`,
/// each of one block of SHA-256 (RFC 8554, sections 4.3, 4.5 and 4.6).
pub fn chain(id: &[u8; 16], q: u32, i: u16, from: u8, to: u8, value: &[u8]) -> [u8; 32]
    requires value_size { length value.now ≡ 32 }
    ensures value { result ≡ chain id.now q i from to value.now }
{
    let mut octets = step_octets(id, q, i, value);
    for j in from..to {
        take_step(&mut octets, j);
    }
    let mut end = [0u8; 32];
    end.copy_from_slice(&octets[VALUE..]);
    end
}
