// Packages and certificates by recipes, signed by keys of which each octet of SEED and ID is the same.
ghost use Rattle.std.specs.Prelude.{◌≡◌, ◌<◌, IfSome};
ghost use Rattle.lms_sign.specs.PublicKeys.{leaf_count, hss_signature_size};

use edge_board::SureBoard;
use key_state::{Leaf, spend};
use lms_sign::{SignKey, sign, signature_size};
use lms_verify::{LmsKind, OtsKind};
use packager::{Unsigned, finish, issue, pack};
use recipe_text::{read_cert_recipe, read_package_recipe};
use std::alloc::Global;

// The most octets of a recipe.
const MOST: usize = 1 << 20;

/// The lines of a certificate under the anchor, and of a signer's under that.
pub const CA: &str = "serial 02\nissuer root\nsubject ca\nfrom 20200101000000\nto 20301231235959\n\
    subjectkey b2\nauthoritykey a1\nca -\nusage certsign\n";

pub const SIGNER: &str =
    "serial 03\nissuer ca\nsubject signer\nfrom 20200101000000\nto 20401231235959\n\
    subjectkey b3\nauthoritykey b2\nusage sign\n";

// The key of this octet.
fn key(octet: u8) -> SignKey
    ensures leaves { leaf_count result ≡ 32 }
{
    SignKey {
        seed: [octet; 32],
        id: [octet; 16],
        kind: LmsKind::H5,
        ots: OtsKind::W4,
    }
}

// The public keys of octets 01 to 05, as `tests/lms_vectors.py` at the top of the repository prints
// them: one level, H5 and W4, and then the identifier and the root of the tree (RFC 8554, sections
// 5.3 and 6.1).
const PUBLIC_KEYS: [&str; 5] = [
    "00000001000000050000000301010101010101010101010101010101\
    66bf6f5816eee4bbf33c50acb480e09b4169ebb533372959bc4315c388e501ac",
    "00000001000000050000000302020202020202020202020202020202\
    6a7a8dcf357f9d7fc7ab24d3ed6a61451633ac5f69296c3ca823247db2329557",
    "00000001000000050000000303030303030303030303030303030303\
    e5cd1a603e7f55fabffd51d1120ffe1ae0dab4fba39938f7535e693f7d41988c",
    "00000001000000050000000304040404040404040404040404040404\
    fffc5b37ed2834e70e618d04ba232c6e3f3efaa5ab3b4a0c42ec4fc947683662",
    "00000001000000050000000305050505050505050505050505050505\
    90c565627fd6ce3cb537d5b31aeef208b218484b10ea20d61caa1e65e56a5298",
];

/// The public key of an octet, as it stands in a certificate.
pub fn public_octets(alloc: Global, octet: u8) -> Option<Vec<u8>> {
    let text = *PUBLIC_KEYS.get(usize::from(octet).checked_sub(1)?)?;
    hex::decode(alloc, text.as_bytes()).ok()
}

// A key's first leaf.
fn first_leaf(alloc: Global) -> Option<Leaf>
    ensures below { IfSome result (λ leaf. leaf < 32) }
{
    match SureBoard::new(alloc, 18) {
        Ok(mut board) => spend(&mut board, 32).ok(),
        Err(_) => None,
    }
}

/// A recipe of these lines, and then one of this word and these octets.
pub fn recipe(alloc: Global, lines: &str, word: &str, octets: &[u8]) -> Option<String> {
    match hex::encode(alloc, octets) {
        Ok(digits) => [lines, word, " ", digits.as_str(), "\n"].concat(alloc).ok(),
        Err(_) => None,
    }
}

// A certificate that is to be signed by one key, of another key, by the recipe's other lines, of which
// one may have constraints.
fn unsigned_certificate(
    alloc: Global,
    above: &SignKey,
    of: u8,
    lines: &str,
    constraint: &str,
) -> Option<Unsigned>
    ensures size { IfSome result (λ unsigned. unsigned.size ≡ hss_signature_size above.now) }
{
    let lines = [lines, constraint].concat(alloc).ok()?;
    let text = recipe(alloc, &lines, "public", &public_octets(alloc, of)?)?;
    if text.len() > MOST {
        return None;
    }
    match read_cert_recipe(alloc, text.as_bytes()) {
        Ok(plan) => issue(alloc, &plan, above).ok(),
        Err(_) => None,
    }
}

/// The certificate, signed.
pub fn certificate(
    alloc: Global,
    above: u8,
    of: u8,
    lines: &str,
    constraint: &str,
) -> Option<Vec<u8>> {
    let leaf = first_leaf(alloc)?;
    let key = key(above);
    let unsigned = unsigned_certificate(alloc, &key, of, lines, constraint)?;
    Some(finish(unsigned, &key, leaf))
}

// The lines of a package recipe with these certificates behind them.
fn with_certificates(alloc: Global, lines: &str, certificates: &[&[u8]]) -> Option<String> {
    let mut text = String::from_str(alloc, lines).ok()?;
    for certificate in certificates {
        text = recipe(alloc, &text, "certificate", certificate)?;
    }
    Some(text)
}

// A package that is to be signed by a key.
fn unsigned_package(
    alloc: Global,
    signer: &SignKey,
    lines: &str,
    certificates: &[&[u8]],
) -> Option<Unsigned>
    ensures size { IfSome result (λ unsigned. unsigned.size ≡ hss_signature_size signer.now) }
{
    let text = with_certificates(alloc, lines, certificates)?;
    if text.len() > MOST {
        return None;
    }
    match read_package_recipe(alloc, text.as_bytes()) {
        Ok(plan) => pack(alloc, &plan, signer).ok(),
        Err(_) => None,
    }
}

/// The package, signed.
pub fn package(alloc: Global, signer: u8, lines: &str, certificates: &[&[u8]]) -> Option<Vec<u8>> {
    let leaf = first_leaf(alloc)?;
    let key = key(signer);
    let unsigned = unsigned_package(alloc, &key, lines, certificates)?;
    Some(finish(unsigned, &key, leaf))
}

/// The signature of a key over two parts of a message.
pub fn signature_of(alloc: Global, signer: u8, first: &[u8], rest: &[u8]) -> Option<Vec<u8>> {
    let leaf = first_leaf(alloc)?;
    let key = key(signer);
    let mut octets = vec![in alloc; 0u8; signature_size(&key)].ok()?;
    sign(&key, leaf, first, rest, &mut octets);
    Some(octets)
}
