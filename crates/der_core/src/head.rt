ghost use Rattle.std.specs.Prelude.{◌≡◌, ◌++◌, ◌<◌, ◌^◌, IfOk, IfErr, MatchResult, Ok, Err};
ghost use Rattle.der_core.specs.Element.{length_octets};
ghost use Rattle.der_core.specs.Head.{IsHead, IsNoHead, IsNoLength, head_octets, head_at};
ghost use Rattle.der_core.specs.Reading.{length_at};

use crate::fault::DerFault;
use crate::length::split_length;

/// The length at the front of the octets, below 2^32, and what follows it (X.690, sections 8.1.3
/// and 10.1). `Short` where more octets can complete a length, `Malformed` where none begins so.
pub fn read_length(bytes: &[u8]) -> Result<(u32, &[u8]), DerFault>
    ensures found { IfOk result (λ x.
        (x.0 < 2 ^ 32) × (bytes.now ≡ length_octets x.0 ++ x.1.now)) }
    ensures fault { IfErr result (λ fault. IsNoLength fault bytes.now) }
    ensures exact { MatchResult result
        (λ x. length_at bytes.now ≡ Ok (x.0, x.1.now)) (λ e. length_at bytes.now ≡ Err e) }
{
    split_length(bytes)
}

/// The head at the front of the octets: tag, number of contents octets, and what follows the head
/// (X.690, sections 8.1.2 and 8.1.3). The contents need not be there. `Short` where more octets can
/// complete a head, `Malformed` where none begins so.
pub fn read_head(bytes: &[u8]) -> Result<(u8, u32, &[u8]), DerFault>
    ensures found { IfOk result (λ x.
        IsHead x.0 x.1 × (bytes.now ≡ head_octets x.0 x.1 ++ x.2.now)) }
    ensures fault { IfErr result (λ fault. IsNoHead fault bytes.now) }
    ensures exact { MatchResult result
        (λ x. head_at bytes.now ≡ Ok (x.0, (x.1, x.2.now))) (λ e. head_at bytes.now ≡ Err e) }
{
    head(bytes)
}

// The same, with the reading alone.
#[tactic(auto, unfolding(crate::specs::Head::head_at))]
fn head(bytes: &[u8]) -> Result<(u8, u32, &[u8]), DerFault>
    ensures { MatchResult result
        (λ x. head_at bytes.now ≡ Ok (x.0, (x.1, x.2.now))) (λ e. head_at bytes.now ≡ Err e) }
{
    let [tag, rest @ ..] = bytes else {
        return Err(DerFault::Short);
    };
    if *tag % 32 == 31 {
        return Err(DerFault::Malformed);
    }
    let (size, rest) = split_length(rest)?;
    Ok((*tag, size, rest))
}
