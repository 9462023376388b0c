ghost use Rattle.std.specs.Prelude.{◌≡◌, ◌++◌, ◌-◌, length, take, drop};
ghost use Rattle.std.specs.Prelude.{IfOk, IfErr, MatchResult, Ok, Err};
ghost use Rattle.der_core.specs.Reading.{contents_at, element_at};
ghost use Rattle.der_core.specs.Element.{enc, IsElement};
ghost use Rattle.der_core.specs.Tlv.{IsFirst, IsFault};

use crate::fault::DerFault;
use crate::length::split_length;

/// The place of an element at the front of octets. It takes all of them up to `end`.
#[derive(Clone, Copy, Debug, PartialEq, Eq)]
pub struct Tlv {
    /// The identifier octet (X.690, section 8.1.2).
    pub tag: u8,

    /// Where the contents begin: the number of octets of tag and length.
    pub head: usize,

    /// Where the contents end, and with them the element.
    pub end: usize,
}

/// The element at the front of the octets (X.690, sections 8.1 and 10.1). More may follow it.
/// `Short` where more octets could complete an element, `Malformed` where none begins so.
pub fn read_tlv(bytes: &[u8]) -> Result<Tlv, DerFault>
    ensures found { IfOk result (IsFirst bytes.now) }
    ensures fault { IfErr result (λ fault. IsFault fault bytes.now) }
{
    let (tag, contents, rest) = split_element(bytes)?;
    let end = bytes.len() - rest.len();
    Ok(Tlv {
        tag,
        head: end - contents.len(),
        end,
    })
}

// The tag of the element at the front, its contents, and what follows it.
pub(crate) fn split_element(bytes: &[u8]) -> Result<(u8, &[u8], &[u8]), DerFault>
    ensures found { IfOk result (λ x.
        IsElement x.0 x.1.now × (bytes.now ≡ enc x.0 x.1.now ++ x.2.now)) }
    ensures fault { IfErr result (λ fault. IsFault fault bytes.now) }
    ensures exact { MatchResult result
        (λ x. element_at bytes.now ≡ Ok (x.0, (x.1.now, x.2.now)))
        (λ e. element_at bytes.now ≡ Err e) }
{
    split(bytes)
}

// The same, with the reading alone.
#[tactic(auto, unfolding(crate::specs::Reading::element_at, crate::specs::Reading::contents_at))]
fn split(bytes: &[u8]) -> Result<(u8, &[u8], &[u8]), DerFault>
    ensures { MatchResult result
        (λ x. element_at bytes.now ≡ Ok (x.0, (x.1.now, x.2.now)))
        (λ e. element_at bytes.now ≡ Err e) }
{
    let [tag, rest @ ..] = bytes else {
        return Err(DerFault::Short);
    };
    if *tag % 32 == 31 {
        return Err(DerFault::Malformed);
    }
    let (size, rest) = split_length(rest)?;
    let size = size as usize;
    if rest.len() < size {
        return Err(DerFault::Short);
    }
    let (contents, rest) = rest.split_at(size);
    Ok((*tag, contents, rest))
}
