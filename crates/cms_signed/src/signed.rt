ghost use Rattle.std.specs.Prelude.{◌≡◌, [], List, ℕ, None, IfSome, IfOk, IsSome};
ghost use Rattle.der_core.specs.Element.{AreOctets};
ghost use Rattle.cms_signed.specs.Answer.{put_in, FitsCut};
ghost use Rattle.cms_signed.specs.Cut.{HasCut, firmware_package};
ghost use Rattle.cms_signed.specs.SignedAnswer.{IsSignedAnswer};

use crate::certificates::Certificates;
use crate::content_types::FIRMWARE_PACKAGE;
use crate::outer::read_outer_cut;
use crate::signer::read_signer;
use attribute_set::Attributes;
use cert_fields::Sid;
use der_core::{Condition, Oid};
use std::alloc::{AllocError, Global};

/// Why signed data isn't read.
#[derive(Clone, Copy, Debug, PartialEq, Eq)]
pub enum SignedFault {
    /// The first of the conditions 3 to 18 that fails.
    Fails(Condition),
    Memory,
}

impl From<AllocError> for SignedFault {
    ghost use Rattle.cms_signed.specs.declared.signed.SignedFault.TheVariants.{Memory};

    ghost from_gives = { λ _ fault. fault ≡ Memory };

    fn from(_: AllocError) -> SignedFault {
        SignedFault::Memory
    }
}

/// Signed data of one signer, by HSS/LMS over SHA-256 (RFC 5652, section 5). Its parts stay in place
/// in its octets.
#[derive(Drop)]
pub struct SignedView<'a> {
    /// The value octets of eContent; none where the item was read without its content.
    pub content: &'a [u8],
    pub certs: Certificates<'a>,
    pub sid: Sid<'a>,
    /// The signed attributes, in ascending order and with no type twice.
    pub attrs: Attributes<'a>,
    /// The element of the signed attributes without its tag. What the signature is made over is the
    /// tag of a SET OF, 31, and then these octets (section 5.4).
    pub attrs_rest: &'a [u8],
    pub signature: &'a [u8],
}

// The reading of a frame and a cut, or of a whole item, with a content of this type.
fn read_frame<'a>(
    alloc: Global,
    frame: &'a [u8],
    cut: Option<(usize, u32)>,
    kind: &[u8],
) -> Result<SignedView<'a>, SignedFault>
    requires head { IfSome cut (λ cut. HasCut frame.now cut.0 cut.1) }
    ensures answer { (content : List ℕ) → AreOctets content → FitsCut cut content
        → IsSignedAnswer kind.now cut (put_in frame.now cut content) content result }
    ensures empty { IfOk result (λ view. IsSome cut → view.content.now ≡ []) }
{
    let outer = match read_outer_cut(frame, cut, kind) {
        Ok(outer) => outer,
        Err(condition) => return Err(SignedFault::Fails(condition)),
    };
    read_signer(alloc, outer.content, outer.tail)
}

/// The signed data of a firmware package, of each item that is the frame with a content of the cut's
/// length put in at its place, or that is the frame, where there is no cut. Fails by the first of
/// the conditions 3 to 18 that doesn't hold. Where there is a cut, the answer's `content` is empty.
/// Takes 8 octets of memory for each signed attribute while it reads, of 7 octets at least, and
/// keeps none.
pub fn read_signed_cut<'a>(
    alloc: Global,
    frame: &'a [u8],
    cut: Option<(usize, u32)>,
) -> Result<SignedView<'a>, SignedFault>
    requires head { IfSome cut (λ cut. HasCut frame.now cut.0 cut.1) }
    ensures answer { (content : List ℕ) → AreOctets content → FitsCut cut content
        → IsSignedAnswer firmware_package cut (put_in frame.now cut content) content result }
    ensures empty { IfOk result (λ view. IsSome cut → view.content.now ≡ []) }
{
    read_frame(alloc, frame, cut, &FIRMWARE_PACKAGE)
}

/// The signed data that a whole item is, with a content of this type. Fails by the first of the
/// conditions 3 to 18 that doesn't hold. Takes memory as `read_signed_cut` does.
pub fn read_signed_of<'a>(
    alloc: Global,
    item: &'a [u8],
    content: &Oid,
) -> Result<SignedView<'a>, SignedFault>
    ensures answer { IsSignedAnswer content.now None item.now [] result }
{
    read_frame(alloc, item, None, content.octets())
}

/// The signed data of a firmware package that a whole item is. Fails by the first of the conditions
/// 3 to 18 that doesn't hold. Takes memory as `read_signed_cut` does.
pub fn read_signed<'a>(alloc: Global, item: &'a [u8]) -> Result<SignedView<'a>, SignedFault>
    ensures answer { IsSignedAnswer firmware_package None item.now [] result }
{
    read_frame(alloc, item, None, &FIRMWARE_PACKAGE)
}
