ghost use Rattle.std.specs.Prelude.{◌≡◌, ◌≤◌, ℕ, List, [], length, option_map, IfSome, IfOk};
ghost use Rattle.std.specs.Prelude.{IsSome, MatchResult, Ok, Err};
ghost use Rattle.der_core.specs.Element.{AreOctets};
ghost use Rattle.cms_signed.specs.SignedView.{gapped_view};
ghost use Rattle.cms_signed.specs.Answer.{put_in, FitsCut, content_at, IsAnswer, gapped_at};
ghost use Rattle.cms_signed.specs.Cut.{HasCut};
ghost use Rattle.cms_signed.specs.SignedReading.{inner, gapped_outer};

use crate::content_types::{COMPRESSED_DATA, ENCRYPTED_DATA, SIGNED_DATA};
use crate::gapped::Gapped;
use crate::signed_data::{read_encapsulated, read_info, read_signed_data};
use der_core::Condition;

// The most octets that may stand behind encapContentInfo.
const MOST_BEHIND: usize = 1_048_576;

// What the octets around a content say, where the conditions 3 to 11 hold.
#[derive(Clone, Copy, Debug)]
pub(crate) struct Outer<'a> {
    // The value octets of eContent (RFC 5652, section 5.2); none where the item was read without its
    // content.
    pub content: &'a [u8],

    // What stands behind encapContentInfo: certificates, crls and signerInfos (RFC 5652, section 5.1),
    // at most 2^20 octets.
    pub tail: &'a [u8],
}

// The conditions 7 to 11.
#[tactic(auto, unfolding(crate::specs::SignedReading::or_fails, crate::specs::SignedReading::unless))]
fn inner<'a>(
    kind: &[u8],
    found: &[u8],
    content: Option<Gapped<'a>>,
    tail: &'a [u8],
) -> Result<(Gapped<'a>, &'a [u8]), Condition>
    ensures { MatchResult result
        (λ x. inner kind.now (found.now, option_map gapped_view content.entry) tail.now
        ≡ Ok (gapped_view x.0, x.1.now))
        (λ n. inner kind.now (found.now, option_map gapped_view content.entry) tail.now ≡ Err n) }
{
    if found == ENCRYPTED_DATA.as_slice() {
        return Err(Condition::numbered(7));
    }
    if found == COMPRESSED_DATA.as_slice() {
        return Err(Condition::numbered(8));
    }
    if found != kind {
        return Err(Condition::numbered(9));
    }
    let Some(content) = content else {
        return Err(Condition::numbered(10));
    };
    if tail.len() > MOST_BEHIND {
        return Err(Condition::numbered(11));
    }
    Ok((content, tail))
}

// The conditions 3 to 11.
#[tactic(auto, unfolding(crate::specs::SignedReading::gapped_outer, crate::specs::SignedReading::or_fails, crate::specs::SignedReading::unless))]
fn read_gapped<'a>(kind: &[u8], item: Gapped<'a>) -> Result<(Gapped<'a>, &'a [u8]), Condition>
    ensures { MatchResult result
        (λ x. gapped_outer kind.now (gapped_view item.entry) ≡ Ok (gapped_view x.0, x.1.now))
        (λ n. gapped_outer kind.now (gapped_view item.entry) ≡ Err n) }
{
    let Some(info) = read_info(item) else {
        return Err(Condition::numbered(3));
    };
    if info.content_type.octets() != SIGNED_DATA.as_slice() {
        return Err(Condition::numbered(4));
    }
    let Some(signed) = read_signed_data(info.content) else {
        return Err(Condition::numbered(5));
    };
    let Some(encapsulated) = read_encapsulated(signed.encapsulated) else {
        return Err(Condition::numbered(6));
    };
    let found = encapsulated.content_type;
    inner(kind, found.octets(), encapsulated.content, signed.tail)
}

// The frame and the cut as octets with a gap.
fn gapped(frame: &[u8], cut: Option<(usize, u32)>) -> Gapped<'_>
    requires place { IfSome cut (λ cut. cut.0 ≤ length frame.now) }
    ensures { gapped_view result ≡ gapped_at frame.now cut }
{
    match cut {
        None => Gapped {
            front: frame,
            gap: 0,
            back: &[],
        },
        Some((place, size)) => {
            let (front, back) = frame.split_at(place);
            Gapped {
                front,
                gap: size,
                back,
            }
        }
    }
}

fn read_at<'a>(
    frame: &'a [u8],
    cut: Option<(usize, u32)>,
    kind: &[u8],
) -> Result<(Gapped<'a>, &'a [u8]), Condition>
    requires place { IfSome cut (λ cut. cut.0 ≤ length frame.now) }
    ensures { MatchResult result
        (λ x. gapped_outer kind.now (gapped_at frame.now cut) ≡ Ok (gapped_view x.0, x.1.now))
        (λ n. gapped_outer kind.now (gapped_at frame.now cut) ≡ Err n) }
{
    read_gapped(kind, gapped(frame, cut))
}

// What stands around a content of this type, of each item that is the frame with a content of the
// cut's length put in at its place, or that is the frame, where there is no cut. Fails by the first of
// the conditions 3 to 11 that doesn't hold. `kind` is the contents of an identifier. Where there is a
// cut, the answer's `content` is empty.
pub(crate) fn read_outer_cut<'a>(
    frame: &'a [u8],
    cut: Option<(usize, u32)>,
    kind: &[u8],
) -> Result<Outer<'a>, Condition>
    requires head { IfSome cut (λ cut. HasCut frame.now cut.0 cut.1) }
    ensures answer { (content : List ℕ) → AreOctets content → FitsCut cut content
        → MatchResult result
        (λ x. IsAnswer kind.now (put_in frame.now cut content)
        (content_at cut x.content.now content) (Ok x.tail.now))
        (λ n. IsAnswer kind.now (put_in frame.now cut content) [] (Err n)) }
    ensures empty { IfOk result (λ x. IsSome cut → x.content.now ≡ []) }
{
    match read_at(frame, cut, kind) {
        Ok((content, tail)) => Ok(Outer {
            content: content.front,
            tail,
        }),
        Err(condition) => Err(condition),
    }
}
