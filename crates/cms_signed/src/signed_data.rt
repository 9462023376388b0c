// ContentInfo, SignedData and EncapsulatedContentInfo (RFC 5652, sections 3, 5.1 and 5.2), of octets
// with a gap.
ghost use Rattle.std.specs.Prelude.{option_map};
ghost use Rattle.der_core.specs.Reading.{oid_of};
ghost use Rattle.der_core.specs.Reads.{Answers};
ghost use Rattle.der_core.specs.Shapes.{anything, kept};
ghost use Rattle.cms_signed.specs.Gapped.{gapped_one_element, solidly, gapped_alone, gapped_before};
ghost use Rattle.cms_signed.specs.Gapped.{gapped_element, gapped_optional, gapped_anything};
ghost use Rattle.cms_signed.specs.SignedView.{gapped_view, info_view, signed_view};
ghost use Rattle.cms_signed.specs.SignedView.{encapsulated_view};
ghost use Rattle.cms_signed.specs.SignedReading.{tail_of, version_of, gapped_info, gapped_signed};
ghost use Rattle.cms_signed.specs.SignedReading.{gapped_encapsulated};

use crate::gapped::{Gapped, is_nothing, octets, split, tagged};
use crate::tail::read_tail;
use der_core::{Oid, read_oid, read_u128, tags};

// The type of a content, and the content as one element.
#[derive(Clone, Copy, Debug)]
pub(crate) struct ContentInfo<'a> {
    pub content_type: Oid,
    pub content: Gapped<'a>,
}

// The version, the contents of digestAlgorithms and of encapContentInfo, and the octets behind it.
#[derive(Clone, Copy, Debug)]
pub(crate) struct SignedData<'a> {
    pub version: u128,
    pub digest_algorithms: &'a [u8],
    pub encapsulated: Gapped<'a>,
    pub tail: &'a [u8],
}

// The type of a content, and its value octets, where there is one.
#[derive(Clone, Copy, Debug)]
pub(crate) struct EncapsulatedContentInfo<'a> {
    pub content_type: Oid,
    pub content: Option<Gapped<'a>>,
}

// ---- ContentInfo

fn identifier(contents: Gapped<'_>) -> Option<Oid>
    ensures { Answers (λ x. x) result (solidly oid_of (gapped_view contents.entry)) }
{
    read_oid(octets(contents)?)
}

fn one_element(octets: Gapped<'_>) -> Option<Gapped<'_>>
    ensures { Answers gapped_view result (gapped_one_element (gapped_view octets.entry)) }
{
    let (_, _, rest) = split(octets)?;
    if is_nothing(rest) { Some(octets) } else { None }
}

fn explicit(octets: Gapped<'_>) -> Option<Gapped<'_>>
    ensures { Answers gapped_view result
        (gapped_alone (gapped_element 0xA0 gapped_one_element) (gapped_view octets.entry)) }
{
    let (contents, rest) = tagged(octets, tags::CONSTRUCTED_0)?;
    let content = one_element(contents)?;
    if is_nothing(rest) {
        Some(content)
    } else {
        None
    }
}

fn info_fields(octets: Gapped<'_>) -> Option<(Oid, Gapped<'_>)>
    ensures { Answers (λ x. (x.0, gapped_view x.1)) result
        (gapped_before (gapped_element 0x06 (solidly oid_of)) (gapped_alone (gapped_element 0xA0 gapped_one_element))
        (gapped_view octets.entry)) }
{
    let (contents, rest) = tagged(octets, tags::OBJECT_IDENTIFIER)?;
    let content_type = identifier(contents)?;
    let content = explicit(rest)?;
    Some((content_type, content))
}

#[tactic(auto, unfolding(crate::specs::SignedReading::gapped_info))]
pub(crate) fn read_info(octets: Gapped<'_>) -> Option<ContentInfo<'_>>
    ensures { Answers info_view result (gapped_info (gapped_view octets.entry)) }
{
    let (contents, rest) = tagged(octets, tags::SEQUENCE)?;
    let Some((content_type, content)) = info_fields(contents) else {
        return None;
    };
    if is_nothing(rest) {
        Some(ContentInfo {
            content_type,
            content,
        })
    } else {
        None
    }
}

// ---- SignedData

// A version that a SignedData can have.
#[tactic(auto, unfolding(crate::specs::SignedReading::version_of))]
fn version(contents: Gapped<'_>) -> Option<u128>
    ensures { Answers (λ x. x) result (solidly version_of (gapped_view contents.entry)) }
{
    let number = read_u128(octets(contents)?)?;
    match number {
        1 | 3 | 4 | 5 => Some(number),
        _ => None,
    }
}

#[tactic(auto, unfolding(crate::specs::SignedReading::tail_of))]
fn kept_tail(octets: Gapped<'_>) -> Option<&[u8]>
    ensures { Answers (λ x. x.now) result (solidly (kept tail_of) (gapped_view octets.entry)) }
{
    if octets.gap == 0 && octets.back.is_empty() {
        let _ = read_tail(octets.front)?;
        Some(octets.front)
    } else {
        None
    }
}

fn encapsulated_and_tail(octets: Gapped<'_>) -> Option<(Gapped<'_>, &[u8])>
    ensures { Answers (λ x. (gapped_view x.0, x.1.now)) result
        (gapped_before (gapped_element 0x30 gapped_anything) (solidly (kept tail_of)) (gapped_view octets.entry)) }
{
    let (contents, rest) = tagged(octets, tags::SEQUENCE)?;
    let tail = kept_tail(rest)?;
    Some((contents, tail))
}

fn signed_fields(fields: Gapped<'_>) -> Option<SignedData<'_>>
    ensures { Answers signed_view result
        (gapped_before (gapped_element 0x02 (solidly version_of)) (gapped_before (gapped_element 0x31 (solidly anything))
        (gapped_before (gapped_element 0x30 gapped_anything) (solidly (kept tail_of)))) (gapped_view fields.entry)) }
{
    let (contents, rest) = tagged(fields, tags::INTEGER)?;
    let version = version(contents)?;
    let (contents, rest) = tagged(rest, tags::SET)?;
    let digest_algorithms = octets(contents)?;
    let (encapsulated, tail) = encapsulated_and_tail(rest)?;
    Some(SignedData {
        version,
        digest_algorithms,
        encapsulated,
        tail,
    })
}

#[tactic(auto, unfolding(crate::specs::SignedReading::gapped_signed))]
pub(crate) fn read_signed_data(octets: Gapped<'_>) -> Option<SignedData<'_>>
    ensures { Answers signed_view result (gapped_signed (gapped_view octets.entry)) }
{
    let (contents, rest) = tagged(octets, tags::SEQUENCE)?;
    let signed = signed_fields(contents)?;
    if is_nothing(rest) { Some(signed) } else { None }
}

// ---- EncapsulatedContentInfo

fn octet_string(octets: Gapped<'_>) -> Option<Gapped<'_>>
    ensures { Answers gapped_view result
        (gapped_alone (gapped_element 0x04 gapped_anything) (gapped_view octets.entry)) }
{
    let (contents, rest) = tagged(octets, tags::OCTET_STRING)?;
    if is_nothing(rest) {
        Some(contents)
    } else {
        None
    }
}

fn content(octets: Gapped<'_>) -> Option<Gapped<'_>>
    ensures { Answers gapped_view result
        (gapped_alone (gapped_element 0xA0 (gapped_alone (gapped_element 0x04 gapped_anything))) (gapped_view octets.entry)) }
{
    let (contents, rest) = tagged(octets, tags::CONSTRUCTED_0)?;
    let content = octet_string(contents)?;
    if is_nothing(rest) {
        Some(content)
    } else {
        None
    }
}

fn maybe_content(octets: Gapped<'_>) -> Option<Option<Gapped<'_>>>
    ensures { Answers (λ x. option_map gapped_view x) result
        (gapped_optional (gapped_alone (gapped_element 0xA0 (gapped_alone (gapped_element 0x04 gapped_anything))))
        (gapped_view octets.entry)) }
{
    if is_nothing(octets) {
        return Some(None);
    }
    let content = content(octets)?;
    Some(Some(content))
}

#[tactic(auto, unfolding(crate::specs::SignedReading::gapped_encapsulated))]
pub(crate) fn read_encapsulated(octets: Gapped<'_>) -> Option<EncapsulatedContentInfo<'_>>
    ensures { Answers encapsulated_view result (gapped_encapsulated (gapped_view octets.entry)) }
{
    let (contents, rest) = tagged(octets, tags::OBJECT_IDENTIFIER)?;
    let content_type = identifier(contents)?;
    let content = maybe_content(rest)?;
    Some(EncapsulatedContentInfo {
        content_type,
        content,
    })
}
