// The conditions 12 to 18: those on certificates and on the signer.
ghost use Rattle.std.specs.Prelude.{◌≡◌, ◌↔◌, ◌||◌, false, true, IsTrue, IfOk, IfSome, MatchResult};
ghost use Rattle.std.specs.Prelude.{bytes_eq, drop, option_map};
ghost use Rattle.der_core.specs.Asked.{FirstFail};
ghost use Rattle.der_core.specs.Element.{IsTagged, HasRoom};
ghost use Rattle.der_core.specs.Reads.{Reads};
ghost use Rattle.attribute_set.specs.AttributeSet.{IsAttributeSet, AreAttributes};
ghost use Rattle.cert_fields.specs.Algorithms.{digest_algorithm};
ghost use Rattle.cms_signed.specs.SignedAnswer.{IsTailAnswer};
ghost use Rattle.cms_signed.specs.SignedView.{signer_view};
ghost use Rattle.cms_signed.specs.Signer.{signed_attributes_text};
ghost use Rattle.cms_signed.specs.SignerKnown.{HasAsked};
ghost use Rattle.cms_signed.specs.Tail.{tail_conditions, on_tail};

use crate::certificates::{Certificates, read_certificates};
use crate::signed::{SignedFault, SignedView};
use crate::signer_info::{SignerInfo, is_one_sequence, read_signer_info};
use crate::tail::read_tail;
use attribute_set::{Attributes, are_attributes, read_attribute_set};
use cert_fields::algorithms::{SHA_256, SHA_256_NULL, is_hss_lms};
use der_core::{Condition, Cursor, tags};
use std::alloc::{AllocError, Global};

// Whether unsigned attributes, where they are there, are attributes.
fn are_unsigned(contents: Option<&[u8]>) -> bool
    ensures { IsTrue result
        ↔ IfSome (option_map (λ o. o.now) contents.entry) AreAttributes }
{
    match contents {
        Some(contents) => are_attributes(contents),
        None => true,
    }
}

// The certificates and the signer, by the conditions 12 to 15. None of them takes memory.
fn find_signer(octets: &[u8]) -> Result<(Certificates<'_>, SignerInfo<'_>), Condition>
    ensures { MatchResult result
        (λ x. HasAsked octets.now x.0 (signer_view x.1))
        (λ number. FirstFail (on_tail tail_conditions octets.now) number) }
{
    let Some(tail) = read_tail(octets) else {
        return Err(Condition::numbered(12));
    };
    let Some(certificates) = read_certificates(tail.certificates) else {
        return Err(Condition::numbered(12));
    };
    if !is_one_sequence(tail.signer_infos) {
        return Err(Condition::numbered(13));
    }
    let Some(signer) = read_signer_info(tail.signer_infos) else {
        return Err(Condition::numbered(14));
    };
    if !are_unsigned(signer.attributed.unsigned_attributes) {
        return Err(Condition::numbered(15));
    }
    Ok((certificates, signer))
}

// The signed attributes that the element [0] is.
fn signed_attributes<'a>(
    alloc: Global,
    element: &'a [u8],
) -> Result<Option<Attributes<'a>>, AllocError>
    requires tagged { IsTagged 0xA0 element.now }
    requires room { HasRoom element.now }
    ensures { IfOk result (λ answer.
        Reads signed_attributes_text IsAttributeSet element.now answer) }
{
    match Cursor::new(element).tagged(tags::CONSTRUCTED_0) {
        Some(contents) => read_attribute_set(alloc, contents),
        None => Ok(None),
    }
}

// An element without its tag.
fn untagged(element: &[u8]) -> &[u8]
    ensures { result.now ≡ drop 1 element.now }
{
    match element {
        [_, rest @ ..] => rest,
        [] => element,
    }
}

// Whether an algorithm is SHA-256, with the parameters NULL or without any.
#[tactic(auto, unfolding(der_core::specs::Element::enc, der_core::specs::Element::length_octets))]
fn is_sha_256(algorithm: &[u8]) -> bool
    ensures { result ≡ (bytes_eq algorithm.now (digest_algorithm false)
        || bytes_eq algorithm.now (digest_algorithm true)) }
{
    algorithm == SHA_256.as_slice() || algorithm == SHA_256_NULL.as_slice()
}

// What stands behind the content, by the conditions 12 to 18.
pub(crate) fn read_signer<'a>(
    alloc: Global,
    content: &'a [u8],
    tail: &'a [u8],
) -> Result<SignedView<'a>, SignedFault>
    ensures answer { IsTailAnswer tail.now result }
    ensures content { IfOk result (λ view. view.content.now ≡ content.now) }
{
    let (certs, signer) = match find_signer(tail) {
        Ok(found) => found,
        Err(condition) => return Err(SignedFault::Fails(condition)),
    };
    let Some(element) = signer.attributed.signed_attributes else {
        return Err(SignedFault::Fails(Condition::numbered(16)));
    };
    let Some(attrs) = signed_attributes(alloc, element)? else {
        return Err(SignedFault::Fails(Condition::numbered(16)));
    };
    if !is_sha_256(signer.digest_algorithm) {
        return Err(SignedFault::Fails(Condition::numbered(17)));
    }
    if !is_hss_lms(signer.attributed.signature_algorithm) {
        return Err(SignedFault::Fails(Condition::numbered(18)));
    }
    Ok(SignedView {
        content,
        certs,
        sid: signer.sid,
        attrs,
        attrs_rest: untagged(element),
        signature: signer.attributed.signature,
    })
}
