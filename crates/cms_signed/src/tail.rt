// What stands behind encapContentInfo (RFC 5652, section 5.1).
ghost use Rattle.std.specs.Prelude.{option_map};
ghost use Rattle.der_core.specs.Reading.{tagged_of};
ghost use Rattle.der_core.specs.Reads.{Answers};
ghost use Rattle.der_core.specs.Shapes.{anything, alone, maybe_before, element as shaped};
ghost use Rattle.cms_signed.specs.SignedReading.{tail_fields, tail_of};
ghost use Rattle.cms_signed.specs.SignedView.{tail_view};

use der_core::{Cursor, tags};

// The contents of these components.
#[derive(Clone, Copy, Debug)]
pub(crate) struct Tail<'a> {
    pub certificates: Option<&'a [u8]>,
    pub crls: Option<&'a [u8]>,
    pub signer_infos: &'a [u8],
}

fn element(bytes: &[u8], tag: u8) -> Option<(&[u8], &[u8])>
    ensures { Answers (λ x. (x.0.now, x.1.now)) result (tagged_of tag bytes.now) }
{
    let mut cursor = Cursor::new(bytes);
    let contents = cursor.tagged(tag)?;
    Some((contents, cursor.rest()))
}

fn signer_infos(bytes: &[u8]) -> Option<&[u8]>
    ensures { Answers (λ x. x.now) result (alone (shaped 0x31 anything) bytes.now) }
{
    let (contents, rest) = element(bytes, tags::SET)?;
    if rest.is_empty() {
        Some(contents)
    } else {
        None
    }
}

fn from_crls(bytes: &[u8]) -> Option<(Option<&[u8]>, &[u8])>
    ensures { Answers (λ x. (option_map (λ o. o.now) x.0, x.1.now)) result
        (maybe_before 0xA1 (shaped 0xA1 anything) (alone (shaped 0x31 anything)) bytes.now) }
{
    if Cursor::new(bytes).is_at(tags::CONSTRUCTED_1) {
        let (crls, rest) = element(bytes, tags::CONSTRUCTED_1)?;
        let signer_infos = signer_infos(rest)?;
        Some((Some(crls), signer_infos))
    } else {
        let signer_infos = signer_infos(bytes)?;
        Some((None, signer_infos))
    }
}

#[tactic(auto, unfolding(crate::specs::SignedReading::tail_fields))]
fn from_certificates(bytes: &[u8]) -> Option<(Option<&[u8]>, (Option<&[u8]>, &[u8]))>
    ensures { Answers (λ x. (option_map (λ o. o.now) x.0, (option_map (λ o. o.now) x.1.0, x.1.1.now)))
        result (tail_fields bytes.now) }
{
    if Cursor::new(bytes).is_at(tags::CONSTRUCTED_0) {
        let (certificates, rest) = element(bytes, tags::CONSTRUCTED_0)?;
        let others = from_crls(rest)?;
        Some((Some(certificates), others))
    } else {
        let others = from_crls(bytes)?;
        Some((None, others))
    }
}

#[tactic(auto, unfolding(crate::specs::SignedReading::tail_of))]
pub(crate) fn read_tail(bytes: &[u8]) -> Option<Tail<'_>>
    ensures { Answers tail_view result (tail_of bytes.now) }
{
    let (certificates, (crls, signer_infos)) = from_certificates(bytes)?;
    Some(Tail {
        certificates,
        crls,
        signer_infos,
    })
}
