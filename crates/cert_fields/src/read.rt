// Reading a certificate.
ghost use Rattle.std.specs.Prelude.{◌≡◌, ◌++◌, ℕ, List, IfSome, option_map};
ghost use Rattle.der_core.specs.Element.{enc};
ghost use Rattle.der_core.specs.Reads.{Reads, Answers};
ghost use Rattle.cert_fields.specs.Certificate.{IsCertificate, certificate_text, signed_text};
ghost use Rattle.cert_fields.specs.CertificateReading.{certificate_of, certificate_fields_of};
ghost use Rattle.cert_fields.specs.CertificateReading.{signed_at, HoldsSigned};
ghost use Rattle.cert_fields.specs.View.{bits_view, certificate_view, signed_view};

use crate::signed_part::{read_bits_at, read_signed_part};
use crate::{Bits, Cert, TbsCert};
use der_core::{Cursor, tags};

// The signed part at the front, with its octets.
#[tactic(auto, unfolding(crate::specs::CertificateReading::signed_at))]
fn read_signed<'a>(items: &mut Cursor<'a>) -> Option<(&'a [u8], TbsCert<'a>)>
    ensures exact { Answers (λ x. (signed_view x.1, items.new)) result (signed_at items.old) }
    ensures octets { IfSome result (λ x. x.0.now ++ items.new ≡ items.old) }
{
    let before = items.rest();
    let contents = items.tagged(tags::SEQUENCE)?;
    let tbs = &before[..before.len() - items.rest().len()];
    match read_signed_part(contents) {
        Some(signed) => Some((tbs, signed)),
        None => None,
    }
}

// The parts of the certificate whose contents the octets are.
#[tactic(auto, unfolding(crate::specs::CertificateReading::certificate_fields_of))]
fn read_fields<'a>(whole: &'a [u8], contents: &'a [u8]) -> Option<Cert<'a>>
    ensures exact { Answers certificate_view result (certificate_fields_of contents.now) }
    ensures whole { IfSome result (λ c. c.whole.now ≡ whole.now) }
    ensures tbs { IfSome result (λ c. HoldsSigned c.tbs.now (signed_view c.signed) contents.now) }
{
    let mut items = Cursor::new(contents);
    let Some((tbs, signed)) = read_signed(&mut items) else {
        return None;
    };
    let algorithm = items.whole(tags::SEQUENCE)?;
    let signature = read_bits_at(&mut items)?;
    if !items.at_end() {
        return None;
    }
    Some(Cert {
        whole,
        tbs,
        signed,
        algorithm,
        signature,
    })
}

// The same of a whole certificate, with the reading alone.
#[tactic(auto, unfolding(crate::specs::CertificateReading::certificate_of))]
fn read_whole(bytes: &[u8]) -> Option<Cert<'_>>
    ensures exact { Answers certificate_view result (certificate_of bytes.now) }
    ensures whole { IfSome result (λ c. c.whole.now ≡ bytes.now) }
    ensures tbs { IfSome result (λ c. (contents : List ℕ)
        × HoldsSigned c.tbs.now (signed_view c.signed) contents) }
{
    let mut items = Cursor::new(bytes);
    let contents = items.tagged(tags::SEQUENCE)?;
    if !items.at_end() {
        return None;
    }
    match read_fields(bytes, contents) {
        Some(certificate) => Some(certificate),
        None => None,
    }
}

/// The certificate whose text the octets are, all of them (RFC 5280, section 4.1). Takes no memory.
pub fn read_cert(bytes: &[u8]) -> Option<Cert<'_>>
    ensures spelled { Reads certificate_text IsCertificate bytes.now
        (option_map certificate_view result) }
    ensures whole { IfSome result (λ c. c.whole.now ≡ bytes.now) }
    ensures tbs { IfSome result (λ c. c.tbs.now ≡ signed_text (signed_view c.signed)) }
    ensures exact { Answers certificate_view result (certificate_of bytes.now) }
{
    read_whole(bytes)
}
