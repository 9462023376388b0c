// Certificates that stay in place.
ghost use Rattle.std.specs.Prelude.{◌≡◌, ◌∷◌, [], MatchOption, IfSome, IfOk, OnSome, option_map};
ghost use Rattle.std.specs.Prelude.{Some, is_some};
ghost use Rattle.der_core.specs.Element.{enc};
ghost use Rattle.std.specs.Iterator.{YieldsFirstBy, item_count};
ghost use Rattle.der_core.specs.Reads.{Answers};
ghost use Rattle.der_core.specs.Shapes.{listed};
ghost use Rattle.attribute_set.specs.Items.{items_of, AreItems};
ghost use Rattle.cert_fields.specs.View.{certificate_view};
ghost use Rattle.cms_signed.specs.Certificates.{AreChoices, certificates_among};
ghost use Rattle.cms_signed.specs.SignedView.{choice_view, IsWhole, HasWhole};
ghost use Rattle.cms_signed.specs.SignerKnown.{HasCertificates};
ghost use Rattle.cms_signed.specs.SignerReading.{choice_from, choice_at};

use cert_fields::{Cert, KeptCert, read_cert};
use der_core::{Cursor, tags};
use std::alloc::{AllocError, Global};
use std::marker::Model;

/// Certificates in their order, each read from its octets when it is asked for. Takes no memory.
#[derive(Drop)]
pub struct Certificates<'a> {
    // The contents of the SET, in which other forms of certificates may stand too.
    octets: &'a [u8],
}

impl<'a> Model for Certificates<'a> {
    ghost use Rattle.std.specs.Prelude.{List};
    ghost use Rattle.attribute_set.specs.Items.{items_of, AreItems};
    ghost use Rattle.cert_fields.specs.Certificate.{Certificate};
    ghost use Rattle.cms_signed.specs.Certificates.{certificates_among};
    ghost use Rattle.cms_signed.specs.SignerReading.{choice_at};

    ghost Value = { List Certificate };

    ghost view = { λ c. certificates_among (items_of choice_at c.octets.now) };

    ghost invariant = { λ c. AreItems choice_at c.octets.now };
}

impl<'a> Certificates<'a> {
    /// The same certificates, to go through.
    pub fn iter(&self) -> Certificates<'a>
        ensures same { result ≡ self.now }
    {
        Certificates {
            octets: self.octets,
        }
    }

    /// The same certificates, each kept as its octets: 16 octets of memory for each.
    pub fn keep(&self, alloc: Global) -> Result<Vec<KeptCert<'a>>, AllocError>
        ensures kept { IfOk result (λ kept. kept.items ≡ self.now) }
    {
        let mut rest = self.iter();
        let mut kept = Vec::new(alloc);
        while let Some(certificate) = rest.next_kept() {
            kept.reserve(1)?;
            kept.push_reserved(certificate);
        }
        Ok(kept)
    }

    // Passes the next certificate.
    fn next_kept(&mut self) -> Option<KeptCert<'a>>
        ensures first { MatchOption result (self.old ≡ []) (λ c. self.old ≡ c ∷ self.new) }
    {
        let mut items = Cursor::new(self.octets);
        let Some(certificate) = next_certificate(&mut items) else {
            return None;
        };
        self.octets = items.rest();
        Some(kept(&certificate))
    }
}

// The certificate as its octets.
fn kept<'a>(certificate: &Cert<'a>) -> KeptCert<'a>
    requires { IsWhole certificate.now }
    ensures { result ≡ certificate_view certificate.now }
{
    match KeptCert::new(certificate.whole) {
        Some(kept) => kept,
        None => unreachable!(),
    }
}

impl<'a> Iterator for Certificates<'a> {
    type Item = Cert<'a>;

    // each with its octets, and those of its signed part
    ghost next_gives = { λ before result after.
        YieldsFirstBy certificate_view (λ certificates. certificates) before result after
        × IfSome result IsWhole };

    ghost remaining = { item_count (λ certificates. certificates) };

    fn next(&mut self) -> Option<Cert<'a>> {
        let mut items = Cursor::new(self.octets);
        let Some(certificate) = next_certificate(&mut items) else {
            return None;
        };
        self.octets = items.rest();
        Some(certificate)
    }
}

// A certificate, or the tag and the contents of another form (RFC 5652, section 10.2.2).
#[derive(Clone, Copy)]
pub(crate) enum Choice<'a> {
    Plain(Cert<'a>),
    Other(u8, &'a [u8]),
}

// The element that was found, as a choice.
#[tactic(auto, unfolding(crate::specs::SignerReading::choice_from))]
fn choose<'a>(tag: u8, contents: &'a [u8], whole: &'a [u8]) -> Option<Choice<'a>>
    requires { whole.now ≡ enc tag contents.now }
    ensures exact { Answers choice_view result (choice_from tag contents.now) }
    ensures whole { IfSome result HasWhole }
{
    if tag != tags::SEQUENCE {
        return Some(Choice::Other(tag, contents));
    }
    match read_cert(whole) {
        Some(certificate) => Some(Choice::Plain(certificate)),
        None => None,
    }
}

// The choice at the front.
#[tactic(auto, unfolding(crate::specs::SignerReading::choice_at))]
fn read_choice<'a>(items: &mut Cursor<'a>) -> Option<Choice<'a>>
    ensures exact { Answers (λ choice. (choice_view choice, items.new)) result
        (choice_at items.old) }
    ensures whole { IfSome result HasWhole }
{
    let (tag, contents, whole) = items.next()?;
    match choose(tag, contents, whole) {
        Some(choice) => Some(choice),
        None => None,
    }
}

// Passes other forms, and the certificate behind them.
fn next_certificate<'a>(items: &mut Cursor<'a>) -> Option<Cert<'a>>
    requires { AreItems choice_at items.old }
    ensures rest { OnSome result (AreItems choice_at items.new) }
    ensures whole { IfSome result IsWhole }
    ensures first { MatchOption result
        (certificates_among (items_of choice_at items.old) ≡ [])
        (λ c. certificates_among (items_of choice_at items.old)
        ≡ certificate_view c ∷ certificates_among (items_of choice_at items.new)) }
{
    while let Some(choice) = read_choice(items) {
        if let Choice::Plain(certificate) = choice {
            return Some(certificate);
        }
    }
    None
}

// Whether the octets are certificates and other forms, one after the other.
fn are_choices(octets: &[u8]) -> bool
    ensures { result ≡ is_some (listed choice_at octets.now) }
{
    let mut items = Cursor::new(octets);
    while !items.at_end() {
        let Some(_) = read_choice(&mut items) else {
            return false;
        };
    }
    true
}

// The certificates in the contents of a set.
fn read_set(octets: &[u8]) -> Option<Certificates<'_>>
    ensures { MatchOption result
        (AreChoices octets.now → ⊥)
        (λ certificates. HasCertificates (Some octets.now) certificates) }
{
    if are_choices(octets) {
        Some(Certificates { octets })
    } else {
        None
    }
}

// The certificates in the contents of a set, where there is one.
pub(crate) fn read_certificates(set: Option<&[u8]>) -> Option<Certificates<'_>>
    ensures { MatchOption result
        (IfSome (option_map (λ o. o.now) set.entry) AreChoices → ⊥)
        (λ certificates. HasCertificates (option_map (λ o. o.now) set.entry) certificates) }
{
    match set {
        None => Some(Certificates { octets: &[] }),
        Some(octets) => read_set(octets),
    }
}
