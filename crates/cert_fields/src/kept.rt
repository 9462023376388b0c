// A certificate that is kept as its octets.
ghost use Rattle.std.specs.Prelude.{◌≡◌, ◌↔◌, List, Some, None, IfOk};
ghost use Rattle.der_core.specs.Reads.{Answers};
ghost use Rattle.cert_fields.specs.Extensions.{Extension, HasExtensions, StandsFor, value_of};
ghost use Rattle.cert_fields.specs.declared.extensions.Extensions.{Extensions as ExtensionsOf};
ghost use Rattle.cert_fields.specs.Certificate.{Certificate, IsCertificate, certificate_text, signed_text};
ghost use Rattle.cert_fields.specs.View.{certificate_view, signed_view};

use crate::extension_list::read_standing;
use crate::reading::read_part;
use crate::{Cert, Extensions, read_cert};
use std::alloc::{AllocError, Global};
use std::marker::Model;

/// A certificate that is kept as its octets, in place, and read from them again whenever it is asked
/// for. Many of them take 16 octets of memory each, and no more.
#[derive(Drop)]
pub struct KeptCert<'a> {
    octets: &'a [u8],
}

impl<'a> Model for KeptCert<'a> {
    ghost use Rattle.cert_fields.specs.Certificate.{Certificate};
    ghost use Rattle.cert_fields.specs.KeptCertificate.{certificate_in, AreCertificate};

    ghost Value = { Certificate };

    ghost view = { λ k. certificate_in k.octets.now };

    ghost invariant = { λ k. AreCertificate k.octets.now };
}

impl<'a> KeptCert<'a> {
    /// The certificate that the octets are, all of them. None where they are none. Takes no memory.
    pub fn new(octets: &'a [u8]) -> Option<KeptCert<'a>>
        ensures spelled { (c : Certificate) → (result ≡ Some c)
            ↔ (IsCertificate c × (octets.now ≡ certificate_text c)) }
    {
        match read_cert(octets) {
            Some(_) => Some(KeptCert { octets }),
            None => None,
        }
    }

    /// The name of its issuer, a whole element. Takes no memory.
    pub fn issuer(&self) -> &'a [u8]
        ensures issuer { result.now ≡ self.now.signed.issuer }
    {
        self.cert().signed.issuer
    }

    /// The name of its subject, a whole element. Takes no memory.
    pub fn subject(&self) -> &'a [u8]
        ensures subject { result.now ≡ self.now.signed.subject }
    {
        self.cert().signed.subject
    }

    /// The contents of its serial number. Takes no memory.
    pub fn serial(&self) -> &'a [u8]
        ensures serial { result.now ≡ self.now.signed.serial }
    {
        self.cert().signed.serial
    }

    /// What its extensions say, as `read_extensions` answers it.
    pub fn extensions(&self, alloc: Global) -> Result<Option<Extensions<'a>>, AllocError>
        ensures spelled { IfOk result (λ answer. (e : ExtensionsOf) → (answer ≡ Some e)
            ↔ HasExtensions self.now e) }
    {
        read_part(alloc, self.cert().signed.extensions)
    }

    /// The value of its extension of this type, which is the contents of an OBJECT IDENTIFIER: what
    /// the OCTET STRING of the first such extension holds (RFC 5280, section 4.2). The others may
    /// say anything. Takes no memory.
    pub fn extension(&self, kind: &[u8]) -> Option<&'a [u8]>
        ensures value { (all : List Extension) → StandsFor self.now.signed.extensions all
            → Answers (λ value. value.now) result (value_of kind.now all) }

        // what stands in [3] is no list of extensions
        ensures none { ((all : List Extension) → StandsFor self.now.signed.extensions all → ⊥)
            → result ≡ None }
    {
        match read_standing(self.cert().signed.extensions) {
            Some(list) => list.value_of(kind),
            None => None,
        }
    }

    /// Its fields. Takes no memory.
    pub fn cert(&self) -> Cert<'a>
        ensures whole { result.whole.now ≡ certificate_text self.now }
        ensures fields { certificate_view result ≡ self.now }
        ensures tbs { result.tbs.now ≡ signed_text (signed_view result.signed) }
    {
        match read_cert(self.octets) {
            Some(cert) => cert,
            None => unreachable!(),
        }
    }
}
