// Laws of the definitions, which no call computes.
ghost use Rattle.std.specs.Prelude.{◌≡◌, Some};
ghost use Rattle.cert_fields.specs.Certificate.{Certificate, IsCertificate, certificate_text};
ghost use Rattle.cert_fields.specs.CertificateReading.{certificate_of};
ghost use Rattle.cert_fields.specs.Constraints.{ContentConstraint, AreConstraints};
ghost use Rattle.cert_fields.specs.Constraints.{constraints_text};
ghost use Rattle.cert_fields.specs.Extensions.{HasExtensions};
ghost use Rattle.cert_fields.specs.declared.extensions.Extensions.{Extensions};
ghost use Rattle.std.specs.Prelude.{List};

/// A law: two certificates never share a text, and a text is read as its own certificate.
pub fn one_certificate_text()
    ensures unique { (c d : Certificate) → IsCertificate c → IsCertificate d
        → certificate_text c ≡ certificate_text d → c ≡ d }
    ensures read { (c : Certificate) → IsCertificate c
        → certificate_of (certificate_text c) ≡ Some c }
{}

/// A law: two lists of content constraints never share a text.
pub fn one_constraints_text()
    ensures unique { (these those : List ContentConstraint) → AreConstraints these
        → AreConstraints those → constraints_text these ≡ constraints_text those → these ≡ those }
{}

/// A law: the extensions of a certificate read in one way at most.
pub fn one_reading_of_extensions()
    ensures unique { (c : Certificate) (these those : Extensions) → HasExtensions c these
        → HasExtensions c those → these ≡ those }
{}
