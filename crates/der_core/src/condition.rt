ghost use Rattle.std.specs.Prelude.{◌≡◌, SomeIff};
ghost use Rattle.der_core.specs.Condition.{IsCondition, error_of};
ghost use Rattle.der_core.specs.LoadError.{error_number};

use crate::load_error::LoadErrorCode;
use std::marker::Model;

// The code of each condition, in their order.
const ERRORS: [LoadErrorCode; 41] = [
    LoadErrorCode::DecodeFailure,
    LoadErrorCode::InsufficientMemory,
    LoadErrorCode::BadContentInfo,
    LoadErrorCode::BadContentInfo,
    LoadErrorCode::BadSignedData,
    LoadErrorCode::BadEncapContent,
    LoadErrorCode::NoDecryptKey,
    LoadErrorCode::BadCompressAlgorithm,
    LoadErrorCode::BadEncapContent,
    LoadErrorCode::MissingContent,
    LoadErrorCode::BadSignedData,
    LoadErrorCode::BadCertificate,
    LoadErrorCode::BadSignedData,
    LoadErrorCode::BadSignerInfo,
    LoadErrorCode::BadUnsignedAttrs,
    LoadErrorCode::BadSignedAttrs,
    LoadErrorCode::BadDigestAlgorithm,
    LoadErrorCode::BadSignatureAlgorithm,
    LoadErrorCode::BadSignedAttrs,
    LoadErrorCode::ContentTypeMismatch,
    LoadErrorCode::SignatureFailure,
    LoadErrorCode::NoTrustAnchor,
    LoadErrorCode::BadCertificate,
    LoadErrorCode::BadCertificate,
    LoadErrorCode::BadCertificate,
    LoadErrorCode::UnsupportedKeySize,
    LoadErrorCode::BadCertificate,
    LoadErrorCode::NotAuthorized,
    LoadErrorCode::SignatureFailure,
    LoadErrorCode::WrongHardware,
    LoadErrorCode::NotInCommunity,
    LoadErrorCode::UnsupportedPackageType,
    LoadErrorCode::StalePackage,
    LoadErrorCode::MissingDependency,
    LoadErrorCode::WrongDependencyVersion,
    LoadErrorCode::BreaksDependency,
    LoadErrorCode::BadFirmware,
    LoadErrorCode::InsufficientMemory,
    LoadErrorCode::OtherError,
    LoadErrorCode::OtherError,
    LoadErrorCode::OtherError,
];

/// One of the 41 conditions under which a firmware package is accepted, seen as its number.
///
/// They are asked in the order of their numbers, and the least that fails is the one answered.
#[derive(Clone, Copy, Debug, PartialEq, Eq, PartialOrd, Ord)]
pub struct Condition {
    number: u8,
}

impl Model for Condition {
    ghost use Rattle.std.specs.Prelude.{ℕ};
    ghost use Rattle.der_core.specs.Condition.{IsCondition};

    ghost Value = { ℕ };

    ghost view = { λ c. c.number };

    ghost invariant = { λ c. IsCondition c.number };

    ghost inverse = { λ n. record { number = n } };
}

impl Condition {
    /// The condition with this number, where it is 1 to 41.
    pub fn new(number: u8) -> Option<Condition>
        ensures found { SomeIff result (IsCondition number) number }
    {
        match number {
            1..=41 => Some(Condition { number }),
            _ => None,
        }
    }

    /// The condition with a number that is known to be one, as where its rule is asked.
    pub fn numbered(number: u8) -> Condition
        requires range { IsCondition number }
        ensures value { result ≡ number }
    {
        Condition { number }
    }

    /// Its number, 1 to 41, which is the vendor's error code too.
    pub fn number(&self) -> u8
        ensures value { result ≡ self.now }
        ensures range { IsCondition result }
    {
        self.number
    }

    /// The code that an item which fails this condition is answered with.
    pub fn error(&self) -> LoadErrorCode
        ensures error { result ≡ error_of self.now }
    {
        ERRORS[usize::from(self.number) - 1]
    }

    /// The number of that code.
    pub fn code(&self) -> u8
        ensures code { result ≡ error_number (error_of self.now) }
    {
        self.error().number()
    }
}
