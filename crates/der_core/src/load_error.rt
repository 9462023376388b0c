ghost use Rattle.std.specs.Prelude.{◌≡◌};
ghost use Rattle.der_core.specs.LoadError.{error_number};

/// Why a firmware package wasn't loaded, by the names of RFC 4108, section 4.1.3.
///
/// These are the codes that a condition of acceptance is answered with. The others of that list
/// speak of encrypted or compressed contents, or of parameters, and no condition has them.
#[derive(Clone, Copy, Debug, PartialEq, Eq)]
pub enum LoadErrorCode {
    DecodeFailure,
    BadContentInfo,
    BadSignedData,
    BadEncapContent,
    BadCertificate,
    BadSignerInfo,
    BadSignedAttrs,
    BadUnsignedAttrs,
    MissingContent,
    NoTrustAnchor,
    NotAuthorized,
    BadDigestAlgorithm,
    BadSignatureAlgorithm,
    UnsupportedKeySize,
    SignatureFailure,
    ContentTypeMismatch,
    NoDecryptKey,
    BadCompressAlgorithm,
    WrongHardware,
    StalePackage,
    NotInCommunity,
    UnsupportedPackageType,
    MissingDependency,
    WrongDependencyVersion,
    InsufficientMemory,
    BadFirmware,
    BreaksDependency,
    OtherError,
}

impl LoadErrorCode {
    /// The number that the code has in FirmwarePackageLoadErrorCode.
    pub fn number(self) -> u8
        ensures number { result ≡ error_number self }
    {
        match self {
            LoadErrorCode::DecodeFailure => 1,
            LoadErrorCode::BadContentInfo => 2,
            LoadErrorCode::BadSignedData => 3,
            LoadErrorCode::BadEncapContent => 4,
            LoadErrorCode::BadCertificate => 5,
            LoadErrorCode::BadSignerInfo => 6,
            LoadErrorCode::BadSignedAttrs => 7,
            LoadErrorCode::BadUnsignedAttrs => 8,
            LoadErrorCode::MissingContent => 9,
            LoadErrorCode::NoTrustAnchor => 10,
            LoadErrorCode::NotAuthorized => 11,
            LoadErrorCode::BadDigestAlgorithm => 12,
            LoadErrorCode::BadSignatureAlgorithm => 13,
            LoadErrorCode::UnsupportedKeySize => 14,
            LoadErrorCode::SignatureFailure => 15,
            LoadErrorCode::ContentTypeMismatch => 16,
            LoadErrorCode::NoDecryptKey => 22,
            LoadErrorCode::BadCompressAlgorithm => 24,
            LoadErrorCode::WrongHardware => 27,
            LoadErrorCode::StalePackage => 28,
            LoadErrorCode::NotInCommunity => 29,
            LoadErrorCode::UnsupportedPackageType => 30,
            LoadErrorCode::MissingDependency => 31,
            LoadErrorCode::WrongDependencyVersion => 32,
            LoadErrorCode::InsufficientMemory => 33,
            LoadErrorCode::BadFirmware => 34,
            LoadErrorCode::BreaksDependency => 36,
            LoadErrorCode::OtherError => 99,
        }
    }
}
