// Key identifiers of certificates. They count where all of a certificate's extensions read.
ghost use Rattle.std.specs.Prelude.{IfOk};
ghost use Rattle.path_check.specs.Above.{HasSubjectKey, HasAuthorityKey};
ghost use Rattle.path_check.specs.Keys.{TellsKey};

use cert_fields::KeptCert;
use der_core::Octets64;
use std::alloc::{AllocError, Global};

// The certificate's own.
pub(crate) fn subject_key(
    alloc: Global,
    cert: &KeptCert<'_>,
) -> Result<Option<Octets64>, AllocError>
    ensures told { IfOk result (TellsKey (HasSubjectKey cert.now)) }
{
    match cert.extensions(alloc)? {
        Some(extensions) => Ok(extensions.subject_key),
        None => Ok(None),
    }
}

// The one that it gives for the key above it.
pub(crate) fn authority_key(
    alloc: Global,
    cert: &KeptCert<'_>,
) -> Result<Option<Octets64>, AllocError>
    ensures told { IfOk result (TellsKey (HasAuthorityKey cert.now)) }
{
    match cert.extensions(alloc)? {
        Some(extensions) => Ok(extensions.authority_key),
        None => Ok(None),
    }
}
