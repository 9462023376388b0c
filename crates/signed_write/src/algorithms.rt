// The algorithms that are written.
ghost use Rattle.std.specs.Prelude.{◌≡◌, ◌++◌, ◌+◌, ◌≤◌, false, OnOk, OnErr, length};
ghost use Rattle.cert_fields.specs.Algorithms.{digest_algorithm, signature_algorithm};

use cert_fields::algorithms::{HSS_LMS, SHA_256};
use std::alloc::AllocError;

/// Appends the algorithm of keys and signatures of HSS/LMS, without parameters (RFC 9708, sections 3
/// and 4). The one refusal is for want of memory.
#[tactic(auto, unfolding(der_core::specs::Element::enc, der_core::specs::Element::length_octets))]
pub fn put_algorithm(out: &mut Vec<u8>) -> Result<(), AllocError>
    ensures ok { OnOk result (out.new.items ≡ out.old.items ++ signature_algorithm) }
    ensures most { OnOk result (length out.new.items ≤ length out.old.items + 15) }
    ensures err { OnErr result (out.new.items ≡ out.old.items) }
{
    out.extend_from_slice(&HSS_LMS)
}

// SHA-256 without parameters (RFC 5754, section 2).
#[tactic(auto, unfolding(der_core::specs::Element::enc, der_core::specs::Element::length_octets))]
pub(crate) fn put_digest_algorithm(out: &mut Vec<u8>) -> Result<(), AllocError>
    ensures ok { OnOk result (out.new.items ≡ out.old.items ++ digest_algorithm false) }
    ensures most { OnOk result (length out.new.items ≤ length out.old.items + 13) }
{
    out.extend_from_slice(&SHA_256)
}
