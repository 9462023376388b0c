// The members of a path.
ghost use Rattle.std.specs.Prelude.{◌<◌, length, map, option_map, IfOk};
ghost use Rattle.std.specs.List.{AllByRecursion};
ghost use Rattle.path_check.specs.Conditions.{members_at};
ghost use Rattle.path_check.specs.Members.{TellsMembers};

use cert_fields::{Cert, Extensions, KeptCert, read_extensions};
use std::alloc::{AllocError, Global};

// A certificate on a path, with what its extensions say.
#[derive(Drop)]
pub(crate) struct Member<'a> {
    pub(crate) cert: Cert<'a>,
    pub(crate) extensions: Extensions<'a>,
}

// The members at these places, or None where the extensions of one don't read.
pub(crate) fn read_members<'a>(
    alloc: Global,
    certs: &'a [KeptCert<'a>],
    places: &[usize],
) -> Result<Option<Vec<Member<'a>>>, AllocError>
    requires within { AllByRecursion (λ place. place < length certs.now) places.now }
    ensures told { IfOk result (λ read.
        TellsMembers (members_at certs.now places.now) (option_map (λ m. m.items) read)) }
{
    let mut members = Vec::new(alloc);
    for place in places {
        let cert = certs[*place].cert();
        let Some(extensions) = read_extensions(alloc, &cert)? else {
            return Ok(None);
        };
        members.reserve(1)?;
        members.push_reserved(Member { cert, extensions });
    }
    Ok(Some(members))
}
