// The content types that members name.
ghost use Rattle.std.specs.Prelude.{◌≡◌, ◌↔◌, ◌⊎◌, ℕ, List, Contains, IfOk, OnOk, bytes_eq, map};
ghost use Rattle.cert_fields.specs.ConstraintsView.{entry_view};
ghost use Rattle.constraint_meet.specs.Permits.{any_content};
ghost use Rattle.explain_text.specs.Granted.{IsOwnType};
ghost use Rattle.explain_text.specs.Kept.{HasOwnType};
ghost use Rattle.explain_text.specs.Ordered.{AreExactly};

use crate::member::Member;
use crate::ordered::put_types_in_order;
use cert_fields::CccEntry;
use constraint_meet::ANY_CONTENT;
use der_core::Oid;
use std::alloc::{AllocError, Global};

fn is_any_content(content: &Oid) -> bool
    ensures { result ≡ bytes_eq content.now any_content }
{
    content.octets() == ANY_CONTENT.as_slice()
}

// Adds the content types of entries, but anyContentType.
fn push_types(types: &mut Vec<Oid>, entries: &[CccEntry<'_>]) -> Result<(), AllocError>
    ensures { OnOk result ((content : List ℕ) → Contains types.new.items content
        ↔ (Contains types.old.items content
        ⊎ HasOwnType (map entry_view entries.now) content)) }
{
    for entry in entries {
        if !is_any_content(&entry.content) {
            types.push(entry.content)?;
        }
    }
    Ok(())
}

// The content types of all members, but anyContentType, in the order in which they come.
fn all_types(alloc: Global, members: &[Member<'_>]) -> Result<Vec<Oid>, AllocError>
    ensures { IfOk result (λ types. (content : List ℕ) → Contains types.items content
        ↔ IsOwnType members.now content) }
{
    let mut types = Vec::new(alloc);
    for member in members {
        push_types(&mut types, member.entries())?;
    }
    Ok(types)
}

// The same, in ascending order of their octets, each once.
pub(crate) fn own_types(alloc: Global, members: &[Member<'_>]) -> Result<Vec<Oid>, AllocError>
    ensures { IfOk result (λ types. AreExactly (IsOwnType members.now) types.items) }
{
    let mut types = all_types(alloc, members)?;
    put_types_in_order(&mut types);
    Ok(types)
}
