// What two grants permit together.
ghost use Rattle.std.specs.Prelude.{◌≡◌, ◌↔◌, ◌++◌, ◌∷◌, [], ℕ, List, IfOk};
ghost use Rattle.der_core.specs.Attribute.{Attribute};
ghost use Rattle.constraint_meet.specs.Grants.{GrantPermits};

use crate::grant::{Grant, Limits};
use crate::member::Member;
use std::alloc::{AllocError, Global};

/// The grant that permits what both do, for every content type. It keeps the members of both, and
/// so takes the memory of both.
pub fn meet<'a>(
    alloc: Global,
    these: &Grant<'a>,
    those: &Grant<'a>,
) -> Result<Grant<'a>, AllocError>
    ensures both { IfOk result (λ grant. (content : List ℕ) (attributes : List Attribute)
        → GrantPermits content attributes grant
        ↔ (GrantPermits content attributes these.now × GrantPermits content attributes those.now)) }
    ensures members { IfOk result (λ grant. grant ≡ these.now ++ those.now) }
{
    side_by_side(alloc, these, those)
}

fn side_by_side<'a>(
    alloc: Global,
    these: &Grant<'a>,
    those: &Grant<'a>,
) -> Result<Grant<'a>, AllocError>
    ensures members { IfOk result (λ grant. grant ≡ these.now ++ those.now) }
{
    let mut members = Vec::new(alloc);
    append(&mut members, these)?;
    append(&mut members, those)?;
    Ok(Grant {
        limits: Limits::Each(members),
    })
}

// Adds a copy of the grant's members.
fn append<'a>(members: &mut Vec<Member<'a>>, grant: &Grant<'a>) -> Result<(), AllocError>
    ensures { IfOk result (λ _. members.new.items ≡ members.old.items ++ grant.now) }
{
    match &grant.limits {
        Limits::Everything => Ok(()),
        Limits::Nothing => {
            members.reserve(1)?;
            members.push_reserved(Member { constraints: None });
            Ok(())
        }
        Limits::Each(more) => append_each(members, more),
    }
}

fn append_each<'a>(members: &mut Vec<Member<'a>>, more: &[Member<'a>]) -> Result<(), AllocError>
    ensures { IfOk result (λ _. members.new.items ≡ members.old.items ++ more.now) }
{
    for member in more {
        let copy = member.copy()?;
        members.reserve(1)?;
        members.push_reserved(copy);
    }
    Ok(())
}
