// The constraints of one member, with its entries in order.
ghost use Rattle.std.specs.Prelude.{◌≡◌, ℕ, List, [], Contains, IfOk, IfSome, IfNone, IsPermutation, bytes_eq, map};
ghost use Rattle.std.specs.List.{IsDistinct};
ghost use Rattle.der_core.specs.Reads.{Answers};
ghost use Rattle.cert_fields.specs.Constraints.{ContentConstraint};
ghost use Rattle.cert_fields.specs.ConstraintsView.{entry_view};
ghost use Rattle.constraint_meet.specs.Grants.{entries_of};
ghost use Rattle.constraint_meet.specs.Permits.{entry_for, deciding};
ghost use Rattle.explain_text.specs.Granted.{source_of};
ghost use Rattle.explain_text.specs.Kept.{AscendByContent};

use cert_fields::{Ccc, CccEntry};
use constraint_meet::{ANY_CONTENT, Grant};
use std::alloc::{AllocError, Global};
use std::marker::Model;

// A member of a path, seen as the entries of its constraints; without constraints it has none.
// Beside them its entries are kept in ascending order of their content types.
#[derive(Drop)]
pub(crate) struct Member<'a> {
    constraints: Option<Ccc<'a>>,
    ordered: Vec<CccEntry<'a>>,
}

impl<'a> Model for Member<'a> {
    ghost use Rattle.std.specs.Prelude.{List};
    ghost use Rattle.cert_fields.specs.Constraints.{ContentConstraint};
    ghost use Rattle.constraint_meet.specs.Grants.{entries_of};
    ghost use Rattle.explain_text.specs.Kept.{AreKept};

    ghost Value = { List ContentConstraint };

    ghost view = { λ m. entries_of m.constraints };

    ghost invariant = { λ m. AreKept (entries_of m.constraints) m.ordered.items };
}

// The entries, in their order.
fn entries_in<'a>(alloc: Global, ccc: &Ccc<'a>) -> Result<Vec<CccEntry<'a>>, AllocError>
    ensures same { IfOk result (λ entries. map entry_view entries.items ≡ ccc.now) }
{
    let mut entries = Vec::new(alloc);
    let mut left = ccc.entries();
    while let Some(entry) = left.next() {
        entries.push(entry)?;
    }
    Ok(entries)
}

// The entries in ascending order of their content types. Takes no memory.
fn in_order(mut entries: Vec<CccEntry<'_>>) -> Vec<CccEntry<'_>>
    ensures same { IsPermutation entries.entry.items result.items }
    ensures ordered { AscendByContent result.items }
{
    entries.sort_unstable_by(|this, that| this.content.octets().cmp(that.content.octets()));
    entries
}

// The content types of constraints differ.
fn types_differ(ccc: &Ccc<'_>)
    ensures { IsDistinct bytes_eq (map (λ e. e.content) ccc.now) }
{
    ccc.entries();
}

// An entry of this content type, where there is one among entries in order.
fn find_entry<'b, 'a>(entries: &'b [CccEntry<'a>], content: &[u8]) -> Option<&'b CccEntry<'a>>
    requires ordered { AscendByContent entries.now }
    ensures found { IfSome result (λ entry.
        Contains entries.now entry.now × (entry.now.content ≡ content.now)) }
    ensures none { IfNone result ((entry : CccEntry) → Contains entries.now entry
        → entry.content ≡ content.now → ⊥) }
{
    match entries.binary_search_by(|entry| entry.content.octets().cmp(content)) {
        Ok(place) => Some(&entries[place]),
        Err(_) => None,
    }
}

impl<'a> Member<'a> {
    // The member with these constraints, where it has any.
    fn new(alloc: Global, constraints: Option<Ccc<'a>>) -> Result<Member<'a>, AllocError>
        ensures same { IfOk result (λ member. member ≡ entries_of constraints.entry) }
    {
        match constraints {
            Some(ccc) => Member::with(alloc, ccc),
            None => Ok(Member {
                constraints: None,
                ordered: Vec::new(alloc),
            }),
        }
    }

    fn with(alloc: Global, ccc: Ccc<'a>) -> Result<Member<'a>, AllocError>
        ensures same { IfOk result (λ member. member ≡ ccc.entry) }
    {
        types_differ(&ccc);
        let ordered = in_order(entries_in(alloc, &ccc)?);
        Ok(Member {
            constraints: Some(ccc),
            ordered,
        })
    }

    // The entries, in ascending order of their content types.
    pub(crate) fn entries(&self) -> &[CccEntry<'a>]
        ensures same { IsPermutation self.now (map entry_view result.now) }
    {
        &self.ordered
    }

    // The entry of a content type.
    pub(crate) fn entry_for(&self, content: &[u8]) -> Option<&CccEntry<'a>>
        ensures exact { Answers (λ e. entry_view e.now) result (entry_for content.now self.now) }
    {
        find_entry(&self.ordered, content)
    }

    // The entry that decides for a content type.
    fn deciding(&self, content: &[u8]) -> Option<&CccEntry<'a>>
        ensures exact { Answers (λ e. entry_view e.now) result (deciding content.now self.now) }
    {
        match self.entry_for(content) {
            Some(own) => Some(own),
            None => self.entry_for(&ANY_CONTENT),
        }
    }

    // The entry that decides for a content type, where it says canSource.
    pub(crate) fn source_of(&self, content: &[u8]) -> Option<&CccEntry<'a>>
        ensures exact { Answers (λ e. entry_view e.now) result (source_of content.now self.now) }
    {
        match self.deciding(content) {
            Some(entry) if entry.can_source => Some(entry),
            _ => None,
        }
    }
}

// The members of a grant, in their order.
pub(crate) fn members_of<'a>(
    alloc: Global,
    grant: &Grant<'a>,
) -> Result<Vec<Member<'a>>, AllocError>
    ensures same { IfOk result (λ members. members.items ≡ grant.now) }
{
    let mut members = Vec::new(alloc);
    for place in 0..grant.member_count() {
        let member = Member::new(alloc, grant.constraints_at(place))?;
        members.reserve(1)?;
        members.push_reserved(member);
    }
    Ok(members)
}
