// The lines of a grant.
ghost use Rattle.std.specs.Prelude.{◌≡◌, ◌++◌, List, ℕ, IfOk, OnOk, OnErr, codes, map, string_bytes};
ghost use Rattle.der_core.specs.AttributeView.{attribute_view};
ghost use Rattle.constraint_meet.specs.Grants.{Members};
ghost use Rattle.report_text.specs.Dotted.{dotted_of};
ghost use Rattle.explain_text.specs.Granted.{sources_of};
ghost use Rattle.explain_text.specs.GrantText.{AreKindLines, AreLinesOf, AreTypeLines, IsGrantText, IsKindLine};
ghost use Rattle.explain_text.specs.Kept.{AscendByKind};
ghost use Rattle.explain_text.specs.Ordered.{Adds, AreTexts};

use crate::group::group_of;
use crate::member::{Member, members_of};
use crate::memo::Memo;
use crate::sources::{constrained_by, in_order, kinds_of};
use crate::types::own_types;
use constraint_meet::{ANY_CONTENT, Grant};
use der_core::{Attr, Oid};
use report_text::push_oid;
use std::alloc::{AllocError, Global};

// The line of each of these types of attributes, among attributes in order.
fn push_each_kind<'a>(
    alloc: Global,
    text: &mut String,
    memo: &mut Memo<'a>,
    attributes: &[Attr<'a>],
    kinds: &[Oid],
) -> Result<(), AllocError>
    requires ordered { AscendByKind attributes.now }
    ensures ok { OnOk result (Adds (AreTexts (IsKindLine (map attribute_view attributes.now)) kinds.now)
        (string_bytes text.old) (string_bytes text.new)) }
{
    for kind in kinds {
        memo.push_kind(alloc, text, kind, group_of(attributes, kind.octets()))?;
    }
    Ok(())
}

// The lines of all types of these attributes.
fn push_kinds<'a>(
    alloc: Global,
    text: &mut String,
    memo: &mut Memo<'a>,
    attributes: Vec<Attr<'a>>,
) -> Result<(), AllocError>
    ensures ok { OnOk result (Adds (AreKindLines (map attribute_view attributes.entry.items))
        (string_bytes text.old) (string_bytes text.new)) }
{
    let attributes = in_order(attributes);
    let kinds = kinds_of(alloc, &attributes)?;
    push_each_kind(alloc, text, memo, &attributes, &kinds)
}

// A word with the space behind it, a name, and the end of the line.
fn push_named(text: &mut String, word: &str, name: &str) -> Result<(), AllocError>
    ensures ok { OnOk result (string_bytes text.new
        ≡ string_bytes text.old ++ (word.now ++ (name.now ++ codes "\n"))) }
{
    text.push_str(word)?;
    text.push_str(name)?;
    text.push('\n')
}

// The lines of a content type under this name.
fn push_type<'a>(
    alloc: Global,
    text: &mut String,
    memo: &mut Memo<'a>,
    members: &[Member<'a>],
    content: &[u8],
    name: &str,
) -> Result<(), AllocError>
    ensures ok { OnOk result (Adds (AreTypeLines name.now (sources_of content.now members.now))
        (string_bytes text.old) (string_bytes text.new)) }
{
    match constrained_by(alloc, members, content)? {
        Some(attributes) => {
            push_named(text, "allow ", name)?;
            memo.turn_to(alloc, members, content)?;
            push_kinds(alloc, text, memo, attributes)
        }
        None => push_named(text, "deny ", name),
    }
}

// The lines of a content type that is named.
fn push_own_type<'a>(
    alloc: Global,
    text: &mut String,
    memo: &mut Memo<'a>,
    members: &[Member<'a>],
    content: &Oid,
) -> Result<(), AllocError>
    ensures ok { OnOk result (Adds (AreLinesOf members.now content.now)
        (string_bytes text.old) (string_bytes text.new)) }
{
    let mut name = String::new(alloc);
    push_oid(alloc, &mut name, content)?;
    push_type(alloc, text, memo, members, content.octets(), &name)
}

// Those of each of these content types.
fn push_types<'a>(
    alloc: Global,
    text: &mut String,
    memo: &mut Memo<'a>,
    members: &[Member<'a>],
    types: &[Oid],
) -> Result<(), AllocError>
    ensures ok { OnOk result (Adds (AreTexts (AreLinesOf members.now) types.now)
        (string_bytes text.old) (string_bytes text.new)) }
{
    for content in types {
        push_own_type(alloc, text, memo, members, content)?;
    }
    Ok(())
}

// The lines, as a text of their own.
fn text_of(alloc: Global, grant: &Grant<'_>) -> Result<String, AllocError>
    ensures text { IfOk result (λ text. IsGrantText grant.now (string_bytes text)) }
{
    let members = members_of(alloc, grant)?;
    let types = own_types(alloc, &members)?;
    let mut memo = Memo::new(alloc, &members)?;
    let mut text = String::new(alloc);
    push_types(alloc, &mut text, &mut memo, &members, &types)?;
    push_type(alloc, &mut text, &mut memo, &members, &ANY_CONTENT, "other")?;
    Ok(text)
}

/// Appends the lines of what a grant lets through. For each content type that one of its members
/// names but anyContentType, ascending by its octets: `allow` or `deny`, and after an `allow` a line
/// for each type of attributes that the deciding entries constrain, with those listed values that
/// each of them covers, both ascending by their octets. Then the same for every other content type.
/// For want of memory the list stays as it was.
pub fn put_grant(alloc: Global, out: &mut Vec<u8>, grant: &Grant<'_>) -> Result<(), AllocError>
    ensures ok { OnOk result (Adds (IsGrantText grant.now) out.old.items out.new.items) }
    ensures err { OnErr result (out.new.items ≡ out.old.items) }
{
    let text = text_of(alloc, grant)?;
    out.extend_from_slice(text.as_bytes())
}
