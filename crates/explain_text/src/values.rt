// The values that all lists for a type of attributes cover.
ghost use Rattle.std.specs.Prelude.{◌≡◌, ◌++◌, Contains, IfOk, OnOk, map, string_bytes};
ghost use Rattle.std.specs.List.{filter, flat_map, list_all};
ghost use Rattle.der_core.specs.AttributeView.{attribute_view};
ghost use Rattle.constraint_meet.specs.Permits.{values_in};
ghost use Rattle.constraint_meet.specs.Tests.{is_covered};
ghost use Rattle.explain_text.specs.GrantText.{value_text};
ghost use Rattle.explain_text.specs.Kept.{AddsValues};
ghost use Rattle.explain_text.specs.Ordered.{AreExactly, lent};

use crate::listed::{Listed, all_listed, push_values};
use crate::ordered::put_in_order;
use der_core::Attr;
use report_text::push_hex;
use std::alloc::{AllocError, Global};

// All values that are listed, in ascending order, each once.
fn values_of<'a>(alloc: Global, listed: &[Listed<'a>]) -> Result<Vec<&'a [u8]>, AllocError>
    ensures { IfOk result (λ values. AreExactly
        (Contains (flat_map (λ a. values_in a.values) listed.now)) (lent values.items)) }
{
    let mut values = Vec::new(alloc);
    for one in listed {
        push_values(&mut values, one.values)?;
    }
    put_in_order(&mut values);
    Ok(values)
}

fn all_cover(listed: &[Listed<'_>], value: &[u8]) -> bool
    ensures { result ≡ list_all (λ a. is_covered a value.now) listed.now }
{
    for one in listed {
        if !one.covers(value) {
            return false;
        }
    }
    true
}

fn push_value(alloc: Global, text: &mut String, value: &[u8]) -> Result<(), AllocError>
    ensures ok { OnOk result
        (string_bytes text.new ≡ string_bytes text.old ++ value_text value.now) }
{
    text.push(' ')?;
    push_hex(alloc, text, value)
}

// Those of the values that each list covers.
fn push_covered(
    alloc: Global,
    text: &mut String,
    listed: &[Listed<'_>],
    values: &[&[u8]],
) -> Result<(), AllocError>
    ensures ok { OnOk result (string_bytes text.new ≡ string_bytes text.old ++ flat_map value_text
        (filter (λ value. list_all (λ a. is_covered a value) listed.now) (lent values.now))) }
{
    for value in values {
        if all_cover(listed, value) {
            push_value(alloc, text, value)?;
        }
    }
    Ok(())
}

// Those of the lists of attributes that are all of one type.
pub(crate) fn push_shared(
    alloc: Global,
    text: &mut String,
    attributes: &[Attr<'_>],
) -> Result<(), AllocError>
    ensures ok { OnOk result (AddsValues (map attribute_view attributes.now)
        (string_bytes text.old) (string_bytes text.new)) }
{
    let listed = all_listed(alloc, attributes)?;
    let values = values_of(alloc, &listed)?;
    push_covered(alloc, text, &listed, &values)
}
