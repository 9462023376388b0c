// The attributes of one type, among attributes in order.
ghost use Rattle.std.specs.Prelude.{◌≡◌, ◌≤◌, true, false, length, map};
ghost use Rattle.der_core.specs.AttributeView.{attribute_view};
ghost use Rattle.std.specs.List.Sorted.{IsPartitionPoint};
ghost use Rattle.std.specs.Cmp.Lexicographic.{slice_cmp};
ghost use Rattle.std.specs.Ordering.{is_le, is_lt, nat_cmp};
ghost use Rattle.explain_text.specs.Kept.{AscendByKind, IsGroup};

use der_core::Attr;

// How many attributes come before those of this type.
fn first_of(attributes: &[Attr<'_>], kind: &[u8]) -> usize
    requires ordered { AscendByKind attributes.now }
    ensures bound { result ≤ length attributes.now }
    ensures parted { IsPartitionPoint
        (λ a. is_lt (slice_cmp nat_cmp a.kind kind.now) ≡ true)
        (λ a. is_lt (slice_cmp nat_cmp a.kind kind.now) ≡ false) attributes.now result }
{
    attributes.partition_point(|attribute| attribute.kind.octets().cmp(kind).is_lt())
}

// How many come before all those behind this type.
fn end_of(attributes: &[Attr<'_>], kind: &[u8]) -> usize
    requires ordered { AscendByKind attributes.now }
    ensures bound { result ≤ length attributes.now }
    ensures parted { IsPartitionPoint
        (λ a. is_le (slice_cmp nat_cmp a.kind kind.now) ≡ true)
        (λ a. is_le (slice_cmp nat_cmp a.kind kind.now) ≡ false) attributes.now result }
{
    attributes.partition_point(|attribute| attribute.kind.octets().cmp(kind).is_le())
}

// Those of this type, which stand side by side.
pub(crate) fn group_of<'b, 'a>(attributes: &'b [Attr<'a>], kind: &[u8]) -> &'b [Attr<'a>]
    requires ordered { AscendByKind attributes.now }
    ensures { IsGroup (map attribute_view attributes.now) kind.now (map attribute_view result.now) }
{
    let first = first_of(attributes, kind);
    let end = end_of(attributes, kind);
    &attributes[first..end]
}
