// Putting octets in order, each of them once.
ghost use Rattle.std.specs.Prelude.{Contains};
ghost use Rattle.explain_text.specs.Ordered.{AreExactly, lent};

use der_core::Oid;

// Keeps each of the values once, in ascending order of their octets. Takes no memory.
pub(crate) fn put_in_order(values: &mut Vec<&[u8]>)
    ensures { AreExactly (Contains (lent values.old.items)) (lent values.new.items) }
{
    values.sort_unstable();
    values.dedup();
}

// Keeps each of the identifiers once, in ascending order of their octets. Takes no memory.
pub(crate) fn put_types_in_order(types: &mut Vec<Oid>)
    ensures { AreExactly (Contains types.old.items) types.new.items }
{
    types.sort_unstable_by(|this, that| this.octets().cmp(that.octets()));
    types.dedup();
}
