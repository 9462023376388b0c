// Fields at a cursor's place.
ghost use Rattle.std.specs.Prelude.{◌++◌, ℕ, List, option_map};
ghost use Rattle.der_core.specs.Element.{enc, AreOctets};
ghost use Rattle.der_core.specs.Objects.{IsOid};
ghost use Rattle.der_core.specs.Reads.{Reads, Answers};
ghost use Rattle.package_attrs.specs.Identifier.{HasOneTo64};
ghost use Rattle.package_attrs.specs.Reading.{oid_at, octets_at};

use der_core::{Cursor, Octets64, Oid, read_oid, tags};

#[tactic(auto, unfolding(crate::specs::Reading::oid_at))]
fn oid_at(fields: &mut Cursor<'_>) -> Option<Oid>
    ensures { Answers (λ id. (id, fields.new)) result (oid_at fields.old) }
{
    read_oid(fields.tagged(tags::OBJECT_IDENTIFIER)?)
}

/// Passes the OBJECT IDENTIFIER at the front (X.690, section 8.19). None exactly where none stands
/// there, and then no clause says how far the cursor has come.
pub fn read_oid_at(fields: &mut Cursor<'_>) -> Option<Oid>
    ensures spelled { AreOctets fields.old
        → Reads {V = List ℕ × List ℕ} (λ x. enc 0x06 x.0 ++ x.1) (λ x. IsOid x.0)
        fields.old (option_map (λ id. (id, fields.new)) result) }
    ensures exact { Answers (λ id. (id, fields.new)) result (oid_at fields.old) }
{
    oid_at(fields)
}

#[tactic(auto, unfolding(crate::specs::Reading::octets_at))]
fn octets_at(fields: &mut Cursor<'_>) -> Option<Octets64>
    ensures { Answers (λ octets. (octets, fields.new)) result (octets_at fields.old) }
{
    Octets64::some(fields.tagged(tags::OCTET_STRING)?)
}

/// Passes the OCTET STRING of 1 to 64 octets at the front (X.690, section 8.7). None exactly where
/// none stands there, and then no clause says how far the cursor has come.
pub fn read_octets_at(fields: &mut Cursor<'_>) -> Option<Octets64>
    ensures spelled { AreOctets fields.old
        → Reads {V = List ℕ × List ℕ} (λ x. enc 0x04 x.0 ++ x.1) (λ x. HasOneTo64 x.0)
        fields.old (option_map (λ octets. (octets, fields.new)) result) }
    ensures exact { Answers (λ octets. (octets, fields.new)) result (octets_at fields.old) }
{
    octets_at(fields)
}
