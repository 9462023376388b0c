// Laws of the definitions, which no call computes.
ghost use Rattle.std.specs.Prelude.{◌≡◌, ◌↔◌, ℕ, List, ◌++◌, ◌&&◌, Option, Some, None, IsTrue, Contains, map, bytes_eq};
ghost use Rattle.std.specs.List.{AllByRecursion, IsDistinct, concat};
ghost use Rattle.der_core.specs.Attribute.{Attribute};
ghost use Rattle.der_core.specs.Element.{AreOctets};
ghost use Rattle.der_core.specs.Shapes.{IsOneElement};
ghost use Rattle.cert_fields.specs.Constraints.{ContentConstraint};
ghost use Rattle.constraint_meet.specs.Covers.{Covers, covers};
ghost use Rattle.constraint_meet.specs.Permits.{any_content, entry_for, deciding, values_in, Permits, Within};
ghost use Rattle.constraint_meet.specs.Permits.{AreOfOctets, ListOctets};
ghost use Rattle.constraint_meet.specs.Tests.{member_permits};
ghost use Rattle.constraint_meet.specs.Grants.{Members, GrantPermits, grant_permits, everything, nothing, of_path};

/// A law: of octets the tests tell what is covered, and what one member permits.
pub fn tests_tell()
    ensures covers { (kind listed value : List ℕ) → AreOctets listed → AreOctets value
        → IsTrue (covers kind listed value) ↔ Covers kind listed value }
    ensures permits { (content : List ℕ) (attributes : List Attribute)
        (entries : List ContentConstraint) → AreOfOctets attributes → ListOctets entries
        → IsTrue (member_permits content attributes entries) ↔ Permits content attributes entries }
{}

/// A law: the values that a SET holds are its elements.
pub fn values_are_elements()
    ensures { (values : List (List ℕ)) → AllByRecursion IsOneElement values
        → values_in (concat values) ≡ values }
{}

/// A law: where no content type stands twice, the entry of a type decides for it, whatever another
/// entry says; and where none has it, the entry of any content type decides.
pub fn own_entry_decides()
    ensures own { (entries : List ContentConstraint) (entry : ContentConstraint)
        → IsDistinct bytes_eq (map (λ e. e.content) entries) → Contains entries entry
        → deciding entry.content entries ≡ Some entry }
    ensures any { (content : List ℕ) (entries : List ContentConstraint) (entry : ContentConstraint)
        → IsDistinct bytes_eq (map (λ e. e.content) entries) → Contains entries entry
        → entry.content ≡ any_content
        → ((other : ContentConstraint) → Contains entries other → other.content ≡ content → ⊥)
        → deciding content entries ≡ Some entry }
{}

/// A law: members side by side permit what both sides do, for every content type. No member permits
/// everything, and a member without an entry nothing. The members of a path permit what every
/// certificate and the anchor do.
pub fn side_by_side()
    ensures both { (content : List ℕ) (attributes : List Attribute) (these those : Members)
        → GrantPermits content attributes (these ++ those)
        ↔ (GrantPermits content attributes these × GrantPermits content attributes those) }
    ensures everything { (content : List ℕ) (attributes : List Attribute)
        → GrantPermits content attributes everything }
    ensures nothing { (content : List ℕ) (attributes : List Attribute)
        → GrantPermits content attributes nothing → ⊥ }
    ensures path { (content : List ℕ) (attributes : List Attribute)
        (certificates : List (Option (List ContentConstraint)))
        (anchor : Option (List ContentConstraint))
        → GrantPermits content attributes (of_path certificates anchor)
        ↔ Within content attributes certificates anchor }
{}
