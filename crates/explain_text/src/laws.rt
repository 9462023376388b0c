// Laws of the definitions, which no call computes.
ghost use Rattle.std.specs.Prelude.{◌≡◌, ◌↔◌, ℕ, List, [], ◌∷◌, Contains, IsSome, Some};
ghost use Rattle.std.specs.List.{AllByRecursion};
ghost use Rattle.der_core.specs.Attribute.{Attribute};
ghost use Rattle.der_core.specs.Shapes.{IsOneElement};
ghost use Rattle.cert_fields.specs.Constraints.{ContentConstraint};
ghost use Rattle.constraint_meet.specs.Grants.{Members, GrantPermits};
ghost use Rattle.constraint_meet.specs.Permits.{any_content, deciding, IsCovered};
ghost use Rattle.explain_text.specs.Granted.{IsNamed, sources_of, constrained_by};
ghost use Rattle.explain_text.specs.GrantText.{IsGrantText};

/// A law: a grant has one text at most.
pub fn one_grant_text()
    ensures { (members : Members) (text other : List ℕ) → IsGrantText members text
        → IsGrantText members other → text ≡ other }
{}

/// A law: `allow` stands exactly where the members permit the content type without attributes; and
/// after it, a value is covered by every list for a type of attributes exactly where they permit an
/// attribute of that type with this value alone.
pub fn lines_tell_what_is_permitted()
    ensures allow { (members : Members) (content : List ℕ) → IsSome (sources_of content members)
        ↔ GrantPermits content [] members }
    ensures values { (members : Members) (content : List ℕ) (sources : List ContentConstraint)
        (kind value : List ℕ) → sources_of content members ≡ Some sources → IsOneElement value
        → ((other : Attribute) → Contains (constrained_by sources) other → other.kind ≡ kind
        → IsCovered other value)
        ↔ GrantPermits content (record { kind = kind; values = value } ∷ []) members }
{}

/// A law: the last lines are those of each content type that no member names, since the same entries
/// decide for it.
pub fn other_stands_for_the_rest()
    ensures decides { (members : Members) (content : List ℕ) → (IsNamed members content → ⊥)
        → AllByRecursion (λ entries. deciding content entries ≡ deciding any_content entries)
        members }
    ensures sources { (members : Members) (content : List ℕ) → (IsNamed members content → ⊥)
        → sources_of content members ≡ sources_of any_content members }
{}
