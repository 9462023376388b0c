// Laws of the definitions, which no call computes.
ghost use Rattle.std.specs.Prelude.{◌≡◌, ◌++◌, ℕ, List, Some};
ghost use Rattle.package_attrs.specs.declared.name.PackageName.{PackageName};
ghost use Rattle.package_attrs.specs.Identifier.{IsName, name_text};
ghost use Rattle.package_attrs.specs.Reading.{name_at};

/// A law: a name that is written is read as that name, whatever follows it.
pub fn written_name_is_read()
    ensures { (name : PackageName) (rest : List ℕ) → IsName name
        → name_at (name_text name ++ rest) ≡ Some (name, rest) }
{}
