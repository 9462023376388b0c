// Laws of the definitions, which no call computes.
ghost use Rattle.std.specs.Prelude.{◌≡◌, ℕ, List, Some};
ghost use Rattle.der_core.specs.Attribute.{Attribute};
ghost use Rattle.package_attrs.specs.declared.community.Community.{Community};
ghost use Rattle.package_attrs.specs.declared.package.Info.{Info};
ghost use Rattle.package_attrs.specs.Attributes.{HaveOwnTypes, Describes};
ghost use Rattle.package_attrs.specs.Communities.{communities_text, AreCommunities};
ghost use Rattle.package_attrs.specs.Description.{Description};
ghost use Rattle.package_attrs.specs.Identifier.{Named, identifier_text, IsIdentifier};
ghost use Rattle.package_attrs.specs.Image.{IsImage};
ghost use Rattle.package_attrs.specs.Information.{info_text, IsInfo};
ghost use Rattle.package_attrs.specs.ListReading.{targets_of, communities_of, info_of};
ghost use Rattle.package_attrs.specs.Reading.{identifier_of};
ghost use Rattle.package_attrs.specs.Targets.{targets_text, AreTargets};

/// A law: two identifiers never share a text, and a text is read as the identifier that it spells.
pub fn one_text_each()
    ensures unique { (i j : Named) → IsIdentifier i → IsIdentifier j
        → identifier_text i ≡ identifier_text j → i ≡ j }
    ensures read { (i : Named) → IsIdentifier i → identifier_of (identifier_text i) ≡ Some i }
{}

/// The same law for lists of hardware types.
pub fn one_text_of_targets()
    ensures unique { (a b : List (List ℕ)) → AreTargets a → AreTargets b
        → targets_text a ≡ targets_text b → a ≡ b }
    ensures read { (a : List (List ℕ)) → AreTargets a → targets_of (targets_text a) ≡ Some a }
{}

/// The same law for lists of communities.
pub fn one_text_of_communities()
    ensures unique { (a b : List Community) → AreCommunities a → AreCommunities b
        → communities_text a ≡ communities_text b → a ≡ b }
    ensures read { (a : List Community) → AreCommunities a
        → communities_of (communities_text a) ≡ Some a }
{}

/// The same law for a package's type and dependencies.
pub fn one_text_of_info()
    ensures unique { (a b : Info) → IsInfo a → IsInfo b → info_text a ≡ info_text b → a ≡ b }
    ensures read { (a : Info) → IsInfo a → info_of (info_text a) ≡ Some a }
{}

/// A law: there is one image in a content.
pub fn one_image()
    ensures { (content these those : List ℕ)
        → IsImage content these → IsImage content those → these ≡ those }
{}

/// A law: attributes of which no type stands twice describe one package at most.
pub fn one_description()
    ensures { (attrs : List Attribute) (d e : Description) → HaveOwnTypes attrs
        → Describes attrs d → Describes attrs e → d ≡ e }
{}
