// Reading a package from its signed attributes.
ghost use Rattle.std.specs.Prelude.{◌≡◌, ◌↔◌, Some, option_map, IfSome};
ghost use Rattle.der_core.specs.Reads.{Reads, Answers};
ghost use Rattle.der_core.specs.Time.{time_text, IsTime};
ghost use Rattle.package_attrs.specs.Attributes.{HaveOwnTypes, HasTime, HasIdentifier};
ghost use Rattle.package_attrs.specs.Attributes.{HasTargets, HasCommunities, HasInfo, Describes};
ghost use Rattle.package_attrs.specs.Description.{Description, description};
ghost use Rattle.package_attrs.specs.Identifier.{view};
ghost use Rattle.package_attrs.specs.PackageReading.{one_time_of, identifier_in, time_in};
ghost use Rattle.package_attrs.specs.PackageReading.{targets_in, communities_in, info_in};
ghost use Rattle.package_attrs.specs.PackageReading.{package_of};

use crate::content::{content_in, digest_in};
use crate::find_attribute::values_of;
use crate::{
    Communities, Dependencies, Identifier, Info, Package, Targets, attribute_types as types,
    read_communities, read_identifier, read_info, read_targets,
};
use attribute_set::Attributes;
use der_core::{Cursor, Time};

#[tactic(auto, unfolding(crate::specs::PackageReading::one_time_of, der_core::specs::TimeReading::time_at))]
fn one_time(values: &[u8]) -> Option<Time>
    ensures { Answers (λ time. time) result (one_time_of values.now) }
{
    let mut items = Cursor::new(values);
    let (tag, contents, _) = items.next()?;
    let time = Time::read(tag, contents)?;
    if items.at_end() { Some(time) } else { None }
}

// The time, in either form, where the octets are exactly one.
fn read_one_time(values: &[u8]) -> Option<Time>
    ensures spelled { Reads time_text IsTime values.now result }
    ensures exact { Answers (λ time. time) result (one_time_of values.now) }
{
    one_time(values)
}

#[tactic(auto, unfolding(crate::specs::PackageReading::identifier_in))]
fn identifier_in(attrs: &Attributes<'_>) -> Option<Identifier>
    ensures exact { Answers view result (identifier_in attrs.now) }
    ensures sound { IfSome result (λ i. HasIdentifier attrs.now (view i)) }
{
    read_identifier(values_of(attrs, &types::FIRMWARE_PACKAGE_ID)?)
}

// The moment of signing, where it is there.
#[tactic(auto, unfolding(crate::specs::PackageReading::time_in))]
fn time_in(attrs: &Attributes<'_>) -> Option<Option<Time>>
    requires { HaveOwnTypes attrs.now }
    ensures exact { Answers (λ time. time) result (time_in attrs.now) }
    ensures sound { IfSome result (λ time. HasTime attrs.now time) }
{
    match values_of(attrs, &types::SIGNING_TIME) {
        Some(values) => Some(Some(read_one_time(values)?)),
        None => Some(None),
    }
}

#[tactic(auto, unfolding(crate::specs::PackageReading::targets_in))]
fn targets_in<'a>(attrs: &Attributes<'a>) -> Option<Targets<'a>>
    ensures exact { Answers (λ ids. ids) result (targets_in attrs.now) }
    ensures sound { IfSome result (λ ids. HasTargets attrs.now ids) }
{
    read_targets(values_of(attrs, &types::TARGET_HARDWARE_IDS)?)
}

#[tactic(auto, unfolding(crate::specs::PackageReading::communities_in))]
fn communities_in<'a>(attrs: &Attributes<'a>) -> Option<Option<Communities<'a>>>
    requires { HaveOwnTypes attrs.now }
    ensures exact { Answers (λ list. list) result (communities_in attrs.now) }
    ensures sound { IfSome result (λ list. HasCommunities attrs.now list) }
{
    match values_of(attrs, &types::COMMUNITY_IDENTIFIERS) {
        Some(values) => Some(Some(read_communities(values)?)),
        None => Some(None),
    }
}

#[tactic(auto, unfolding(crate::specs::PackageReading::info_in))]
fn info_in<'a>(attrs: &Attributes<'a>) -> Option<Info<'a>>
    requires { HaveOwnTypes attrs.now }
    ensures exact { Answers (λ info. info) result (info_in attrs.now) }
    ensures sound { IfSome result (λ info. HasInfo attrs.now info) }
{
    match values_of(attrs, &types::FIRMWARE_PACKAGE_INFO) {
        Some(values) => read_info(values),
        None => Some(Info {
            kind: None,
            dependencies: Dependencies::none(),
        }),
    }
}

#[tactic(auto, unfolding(crate::specs::PackageReading::package_of))]
fn read_whole<'a>(attrs: &Attributes<'a>) -> Option<Package<'a>>
    requires { HaveOwnTypes attrs.now }
    ensures exact { Answers description result (package_of attrs.now) }
    ensures sound { IfSome result
        (λ p. Describes attrs.now (description p)) }
{
    let content = content_in(attrs)?;
    let digest = digest_in(attrs)?;
    let identifier = identifier_in(attrs)?;
    time_in(attrs)?;
    Some(Package {
        content,
        digest,
        identifier,
        targets: targets_in(attrs)?,
        communities: communities_in(attrs)?,
        info: info_in(attrs)?,
    })
}

/// The package that signed attributes describe, of which no type stands twice (RFC 4108, section
/// 2.2; RFC 5652, section 11). None where an attribute that must be there isn't, or one that is
/// read doesn't have exactly one value, of its form. Attributes of other types are passed over.
pub fn read_package<'a>(attrs: &Attributes<'a>) -> Option<Package<'a>>
    requires own { HaveOwnTypes attrs.now }
    ensures described { (d : Description) → (option_map description result ≡ Some d)
        ↔ Describes attrs.now d }
    ensures exact { Answers description result (package_of attrs.now) }
{
    read_whole(attrs)
}
