// Writing the signed attributes of a package.
ghost use Rattle.std.specs.Prelude.{◌≡◌, ◌++◌, ◌+◌, ◌∷◌, [], ◌≤◌, ◌^◌, OnOk, IfOk, length, map};
ghost use Rattle.der_core.specs.Attribute.{attribute_text};
ghost use Rattle.std.specs.List.{concat};
ghost use Rattle.attribute_write.specs.Communities.{community_of};
ghost use Rattle.package_attrs.specs.AttributeTypes.{firmware_package_id};
ghost use Rattle.package_attrs.specs.AttributeTypes.{target_hardware_ids, community_identifiers, firmware_package_info};
ghost use Rattle.package_attrs.specs.Communities.{communities_text};
ghost use Rattle.package_attrs.specs.Identifier.{view, identifier_text};
ghost use Rattle.package_attrs.specs.Information.{info_text};
ghost use Rattle.package_attrs.specs.Targets.{targets_text};
ghost use Rattle.sha2.specs.Sha256.{sha256};
ghost use Rattle.packager.specs.PackagePlan.{package_view, IsPackagePlan};
ghost use Rattle.packager.specs.PlannedMessage.{one_value, value_if, named_communities, named_info};
ghost use Rattle.packager.specs.PlannedMessage.{planned_description, described_attributes, planned_content};

use crate::package_plan::PackagePlan;
use attribute_write::{NamedCommunity, put_communities, put_identifier, put_info, put_targets};
use cms_signed::content_types::FIRMWARE_PACKAGE;
use der_core::Oid;
use package_attrs::{Identifier, PackageName, attribute_types as types};
use signed_write::{push_attribute, push_content_type, push_message_digest};
use std::alloc::{AllocError, Global};

// The package's identifier (RFC 4108, section 2.2.3).
fn push_identifier(
    alloc: Global,
    parts: &mut Vec<Vec<u8>>,
    identifier: &Identifier,
) -> Result<(), AllocError>
    ensures ok { OnOk result (map (λ part. part.items) parts.new.items
        ≡ map (λ part. part.items) parts.old.items
        ++ attribute_text (one_value firmware_package_id (identifier_text (view identifier.now))) ∷ []) }
    ensures most { OnOk result (length (concat (map (λ part. part.items) parts.new.items))
        ≤ length (concat (map (λ part. part.items) parts.old.items)) + 300) }
{
    let mut value = Vec::new(alloc);
    put_identifier(alloc, &mut value, identifier)?;
    push_attribute(alloc, parts, &types::FIRMWARE_PACKAGE_ID, &value)
}

// The hardware types that it is for (RFC 4108, section 2.2.4).
fn push_targets(alloc: Global, parts: &mut Vec<Vec<u8>>, hw_types: &[Oid]) -> Result<(), AllocError>
    requires few { length hw_types.now ≤ 64 }
    ensures ok { OnOk result (map (λ part. part.items) parts.new.items
        ≡ map (λ part. part.items) parts.old.items
        ++ attribute_text (one_value target_hardware_ids (targets_text hw_types.now)) ∷ []) }
    ensures most { OnOk result (length (concat (map (λ part. part.items) parts.new.items))
        ≤ length (concat (map (λ part. part.items) parts.old.items)) + 5000) }
{
    let mut value = Vec::new(alloc);
    put_targets(alloc, &mut value, hw_types)?;
    push_attribute(alloc, parts, &types::TARGET_HARDWARE_IDS, &value)
}

// The communities that it is for, where there are any (RFC 4108, section 2.2.8).
fn push_communities(
    alloc: Global,
    parts: &mut Vec<Vec<u8>>,
    communities: &[NamedCommunity],
) -> Result<(), AllocError>
    requires few { length communities.now ≤ 64 }
    ensures ok { OnOk result (map (λ part. part.items) parts.new.items
        ≡ map (λ part. part.items) parts.old.items
        ++ map attribute_text (value_if community_identifiers communities_text
        (named_communities (map community_of communities.now)))) }
    ensures most { OnOk result (length (concat (map (λ part. part.items) parts.new.items))
        ≤ length (concat (map (λ part. part.items) parts.old.items)) + 16000) }
{
    if communities.is_empty() {
        return Ok(());
    }
    let mut value = Vec::new(alloc);
    put_communities(alloc, &mut value, communities)?;
    push_attribute(alloc, parts, &types::COMMUNITY_IDENTIFIERS, &value)
}

// The package's type and dependencies, where there are any (RFC 4108, section 2.2.9).
fn push_info(
    alloc: Global,
    parts: &mut Vec<Vec<u8>>,
    kind: Option<u128>,
    dependencies: &[PackageName],
) -> Result<(), AllocError>
    requires few { length dependencies.now ≤ 8 }
    ensures ok { OnOk result (map (λ part. part.items) parts.new.items
        ≡ map (λ part. part.items) parts.old.items
        ++ map attribute_text (value_if firmware_package_info info_text
        (named_info kind dependencies.now))) }
    ensures most { OnOk result (length (concat (map (λ part. part.items) parts.new.items))
        ≤ length (concat (map (λ part. part.items) parts.old.items)) + 1000) }
{
    if kind.is_none() && dependencies.is_empty() {
        return Ok(());
    }
    let mut value = Vec::new(alloc);
    put_info(alloc, &mut value, kind, dependencies)?;
    push_attribute(alloc, parts, &types::FIRMWARE_PACKAGE_INFO, &value)
}

// The signed attributes of a planned package, each the text of one, in no order. `digest` is the
// SHA-256 of its content.
pub(crate) fn parts(
    alloc: Global,
    plan: &PackagePlan,
    digest: &[u8; 32],
) -> Result<Vec<Vec<u8>>, AllocError>
    requires plan { IsPackagePlan (package_view plan.now) }
    requires digest { digest.now ≡ sha256 (planned_content (package_view plan.now)) }
    ensures ok { IfOk result (λ parts. map (λ part. part.items) parts.items ≡ map attribute_text
        (described_attributes (planned_description (package_view plan.now)))) }
    ensures most { IfOk result (λ parts.
        length (concat (map (λ part. part.items) parts.items)) ≤ 30000) }
{
    let mut parts = Vec::new(alloc);
    push_content_type(alloc, &mut parts, &FIRMWARE_PACKAGE)?;
    push_message_digest(alloc, &mut parts, digest)?;
    push_identifier(alloc, &mut parts, &plan.identifier)?;
    push_targets(alloc, &mut parts, &plan.targets)?;
    push_communities(alloc, &mut parts, &plan.communities)?;
    push_info(alloc, &mut parts, plan.kind, &plan.dependencies)?;
    Ok(parts)
}
