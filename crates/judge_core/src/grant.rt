// What the path of an item permits.
ghost use Rattle.std.specs.Prelude.{◌≡◌, ◌<◌, ◌++◌, List, Option, Some, IfOk, IfSome, IsNone, length, slice_get};
ghost use Rattle.std.specs.List.{AllZip, AllByRecursion, flat_map};
ghost use Rattle.cert_fields.specs.Constraints.{ContentConstraint};
ghost use Rattle.cert_fields.specs.Sid.{SignerIdentifier};
ghost use Rattle.cms_signed.specs.Message.{Message};
ghost use Rattle.cms_signed.specs.SignedAnswer.{Shows};
ghost use Rattle.der_core.specs.Element.{HasRoom};
ghost use Rattle.constraint_meet.specs.Grants.{of_certificate};
ghost use Rattle.package_attrs.specs.Attributes.{HaveOwnTypes};
ghost use Rattle.path_check.specs.Checked.{HasConstraints};
ghost use Rattle.path_check.specs.Conditions.{members_at, Reads};
ghost use Rattle.path_check.specs.Paths.{PathOf};
ghost use Rattle.judge_core.specs.FaultOf.{IfFails};
ghost use Rattle.judge_core.specs.Granted.{Grants, GrantsMessage, IsGrantOf, IsTold};
ghost use Rattle.judge_core.specs.Steps.{IsFailure};

use crate::content::known_of;
use crate::fault::Fault;
use crate::find::find;
use crate::size::first_size_failure;
use cert_fields::KeptCert;
use cms_signed::laws::one_message;
use cms_signed::{SignedFault, SignedView, read_signed};
use constraint_meet::Grant;
use module_record::Module;
use package_attrs::{one_description, read_package};
use path_check::{Path, one_path};
use std::alloc::{AllocError, Global};
use std::marker::Model;

/// A path, and what it permits.
#[derive(Drop)]
pub struct PathGrant<'a> {
    /// How many certificates it has.
    pub certificates: usize,
    /// The place of its anchor among the module's.
    pub anchor: usize,
    /// The constraints of the anchor, where it has any, and then those of each certificate, from the
    /// signer's up.
    pub grant: Grant<'a>,
}

impl<'a> Model for PathGrant<'a> {
    ghost use Rattle.judge_core.specs.Granted.{PathGrant as Told};

    ghost Value = { Told };

    ghost view = { λ p. record {
      certificates = p.certificates;
      anchor = p.anchor;
      grant = p.grant;
    } };
}

/// The path of an item's signer, and what it permits. Where the conditions 1 to 23 don't all hold there is
/// none. No signature is verified. Takes memory as `judge` does.
pub fn path_grant<'a>(
    alloc: Global,
    owner: &'a Module,
    item: &'a [u8],
) -> Result<Option<PathGrant<'a>>, AllocError>
    ensures told { IfOk result (IsTold (Grants owner.now item.now)) }
{
    one_message();
    if first_size_failure(item, 0).is_some() {
        return Ok(None);
    }
    match read_signed(alloc, item) {
        Ok(view) => grant_of_view(alloc, owner, &view),
        Err(fault) => none_of(fault),
    }
}

// The same of signed data that was read.
fn grant_of_view<'a>(
    alloc: Global,
    owner: &'a Module,
    view: &SignedView<'a>,
) -> Result<Option<PathGrant<'a>>, AllocError>
    requires own { HaveOwnTypes view.now.attrs }
    requires room { HasRoom view.now.content.now }
    ensures told { IfOk result (λ told. (m : Message) → Shows view.now m.certificates m.signer
        → m.content ≡ view.now.content.now → IsTold (GrantsMessage owner.now m) told) }
{
    one_path();
    one_description();
    let Some(package) = read_package(&view.attrs) else {
        return Ok(None);
    };
    let certs = view.certs.keep(alloc)?;
    match find(
        alloc,
        owner,
        view,
        &certs,
        &package,
        &known_of(view.content),
    ) {
        Ok(path) => grant_at(alloc, owner, &certs, &path),
        Err(fault) => nothing(fault),
    }
}

// What the certificates at a path's places and its anchor permit.
fn grant_at<'a>(
    alloc: Global,
    owner: &'a Module,
    certs: &[KeptCert<'a>],
    path: &Path,
) -> Result<Option<PathGrant<'a>>, AllocError>
    requires path { (name : SignerIdentifier) × PathOf name certs.now owner.now.anchors path.now }
    ensures told { IfOk result (IsTold (IsGrantOf owner.now certs.now path.now)) }
{
    let Some(anchor) = owner.anchors.as_slice().get(path.anchor) else {
        unreachable!();
    };
    let above = Grant::everything().with_anchor(alloc, anchor.constraints().as_ref())?;
    let places = path.members.as_slice();
    match with_members(alloc, certs, places, above)? {
        Some(grant) => Ok(Some(PathGrant {
            certificates: places.len(),
            anchor: path.anchor,
            grant,
        })),
        None => Ok(None),
    }
}

// A grant with the certificates at these places. None where the extensions of one don't read.
fn with_members<'a>(
    alloc: Global,
    certs: &[KeptCert<'a>],
    places: &[usize],
    above: Grant<'a>,
) -> Result<Option<Grant<'a>>, AllocError>
    requires within { AllByRecursion (λ place. place < length certs.now) places.now }
    ensures told { IfOk result (λ told. IfSome told (λ grant.
        (constraints : List (Option (List ContentConstraint)))
        × AllZip HasConstraints (members_at certs.now places.now) constraints
        × (grant ≡ above.entry ++ flat_map of_certificate constraints))) }
    ensures none { IfOk result (λ told. IsNone told
        → AllByRecursion Reads (members_at certs.now places.now) → ⊥) }
{
    let mut grant = above;
    for place in places {
        let Some(extensions) = certs[*place].extensions(alloc)? else {
            return Ok(None);
        };
        grant = grant.with_certificate(alloc, extensions.constraints.as_ref())?;
    }
    Ok(Some(grant))
}

// No grant, where a condition fails.
fn nothing<'a>(fault: Fault) -> Result<Option<PathGrant<'a>>, AllocError>
    ensures none { IfOk result (λ told. IsNone told × IsFailure fault) }
{
    match fault {
        Fault::Fails(_) => Ok(None),
        Fault::Memory => Err(AllocError),
    }
}

fn none_of<'a>(fault: SignedFault) -> Result<Option<PathGrant<'a>>, AllocError>
    ensures none { IfOk result (λ told. IfFails fault (λ number. IsNone told)) }
{
    match fault {
        SignedFault::Fails(_) => Ok(None),
        SignedFault::Memory => Err(AllocError),
    }
}
