// The verdict on signed data that was read, from condition 19 on. A whole item and one without its
// content go through it alike.
ghost use Rattle.std.specs.Prelude.{◌≡◌, ℕ, List, IfOk};
ghost use Rattle.std.specs.List.{AllByRecursion};
ghost use Rattle.cms_signed.specs.Message.{Message};
ghost use Rattle.hss_chain.specs.declared.key.HssKey.{HssKey};
ghost use Rattle.package_attrs.specs.Attributes.{HaveOwnTypes};
ghost use Rattle.package_attrs.specs.Description.{description};
ghost use Rattle.path_check.specs.HssCertificate.{IsAnchorKey};
ghost use Rattle.judge_core.specs.Verdicts.{bench};
ghost use Rattle.judge_core.specs.Steps.{FailsAs, IsSeen, IsRefusal, Passes, Stops, JudgesMessage, values_of};

use crate::CutVerdict;
use crate::content::Content;
use crate::fault::Fault;
use crate::find::find;
use crate::rules::first_of_rules;
use crate::signature::check;
use cms_signed::SignedView;
use config_table::State;
use der_core::{Condition, Moment, Octets64};
use module_record::Module;
use package_attrs::{Package, PackageName, read_package};
use std::alloc::{AllocError, Global};

// The key identifier of the anchor of the package's path. Fails by the first of the conditions 20 to
// 41 that doesn't hold.
fn check_package(
    alloc: Global,
    owner: &Module,
    state: &State,
    sequence: u64,
    at: Moment,
    view: &SignedView<'_>,
    offered: &Package<'_>,
    known: &Content,
) -> Result<Octets64, Fault>
    requires keys { AllByRecursion (λ anchor. (key : HssKey) × IsAnchorKey anchor key)
        owner.now.anchors }
    ensures ok { IfOk result (λ key_id. (m : Message) (image : List ℕ)
        → IsSeen view.now known.now m image → Passes (bench owner.now state.now sequence at)
        (values_of m (description offered.now)) image key_id) }
    ensures fails { (m : Message) (image : List ℕ) → IsSeen view.now known.now m image
        → FailsAs result (Stops (bench owner.now state.now sequence at)
        (values_of m (description offered.now)) image) }
{
    let certs = view.certs.keep(alloc)?;
    let path = match find(alloc, owner, view, &certs, offered, known) {
        Ok(path) => path,
        Err(fault) => return Err(fault),
    };
    let key_id = match check(alloc, owner, view, &certs, &path, at, &offered.content) {
        Ok(key_id) => key_id,
        Err(fault) => return Err(fault),
    };
    match first_of_rules(owner, state, sequence, offered, known.image) {
        Some(failing) => Err(Fault::Fails(failing)),
        None => Ok(key_id),
    }
}

// The verdict on signed data of whose content this is known.
pub(crate) fn judge_view<'a>(
    alloc: Global,
    owner: &Module,
    state: &State,
    sequence: u64,
    at: Moment,
    view: &SignedView<'a>,
    known: &Content,
) -> Result<CutVerdict<'a>, AllocError>
    requires keys { AllByRecursion (λ anchor. (key : HssKey) × IsAnchorKey anchor key)
        owner.now.anchors }
    requires own { HaveOwnTypes view.now.attrs }
    ensures judged { IfOk result (λ verdict. (m : Message) (image : List ℕ)
        → IsSeen view.now known.now m image
        → JudgesMessage (bench owner.now state.now sequence at) m image verdict) }
{
    let Some(package) = read_package(&view.attrs) else {
        return Ok(CutVerdict::Refuse(Condition::numbered(19), None));
    };
    match check_package(alloc, owner, state, sequence, at, view, &package, known) {
        Ok(anchor_key_id) => Ok(CutVerdict::Accept {
            package,
            anchor_key_id,
        }),
        Err(fault) => refused(fault, package.identifier.name),
    }
}

// A refusal of a package of this name.
fn refused<'a>(fault: Fault, name: PackageName) -> Result<CutVerdict<'a>, AllocError>
    ensures refused { IfOk result (IsRefusal fault name) }
{
    match fault {
        Fault::Fails(failing) => Ok(CutVerdict::Refuse(failing, Some(name))),
        Fault::Memory => Err(AllocError),
    }
}
