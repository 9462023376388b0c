// The values and the path, by the conditions 20 to 22.
ghost use Rattle.std.specs.Prelude.{◌≡◌, IfOk, IfSome, IfNone, OnOk};
ghost use Rattle.sha2.specs.Sha256.{sha256};
ghost use Rattle.der_core.specs.Asked.{AllHold, FirstFail};
ghost use Rattle.cert_fields.specs.Sid.{sid_view};
ghost use Rattle.cms_signed.specs.Cut.{firmware_package};
ghost use Rattle.cms_signed.specs.Message.{Message};
ghost use Rattle.cms_signed.specs.SignedAnswer.{Shows};
ghost use Rattle.module_record.specs.declared.module.Module.{Module as Holder};
ghost use Rattle.package_attrs.specs.Description.{description};
ghost use Rattle.path_check.specs.Paths.{PathOf};
ghost use Rattle.judge_core.specs.Conditions.{value_conditions, IsPath};
ghost use Rattle.judge_core.specs.Steps.{FailsAs, values_of};

use crate::content::Content;
use crate::fault::{Fault, of_find};
use cert_fields::KeptCert;
use cms_signed::SignedView;
use cms_signed::content_types::FIRMWARE_PACKAGE;
use der_core::Condition;
use module_record::Module;
use package_attrs::Package;
use path_check::{Path, find_path};
use std::alloc::Global;

// The first of the conditions 20 and 21 that fails.
fn first_of_attributes(offered: &Package<'_>, known: &Content) -> Option<Condition>
    ensures content { IfNone result ((description offered.now).content ≡ firmware_package) }
    ensures digest { IfNone result ((description offered.now).digest ≡ known.now.digest) }
    ensures first { IfSome result (λ number. (holder : Holder) (m : Message)
        → known.now.digest ≡ sha256 m.content
        → FirstFail (value_conditions holder (values_of m (description offered.now))) number) }
{
    if offered.content.octets() != FIRMWARE_PACKAGE.as_slice() {
        return Some(Condition::numbered(20));
    }
    if offered.digest != known.digest {
        return Some(Condition::numbered(21));
    }
    None
}

// The path from the signer up to an anchor. Fails by the first of the conditions 20 to 22 that
// doesn't hold.
pub(crate) fn find(
    alloc: Global,
    owner: &Module,
    view: &SignedView<'_>,
    certs: &[KeptCert<'_>],
    offered: &Package<'_>,
    known: &Content,
) -> Result<Path, Fault>
    requires certs { certs.now ≡ view.now.certs }
    ensures content { OnOk result ((description offered.now).content ≡ firmware_package) }
    ensures path { IfOk result
        (PathOf (sid_view view.now.sid) certs.now owner.now.anchors) }
    ensures ok { OnOk result ((m : Message) → Shows view.now m.certificates m.signer
        → known.now.digest ≡ sha256 m.content
        → AllHold (value_conditions owner.now (values_of m (description offered.now)))) }
    ensures fails { (m : Message) → Shows view.now m.certificates m.signer
        → known.now.digest ≡ sha256 m.content → FailsAs result
        (FirstFail (value_conditions owner.now (values_of m (description offered.now)))) }
{
    if let Some(failing) = first_of_attributes(offered, known) {
        return Err(Fault::Fails(failing));
    }
    match find_path(alloc, &view.sid, certs, owner.anchors.as_slice()) {
        Ok(path) => Ok(path),
        Err(fault) => Err(of_find(fault)),
    }
}
