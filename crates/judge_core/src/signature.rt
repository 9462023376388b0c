// The certificates of the path and the signature, by the conditions 23 to 29.
ghost use Rattle.std.specs.Prelude.{◌≡◌, ◌↔◌, Some, IfOk, IsTrue, slice_get};
ghost use Rattle.std.specs.List.{AllByRecursion};
ghost use Rattle.der_core.specs.Asked.{AllHold, FirstFail};
ghost use Rattle.cert_fields.specs.Anchor.{TrustAnchor};
ghost use Rattle.cert_fields.specs.Sid.{SignerIdentifier};
ghost use Rattle.cms_signed.specs.Cut.{firmware_package};
ghost use Rattle.cms_signed.specs.Message.{Message};
ghost use Rattle.cms_signed.specs.Signer.{to_be_signed};
ghost use Rattle.cms_signed.specs.SignedAnswer.{Shows};
ghost use Rattle.hss_chain.specs.Chains.{HssHolds};
ghost use Rattle.hss_chain.specs.declared.key.HssKey.{HssKey as Key};
ghost use Rattle.path_check.specs.Conditions.{members_at};
ghost use Rattle.path_check.specs.HssCertificate.{IsAnchorKey};
ghost use Rattle.path_check.specs.Paths.{PathOf};
ghost use Rattle.judge_core.specs.Conditions.{signature_conditions};
ghost use Rattle.judge_core.specs.Steps.{FailsAs};

use crate::fault::{Fault, of_path};
use cert_fields::KeptCert;
use cms_signed::SignedView;
use constraint_meet::permits;
use der_core::{Condition, Moment, Octets64, Oid, tags};
use hss_chain::{HssKey, hss_check, keys_have_one_text_each};
use module_record::Module;
use path_check::{Path, check_path};
use std::alloc::Global;

// Whether the signature is one by this key, over the signed attributes with the tag of a SET OF
// (RFC 5652, section 5.4).
fn is_signed_by(key: &HssKey, view: &SignedView<'_>) -> bool
    ensures signed { (m : Message) → Shows view.now m.certificates m.signer
        → IsTrue result ↔ HssHolds key.now (to_be_signed m.signer.signed_attributes) m.signer.signature }
{
    hss_check(key, &[tags::SET], view.attrs_rest, view.signature)
}

// The key identifier of the path's anchor. Fails by the first of the conditions 23 to 29 that
// doesn't hold.
pub(crate) fn check(
    alloc: Global,
    owner: &Module,
    view: &SignedView<'_>,
    certs: &[KeptCert<'_>],
    path: &Path,
    at: Moment,
    content: &Oid,
) -> Result<Octets64, Fault>
    requires content { content.now ≡ firmware_package }
    requires path { (name : SignerIdentifier) × PathOf name certs.now owner.now.anchors path.now }
    requires keys { AllByRecursion (λ anchor. (key : Key) × IsAnchorKey anchor key) owner.now.anchors }
    ensures ok { let members = members_at certs.now path.now.members in
        (m : Message) (anchor : TrustAnchor) → Shows view.now m.certificates m.signer
        → slice_get owner.now.anchors path.now.anchor ≡ Some anchor → IfOk result (λ key_id.
        AllHold (signature_conditions at anchor members m) × (key_id ≡ anchor.key_id)) }
    ensures fails { let members = members_at certs.now path.now.members in
        (m : Message) (anchor : TrustAnchor) → Shows view.now m.certificates m.signer
        → slice_get owner.now.anchors path.now.anchor ≡ Some anchor
        → FailsAs result (FirstFail (signature_conditions at anchor members m)) }
{
    keys_have_one_text_each();
    let checked = match check_path(alloc, certs, owner.anchors.as_slice(), path, at) {
        Ok(checked) => checked,
        Err(fault) => return Err(of_path(fault)),
    };
    if !permits(&checked.effective, content, &view.attrs) {
        return Err(Fault::Fails(Condition::numbered(28)));
    }
    if !is_signed_by(&checked.key, view) {
        return Err(Fault::Fails(Condition::numbered(29)));
    }
    Ok(checked.anchor_key_id)
}
