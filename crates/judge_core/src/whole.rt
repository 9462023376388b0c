// The verdict on a whole item.
ghost use Rattle.std.specs.Prelude.{◌≡◌, ◌↔◌, IfOk, None};
ghost use Rattle.module_record.specs.ModuleRecord.{HasLimits};
ghost use Rattle.judge_core.specs.Verdicts.{bench, refuses, Judges, IsAccepted, IsAdmitted};
ghost use Rattle.judge_core.specs.FaultOf.{IfFails};
ghost use Rattle.judge_core.specs.Views.{verdict_view};

use crate::content::known_of;
use crate::package::judge_view;
use crate::size::first_size_failure;
use crate::{CutVerdict, Verdict, accepted_is_admitted};
use cms_signed::laws::one_message;
use cms_signed::{SignedFault, read_signed};
use config_table::State;
use der_core::Moment;
use module_record::Module;
use package_attrs::image_of;
use std::alloc::{AllocError, Global};

/// The verdict on a whole item at a moment, by a module that has come to this sequence number and has
/// this installed. It accepts exactly where all 41 conditions hold, and else tells the first that
/// fails, and from condition 20 on the package's name.
///
/// No condition is asked before those below it hold; each signature is verified at most once. Takes
/// memory for what is read of the signed attributes and the certificates: at most 4 times the item.
pub fn judge<'a>(
    alloc: Global,
    owner: &Module,
    state: &State,
    sequence: u64,
    at: Moment,
    item: &'a [u8],
) -> Result<Verdict<'a>, AllocError>
    requires limits { HasLimits owner.now }
    ensures judges { IfOk result (λ verdict.
        Judges (bench owner.now state.now sequence at) item.now (verdict_view verdict)) }
    ensures accepts { IfOk result (λ verdict. IsAccepted (verdict_view verdict)
        ↔ IsAdmitted (bench owner.now state.now sequence at) item.now) }
{
    accepted_is_admitted();
    judge_item(alloc, owner, state, sequence, at, item)
}

// The same, without the law.
fn judge_item<'a>(
    alloc: Global,
    owner: &Module,
    state: &State,
    sequence: u64,
    at: Moment,
    item: &'a [u8],
) -> Result<Verdict<'a>, AllocError>
    requires limits { HasLimits owner.now }
    ensures judges { IfOk result (λ verdict.
        Judges (bench owner.now state.now sequence at) item.now (verdict_view verdict)) }
{
    one_message();
    if let Some(failing) = first_size_failure(item, 0) {
        return Ok(Verdict::Refuse(failing, None));
    }
    let view = match read_signed(alloc, item) {
        Ok(view) => view,
        Err(fault) => return refused(fault),
    };
    let content = view.content;
    match judge_view(alloc, owner, state, sequence, at, &view, &known_of(content))? {
        CutVerdict::Accept {
            package,
            anchor_key_id,
        } => Ok(Verdict::Accept {
            package,
            content,
            image: image_of(content),
            anchor_key_id,
        }),
        CutVerdict::Refuse(failing, name) => Ok(Verdict::Refuse(failing, name)),
    }
}

// A refusal of an item that isn't signed data.
fn refused<'a>(fault: SignedFault) -> Result<Verdict<'a>, AllocError>
    ensures refused { IfOk result (λ verdict.
        IfFails fault (λ number. verdict_view verdict ≡ refuses number None)) }
{
    match fault {
        SignedFault::Fails(failing) => Ok(Verdict::Refuse(failing, None)),
        SignedFault::Memory => Err(AllocError),
    }
}
