// The verdict on an item without its content.
ghost use Rattle.std.specs.Prelude.{◌≡◌, IfOk, IfSome, None, Some};
ghost use Rattle.cms_signed.specs.Cut.{HasCut};
ghost use Rattle.module_record.specs.ModuleRecord.{HasLimits};
ghost use Rattle.judge_core.specs.Verdicts.{bench};
ghost use Rattle.judge_core.specs.declared.verdict.CutVerdict.TheVariants.{Refuse};
ghost use Rattle.judge_core.specs.FaultOf.{IfFails};
ghost use Rattle.judge_core.specs.Views.{gap_of, JudgesCut, AcceptsCut};

use crate::content::Content;
use crate::package::judge_view;
use crate::size::first_size_failure;
use crate::{Cut, CutVerdict, Verdict, accepted_is_admitted, judge};
use cms_signed::laws::one_message;
use cms_signed::{SignedFault, read_signed_cut};
use config_table::State;
use der_core::Moment;
use module_record::Module;
use std::alloc::{AllocError, Global};

/// The verdict on each item that is the frame with a content put in at the cut, which has the length
/// and the digest that the cut says, and an image of that length. Without a cut the frame is the item.
/// It is the verdict of `judge` on that item, at the same cost.
pub fn judge_cut<'a>(
    alloc: Global,
    owner: &Module,
    state: &State,
    sequence: u64,
    at: Moment,
    frame: &'a [u8],
    cut: Option<Cut>,
) -> Result<CutVerdict<'a>, AllocError>
    requires limits { HasLimits owner.now }
    requires head { IfSome (gap_of cut) (λ gap. HasCut frame.now gap.0 gap.1) }
    ensures judges { IfOk result
        (JudgesCut (bench owner.now state.now sequence at) frame.now cut) }
    ensures accepts { IfOk result
        (AcceptsCut (bench owner.now state.now sequence at) frame.now cut) }
{
    accepted_is_admitted();
    judge_any(alloc, owner, state, sequence, at, frame, cut)
}

// The same, without the law.
fn judge_any<'a>(
    alloc: Global,
    owner: &Module,
    state: &State,
    sequence: u64,
    at: Moment,
    frame: &'a [u8],
    cut: Option<Cut>,
) -> Result<CutVerdict<'a>, AllocError>
    requires limits { HasLimits owner.now }
    requires head { IfSome (gap_of cut) (λ gap. HasCut frame.now gap.0 gap.1) }
    ensures judges { IfOk result
        (JudgesCut (bench owner.now state.now sequence at) frame.now cut) }
{
    match cut {
        Some(cut) => judge_frame(alloc, owner, state, sequence, at, frame, cut),
        None => judge_whole(alloc, owner, state, sequence, at, frame),
    }
}

// The same of a frame that is the item.
fn judge_whole<'a>(
    alloc: Global,
    owner: &Module,
    state: &State,
    sequence: u64,
    at: Moment,
    item: &'a [u8],
) -> Result<CutVerdict<'a>, AllocError>
    requires limits { HasLimits owner.now }
    ensures judges { IfOk result (JudgesCut (bench owner.now state.now sequence at) item.now None) }
{
    match judge(alloc, owner, state, sequence, at, item)? {
        Verdict::Accept {
            package,
            anchor_key_id,
            ..
        } => Ok(CutVerdict::Accept {
            package,
            anchor_key_id,
        }),
        Verdict::Refuse(failing, name) => Ok(CutVerdict::Refuse(failing, name)),
    }
}

// The same of a frame whose content is known.
fn judge_frame<'a>(
    alloc: Global,
    owner: &Module,
    state: &State,
    sequence: u64,
    at: Moment,
    frame: &'a [u8],
    cut: Cut,
) -> Result<CutVerdict<'a>, AllocError>
    requires limits { HasLimits owner.now }
    requires head { HasCut frame.now cut.place cut.length }
    ensures judges { IfOk result
        (JudgesCut (bench owner.now state.now sequence at) frame.now (Some cut)) }
{
    one_message();
    if let Some(failing) = first_size_failure(frame, cut.length) {
        return Ok(CutVerdict::Refuse(failing, None));
    }
    let view = match read_signed_cut(alloc, frame, Some((cut.place, cut.length))) {
        Ok(view) => view,
        Err(fault) => return refused(fault),
    };
    let digest = cut.digest;
    let known = Content {
        digest,
        image: cut.image,
    };
    judge_view(alloc, owner, state, sequence, at, &view, &known)
}

// A refusal of an item that isn't signed data.
fn refused<'a>(fault: SignedFault) -> Result<CutVerdict<'a>, AllocError>
    ensures refused { IfOk result (λ verdict.
        IfFails fault (λ number. verdict ≡ Refuse number None)) }
{
    match fault {
        SignedFault::Fails(failing) => Ok(CutVerdict::Refuse(failing, None)),
        SignedFault::Memory => Err(AllocError),
    }
}
