// The verdict on an item of which the frame is kept.
ghost use Rattle.std.specs.Prelude.{ℕ, List, IfOk};
ghost use Rattle.module_record.specs.ModuleRecord.{HasLimits};
ghost use Rattle.judge_core.specs.Verdicts.{bench};
ghost use Rattle.load_item.specs.Judged.{IsCutOf, IsOutlineOf, JudgesHeld};

use cms_signed::Outline;
use cms_signed::laws::{frame_has_cut, whole_item};
use config_table::State;
use content_stream::Streamed;
use der_core::Moment;
use judge_core::{Cut, CutVerdict, judge_cut};
use module_record::Module;
use std::alloc::{AllocError, Global};

// The cut in an outline, with what came of its content.
fn cut_of(outline: &Outline, streamed: &Option<Streamed>) -> Option<Cut>
    ensures cut { IsCutOf outline.now.cut streamed.now result }
{
    let (place, length) = outline.cut()?;
    let Some(streamed) = streamed else {
        return None;
    };
    Some(Cut {
        place,
        length,
        digest: streamed.content_digest,
        image: streamed.length,
    })
}

// The verdict on an item that was read in pieces: that on the whole item.
pub(crate) fn judge_held<'a>(
    alloc: Global,
    owner: &Module,
    state: &State,
    sequence: u64,
    at: Moment,
    outline: &'a Outline,
    streamed: &Option<Streamed>,
) -> Result<CutVerdict<'a>, AllocError>
    requires limits { HasLimits owner.now }
    requires some { (octets : List ℕ) × IsOutlineOf outline.now streamed.now octets }
    ensures judges { (octets : List ℕ) → IsOutlineOf outline.now streamed.now octets
        → IfOk result (JudgesHeld (bench owner.now state.now sequence at)
        outline.now streamed.now octets) }
{
    frame_has_cut();
    whole_item();
    judge_cut(
        alloc,
        owner,
        state,
        sequence,
        at,
        outline.frame(),
        cut_of(outline, streamed),
    )
}
