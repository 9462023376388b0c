// A rehearsal: the verdicts on the sets of an input, their lines, and what they leave installed.
ghost use Rattle.std.specs.Prelude.{◌≡◌, ◌++◌, ◌||◌, [], false, IfOk, if◌then◌else◌};
ghost use Rattle.der_core.specs.Element.{HasTagged};
ghost use Rattle.package_attrs.specs.Description.{description};
ghost use Rattle.config_table.specs.State.{empty_state};
ghost use Rattle.judge_core.specs.Rehearsal.Verdict.{accepted, refused};
ghost use Rattle.report_text.specs.Lines.{refused_line, rehearsal_head};
ghost use Rattle.fwload_top.specs.Rehearse.{Rehearses, answer_status, installed_lines};
ghost use Rattle.fwload_top.specs.Rehearsal.{Follows, JudgesOne, JudgesFront};

use crate::Status;
use crate::identity::Identity;
use crate::step::{enter, judge};
use config_table::State;
use der_core::{Condition, Cursor, Moment, tags};
use judge_core::Rehearsed;
use package_attrs::Package;
use package_rules::HardwareModule;
use report_text::{put_accepted, put_refused, put_rehearsal_head, put_state};
use std::alloc::{AllocError, Global};

// What the sets so far have come to: what is installed, the lines, and whether one was refused.
#[derive(Drop)]
pub(crate) struct Rehearsal {
    state: State,
    pub(crate) lines: Vec<u8>,
    refuses: bool,
}

// The rehearsal of an input at a moment. Each set is read once, in its place.
pub(crate) fn rehearse_input(
    alloc: Global,
    at: Moment,
    input: &[u8],
) -> Result<Rehearsal, AllocError>
    ensures { IfOk result (λ done. Rehearses at done.refuses input.now done.lines.items) }
{
    let identity = Identity::new();
    let mut sets = Cursor::new(input);
    let begun = Rehearsal::begin(alloc, at)?;
    let judged = begun.judge_sets(alloc, &identity.module(), &mut sets)?;
    judged.finish(alloc, !sets.at_end())
}

impl Rehearsal {
    // The status that goes with the lines.
    pub(crate) fn status(&self) -> Status
        ensures { result ≡ answer_status self.now.refuses }
    {
        if self.refuses {
            Status::SomeRefused
        } else {
            Status::Done
        }
    }

    // Nothing is installed, and the moment is printed.
    fn begin(alloc: Global, at: Moment) -> Result<Rehearsal, AllocError>
        ensures state { IfOk result (λ begun. begun.state ≡ empty_state) }
        ensures lines { IfOk result (λ begun. begun.lines.items ≡ rehearsal_head at) }
        ensures refuses { IfOk result (λ begun. begun.refuses ≡ false) }
    {
        let mut lines = Vec::new(alloc);
        put_rehearsal_head(alloc, &mut lines, at)?;
        Ok(Rehearsal {
            state: State::new(alloc),
            lines,
            refuses: false,
        })
    }

    // Judges the sets that stand at the front, one after the other, and passes them.
    fn judge_sets(
        self,
        alloc: Global,
        hardware: &HardwareModule<'_>,
        sets: &mut Cursor,
    ) -> Result<Rehearsal, AllocError>
        ensures front { IfOk result (λ done. JudgesFront hardware.now self sets.old sets.new done) }
        ensures ends { IfOk result (λ done. HasTagged 0x31 sets.new → ⊥) }
    {
        let mut so_far = self;
        while let Some(contents) = sets.tagged(tags::SET) {
            so_far = so_far.judge_one(alloc, hardware, contents)?;
        }
        Ok(so_far)
    }

    // Judges a set by its contents.
    fn judge_one(
        self,
        alloc: Global,
        hardware: &HardwareModule<'_>,
        contents: &[u8],
    ) -> Result<Rehearsal, AllocError>
        ensures { IfOk result (λ next. JudgesOne hardware.now self contents.now next) }
    {
        match judge(alloc, hardware, &self.state, contents)? {
            Rehearsed::Accept(package) => self.accept(alloc, &package),
            Rehearsed::Refuse(failing) => self.refuse(alloc, failing),
        }
    }

    // A package is accepted.
    fn accept(self, alloc: Global, offered: &Package<'_>) -> Result<Rehearsal, AllocError>
        ensures { IfOk result (Follows self (accepted (description offered.now))) }
    {
        let Rehearsal {
            state,
            mut lines,
            refuses,
        } = self;
        put_accepted(alloc, &mut lines, &offered.identifier.name)?;
        let state = enter(alloc, state, offered)?;
        Ok(Rehearsal {
            state,
            lines,
            refuses,
        })
    }

    // A set or the rest fails this condition, and what is installed stays.
    fn refuse(self, alloc: Global, failing: Condition) -> Result<Rehearsal, AllocError>
        ensures { IfOk result (Follows self (refused failing)) }
    {
        let Rehearsal {
            state,
            mut lines,
            ..
        } = self;
        put_refused(alloc, &mut lines, failing)?;
        Ok(Rehearsal {
            state,
            lines,
            refuses: true,
        })
    }

    // Refuses a rest where there is one, and prints what is installed.
    fn finish(self, alloc: Global, rest: bool) -> Result<Rehearsal, AllocError>
        ensures lines { IfOk result (λ done. done.lines.items ≡ self.lines.items
            ++ ((if rest then refused_line 1 else []) ++ installed_lines self.state)) }
        ensures refuses { IfOk result (λ done. done.refuses ≡ (self.refuses || rest)) }
    {
        let mut done = self;
        if rest {
            done = done.refuse(alloc, Condition::numbered(1))?;
        }
        put_state(alloc, &mut done.lines, &done.state)?;
        Ok(done)
    }
}
