// The step of a rehearsal: the verdict on one attribute set, and what it leaves installed.
ghost use Rattle.std.specs.Prelude.{◌≡◌, IfOk};
ghost use Rattle.package_attrs.specs.Description.{description};
ghost use Rattle.judge_core.specs.Rehearsal.{after, rehearsed_view};
ghost use Rattle.judge_core.specs.Rehearsal.Verdict.{accepted};
ghost use Rattle.fwload_top.specs.Verdicts.{Judges};

use attribute_set::read_attribute_set;
use config_table::{BlockNumbers, State};
use der_core::Condition;
use judge_core::{Rehearsed, rehearse_step};
use package_attrs::Package;
use package_rules::HardwareModule;
use sha2::{Digest, Sha256};
use std::alloc::{AllocError, Global};

// The verdict on a set, by its contents.
pub(crate) fn judge<'a>(
    alloc: Global,
    hardware: &HardwareModule<'_>,
    state: &State,
    contents: &'a [u8],
) -> Result<Rehearsed<'a>, AllocError>
    ensures { IfOk result (λ v. Judges hardware.now state.now contents.now (rehearsed_view v)) }
{
    match read_attribute_set(alloc, contents)? {
        Some(attributes) => Ok(rehearse_step(hardware, state, &attributes)),
        None => Ok(Rehearsed::Refuse(Condition::numbered(16))),
    }
}

// The state with an accepted package, whose image is no octets.
pub(crate) fn enter(alloc: Global, state: State, offered: &Package<'_>) -> Result<State, AllocError>
    ensures { IfOk result (λ new. new ≡ after state (accepted (description offered.now))) }
{
    let digest = Sha256::new().finalize();
    state.with_package(offered, digest, 0, BlockNumbers::new(Vec::new(alloc)))
}
