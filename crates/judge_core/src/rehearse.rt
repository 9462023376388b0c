// The rules alone.
ghost use Rattle.package_attrs.specs.Attributes.{HaveOwnTypes};
ghost use Rattle.judge_core.specs.Rehearsal.{JudgesAttributes, rehearsed_view};

use attribute_set::Attributes;
use config_table::State;
use der_core::Condition;
use package_attrs::{Package, read_package};
use package_rules::{HardwareModule, first_overflow, first_refusal};

/// What the rules say of a package's attributes.
#[derive(Drop)]
pub enum Rehearsed<'a> {
    /// None of the conditions 19, 30 to 36, 39 and 40 fails.
    Accept(Package<'a>),
    /// The least of them that fails.
    Refuse(Condition),
}

/// The verdict on the attributes of a package, of which no type stands twice, by the conditions 19, 30
/// to 36, 39 and 40 alone: no signature is verified and no image is there. Takes no memory.
pub fn rehearse_step<'a>(
    hardware: &HardwareModule<'_>,
    state: &State,
    attributes: &Attributes<'a>,
) -> Rehearsed<'a>
    requires own { HaveOwnTypes attributes.now }
    ensures judged { JudgesAttributes hardware.now state.now attributes.now (rehearsed_view result) }
{
    let Some(package) = read_package(attributes) else {
        return Rehearsed::Refuse(Condition::numbered(19));
    };
    if let Some(failing) = first_refusal(hardware, state, &package) {
        return Rehearsed::Refuse(failing);
    }
    match first_overflow(state, &package) {
        Some(failing) => Rehearsed::Refuse(failing),
        None => Rehearsed::Accept(package),
    }
}
