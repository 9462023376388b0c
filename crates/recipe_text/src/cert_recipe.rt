ghost use Rattle.std.specs.Prelude.{◌-◌, ◌^◌, ◌<◌, length, IfOk};
ghost use Rattle.packager.specs.CertificatePlan.{IsShort, plan_view};
ghost use Rattle.recipe_text.specs.Answer.{Gives, Refuses};
ghost use Rattle.recipe_text.specs.CertRecipe.{CertRecipe, FirstBadCertLine};

use crate::bad_line::RecipeFault;
use crate::cert_draft::CertDraft;
use crate::lines::Lines;
use packager::CertPlan;
use std::alloc::Global;

/// What the certificate of a certificate recipe is to say, or the number of the text's first bad
/// line. Elements have room for it, so that it can be issued. It takes memory for what is said, and
/// no more than that while it reads.
pub fn read_cert_recipe(alloc: Global, text: &[u8]) -> Result<CertPlan, RecipeFault>
    requires fits { length text.now < 2 ^ 32 - 1 }
    ensures good { Gives plan_view result (CertRecipe text.now) }
    ensures bad { Refuses result (FirstBadCertLine text.now) }
    ensures short { IfOk result (λ plan. IsShort (plan_view plan)) }
{
    let mut lines = Lines::new(text);
    let mut draft = CertDraft::new();
    while let Some(line) = lines.next() {
        if !draft.take(alloc, line)? {
            return Err(RecipeFault::Bad(lines.here()));
        }
    }
    if !lines.at_end() {
        return Err(RecipeFault::Bad(lines.behind()));
    }
    let Some(plan) = draft.plan() else {
        return Err(RecipeFault::Bad(lines.behind()));
    };
    Ok(plan)
}
