ghost use Rattle.std.specs.Prelude.{◌≤◌, ◌^◌, length, IfOk};
ghost use Rattle.packager.specs.PackagePlan.{IsPackagePlan, package_view};
ghost use Rattle.recipe_text.specs.Answer.{Gives, Refuses};
ghost use Rattle.recipe_text.specs.PackageRecipe.{PackageRecipe, FirstBadPackageLine};

use crate::bad_line::RecipeFault;
use crate::lines::Lines;
use crate::package_draft::PackageDraft;
use packager::PackagePlan;
use std::alloc::Global;

/// What the package of a package recipe is to say, or the number of the text's first bad line. It is
/// a plan of which a package is written. Each HEX is decoded once, into its place in the plan.
pub fn read_package_recipe(alloc: Global, text: &[u8]) -> Result<PackagePlan, RecipeFault>
    requires fits { length text.now ≤ 2 ^ 26 }
    ensures good { Gives package_view result (PackageRecipe text.now) }
    ensures bad { Refuses result (FirstBadPackageLine text.now) }
    ensures plan { IfOk result (λ plan. IsPackagePlan (package_view plan)) }
{
    let mut lines = Lines::new(text);
    let mut draft = PackageDraft::new(alloc);
    while let Some(line) = lines.next() {
        if !draft.take(alloc, line)? {
            return Err(RecipeFault::Bad(lines.here()));
        }
    }
    if !lines.at_end() {
        return Err(RecipeFault::Bad(lines.behind()));
    }
    let Some(plan) = draft.plan() else {
        return Err(RecipeFault::Bad(lines.behind()));
    };
    Ok(plan)
}
