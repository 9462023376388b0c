ghost use Rattle.std.specs.Prelude.{◌-◌, ◌^◌, ◌<◌, ◌≤◌, length, IfOk};
ghost use Rattle.module_record.specs.ModuleRecord.{HasLimits, module_text};
ghost use Rattle.recipe_text.specs.Answer.{Gives, Refuses};
ghost use Rattle.recipe_text.specs.ModuleRecipe.{ModuleRecipe, FirstBadModuleLine};

use crate::bad_line::RecipeFault;
use crate::lines::Lines;
use crate::module_draft::ModuleDraft;
use module_record::{Module, short_modules_have_a_record};
use std::alloc::Global;

/// The module of a module recipe, or the number of the text's first bad line. The module is within
/// its limits, and its record has at most 65,536 octets. Each HEX is decoded once, into its place in
/// the module.
pub fn read_module_recipe(alloc: Global, text: &[u8]) -> Result<Module, RecipeFault>
    requires fits { length text.now < 2 ^ 32 - 1 }
    ensures good { Gives (λ made. made) result (ModuleRecipe text.now) }
    ensures bad { Refuses result (FirstBadModuleLine text.now) }
    ensures valid { IfOk result HasLimits }
    ensures short { IfOk result (λ made. length (module_text made) ≤ 65536) }
{
    let mut lines = Lines::new(text);
    let mut draft = ModuleDraft::new(alloc);
    while let Some(line) = lines.next() {
        if !draft.take(alloc, line)? {
            return Err(RecipeFault::Bad(lines.here()));
        }
    }
    if !lines.at_end() {
        return Err(RecipeFault::Bad(lines.behind()));
    }
    let Some(made) = draft.module() else {
        return Err(RecipeFault::Bad(lines.behind()));
    };
    short_modules_have_a_record();
    Ok(made)
}
