ghost use Rattle.std.specs.Prelude.{◌≡◌, ◌↔◌, ◌-◌, ◌^◌, ◌<◌, ℕ, length, Ok, IsErrAnd};
ghost use Rattle.recipe_text.specs.KeyRecipe.{KeyRecipe, FirstBadKeyLine};

use crate::bad_line::BadLine;
use crate::key_line::key_on;
use crate::lines::Lines;
use lms_sign::SignKey;

/// The key of a key recipe, or the number of the text's first bad line.
pub fn read_key_recipe(text: &[u8]) -> Result<SignKey, BadLine>
    requires fits { length text.now < 2 ^ 32 - 1 }
    ensures good { (key : SignKey) → (result ≡ Ok key) ↔ KeyRecipe text.now key }
    ensures bad { (n : ℕ) → IsErrAnd result (λ bad. bad.0 ≡ n) ↔ FirstBadKeyLine text.now n }
{
    let mut lines = Lines::new(text);
    let Some(line) = lines.next() else {
        return Err(lines.behind());
    };
    let Some(key) = key_on(line) else {
        return Err(lines.here());
    };
    if lines.next().is_some() {
        return Err(lines.here());
    }
    if !lines.at_end() {
        return Err(lines.behind());
    }
    Ok(key)
}
