// Laws of the definitions, which no call computes.
ghost use Rattle.std.specs.Prelude.{◌≡◌, ℕ, ◌-◌, ◌^◌, ◌<◌, ◌≤◌, List, length};
ghost use Rattle.lms_sign.specs.declared.key.SignKey.{SignKey};
ghost use Rattle.module_record.specs.declared.module.Module.{Module};
ghost use Rattle.packager.specs.CertificatePlan.{CertificatePlan};
ghost use Rattle.packager.specs.PackagePlan.{PlannedPackage, IsPackagePlan, HasTexts};
ghost use Rattle.packager.specs.ReadPlans.{IsCertificatePlan};
ghost use Rattle.recipe_text.specs.CertRecipe.{CertRecipe, FirstBadCertLine};
ghost use Rattle.recipe_text.specs.KeyRecipe.{KeyRecipe, FirstBadKeyLine};
ghost use Rattle.recipe_text.specs.ModuleRecipe.{ModuleRecipe, FirstBadModuleLine};
ghost use Rattle.recipe_text.specs.PackageRecipe.{PackageRecipe, FirstBadPackageLine};

use cert_fields::one_constraints_text;
use der_core::laws::one_time;
use lms_sign::keys_have_one_text_each;

/// A law: a text that is a recipe has no first bad line.
pub fn recipes_have_no_bad_line()
    ensures certificates { (text : List ℕ) (plan : CertificatePlan) (n : ℕ) → CertRecipe text plan
        → FirstBadCertLine text n → ⊥ }
    ensures packages { (text : List ℕ) (plan : PlannedPackage) (n : ℕ) → PackageRecipe text plan
        → FirstBadPackageLine text n → ⊥ }
    ensures modules { (text : List ℕ) (owner : Module) (n : ℕ) → ModuleRecipe text owner
        → FirstBadModuleLine text n → ⊥ }
    ensures keys { (text : List ℕ) (key : SignKey) (n : ℕ) → KeyRecipe text key
        → FirstBadKeyLine text n → ⊥ }
{}

/// A law: a text is a recipe of one key, certificate, package or module at most, and has one first
/// bad line at most.
pub fn recipes_say_one_thing()
    ensures keys { (text : List ℕ) (key other : SignKey) → KeyRecipe text key → KeyRecipe text other
        → key ≡ other }
    ensures certificates { (text : List ℕ) (plan other : CertificatePlan) → CertRecipe text plan
        → CertRecipe text other → plan ≡ other }
    ensures packages { (text : List ℕ) (plan other : PlannedPackage) → PackageRecipe text plan
        → PackageRecipe text other → plan ≡ other }
    ensures modules { (text : List ℕ) (owner other : Module) → ModuleRecipe text owner
        → ModuleRecipe text other → owner ≡ other }
    ensures key_lines { (text : List ℕ) (m n : ℕ) → FirstBadKeyLine text m → FirstBadKeyLine text n
        → m ≡ n }
    ensures certificate_lines { (text : List ℕ) (m n : ℕ) → FirstBadCertLine text m
        → FirstBadCertLine text n → m ≡ n }
    ensures package_lines { (text : List ℕ) (m n : ℕ) → FirstBadPackageLine text m
        → FirstBadPackageLine text n → m ≡ n }
    ensures module_lines { (text : List ℕ) (m n : ℕ) → FirstBadModuleLine text m
        → FirstBadModuleLine text n → m ≡ n }
{
    one_time();
    one_constraints_text();
    keys_have_one_text_each();
}

/// A law: what the certificate of a recipe is to say has texts that are read back, and what the
/// package of one is to say is within the limits of a package, where the recipe has at most 2^26
/// octets. A package's certificates have at most 2^26 octets together, and nothing else in a recipe
/// bounds them: a longer one can name eight that have more.
pub fn recipes_give_plans()
    ensures certificates { (text : List ℕ) (plan : CertificatePlan) → length text < 2 ^ 32 - 1
        → CertRecipe text plan → IsCertificatePlan plan }
    ensures packages { (text : List ℕ) (plan : PlannedPackage) → length text ≤ 2 ^ 26
        → PackageRecipe text plan → IsPackagePlan plan }
{}

/// A law: what the package of a recipe is to say has texts that are read back, so a package that is
/// written of it is read as saying the same.
pub fn package_recipes_have_texts()
    ensures texts { (text : List ℕ) (plan : PlannedPackage) → PackageRecipe text plan
        → HasTexts plan }
{}
