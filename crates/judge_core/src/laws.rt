// Laws of the definitions, which no call computes.
ghost use Rattle.std.specs.Prelude.{◌≡◌, ◌↔◌, ℕ, List};
ghost use Rattle.judge_core.specs.Values.{Values, Spells};
ghost use Rattle.judge_core.specs.Verdicts.{Bench, Verdict, Judges, IsAccepted, IsAdmitted};

use cms_signed::laws::one_message;
use package_attrs::{one_description, one_image};
use path_check::one_path;

/// A law: octets spell one package at most.
pub fn one_value_each()
    ensures { (item : List ℕ) (v w : Values) → Spells item v → Spells item w → v ≡ w }
{
    one_message();
    one_description();
    one_image();
    one_path();
}

/// A law: an item has one verdict at most.
pub fn one_verdict_each()
    ensures { (b : Bench) (item : List ℕ) (one other : Verdict) → Judges b item one
        → Judges b item other → one ≡ other }
{
    one_message();
    one_description();
    one_image();
    one_path();
}

/// A law: the verdict on an item accepts it exactly where all 41 conditions hold.
pub fn accepted_is_admitted()
    ensures { (b : Bench) (item : List ℕ) (verdict : Verdict) → Judges b item verdict
        → IsAccepted verdict ↔ IsAdmitted b item }
{
    one_message();
    one_description();
    one_image();
    one_path();
}
