// Laws of verdicts, over the definitions alone: for those who answer items and install packages.
ghost use Rattle.std.specs.Prelude.{◌↔◌, ◌<◌, ◌≤◌, ℕ, List, Option, None, IsSome};
ghost use Rattle.der_core.specs.Condition.{IsCondition};
ghost use Rattle.der_core.specs.Items.{IsSequence, HasSequence};
ghost use Rattle.der_core.specs.Progress.{Declares};
ghost use Rattle.config_table.specs.State.{offer_of};
ghost use Rattle.package_attrs.specs.declared.name.PackageName.{PackageName};
ghost use Rattle.package_attrs.specs.Description.{Description};
ghost use Rattle.judge_core.specs.Conditions.{most_contents};
ghost use Rattle.judge_core.specs.Installing.{CanInstall};
ghost use Rattle.judge_core.specs.Verdicts.{Bench, Verdict, accepts, refuses, Judges};

/// A law: a refusal has the number of a condition, and a name exactly from condition 20 on.
pub fn refusals_have_their_names()
    ensures named { (b : Bench) (item : List ℕ) (number : ℕ) (name : Option PackageName)
        → Judges b item (refuses number name)
        → IsCondition number × (IsSome name ↔ (20 ≤ number)) }
{}

/// A law: no item is without a verdict. Which it is, only a judge can say.
pub fn no_item_is_without_a_verdict()
    ensures one { (b : Bench) (item : List ℕ) → ¬ ((verdict : Verdict) → ¬ Judges b item verdict) }
{}

/// A law: octets that don't begin with a whole SEQUENCE are refused by condition 1 (`none`), and a
/// SEQUENCE that declares contents above the limit by condition 2 (`long`), both without a name. So an
/// item that isn't kept has a verdict as well.
pub fn unread_items_are_refused()
    ensures none { (b : Bench) (item : List ℕ) → ¬ HasSequence item → Judges b item (refuses 1 None) }
    ensures long { (b : Bench) (item : List ℕ) (size : ℕ) → IsSequence item → Declares item size
        → most_contents < size → Judges b item (refuses 2 None) }
{}

/// A law: a package that is accepted can be installed: what it brings has a text, its image has an
/// octet, and there is room for the image, in the tables and for a sequence number more.
pub fn accepted_packages_can_be_installed()
    ensures can { (b : Bench) (item : List ℕ) (described : Description)
        (content image key_id : List ℕ)
        → Judges b item (accepts described content image key_id)
        → CanInstall b (offer_of described) image }
{}
