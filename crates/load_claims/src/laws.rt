// Laws over the definitions alone.
ghost use Rattle.std.specs.Prelude.{◌≡◌, ◌+◌, ◌<◌, ℕ, List, [], ◌∷◌, ◌++◌, length, sum_by, flat_map, AllPairs};
ghost use Rattle.std.specs.List.{AllByRecursion};
ghost use Rattle.config_table.specs.State.{made_by, empty_state};
ghost use Rattle.module_record.specs.declared.module.Module.{Module};
ghost use Rattle.bank_layout.specs.Recovery.{Standing, Recovers};
ghost use Rattle.bank_layout.specs.Recovery.Holder.{module_board};
ghost use Rattle.judge_core.specs.Verdicts.{Verdict};
ghost use Rattle.load_claims.specs.Items.{Judged, answers, after_all};
ghost use Rattle.load_claims.specs.Kept.{Keeps, Kept, KeptIn};
ghost use Rattle.load_claims.specs.Inside.{InRun};
ghost use Rattle.load_claims.specs.Lives.{Round, IsRound, Life, last_image, installs, installed_in, InstallsReceiptsOrOneMore, leaves_of};
ghost use Rattle.load_claims.specs.Headline.{FindsPrefix, AreExactIn};

use bank_layout::each_image_has_one_holder;
use judge_core::{accepted_is_admitted, no_item_is_without_a_verdict, one_verdict_each};

// ---- items

/// A law: no list of items is without a verdict on each. (Which it is only a judge can say.)
pub fn no_items_are_without_verdicts()
    ensures all { (m : Module) (at : ℕ) (start : Standing) (items : List (List ℕ))
        → ¬ ((verdicts : List Verdict) → length verdicts ≡ length items
        → ¬ Judged m at start items verdicts) }
{
    no_item_is_without_a_verdict();
}

/// A law: items have one list of verdicts of each length at most, and so one list of answers, and one thing
/// that stands on the board after them.
pub fn one_list_of_verdicts()
    ensures same { (m : Module) (at : ℕ) (start : Standing) (items : List (List ℕ))
        (some other : List Verdict) → Judged m at start items some → Judged m at start items other
        → length some ≡ length other → some ≡ other }
{
    one_verdict_each();
}

// ---- what a power cut leaves

/// A law: what a loop knows of a power cut is what is claimed of it.
pub fn a_loop_keeps()
    ensures kept { (m : Module) (at : ℕ) (start now : Standing) (items : List (List ℕ)) (s : List ℕ)
        → InRun m at start items now s → Kept m at start items now s }
{}

/// A law: what holds of one item, from what stands there after n others, holds of the whole list, with
/// their answers before what was sent.
pub fn one_item_carries_to_the_list()
    ensures list { (m : Module) (at : ℕ) (start : Standing) (done : List (List ℕ)) (item : List ℕ)
        (rest : List (List ℕ)) (verdicts : List Verdict) (image t : List ℕ)
        → Judged m at start done verdicts → length verdicts ≡ length done
        → KeptIn m at (after_all start verdicts) (item ∷ []) image t
        → KeptIn m at start (done ++ item ∷ rest) image (answers m start verdicts ++ t) }
{}

/// A law: where each item has a verdict, what is claimed of the first of them holds of all.
pub fn kept_of_all_items()
    ensures all { (m : Module) (at : ℕ) (start now : Standing) (items : List (List ℕ)) (s : List ℕ)
        (verdicts : List Verdict) → Judged m at start items verdicts
        → length verdicts ≡ length items → Kept m at start items now s
        → (n : ℕ) × Keeps m start verdicts now s n }
{
    one_verdict_each();
}

/// For every module, list of offered packages and crash at any moment inside or between runs of
/// `load`, under the stated flash model, recovery finds the installed images and stale table made by a
/// prefix of the accepted packages that holds each one whose receipt was sent whole; a package is
/// accepted exactly where its bytes derive and its signatures, path constraints and the module's rules
/// all admit it.
///
/// A law. `run` is of what a power cut leaves of one run (`KeptIn`), over the verdicts on its first items;
/// `all` says that it then holds over the verdicts on all of them; `life` is of a module's whole life. That
/// each cut of a run on a board leaves such a thing is `any_moment` of `items_follow_each_other`, from the
/// `CutsKeep` that a loader promises. What accepts is the verdict, and that code finds it is `judge`'s clause.
pub fn headline()
    ensures run { (m : Module) (at : ℕ) (start : Standing) (items : List (List ℕ)) (image s : List ℕ)
        → KeptIn m at start items image s → (verdicts : List Verdict)
        × Judged m at start items verdicts × FindsPrefix m at start items verdicts image s }
    ensures all { (m : Module) (at : ℕ) (start : Standing) (items : List (List ℕ))
        (verdicts : List Verdict) (image s : List ℕ) → Judged m at start items verdicts
        → length verdicts ≡ length items → KeptIn m at start items image s
        → FindsPrefix m at start items verdicts image s }
    ensures life { (m : Module) (first : List ℕ) (rounds : List Round) → Life m first rounds
        → (to : Standing) × Recovers (last_image first rounds) (module_board m to)
        × (to.state ≡ made_by (flat_map installed_in rounds) empty_state)
        × (to.sequence ≡ sum_by installs rounds)
        × AllByRecursion InstallsReceiptsOrOneMore rounds
        × AllByRecursion (AreExactIn m) rounds }
{
    one_verdict_each();
    accepted_is_admitted();
    each_image_has_one_holder();
}

// ---- lives

/// A law: from an image that recovers to a module, what a power cut leaves of a run is a run of a life.
pub fn cuts_are_rounds()
    ensures rounds { (m : Module) (at : ℕ) (from : Standing) (items : List (List ℕ))
        (start image s : List ℕ) → Recovers start (module_board m from)
        → KeptIn m at from items image s → (r : Round) × IsRound m r × (r.start ≡ start)
        × (r.at ≡ at) × (r.items ≡ items) × (r.sent ≡ s) × (r.end ≡ image) }
{}

/// A law: at the end of a life the state is the one after the packages that its runs installed, in
/// order, and the sequence is their number. Each run installed those of its accepted packages whose
/// receipts were sent whole, or one more.
pub fn lives_end_as_they_answered()
    ensures ends { (m : Module) (first : List ℕ) (rounds : List Round) → Life m first rounds
        → (to : Standing) × Recovers (last_image first rounds) (module_board m to)
        × (to.state ≡ made_by (flat_map installed_in rounds) empty_state)
        × (to.sequence ≡ sum_by installs rounds)
        × AllByRecursion InstallsReceiptsOrOneMore rounds }
{
    each_image_has_one_holder();
}

/// A law: over a life each leaf with which any octet of a signed answer was sent has a greater number
/// than those before it. So no two signed answers of which any octet was sent have the same leaf (RFC
/// 8554, section 9.2).
pub fn no_leaf_answers_twice()
    ensures ascends { (m : Module) (first : List ℕ) (rounds : List Round) → Life m first rounds
        → AllPairs (λ earlier later. earlier < later) (flat_map (leaves_of m) rounds) }
{
    each_image_has_one_holder();
}
