// Laws over runs on boards.
ghost use Rattle.std.specs.Prelude.{◌≡◌, ℕ, List, length};
ghost use Rattle.module_record.specs.declared.module.Module.{Module};
ghost use Rattle.bank_layout.specs.Recovery.{Standing, Recovers};
ghost use Rattle.bank_layout.specs.Recovery.Holder.{module_board};
ghost use Rattle.judge_core.specs.Verdicts.{Verdict};
ghost use Rattle.load_claims.specs.Items.{Judged};
ghost use Rattle.load_claims.specs.Headline.{FindsPrefix};
ghost use Rattle.load_claims.specs.Lives.{Round, IsRound, Life, fresh};
ghost use Rattle.loader_core.specs.Cuts.{CutRun, IsCutRun, FollowEachOther, AreRoundsOf, FindsInstalled, image_after};

use edge_board::Board;
use load_claims::headline;

/// For every module, list of offered packages and crash at any moment inside or between runs of
/// `load`, under the stated flash model, recovery finds the installed images and stale table made by a
/// prefix of the accepted packages that holds each one whose receipt was sent whole; a package is
/// accepted exactly where its bytes derive and its signatures, path constraints and the module's rules
/// all admit it.
///
/// A law. A `CutRun` is a run of `load` over a board that tells its moments, and a power cut at any of
/// them, the last included, after which the board stands until the next run. `finds` is of one such run,
/// over the verdicts on its first items, and `all` over the verdicts on all of them; `round` says that it
/// is a run of a life, and `life` is of runs one after the other, from a fresh module on: in each of them
/// the packages are a prefix of those that it accepted.
pub fn each_cut_finds_a_prefix<B: Board>()
    ensures finds { (m : Module) (start : Standing) (c : CutRun B) → B.tells_moments
        → IsCutRun B.tells_cells B.tells_moments B.view c
        → Recovers (B.view c.old).cells (module_board m start)
        → (verdicts : List Verdict) × Judged m c.at start c.items verdicts
        × FindsPrefix m c.at start c.items verdicts c.image c.sent }
    ensures all { (m : Module) (start : Standing) (c : CutRun B) (verdicts : List Verdict)
        → B.tells_moments → IsCutRun B.tells_cells B.tells_moments B.view c
        → Recovers (B.view c.old).cells (module_board m start)
        → Judged m c.at start c.items verdicts → length verdicts ≡ length c.items
        → FindsPrefix m c.at start c.items verdicts c.image c.sent }
    ensures round { (m : Module) (start : Standing) (c : CutRun B) → B.tells_moments
        → IsCutRun B.tells_cells B.tells_moments B.view c
        → Recovers (B.view c.old).cells (module_board m start)
        → (r : Round) × IsRound m r × (r.start ≡ (B.view c.old).cells) × (r.at ≡ c.at)
        × (r.items ≡ c.items) × (r.sent ≡ c.sent) × (r.end ≡ c.image) }
    ensures life { (m : Module) (first : List ℕ) (cuts : List (CutRun B)) → B.tells_moments
        → Recovers first (module_board m (fresh m))
        → FollowEachOther B.tells_cells B.tells_moments B.view first cuts
        → (rounds : List Round) × AreRoundsOf B.view cuts rounds × Life m first rounds
        × FindsInstalled m rounds (image_after first cuts) }
{
    headline();
}
