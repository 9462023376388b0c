// Laws of the definitions, which no call computes.
ghost use Rattle.std.specs.Prelude.{◌≡◌, ◌⊎◌, ℕ, ◌<◌, Bool, List, ◌++◌, Option, flat_map, AllPairs};
ghost use Rattle.std.specs.List.{AllByRecursion, AllZip};
ghost use Rattle.edge_board.specs.Board.{IsSettled};
ghost use Rattle.edge_board.specs.Supply.{Supply};
ghost use Rattle.lms_sign.specs.declared.key.SignKey.{SignKey};
ghost use Rattle.packager.specs.SigningRuns.{Output, Signs};
ghost use Rattle.bank_layout.specs.Recovery.{Standing, HoldsKey, Recovers};
ghost use Rattle.bank_layout.specs.Recovery.Holder.{module_board};
ghost use Rattle.module_record.specs.declared.module.Module.{Module};
ghost use Rattle.package_rules.specs.Module.{Module as RulesModule};
ghost use Rattle.bank_store.specs.Formats.{RecoversToNewModule};
ghost use Rattle.loader_core.specs.Cuts.{FindsInstalled};
ghost use Rattle.config_table.specs.State.{State};
ghost use Rattle.config_table.specs.Stored.{Stored};
ghost use Rattle.judge_core.specs.Rehearsal.{Verdict};
ghost use Rattle.fwload_top.specs.Verdicts.{Judges};
ghost use Rattle.fwload_top.specs.Meaning.{WritesNoFlash};
ghost use Rattle.fwload_top.specs.Ident.{ident};
ghost use Rattle.fwload_top.specs.Sigcheck.{sigcheck};
ghost use Rattle.fwload_top.specs.Rehearse.{Rehearses, rehearse};
ghost use Rattle.fwload_top.specs.List.{list};
ghost use Rattle.fwload_top.specs.Explain.{explain};
ghost use Rattle.fwload_top.specs.AnswersOnce.{CutLeaves};
ghost use Rattle.fwload_top.specs.declared.signing.Product.{Product};
ghost use Rattle.fwload_top.specs.Signing.{signing, SignsNothing};
ghost use Rattle.fwload_top.specs.declared.words.Command.{Command};
ghost use Rattle.fwload_top.specs.declared.status.Status.{Status};
ghost use Rattle.fwload_top.specs.Seen.{seen};
ghost use Rattle.fwload_top.specs.Commands.{promise};
ghost use Rattle.fwload_top.specs.BoardRuns.{BoardRun, AreBoardRuns, SignsWith, leaves_used, loads_in};
ghost use Rattle.fwload_top.specs.Rounds.{Round, IsRound, AreRounds, IsTold, IsRunOfRound};
ghost use Rattle.fwload_top.specs.Rounds.{AreModuleRuns, last_end};

use bank_layout::each_image_has_one_holder;
use der_core::laws::one_list_of_items;
use edge_board::Board;
use load_claims::{cuts_are_rounds as cuts_are_runs_of_a_life, headline};

/// A law: a set has one verdict at most over a state, and an input has one answer of `rehearse`.
pub fn one_rehearsal()
    ensures verdict { (m : RulesModule) (state : State Stored) (contents : List ℕ) (one other : Verdict)
        → Judges m state contents one → Judges m state contents other → one ≡ other }
    ensures answer { (at : ℕ) (input one other : List ℕ) (refuses refuses' : Bool)
        → Rehearses at refuses input one → Rehearses at refuses' input other
        → (one ≡ other) × (refuses ≡ refuses') }
{}

/// A law: `ident`, `sigcheck`, `rehearse`, `list` and `explain` write no flash.
pub fn no_flash_is_written()
    ensures ident { WritesNoFlash ident }
    ensures sigcheck { WritesNoFlash sigcheck }
    ensures rehearse { (at : ℕ) → WritesNoFlash (rehearse at) }
    ensures list { WritesNoFlash list }
    ensures explain { (at : ℕ) → WritesNoFlash (explain at) }
{}

/// A law: whatever moment of `issue` or `pack` a power cut falls into, on a board that a key holds, the
/// key still holds it, and the cells are as they were at the start with no signed octet sent, or the
/// run so far is one that signs with the key's next leaf.
pub fn cuts_leave_signing_runs<B: Board>()
    ensures runs { B.tells_cells → (p : Product) (left : Option (List ℕ)) (cells : List ℕ) (count : ℕ)
        → (key : SignKey) → HoldsKey cells key → (image s : List ℕ)
        → CutLeaves (signing p) B.tells_cells left cells count image s
        → SignsNothing cells image s ⊎ ((output : Output)
        × Signs key output (record { start = cells; sent = s; left = image })) }
    ensures holds { B.tells_cells → (p : Product) (left : Option (List ℕ)) (cells : List ℕ) (count : ℕ)
        → (key : SignKey) → HoldsKey cells key → (image s : List ℕ)
        → CutLeaves (signing p) B.tells_cells left cells count image s → HoldsKey image key }
{
    each_image_has_one_holder();
}

/// A law: what a power cut at any moment of a run leaves is what its command says of one, where the
/// board tells its moments and nothing was pending at the start.
pub fn cuts_are_rounds<B: Board>()
    ensures rounds { (c : Command) (status : Status) (before after : Supply) (old new : B)
        → (promise c).Runs (seen B.tells_cells B.tells_moments status before after (B.view old)
        (B.view new))
        → B.tells_moments → IsSettled (B.view old) → (p image s : List ℕ) → (B.view old).sent p
        → (B.view new).might (B.view old).clock image (p ++ s)
        → IsRound B.tells_cells (record {
          command = c;
          input = before.left;
          blocks = (B.view old).blocks;
          start = (B.view old).cells;
          sent = s;
          end = image;
        }) }
{}

/// A law: whatever runs of the program, of all its commands, the board of a key or a module goes through,
/// and power cuts in them, each is a run that signs with leaves of the key, or one that leaves the board
/// and sends nothing signed (on a key's board `runs`, on a module's, where the sources of packages tell
/// their octets, `loads`). Each leaf with which any octet was sent has a greater number than those before
/// it (`ascends`). So no two signed outputs and answers of which any octet was sent have the same leaf (RFC
/// 8554, section 9.2).
pub fn no_leaf_is_used_twice<B: Board>()
    ensures runs { B.tells_cells → (key : SignKey) (image : List ℕ) (rounds : List Round)
        → HoldsKey image key → AreRounds B.tells_cells image rounds
        → (runs : List BoardRun) × AreBoardRuns key image runs × AllZip IsRunOfRound rounds runs }
    ensures loads { B.tells_cells → (m : Module) (from : Standing) (image : List ℕ) (rounds : List Round)
        → Recovers image (module_board m from) → AreRounds B.tells_cells image rounds
        → AllByRecursion IsTold rounds
        → (runs : List BoardRun) × AreModuleRuns m image rounds runs }
    ensures ascends { (key : SignKey) (image : List ℕ) (runs : List BoardRun) → SignsWith image key
        → AreBoardRuns key image runs
        → AllPairs (λ earlier later. earlier < later) (flat_map (leaves_used key) runs) }
{
    each_image_has_one_holder();
    cuts_are_runs_of_a_life();
    one_list_of_items();
}

/// The headline over whole runs of the program: from a module's board on which nothing is installed and no
/// leaf is spent, as `make` leaves it, whatever runs of all commands it goes through, and power cuts inside
/// or between them, recovery finds the installed images and the stale table that the packages make which
/// the runs of `load` installed, in order. Each of these installed a prefix of the packages that it
/// accepted, which holds each one whose receipt was sent whole, and at most one more; and a package is
/// accepted exactly where it is admitted (all 41 conditions of docs/CONDITIONS.md).
///
/// A law. That a power cut in a run leaves such a round is the law `cuts_are_rounds`.
pub fn headline_over_all_runs<B: Board>()
    ensures life { B.tells_cells → (m : Module) (first : List ℕ) (rounds : List Round)
        → RecoversToNewModule first m → AreRounds B.tells_cells first rounds
        → AllByRecursion IsTold rounds
        → (runs : List BoardRun) × AreModuleRuns m first rounds runs
        × FindsInstalled m (loads_in runs) (last_end first rounds) }
{
    no_leaf_is_used_twice::<B>();
    headline();
}
