// Laws over boards: one item by its steps, items one after the other, and a whole run.
ghost use Rattle.std.specs.Prelude.{◌≡◌, ◌+◌, ℕ, List, [], ◌∷◌, ◌++◌, Bool, false, ◌||◌, Option, IsTrue};
ghost use Rattle.sha2.specs.Sha256.{sha256};
ghost use Rattle.edge_board.specs.Board.{IsSettled, Sent, SameTest, Keeps};
ghost use Rattle.edge_board.specs.Runs.{LeavesOnly, Touches};
ghost use Rattle.edge_board.specs.Sends.{SendsFront};
ghost use Rattle.key_state.specs.KeyBlock.{FirstUnspent, row_of, IsLeafCount};
ghost use Rattle.key_state.specs.Row.{use_in, IsUsedUp};
ghost use Rattle.content_stream.specs.Plans.{Plan, InStream};
ghost use Rattle.lms_sign.specs.PublicKeys.{leaf_count};
ghost use Rattle.module_record.specs.declared.module.Module.{Module};
ghost use Rattle.config_table.specs.State.{State, Offer, with_package, offer_of};
ghost use Rattle.config_table.specs.Stored.{Stored};
ghost use Rattle.package_attrs.specs.Description.{Description};
ghost use Rattle.bank_layout.specs.declared.bank.Bank.{Bank};
ghost use Rattle.bank_layout.specs.Changes.{IsUnnamedIn, OldOrNew};
ghost use Rattle.bank_layout.specs.Manifest.{Manifest};
ghost use Rattle.bank_layout.specs.Recovery.{Standing, Recovers, HoldsModule, standing_of, image_octets};
ghost use Rattle.bank_layout.specs.Recovery.Holder.{module_board};
ghost use Rattle.judge_core.specs.Verdicts.{Verdict};
ghost use Rattle.judge_core.specs.Verdicts.Verdict.{accepts};
ghost use Rattle.load_claims.specs.Items.{JudgesAt, answer, after, some_refused, uses_leaf};
ghost use Rattle.load_claims.specs.Kept.{KeptIn};
ghost use Rattle.load_claims.specs.Boards.{Loads, CutsKeep, LeavesRun, IsInstalled};

use bank_layout::{next_manifest_runs, rows_stand_apart, unnamed_blocks_have_no_say};
use edge_board::Board;

/// A law: while an item is read and its content is stored in blocks that no running manifest names, no
/// item has begun for who looks at the flash, whatever the items are.
pub fn storing_is_not_begun<B: Board>()
    ensures stored { B.tells_cells → (a b : B) (m : Module) (at : ℕ) (start : Standing)
        (items : List (List ℕ)) (plan : Plan) → IsSettled (B.view a)
        → Recovers (B.view a).cells (module_board m start)
        → ((i : ℕ) → InStream plan i → IsUnnamedIn m.capacity (B.view a).cells i)
        → Touches B.tells_cells (InStream plan) (B.view a) (B.view b)
        → LeavesRun m at start items (B.view a) (B.view b) }
    ensures found { B.tells_cells → (a b : B) (m : Module) (start : Standing) (plan : Plan)
        → Recovers (B.view a).cells (module_board m start)
        → ((i : ℕ) → InStream plan i → IsUnnamedIn m.capacity (B.view a).cells i)
        → Touches B.tells_cells (InStream plan) (B.view a) (B.view b)
        → Recovers (B.view b).cells (module_board m start) }
{
    unnamed_blocks_have_no_say();
}

/// A law: an install of an accepted item leaves what stood there or what stands there after the item,
/// but for the row; and with its Ok the latter alone.
pub fn installing_is_inside<B: Board>()
    ensures moments { B.tells_cells → (a b : B) (m : Module) (at : ℕ) (item : List ℕ)
        (described : Description) (content image key_id : List ℕ) (manifest next : Manifest)
        (stored : Stored)
        → JudgesAt m at (standing_of m manifest (B.view a).cells) item
        (accepts described content image key_id)
        → image_octets (B.view a).cells stored ≡ image
        → next ≡ record {
          sequence = manifest.sequence + 1;
          state = with_package (offer_of described) (sha256 image) stored manifest.state;
        }
        → LeavesOnly (B.view a) (B.view b) (λ i s. OldOrNew (B.view a).cells i m manifest next
        × (B.view a).sent s)
        → LeavesRun m at (standing_of m manifest (B.view a).cells) (item ∷ []) (B.view a) (B.view b) }
    ensures installed { B.tells_cells → (a b : B) (m : Module) (at : ℕ) (item : List ℕ)
        (described : Description) (content image key_id : List ℕ) (manifest next : Manifest)
        (stored : Stored) (running : Option Bank)
        → JudgesAt m at (standing_of m manifest (B.view a).cells) item
        (accepts described content image key_id)
        → image_octets (B.view a).cells stored ≡ image
        → next ≡ record {
          sequence = manifest.sequence + 1;
          state = with_package (offer_of described) (sha256 image) stored manifest.state;
        }
        → HoldsModule (B.view b).cells m running next
        → standing_of m next (B.view b).cells ≡ standing_of m next (B.view a).cells
        → IsSettled (B.view b)
        → IsInstalled m at (standing_of m manifest (B.view a).cells) item
        (accepts described content image key_id) (B.view b) }
{
    next_manifest_runs();
}

/// A law: while the store is opened no item has begun, whatever the items are.
pub fn opening_is_not_begun<B: Board>()
    ensures opened { (a b : B) (m : Module) (at : ℕ) (start : Standing) (items : List (List ℕ))
        → Recovers (B.view a).cells (module_board m start)
        → LeavesOnly (B.view a) (B.view b)
        (λ image s. (image ≡ (B.view a).cells) × (B.view a).sent s)
        → LeavesRun m at start items (B.view a) (B.view b) }
{}

/// A law: the steps of an item follow each other, as long as nothing is sent; and an item whose package is
/// installed is inside its run.
pub fn steps_follow_each_other<B: Board>()
    ensures moments { (a b c : B) (m : Module) (at : ℕ) (start : Standing) (items : List (List ℕ))
        → LeavesRun m at start items (B.view a) (B.view b)
        → SameTest (B.view a).sent (B.view b).sent
        → LeavesRun m at start items (B.view b) (B.view c)
        → LeavesRun m at start items (B.view a) (B.view c) }
    ensures installed { (a : B) (m : Module) (at : ℕ) (start : Standing) (item : List ℕ)
        (verdict : Verdict) → IsInstalled m at start item verdict (B.view a)
        → LeavesRun m at start (item ∷ []) (B.view a) (B.view a) }
{}

/// A law: a spend for an item whose package is installed leaves the row's first unspent leaf spent or
/// not, and all else as after the item; and with its Ok, or where no leaf was left, what stands there is
/// what stands there after the item.
pub fn spending_is_inside<B: Board>()
    ensures moments { B.tells_cells → (a b c : B) (m : Module) (at : ℕ) (start : Standing)
        (item : List ℕ) (verdict : Verdict) → IsTrue (uses_leaf verdict)
        → IsLeafCount (leaf_count m.key)
        → LeavesRun m at start (item ∷ []) (B.view a) (B.view b)
        → SameTest (B.view a).sent (B.view b).sent
        → IsInstalled m at start item verdict (B.view b)
        → Touches B.tells_cells (FirstUnspent (leaf_count m.key) (B.view b).cells) (B.view b) (B.view c)
        → LeavesRun m at start (item ∷ []) (B.view a) (B.view c) }
    ensures spent { B.tells_cells → (b c : B) (m : Module) (at : ℕ) (start : Standing) (item : List ℕ)
        (verdict : Verdict) → IsTrue (uses_leaf verdict) → IsLeafCount (leaf_count m.key)
        → IsInstalled m at start item verdict (B.view b)
        → Touches B.tells_cells (FirstUnspent (leaf_count m.key) (B.view b).cells) (B.view b) (B.view c)
        → row_of (leaf_count m.key) (B.view c).cells
        ≡ use_in (row_of (leaf_count m.key) (B.view b).cells)
        → Recovers (B.view c).cells (module_board m (after start verdict)) }
    ensures all_spent { B.tells_cells → (b : B) (m : Module) (at : ℕ) (start : Standing)
        (item : List ℕ) (verdict : Verdict) → IsTrue (uses_leaf verdict)
        → IsInstalled m at start item verdict (B.view b)
        → IsUsedUp (row_of (leaf_count m.key) (B.view b).cells)
        → Recovers (B.view b).cells (module_board m (after start verdict)) }
{
    rows_stand_apart();
}

/// A law: while the answer is sent over a board on which what stands there is that after the item, all
/// is new; and once it is sent whole the item is answered.
pub fn sending_is_inside<B: Board>()
    ensures moments { B.tells_cells → (a c d : B) (m : Module) (at : ℕ) (start : Standing)
        (item : List ℕ) (verdict : Verdict) → JudgesAt m at start item verdict
        → LeavesRun m at start (item ∷ []) (B.view a) (B.view c)
        → SameTest (B.view a).sent (B.view c).sent → IsSettled (B.view c)
        → Recovers (B.view c).cells (module_board m (after start verdict))
        → LeavesOnly (B.view c) (B.view d) (SendsFront (B.view c) (answer m start verdict))
        → LeavesRun m at start (item ∷ []) (B.view a) (B.view d) }
    ensures answered { (a c d : B) (m : Module) (at : ℕ) (start : Standing) (item : List ℕ)
        (verdict : Verdict) → JudgesAt m at start item verdict
        → SameTest (B.view a).sent (B.view c).sent
        → Sent (B.view c) (B.view d) (answer m start verdict)
        → Recovers (B.view d).cells (module_board m (after start verdict))
        → Loads m at start (after start verdict) (item ∷ []) (some_refused (verdict ∷ [])) (B.view a)
        (B.view d) }
{}

/// A law: items that are answered one after the other are a run over all of them, and what is known of a
/// power cut since the first of them is what is claimed of the run.
pub fn items_follow_each_other<B: Board>()
    ensures begins { (a : B) (m : Module) (at : ℕ) (start : Standing)
        → Recovers (B.view a).cells (module_board m start)
        → Loads m at start start [] false (B.view a) (B.view a) }
    ensures begun { (a : B) (m : Module) (at : ℕ) (start : Standing) (items : List (List ℕ))
        → IsSettled (B.view a) → Recovers (B.view a).cells (module_board m start)
        → LeavesRun m at start items (B.view a) (B.view a) }
    ensures loads { (a b c : B) (m : Module) (at : ℕ) (start mid end : Standing)
        (done items : List (List ℕ)) (some more : Bool)
        → Loads m at start mid done some (B.view a) (B.view b)
        → Loads m at mid end items more (B.view b) (B.view c)
        → Loads m at start end (done ++ items) (some || more) (B.view a) (B.view c) }
    ensures moments { B.tells_moments → (a b c : B) (m : Module) (at : ℕ) (start mid : Standing)
        (done items : List (List ℕ)) (some : Bool)
        → Loads m at start mid done some (B.view a) (B.view b)
        → LeavesRun m at start (done ++ items) (B.view a) (B.view b)
        → LeavesRun m at mid items (B.view b) (B.view c)
        → LeavesRun m at start (done ++ items) (B.view a) (B.view c) }
    ensures claimed { (a b : B) (m : Module) (at : ℕ) (start : Standing) (items : List (List ℕ))
        → LeavesRun m at start items (B.view a) (B.view b)
        → CutsKeep m at start items (B.view a) (B.view b) }
    ensures any_moment { B.tells_moments → (a b : B) (m : Module) (at : ℕ) (start : Standing)
        (items : List (List ℕ)) → CutsKeep m at start items (B.view a) (B.view b)
        → (p image s : List ℕ) → (B.view a).sent p
        → (B.view b).might (B.view a).clock image (p ++ s) → KeptIn m at start items image s }
{}
