// Laws over rows and boards, for the layers that make several calls.
ghost use Rattle.std.specs.Prelude.{◌≡◌, ◌≢◌, ◌↔◌, ℕ, ◌<◌, ◌≤◌, List, [], ◌++◌, length, All, AllPairs};
ghost use Rattle.edge_board.specs.Board.{InBlock, IsSettled, Nowhere, cell};
ghost use Rattle.edge_board.specs.Runs.{Changes, Touches};
ghost use Rattle.key_state.specs.Row.{spent_in, use_in, IsUsedUp};
ghost use Rattle.key_state.specs.KeyBlock.{row_of, IsLeafCount, InRow, FirstUnspent};
ghost use Rattle.key_state.specs.Histories.{Event, CutsTo, FailsTo, IsHistory, Leads, leaves_given};
ghost use Rattle.key_state.specs.Histories.{IsDoubt, IsGift, IsEvent, SparesRow};

use edge_board::Board;

/// A law: over all spends and all power cuts between them and inside them, each leaf that is given
/// has a greater number than those before, so none is given twice (RFC 8554, section 9.2). After a
/// power cut the octet of a leaf that wasn't given may be anything, FF too.
pub fn no_leaf_is_given_twice()
    ensures ascends { (row doubt : List ℕ) (events : List Event) → IsHistory row doubt events
        → AllPairs (λ earlier later. earlier < later) (leaves_given events) }
{}

/// A law: two histories of which the second begins where the first ends are one, and what it gives
/// is what they give, in their order. So the leaves of several runs ascend too.
pub fn histories_are_joined()
    ensures joined { (row doubt : List ℕ) (events : List Event) (middle middle_doubt : List ℕ)
        (later : List Event) (end end_doubt : List ℕ)
        → Leads row doubt events middle middle_doubt → Leads middle middle_doubt later end end_doubt
        → Leads row doubt (events ++ later) end end_doubt }
    ensures given { (events later : List Event)
        → leaves_given (events ++ later) ≡ leaves_given events ++ leaves_given later }
{}

/// A law: where at most the first unspent leaf's octet differs, no fewer leaves are spent, and more
/// are where it holds 00. A power cut where no place is doubtful changes no more than that.
pub fn spent_leaves_stay_spent()
    ensures no_fewer { (row next : List ℕ) → FailsTo row next → spent_in row ≤ spent_in next }
    ensures more { (row next : List ℕ) → FailsTo row next → spent_in row < length row
        → cell next (spent_in row) ≡ 0 → spent_in row < spent_in next }
    ensures used { (row : List ℕ) → FailsTo row (use_in row) }
    ensures cut { (row next : List ℕ) → CutsTo row [] next → FailsTo row next }
{}

/// A law: the row's first unspent leaf stands in block 17, among the row's octets.
pub fn first_unspent_is_in_the_row()
    ensures block { (leaves : ℕ) (cells : List ℕ) (i : ℕ) → IsLeafCount leaves
        → FirstUnspent leaves cells i → InBlock 17 i }
    ensures row { (leaves : ℕ) (cells : List ℕ) (i : ℕ) → FirstUnspent leaves cells i
        → InRow leaves i }
{}

/// A law: what `spend` leaves is an event of such a history. Where it gives a leaf, its clauses
/// `leaf`, `below`, `row` and `settled` say which. Whatever it answers, its clause `touches` says
/// what the row reads then and what a power cut at any moment of it leaves.
pub fn spend_is_an_event<B: Board>()
    ensures gives { B.tells_cells → (old new : B) (leaves leaf : ℕ) → IsLeafCount leaves
        → 18 ≤ (B.view old).blocks → leaf ≡ spent_in (row_of leaves (B.view old).cells)
        → leaf < leaves
        → row_of leaves (B.view new).cells ≡ use_in (row_of leaves (B.view old).cells)
        → IsSettled (B.view new) → IsGift leaves leaf (B.view old) (B.view new) }
    ensures gives_none { B.tells_cells → (old new : B) (leaves : ℕ) (doubt : List ℕ)
        → IsLeafCount leaves → 18 ≤ (B.view old).blocks → IsDoubt leaves (B.view old) doubt
        → Touches B.tells_cells (FirstUnspent leaves (B.view old).cells) (B.view old) (B.view new)
        → IsEvent leaves doubt (B.view old) (B.view new) }
{}

/// A law: calls that write no position of the row leave it as it reads, and a power cut in them
/// changes it no more than one before them, whatever they send. A `send_all` is such a call by its
/// clause `changes`.
pub fn other_calls_spare_the_row<B: Board>()
    ensures spared { B.tells_cells → (old new : B) (leaves : ℕ) (doubt : List ℕ) → IsLeafCount leaves
        → 18 ≤ (B.view old).blocks → IsDoubt leaves (B.view old) doubt
        → Changes B.tells_cells (λ i. ¬ InRow leaves i) (B.view old) (B.view new)
        → SparesRow leaves doubt (B.view old) (B.view new) }
    ensures sent { B.tells_cells → (old new : B) (leaves : ℕ) (doubt : List ℕ)
        → IsLeafCount leaves → 18 ≤ (B.view old).blocks → IsDoubt leaves (B.view old) doubt
        → Changes B.tells_cells Nowhere (B.view old) (B.view new)
        → SparesRow leaves doubt (B.view old) (B.view new) }
{}

/// A law: the row has an octet for each leaf.
pub fn row_has_a_place_a_leaf<B: Board>()
    ensures length { B.tells_cells → (board : B) (leaves : ℕ) → IsLeafCount leaves
        → 18 ≤ (B.view board).blocks → length (row_of leaves (B.view board).cells) ≡ leaves }
{}

/// A law: a row is used up exactly where it has no FF.
pub fn used_up_has_no_ff()
    ensures row { (row : List ℕ) → IsUsedUp row ↔ All (λ octet. octet ≢ 255) row }
{}
