// Leaves, and how they are spent.
ghost use Rattle.std.specs.Prelude.{◌≡◌, ◌+◌, ◌<◌, ◌≤◌, length, IfOk, OnOk, IsErr, IsErrOf};
ghost use Rattle.edge_board.specs.Causes.{HasCause, Rose};
ghost use Rattle.edge_board.specs.Board.{Nowhere, IsSettled, Unchanged, cell};
ghost use Rattle.edge_board.specs.Runs.{Touches};
ghost use Rattle.key_state.specs.Row.{spent_in, use_in, IsUsedUp};
ghost use Rattle.key_state.specs.KeyBlock.{row_of, row_start, IsLeafCount, FirstUnspent};

use edge_board::{BLOCK, Board, Failed};
use std::marker::Model;

/// The block that has the row.
pub const KEY_BLOCK: u32 = 17;

/// The position of the row: the first octet of its block.
pub const ROW: u32 = BLOCK * KEY_BLOCK;

// the octet of an unspent leaf
const UNSPENT: u8 = 0xff;

/// A leaf of a one-time signing key that is spent on the flash, seen as its number: the q of
/// RFC 8554, section 5.2. `spend` alone gives one, and it can't be copied, so it signs once.
#[derive(Drop)]
pub struct Leaf {
    number: u32,
}

impl Model for Leaf {
    ghost use Rattle.std.specs.Prelude.{ℕ};

    ghost Value = { ℕ };

    ghost view = { λ leaf. leaf.number };
}

impl Leaf {
    /// The leaf number q, from 0 on.
    pub fn number(&self) -> u32
        ensures number { result ≡ self.now }
    {
        self.number
    }
}

/// Why no leaf was given.
#[derive(Clone, Copy, Debug, PartialEq, Eq)]
pub enum SpendFault {
    /// No leaf is unspent.
    AllSpent,
    /// The board has failed. The module is to be restarted.
    Fault,
}

impl From<Failed> for SpendFault {
    ghost use Rattle.key_state.specs.declared.spending.SpendFault.TheVariants.{Fault};

    ghost from_gives = { λ _ fault. fault ≡ Fault };

    fn from(_: Failed) -> Self {
        SpendFault::Fault
    }
}

/// How many leaves are spent: the octets before the row's first FF. `leaves` is 32 or 1,024.
pub fn spent<B: Board>(board: &mut B, leaves: u32) -> Result<u32, Failed>
    requires leaves { IsLeafCount leaves }
    requires blocks { 18 ≤ (B.view board.old).blocks }
    ensures count { B.tells_cells
        → IfOk result (λ n. n ≡ spent_in (row_of leaves (B.view board.old).cells)) }
    ensures below { IfOk result (λ n. n ≤ leaves) }
    ensures unchanged { B.tells_cells → Unchanged (B.view board.old) (B.view board.new) }
    ensures touches { Touches B.tells_cells Nowhere (B.view board.old) (B.view board.new) }
    ensures erased { (B.view board.new).erased ≡ (B.view board.old).erased }
    ensures cause { HasCause (B.view board.old).faults (B.view board.new).faults result }
{
    let mut octets = [0u8; 1024];
    let row = &mut octets[..leaves as usize];
    board.read(ROW, row)?;
    Ok(count_spent(row) as u32)
}

/// Spends the first unspent leaf: blanks its octet, and makes sure of it before the leaf is given.
/// `leaves` is 32 or 1,024.
pub fn spend<B: Board>(board: &mut B, leaves: u32) -> Result<Leaf, SpendFault>
    requires leaves { IsLeafCount leaves }
    requires blocks { 18 ≤ (B.view board.old).blocks }

    // The leaf is the row's first unspent one, and from now on it is spent after each power cut.
    ensures leaf { B.tells_cells
        → IfOk result (λ leaf. leaf ≡ spent_in (row_of leaves (B.view board.old).cells)) }
    ensures below { IfOk result (λ leaf. leaf < leaves) }
    ensures row { B.tells_cells → OnOk result (row_of leaves (B.view board.new).cells
        ≡ use_in (row_of leaves (B.view board.old).cells)) }
    ensures blank { B.tells_cells
        → IfOk result (λ leaf. cell (B.view board.new).cells (row_start + leaf) ≡ 0) }
    ensures settled { B.tells_cells → OnOk result (IsSettled (B.view board.new)) }

    // All are spent exactly where none is left, and then nothing has changed.
    ensures all_spent { B.tells_cells → IsErrOf result SpendFault.AllSpent
        → IsUsedUp (row_of leaves (B.view board.old).cells) }
    ensures none_left { B.tells_cells → IsUsedUp (row_of leaves (B.view board.old).cells)
        → IsErr result }
    ensures unchanged { B.tells_cells → IsErrOf result SpendFault.AllSpent
        → Unchanged (B.view board.old) (B.view board.new) }

    // Whatever is answered, the row's first unspent leaf alone was written.
    ensures touches { Touches B.tells_cells (FirstUnspent leaves (B.view board.old).cells)
        (B.view board.old) (B.view board.new) }
    ensures erased { (B.view board.new).erased ≡ (B.view board.old).erased }
    ensures later { (B.view board.old).faults ≤ (B.view board.new).faults }
    ensures calm { ¬ IsErrOf result SpendFault.Fault
        → (B.view board.new).faults ≡ (B.view board.old).faults }
    ensures fault { IsErrOf result SpendFault.Fault
        → Rose (B.view board.old).faults (B.view board.new).faults }
{
    let number = spent(board, leaves)?;
    if number == leaves {
        return Err(SpendFault::AllSpent);
    }
    board.blank(ROW + number)?;
    board.sync()?;
    Ok(Leaf { number })
}

fn count_spent(row: &[u8]) -> usize
    ensures count { result ≡ spent_in row.now }
    ensures below { result ≤ length row.now }
{
    for (i, octet) in row.iter().enumerate() {
        if *octet == UNSPENT {
            return i;
        }
    }
    row.len()
}
