// What a power cut leaves of the cells.
ghost use Rattle.std.specs.Prelude.{◌≡◌, length};
ghost use Rattle.edge_board.specs.Picks.{picked_at, IsPickedBy};

/// What a power cut leaves of the pending cells.
#[derive(Clone, Copy, Debug, PartialEq, Eq)]
pub enum Pick {
    /// The cells as read.
    Keep,
    /// What they held at the last sync that answered Ok, or at the board's start.
    Before,
    /// This octet.
    Fill(u8),
}

// Leaves the picked octets in the pending cells.
fn pick_slice(cells: &mut [u8], pending: &[bool], synced: &[u8], pick: Pick)
    requires pending { length pending.now ≡ length cells.old }
    requires synced { length synced.now ≡ length cells.old }
    ensures { IsPickedBy pick pending.now cells.old synced.now cells.new }
{
    for i in 0..cells.len() {
        cells[i] = pick_octet(pick, cells[i], pending[i], synced[i]);
    }
}

// The same over the list itself.
pub(crate) fn pick_cells(cells: &mut Vec<u8>, pending: &[bool], synced: &[u8], pick: Pick)
    requires pending { length pending.now ≡ length cells.old.items }
    requires synced { length synced.now ≡ length cells.old.items }
    ensures { IsPickedBy pick pending.now cells.old.items synced.now cells.new.items }
{
    pick_slice(cells, pending, synced, pick);
}

// What one cell holds then.
fn pick_octet(pick: Pick, cell: u8, pending: bool, synced: u8) -> u8
    ensures { result ≡ picked_at pick cell pending synced }
{
    match pick {
        Pick::Before if pending => synced,
        Pick::Fill(octet) if pending => octet,
        _ => cell,
    }
}
