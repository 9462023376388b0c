// What `open` answers over banks that are put together from octets.
use crate::board::{EMPTY, Part, manifest, module_board, open_over};
use bank_layout::Bank;
use edge_board::MemBoard;
use module_store::{OpenFault, open};
use std::alloc::Global;

// What a board is opened to: the sequence number and the bank that runs.
type Opened = Result<(u64, Option<Bank>), OpenFault>;

fn opened(alloc: Global, board: &mut MemBoard) -> Opened {
    match open(alloc, board) {
        Ok(store) => Ok((store.sequence, store.running)),
        Err(fault) => Err(fault),
    }
}

// Whether a module with a capacity of 2 and these banks is opened so.
fn opens(alloc: Global, zero: Part<'_>, one: Part<'_>, answer: Opened) -> bool {
    match module_board(alloc, 2, zero, one) {
        Some(mut board) => opened(alloc, &mut board) == answer,
        None => false,
    }
}

// Whether that bank runs with this sequence number.
fn runs(alloc: Global, zero: Part<'_>, one: Part<'_>, sequence: u64, bank: Option<Bank>) -> bool {
    opens(alloc, zero, one, Ok((sequence, bank)))
}

fn the_greater_runs(alloc: Global, four: &[u8], five: &[u8]) -> bool {
    let (four, five) = (open_over(four), open_over(five));
    runs(alloc, EMPTY, EMPTY, 0, None)
        && runs(alloc, four, EMPTY, 4, Some(Bank::Zero))
        && runs(alloc, EMPTY, four, 4, Some(Bank::One))
        && runs(alloc, four, five, 5, Some(Bank::One))
        && runs(alloc, five, four, 5, Some(Bank::Zero))
        && runs(alloc, five, five, 5, Some(Bank::Zero))
}

#[test]
fn the_greater_sequence_runs(rt: HostRuntime) {
    assert!(rt; the_greater_runs(rt.alloc(), &manifest(2, 4, 0), &manifest(2, 5, 3)));
}

// Whether no module holds the board.
fn is_refused(alloc: Global, zero: Part<'_>, one: Part<'_>) -> bool {
    opens(alloc, zero, one, Err(OpenFault::NotAModule))
}

// The last manifest is of format 3, and the image of the one before it stands in a block that a
// module with a capacity of 2 doesn't have.
fn all_are_refused(alloc: Global) -> bool {
    is_refused(alloc, open_over(b""), EMPTY)
        && is_refused(alloc, open_over(&manifest(2, 4, 0)), open_over(b""))
        && is_refused(alloc, open_over(&manifest(2, 4, 4)), EMPTY)
        && is_refused(alloc, open_over(&manifest(3, 4, 0)), EMPTY)
}

#[test]
fn an_open_gate_over_no_manifest_is_refused(rt: HostRuntime) {
    assert!(rt; all_are_refused(rt.alloc()));
}
