// What a power cut leaves of a run that loads one package, wherever it falls.
use crate::flash::{CALLS, FRESH, Flash, ROOM, holding, stopping_board};
use crate::row::{LOAD, Sent, is_sent, source_of, status_of};
use crate::vectors::{OLD, RECEIPT};
use edge_board::{MemBoard, MemSource, Pick};
use fwload_top::Status;
use judge_bench::case::Case;
use std::alloc::Global;

const PICKS: [Pick; 4] = [Pick::Keep, Pick::Before, Pick::Fill(0x0f), Pick::Fill(0)];

// More calls than a run makes that loads one package.
const MOST_CALLS: u64 = 120;

// Octets of programs and sends behind which a run is cut off, at last behind all of them.
const ROOMS: [usize; 14] = [
    0, 1, 5, 6, 50, 72, 73, 74, 75, 1000, 2000, 2600, 2650, 20_000,
];

// What `list` tells of a module: as it was, with the package installed, and with its answer's leaf spent.
#[derive(Clone, Copy)]
struct Told<'a> {
    before: &'a str,
    installed: &'a str,
    answered: &'a str,
}

// Whether a board tells what the count of octets that were sent leaves it to: where any was, the package is
// installed and its answer's leaf is spent.
fn is_told(board: &MemBoard, sent: usize, told: Told<'_>) -> bool {
    let text = board.sent_octets();
    text == told.answered.as_bytes()
        || sent == 0 && (text == told.before.as_bytes() || text == told.installed.as_bytes())
}

fn is_lawful(alloc: Global, board: MemBoard, pick: Pick, told: Told<'_>) -> bool {
    let sent = board.sent_octets().len();
    match board.stopped(alloc, pick, 100, 1000) {
        Ok(mut board) => {
            let mut source = MemSource::new(Vec::new(alloc), Vec::new(alloc));
            status_of(alloc, "f list", &mut source, &mut board) == Some(Status::Done)
                && is_told(&board, sent, told)
        }
        Err(_) => false,
    }
}

// Whether a run over these octets comes to its end, with the whole receipt. None where it ends in no fault
// of the board either.
fn comes_to_its_end(alloc: Global, item: &[u8], board: &mut MemBoard) -> Option<bool> {
    let status = match source_of(alloc, item, &[]) {
        Some(mut source) => status_of(alloc, LOAD, &mut source, board),
        None => None,
    };
    let whole = is_sent(alloc, board.sent_octets(), Sent::Hex(RECEIPT));
    match status {
        Some(Status::Done) if whole => Some(true),
        Some(Status::DeviceFault) => Some(false),
        _ => None,
    }
}

// Whether a run that is cut off behind so many calls and octets comes to its end. None where the board
// doesn't tell then what it should.
fn cut_off(
    alloc: Global,
    item: &[u8],
    flash: Flash<'_>,
    calls: u64,
    room: usize,
    pick: Pick,
    told: Told<'_>,
) -> Option<bool> {
    match stopping_board(alloc, flash, calls, room) {
        Some(mut board) => {
            let ended = comes_to_its_end(alloc, item, &mut board);
            let lawful = is_lawful(alloc, board, pick, told);
            if lawful { ended } else { None }
        }
        None => None,
    }
}

// Whether each run is lawful that is cut off behind a number of calls, and the last comes to its end.
fn behind_calls(alloc: Global, item: &[u8], flash: Flash<'_>, pick: Pick, told: Told<'_>) -> bool {
    let mut done = false;
    for calls in 0..=MOST_CALLS {
        match cut_off(alloc, item, flash, calls, ROOM, pick, told) {
            Some(last) => done = last,
            None => return false,
        }
    }
    done
}

// The same behind a number of octets.
fn behind_octets(alloc: Global, item: &[u8], flash: Flash<'_>, pick: Pick, told: Told<'_>) -> bool {
    let mut done = false;
    for room in ROOMS {
        match cut_off(alloc, item, flash, CALLS, room, pick, told) {
            Some(last) => done = last,
            None => return false,
        }
    }
    done
}

fn with_each_pick(alloc: Global, flash: Flash<'_>, told: Told<'_>) -> bool {
    let Some(case) = Case::plain(alloc) else {
        return false;
    };
    for pick in PICKS {
        if !behind_calls(alloc, &case.item, flash, pick, told)
            || !behind_octets(alloc, &case.item, flash, pick, told)
        {
            return false;
        }
    }
    true
}

// The package 1.2.3.1 version 7 is the first.
const FIRST: Told<'static> = Told {
    before: "module 1.2.3 0001 capacity 16\nsequence 0\nspent 0 of 32\n",
    installed: "module 1.2.3 0001 capacity 16\nsequence 1\nspent 0 of 32\n\
         package preferred 1.2.3.1 7 length 5 \
         sha256 2cf24dba5fb0a30e26e83b2ac5b9e29e1b161e5c1fa7425e73043362938b9824\n",
    answered: "module 1.2.3 0001 capacity 16\nsequence 1\nspent 1 of 32\n\
         package preferred 1.2.3.1 7 length 5 \
         sha256 2cf24dba5fb0a30e26e83b2ac5b9e29e1b161e5c1fa7425e73043362938b9824\n",
};

#[test]
fn a_cut_leaves_no_package_or_the_first(rt: HostRuntime) {
    assert!(rt; with_each_pick(rt.alloc(), FRESH, FIRST));
}

// It comes beside 1.2.3.2 version 4.
const BESIDE: Told<'static> = Told {
    before: "module 1.2.3 0001 capacity 16\nsequence 5\nspent 0 of 32\n\
         package preferred 1.2.3.2 4 length 4096 \
         sha256 0000000000000000000000000000000000000000000000000000000000000000\n",
    installed: "module 1.2.3 0001 capacity 16\nsequence 6\nspent 0 of 32\n\
         package preferred 1.2.3.2 4 length 4096 \
         sha256 0000000000000000000000000000000000000000000000000000000000000000\n\
         package preferred 1.2.3.1 7 length 5 \
         sha256 2cf24dba5fb0a30e26e83b2ac5b9e29e1b161e5c1fa7425e73043362938b9824\n",
    answered: "module 1.2.3 0001 capacity 16\nsequence 6\nspent 1 of 32\n\
         package preferred 1.2.3.2 4 length 4096 \
         sha256 0000000000000000000000000000000000000000000000000000000000000000\n\
         package preferred 1.2.3.1 7 length 5 \
         sha256 2cf24dba5fb0a30e26e83b2ac5b9e29e1b161e5c1fa7425e73043362938b9824\n",
};

#[test]
fn a_cut_over_format_1_keeps_the_other(rt: HostRuntime) {
    assert!(rt; with_each_pick(rt.alloc(), holding(OLD), BESIDE));
}
