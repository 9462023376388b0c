// Reads and sends that fail under `ident`.
use crate::row::{ends, source_of};
use edge_board::{MemBoard, MemSource};
use fwload_top::Status;
use std::alloc::{AllocError, Global};

// The text of an identifier.
const NAMED: &[u8] = b"\x30\x0c\x30\x07\x06\x02\x2a\x03\x02\x01\x07\x02\x01\x05";

// A board of which these calls fail, with room for so many octets.
fn board_with(alloc: Global, calls: &[u64], room: usize) -> Result<MemBoard, AllocError> {
    MemBoard::new(alloc, 1, calls.to_vec(alloc)?, 100, room)
}

fn ends_on(
    alloc: Global,
    source: &mut MemSource,
    calls: &[u64],
    room: usize,
    wanted: Status,
    sent: &str,
) -> bool {
    match board_with(alloc, calls, room) {
        Ok(mut board) => ends(alloc, "f ident", source, &mut board, wanted, sent),
        Err(_) => false,
    }
}

// How it ends over an input of which the reads of these numbers fail, and a board of which these calls
// fail, with room for so many octets.
fn fails(
    alloc: Global,
    input: &[u8],
    reads: &[u64],
    calls: &[u64],
    room: usize,
    wanted: Status,
    sent: &str,
) -> bool {
    match source_of(alloc, input, reads) {
        Ok(mut source) => ends_on(alloc, &mut source, calls, room, wanted, sent),
        Err(_) => false,
    }
}

// The first or the second read fails, or the first send, or the board has room for no octet, or
// for one alone.
fn faults_have_causes(a: Global) -> bool {
    fails(a, NAMED, &[0], &[], 4096, Status::SourceFault, "")
        && fails(a, NAMED, &[1], &[], 4096, Status::SourceFault, "")
        && fails(a, NAMED, &[], &[0], 4096, Status::DeviceFault, "")
        && fails(a, NAMED, &[], &[], 0, Status::DeviceFault, "")
        && fails(a, NAMED, &[], &[], 1, Status::DeviceFault, "p")
}

#[test]
fn a_fault_has_its_cause(rt: HostRuntime) {
    assert!(rt; faults_have_causes(rt.alloc()));
}

// An input of one octet more than a read asks for: its second read fails, or its third.
fn later_reads_fail(a: Global) -> bool {
    match vec![in a; 0; 65_537] {
        Ok(input) => {
            fails(a, &input, &[1], &[], 4096, Status::SourceFault, "")
                && fails(a, &input, &[2], &[], 4096, Status::SourceFault, "")
        }
        Err(_) => false,
    }
}

#[test]
fn a_later_read_fails(rt: HostRuntime) {
    assert!(rt; later_reads_fail(rt.alloc()));
}
