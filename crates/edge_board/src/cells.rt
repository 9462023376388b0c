// Runs of octets and of flags, which the boards in memory keep one of for each position.
ghost use Rattle.std.specs.Prelude.{◌≡◌, ◌+◌, ◌≤◌, length, take, drop, replicate, true, false, IfOk};
ghost use Rattle.edge_board.specs.Events.{filled, written};

use std::alloc::{AllocError, Global};

// The places hold the octet.
fn fill_octets(octets: &mut [u8], at: usize, count: usize, octet: u8)
    requires { at + count ≤ length octets.old }
    ensures { octets.new ≡ filled at count octet octets.old }
{
    for i in at..at + count {
        octets[i] = octet;
    }
}

// The places are set.
fn set_flags(flags: &mut [bool], at: usize, count: usize)
    requires { at + count ≤ length flags.old }
    ensures { flags.new ≡ filled at count true flags.old }
{
    for i in at..at + count {
        flags[i] = true;
    }
}

// The places hold the octets.
fn write_octets(octets: &mut [u8], at: usize, bytes: &[u8])
    requires { at + length bytes.now ≤ length octets.old }
    ensures { octets.new ≡ written at bytes.now octets.old }
{
    for (i, octet) in bytes.iter().enumerate() {
        octets[at + i] = *octet;
    }
}

// No place is set.
fn clear_slice(flags: &mut [bool])
    ensures { flags.new ≡ replicate (length flags.old) false }
{
    flags.fill(false);
}

// No place is pending any more.
pub(crate) fn clear_flags(pending: &mut Vec<bool>)
    ensures { pending.new.items ≡ replicate (length pending.old.items) false }
{
    clear_slice(pending);
}

// Every place holds what the other list has there.
pub(crate) fn copy_octets(octets: &mut Vec<u8>, others: &[u8])
    requires { length octets.old.items ≡ length others.now }
    ensures { octets.new.items ≡ others.now }
{
    octets.copy_from_slice(others);
}

// A list of the same octets.
pub(crate) fn copy_of(alloc: Global, octets: &[u8]) -> Result<Vec<u8>, AllocError>
    ensures { IfOk result (λ copy. copy.items ≡ octets.now) }
{
    octets.to_vec(alloc)
}

// Gives the octets from a place on.
pub(crate) fn read_octets(octets: &[u8], at: usize, into: &mut [u8])
    requires { at + length into.old ≤ length octets.now }
    ensures { into.new ≡ take (length into.new) (drop at octets.now) }
{
    into.copy_from_slice(&octets[at..at + into.len()]);
}

// The places become pending and hold the octet.
pub(crate) fn mark_filled(
    pending: &mut Vec<bool>,
    cells: &mut Vec<u8>,
    at: usize,
    count: usize,
    octet: u8,
)
    requires pending { at + count ≤ length pending.old.items }
    requires cells { at + count ≤ length cells.old.items }
    ensures pending { pending.new.items ≡ filled at count true pending.old.items }
    ensures cells { cells.new.items ≡ filled at count octet cells.old.items }
{
    set_flags(pending, at, count);
    fill_octets(cells, at, count, octet);
}

// The places become pending and hold the octets.
pub(crate) fn mark_written(pending: &mut Vec<bool>, cells: &mut Vec<u8>, at: usize, bytes: &[u8])
    requires pending { at + length bytes.now ≤ length pending.old.items }
    requires cells { at + length bytes.now ≤ length cells.old.items }
    ensures pending { pending.new.items ≡ filled at (length bytes.now) true pending.old.items }
    ensures cells { cells.new.items ≡ written at bytes.now cells.old.items }
{
    set_flags(pending, at, bytes.len());
    write_octets(cells, at, bytes);
}
