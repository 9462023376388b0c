// Reading the input to its end.
ghost use Rattle.std.specs.Prelude.{◌≡◌, ◌+◌, ◌-◌, ◌<◌, ◌≤◌, ◌^◌, length, vec_len, IfOk, IfErr, IsErrOf};
ghost use Rattle.edge_board.specs.Causes.{Rose};
ghost use Rattle.fwload_top.specs.Input.{TakesPiece, Fills, WasRead, WasNotRead};
ghost use Rattle.fwload_top.specs.declared.input.InputFault.TheVariants.{Failed as failed, Memory as memory};

use crate::Status;
use edge_board::{Failed, Source};
use std::alloc::{AllocError, Global};

// The most octets of input that a command takes that answers once.
const INPUT_LIMIT: usize = 1 << 26;

// The most octets that one read asks for.
const PIECE_SIZE: usize = 65_536;

/// Why an input was not read.
#[derive(Debug, Drop)]
pub(crate) enum InputFault {
    /// A read failed.
    Failed,
    /// There are more octets than the limit.
    TooLong,
    Memory,
}

impl From<Failed> for InputFault {
    ghost from_gives = { λ _ e. e ≡ failed };

    fn from(_: Failed) -> InputFault {
        InputFault::Failed
    }
}

impl From<AllocError> for InputFault {
    ghost from_gives = { λ _ e. e ≡ memory };

    fn from(_: AllocError) -> InputFault {
        InputFault::Memory
    }
}

impl From<InputFault> for Status {
    ghost use Rattle.fwload_top.specs.Input.{status_of};

    ghost from_gives = { λ fault status. status ≡ status_of fault };

    fn from(fault: InputFault) -> Status {
        match fault {
            InputFault::Failed => Status::SourceFault,
            InputFault::TooLong => Status::InputTooLong,
            InputFault::Memory => Status::NoMemory,
        }
    }
}

/// Reads the source to its end, in pieces of at most 65,536 octets and never past the limit of
/// 2^26. Where exactly the limit has come, one octet more is asked for.
///
/// Beside one piece it keeps the octets in one room, which doubles where it is full: so it is never
/// more than twice what came, and growth moves each octet once on average. While a growth moves
/// them to another place, the old room is held too.
pub(crate) fn read_input<S: Source>(alloc: Global, source: &mut S) -> Result<Vec<u8>, InputFault>
    ensures read { IfOk result (λ input.
        WasRead (S.supply source.old) (S.supply source.new) input.items) }
    ensures not_read { IfErr result (λ fault.
        WasNotRead (S.supply source.old) (S.supply source.new) fault) }
{
    let mut piece = empty_piece(alloc, PIECE_SIZE)?;
    let (input, ended) = fill(alloc, source, INPUT_LIMIT, &mut piece)?;
    if ended {
        return Ok(input);
    }
    let mut more = [0];
    if source.read(&mut more)? == 0 {
        Ok(input)
    } else {
        Err(InputFault::TooLong)
    }
}

// A piece to read into.
fn empty_piece(alloc: Global, size: usize) -> Result<Vec<u8>, AllocError>
    ensures size { IfOk result (λ piece. vec_len piece ≡ size) }
{
    vec![in alloc; 0; size]
}

// Reads up to the limit, piece by piece. Answers what came, and whether the source has ended.
fn fill<S: Source>(
    alloc: Global,
    source: &mut S,
    limit: usize,
    piece: &mut [u8],
) -> Result<(Vec<u8>, bool), InputFault>
    requires { 0 < length piece.old }
    ensures taken { IfOk result (λ x.
        Fills (S.supply source.old).left (S.supply source.new).left limit x.0.items x.1) }
    ensures counted { IfOk result (λ x. (S.supply source.new).taken < 2 ^ 64 - 1
        → (S.supply source.new).taken ≡ (S.supply source.old).taken + vec_len x.0) }
    ensures most { (S.supply source.new).taken < 2 ^ 64 - 1
        → (S.supply source.new).taken ≤ (S.supply source.old).taken + limit }
    ensures count { (S.supply source.old).faults ≤ (S.supply source.new).faults }
    ensures calm { ¬ IsErrOf result InputFault.Failed
        → (S.supply source.new).faults ≡ (S.supply source.old).faults }
    ensures failed { IsErrOf result InputFault.Failed
        → Rose (S.supply source.old).faults (S.supply source.new).faults }
    ensures not_long { ¬ IsErrOf result InputFault.TooLong }
{
    let mut input = Vec::new(alloc);
    while input.len() < limit {
        let room = piece.len().min(limit - input.len());
        let count = take_piece(source, &mut piece[..room], &mut input)?;
        if count == 0 {
            return Ok((input, true));
        }
    }
    Ok((input, false))
}

// Reads once into the piece, and adds what came to the input.
fn take_piece<S: Source>(
    source: &mut S,
    piece: &mut [u8],
    input: &mut Vec<u8>,
) -> Result<usize, InputFault>
    ensures taken { IfOk result (λ n. TakesPiece (S.supply source.old).left (S.supply source.new).left
        input.old.items input.new.items (length piece.old) n) }
    ensures counted { IfOk result (λ n. (S.supply source.new).taken < 2 ^ 64 - 1
        → (S.supply source.new).taken ≡ (S.supply source.old).taken + n) }
    ensures most { (S.supply source.new).taken < 2 ^ 64 - 1 → ((S.supply source.old).taken ≤ (S.supply source.new).taken)
        × ((S.supply source.new).taken ≤ (S.supply source.old).taken + length piece.old) }
    ensures count { (S.supply source.old).faults ≤ (S.supply source.new).faults }
    ensures calm { ¬ IsErrOf result InputFault.Failed
        → (S.supply source.new).faults ≡ (S.supply source.old).faults }
    ensures failed { IsErrOf result InputFault.Failed
        → Rose (S.supply source.old).faults (S.supply source.new).faults }
    ensures not_long { ¬ IsErrOf result InputFault.TooLong }
{
    let count = source.read(piece)?;
    input.extend_from_slice(&piece[..count])?;
    Ok(count)
}
