// The input of a run.
ghost use Rattle.std.specs.Prelude.{◌≡◌, ◌+◌, ◌-◌, ◌<◌, ◌≤◌, ◌^◌, [], ◌∷◌, ℕ, List, length, drop};
ghost use Rattle.std.specs.Prelude.{IfOk, IfErr, MatchResult, take, OnOk, OnErr, IsErrOf};
ghost use Rattle.std.specs.Io.KnownBytes.{Keeps, Consumes, IsAtEnd};
ghost use Rattle.edge_board.specs.Causes.{HasCause, Counts};
ghost use Rattle.load_input.specs.Causes.{HasLoadCause};
ghost use Rattle.load_input.specs.Inputs.{Buffered, ahead, Fails, IsCounted};

use edge_board::{Failed, Source};
use std::alloc::{AllocError, Global};
use std::marker::Model;

// The most octets that are taken; this project's own.
const LIMIT: u64 = 1 << 32;

// The most octets that one read asks for.
const PIECE_SIZE: usize = 65_536;

/// Why no octets came.
#[derive(Clone, Copy, Debug, PartialEq, Eq)]
pub enum ReadFault {
    /// A read failed.
    Failed,
    /// The source has given an octet more than the limit.
    TooLong,
}

impl From<Failed> for ReadFault {
    ghost use Rattle.load_input.specs.declared.input.ReadFault.TheVariants.{Failed as failed};

    ghost from_gives = { λ _ fault. fault ≡ failed };

    fn from(_: Failed) -> ReadFault {
        ReadFault::Failed
    }
}

/// The input of a run, seen as the octets that were taken from its source and not handed on yet, and the
/// number of those that were handed on. Both together are 2^32 octets at most.
#[derive(Drop)]
pub struct Input {
    piece: Vec<u8>,
    from: usize,
    to: usize,
    passed: u64,
}

impl Model for Input {
    ghost use Rattle.std.specs.Prelude.{◌+◌, ◌-◌, ◌^◌, ◌≤◌, ◌<◌, vec_len, take, drop};
    ghost use Rattle.load_input.specs.Inputs.{Buffered};

    ghost Value = { Buffered };

    ghost view = { λ i. record {
      octets = take (i.to - i.from) (drop i.from i.piece.items);
      passed = i.passed;
    } };

    ghost invariant = { λ i. (i.from ≤ i.to) × (i.to ≤ vec_len i.piece) × (0 < vec_len i.piece)
        × (i.passed + (i.to - i.from) ≤ 2 ^ 32) };
}

impl Input {
    /// An input of which nothing was taken.
    pub fn new(alloc: Global) -> Result<Input, AllocError>
        ensures fresh { IfOk result (λ input. input ≡ record { octets = []; passed = 0 }) }
    {
        let piece = empty_piece(alloc, PIECE_SIZE)?;
        Ok(Input {
            piece,
            from: 0,
            to: 0,
            passed: 0,
        })
    }

    /// The octets that were taken and not handed on.
    pub fn octets(&self) -> &[u8]
        ensures octets { result.now ≡ self.now.octets }
        ensures within { self.now.passed + length self.now.octets ≤ 2 ^ 32 }
    {
        &self.piece[self.from..self.to]
    }

    /// Hands the first n of these octets on.
    pub fn pass(&mut self, n: usize)
        requires { n ≤ length self.old.octets }
        ensures octets { self.new.octets ≡ drop n self.old.octets }
        ensures passed { self.new.passed ≡ self.old.passed + n }
    {
        self.from += n;
        self.passed += n as u64;
    }

    /// Takes the next piece, by one read, where all octets have been handed on. There are none
    /// afterwards only where the source has ended.
    pub fn fill<S: Source>(&mut self, source: &mut S) -> Result<(), ReadFault>
        ensures kept { OnOk result
            (Keeps (ahead self.old (S.supply source.old)) (ahead self.new (S.supply source.new))) }
        ensures end { OnOk result (self.new.octets ≡ [] → IsAtEnd (ahead self.new (S.supply source.new))) }
        ensures fails { IfErr result
            (λ fault. Fails self.old self.new (S.supply source.old) (S.supply source.new) fault) }

        // what was handed on stays, and what was taken is within the limit
        ensures passed { self.new.passed ≡ self.old.passed }
        ensures grows { length self.old.octets ≤ length self.new.octets }
        ensures within { self.new.passed + length self.new.octets ≤ 2 ^ 32 }
        ensures counted { (S.supply source.new).taken < 2 ^ 64 - 1 → OnOk result
            (IsCounted 0 self.old self.new (S.supply source.old).taken (S.supply source.new).taken) }
        ensures source { HasLoadCause ReadFault.Failed (S.supply source.old).faults
            (S.supply source.new).faults result }
    {
        if self.from < self.to {
            return Ok(());
        }
        if self.passed == LIMIT {
            return check_end(source);
        }
        let room = (LIMIT - self.passed).min(self.piece.len() as u64) as usize;
        let count = read_piece(source, &mut self.piece, room)?;
        self.from = 0;
        self.to = count;
        Ok(())
    }
}

// Room for a piece.
fn empty_piece(alloc: Global, size: usize) -> Result<Vec<u8>, AllocError>
    ensures { IfOk result (λ piece. length piece.items ≡ size) }
{
    vec![in alloc; 0; size]
}

// Reads once, so many octets at most, into the front of the piece.
fn read_piece<S: Source>(source: &mut S, piece: &mut [u8], room: usize) -> Result<usize, Failed>
    requires some { 0 < room }
    requires within { room ≤ length piece.old }
    ensures bound { IfOk result (λ n. n ≤ room) }
    ensures text { IfOk result
        (λ n. Consumes (S.supply source.old).left (S.supply source.new).left (take n piece.new)) }
    ensures end { IfOk result (λ n. n ≡ 0 → IsAtEnd (S.supply source.new).left) }
    ensures taken { MatchResult result
        (λ n. Counts (S.supply source.old).taken (S.supply source.new).taken n)
        (λ _. (S.supply source.new).taken ≡ (S.supply source.old).taken) }
    ensures kept { OnErr result (Keeps (S.supply source.old).left (S.supply source.new).left) }
    ensures cause { HasCause (S.supply source.old).faults (S.supply source.new).faults result }
{
    source.read(&mut piece[..room])
}

// Asks for the octet beyond the limit.
fn check_end<S: Source>(source: &mut S) -> Result<(), ReadFault>
    ensures end { OnOk result (IsAtEnd (S.supply source.new).left
        × Keeps (S.supply source.old).left (S.supply source.new).left) }
    ensures counted { (S.supply source.new).taken < 2 ^ 64 - 1
        → OnOk result ((S.supply source.new).taken ≡ (S.supply source.old).taken) }
    ensures stopped { IsErrOf result ReadFault.Failed
        → Keeps (S.supply source.old).left (S.supply source.new).left
        × ((S.supply source.new).taken ≡ (S.supply source.old).taken) }
    ensures over { IsErrOf result ReadFault.TooLong
        → (octet : ℕ) × Consumes (S.supply source.old).left (S.supply source.new).left (octet ∷ []) }
    ensures more { (S.supply source.new).taken < 2 ^ 64 - 1 → IsErrOf result ReadFault.TooLong
        → (S.supply source.new).taken ≡ (S.supply source.old).taken + 1 }
    ensures source { HasLoadCause ReadFault.Failed (S.supply source.old).faults
        (S.supply source.new).faults result }
{
    let mut more = [0];
    if source.read(&mut more)? == 0 {
        Ok(())
    } else {
        Err(ReadFault::TooLong)
    }
}
