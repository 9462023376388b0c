// A source in memory.
ghost use Rattle.std.specs.Prelude.{◌≡◌, ◌≤◌, ◌-◌, ◌^◌, ◌↔◌, length, Some, IsErr, IfOk, MatchResult};
ghost use Rattle.std.specs.Io.{ReadsAtMost};
ghost use Rattle.std.specs.Io.KnownBytes.{ReadConsumes};
ghost use Rattle.edge_board.specs.Causes.{HasCause, Counts};
ghost use Rattle.edge_board.specs.SourcePlan.{FailsNext, given_count, GoesOn};

use crate::octet_queue::OctetQueue;
use crate::{Failed, Source};

/// A source in memory, which fails where its maker planned it.
///
/// Its reads are numbered from 0. Those whose numbers are listed fail, and any other gives as many
/// octets as fit into the piece and are left. A clause sees all of it by `source_plan`.
#[derive(Drop)]
pub struct MemSource {
    queue: OctetQueue,
    failing: Vec<u64>,
    size: usize,
    made: u64,
    faults: u64,
    ghost least: { 1 ≤ size },
}

impl MemSource {
    ghost use Rattle.edge_board.specs.MemSource.{source_plan};

    /// A source of these octets, whose reads with the listed numbers fail.
    pub fn new(bytes: Vec<u8>, failing: Vec<u64>) -> MemSource
        ensures plan { source_plan result ≡ record {
          made = 0;
          failing = failing.items;
          size = 2 ^ 64 - 1;
          left = bytes.items;
          taken = 0;
          faults = 0;
        } }
        ensures left { (⟦<MemSource as Source>⟧.supply result).left ≡ Some bytes.items }
        ensures taken { (⟦<MemSource as Source>⟧.supply result).taken ≡ 0 }
        ensures faults { (⟦<MemSource as Source>⟧.supply result).faults ≡ 0 }
    {
        MemSource::pieces(bytes, failing, usize::MAX)
    }

    /// The same, but a read gives `size` octets at most.
    pub fn pieces(bytes: Vec<u8>, failing: Vec<u64>, size: usize) -> MemSource
        requires piece { 1 ≤ size }
        ensures plan { source_plan result ≡ record {
          made = 0;
          failing = failing.items;
          size = size;
          left = bytes.items;
          taken = 0;
          faults = 0;
        } }
        ensures left { (⟦<MemSource as Source>⟧.supply result).left ≡ Some bytes.items }
        ensures taken { (⟦<MemSource as Source>⟧.supply result).taken ≡ 0 }
        ensures faults { (⟦<MemSource as Source>⟧.supply result).faults ≡ 0 }
    {
        MemSource {
            queue: OctetQueue::new(bytes),
            failing,
            size,
            made: 0,
            faults: 0,
        }
    }
}

impl Source for MemSource {
    ghost use Rattle.edge_board.specs.MemSource.{source_plan};

    ghost supply = { λ s. record {
      left = Some (source_plan s).left;
      taken = (source_plan s).taken;
      faults = (source_plan s).faults;
    } };

    fn read(&mut self, into: &mut [u8]) -> Result<usize, Failed>
        ensures bound { ReadsAtMost result into.new }
        ensures bytes { ReadConsumes (Some (source_plan self.old).left)
            (Some (source_plan self.new).left) result into.new }
        ensures taken { MatchResult result
            (λ n. Counts (source_plan self.old).taken (source_plan self.new).taken n)
            (λ _. (source_plan self.new).taken ≡ (source_plan self.old).taken) }
        ensures cause { HasCause (source_plan self.old).faults (source_plan self.new).faults
            result }

        // It fails exactly where it is planned, and else gives as much as it can.
        ensures fails { IsErr result ↔ FailsNext (source_plan self.old) }
        ensures count { IfOk result
            (λ n. n ≡ given_count (source_plan self.old) (length into.new)) }
        ensures plan { GoesOn (source_plan self.old) (source_plan self.new) result }
    {
        let number = self.made;
        self.made = number.saturating_add(1);
        if self.failing.contains(&number) {
            self.faults = self.faults.saturating_add(1);
            return Err(Failed);
        }
        Ok(self.queue.give(into, self.size))
    }
}
