// A source that never fails.
ghost use Rattle.std.specs.Prelude.{◌≡◌, ◌-◌, ◌^◌, min, length, Some, IsOkAnd, MatchResult};
ghost use Rattle.std.specs.Io.{ReadsAtMost};
ghost use Rattle.std.specs.Io.KnownBytes.{ReadConsumes};
ghost use Rattle.edge_board.specs.Causes.{HasCause, Counts};

use crate::octet_queue::OctetQueue;
use crate::{Failed, Source};

/// A source in memory that never fails. Its count of faults is always 0.
#[derive(Drop)]
pub struct SureSource {
    queue: OctetQueue,
}

impl SureSource {
    /// A source of these octets.
    pub fn new(bytes: Vec<u8>) -> SureSource
        ensures left { (⟦<SureSource as Source>⟧.supply result).left ≡ Some bytes.items }
        ensures taken { (⟦<SureSource as Source>⟧.supply result).taken ≡ 0 }
        ensures faults { (⟦<SureSource as Source>⟧.supply result).faults ≡ 0 }
    {
        SureSource {
            queue: OctetQueue::new(bytes),
        }
    }
}

impl Source for SureSource {
    ghost use Rattle.edge_board.specs.MemSource.{sure_left, sure_taken};

    ghost supply = { λ s. record { left = Some (sure_left s); taken = sure_taken s; faults = 0 } };

    fn read(&mut self, into: &mut [u8]) -> Result<usize, Failed>
        ensures bound { ReadsAtMost result into.new }
        ensures bytes { ReadConsumes (Some (sure_left self.old)) (Some (sure_left self.new)) result
            into.new }
        ensures taken { MatchResult result
            (λ n. Counts (sure_taken self.old) (sure_taken self.new) n)
            (λ _. sure_taken self.new ≡ sure_taken self.old) }
        ensures cause { HasCause 0 0 result }

        // It never fails, and gives as much as fits and is left.
        ensures count { IsOkAnd result
            (λ n. n ≡ min (length into.new) (length (sure_left self.old))) }
    {
        Ok(self.queue.give(into, usize::MAX))
    }
}
