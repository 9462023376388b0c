// Where the input comes from.
ghost use Rattle.std.specs.Prelude.{◌≡◌, MatchResult};
ghost use Rattle.std.specs.Io.{ReadsAtMost};
ghost use Rattle.std.specs.Io.KnownBytes.{ReadConsumes};
ghost use Rattle.edge_board.specs.Supply.{Supply};
ghost use Rattle.edge_board.specs.Causes.{HasCause, Counts};

use crate::Failed;

/// Where the input comes from: octets in order, given in pieces.
pub trait Source {
    /// What is left, where the source tells it, and its counts of octets given and of faults. A
    /// count stays at 2^64 - 1 once it is there.
    ghost supply: { Self → Supply };

    /// Puts the next octets into the front of `into`, and answers how many. It answers 0 only
    /// where `into` is empty or nothing is left; then the input has ended.
    fn read(&mut self, into: &mut [u8]) -> Result<usize, Failed>
        ensures bound { ReadsAtMost result into.new }
        ensures bytes { ReadConsumes (supply self.old).left (supply self.new).left result into.new }
        ensures taken { MatchResult result
            (λ n. Counts (supply self.old).taken (supply self.new).taken n)
            (λ _. (supply self.new).taken ≡ (supply self.old).taken) }
        ensures cause { HasCause (supply self.old).faults (supply self.new).faults result };
}
