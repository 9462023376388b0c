// Which calls of a board in memory fail, and how many octets it still keeps.
ghost use Rattle.std.specs.Prelude.{◌≡◌, ◌+◌, ◌<◌, ◌≤◌, ◌↔◌, IsErr, OnOk, OnErr};
ghost use Rattle.edge_board.specs.Causes.{HasCause};
ghost use Rattle.edge_board.specs.BoardPlan.{IsToFail, GoesOn};

use crate::Failed;

// The plan of a board's maker, and how far it is.
#[derive(Drop)]
pub(crate) struct Schedule {
    made: u64,
    failing: Vec<u64>,
    calls: u64,
    room: usize,
    faults: u64,
}

impl Schedule {
    ghost use Rattle.edge_board.specs.Schedules.{plan_of};

    pub(crate) fn new(failing: Vec<u64>, calls: u64, room: usize) -> Schedule
        ensures { plan_of result ≡ record {
          made = 0;
          failing = failing.items;
          calls = calls;
          room = room;
          faults = 0;
        } }
    {
        Schedule {
            made: 0,
            failing,
            calls,
            room,
            faults: 0,
        }
    }

    pub(crate) fn room(&self) -> usize
        ensures { result ≡ self.now.room }
    {
        self.room
    }

    pub(crate) fn calls(&self) -> u64
        ensures { result ≡ self.now.calls }
    {
        self.calls
    }

    // Counts a call that is to keep so many octets, and its fault where it is one that fails.
    pub(crate) fn count(&mut self, octets: usize) -> Result<(), Failed>
        ensures fails { IsErr result ↔ IsToFail octets (plan_of self.old) }
        ensures plan { GoesOn octets (plan_of self.old) (plan_of self.new) result }
        ensures cause { HasCause self.old.faults self.new.faults result }
        ensures calls { self.new.calls ≡ self.old.calls }
        ensures ok { OnOk result (self.new.made ≡ self.old.made + 1) }
        ensures more { OnOk result (self.new.made ≤ self.old.calls) }
        ensures room { OnOk result (self.new.room + octets ≡ self.old.room) }
        ensures failed { OnErr result (self.new.room ≡ self.old.room) }
        ensures made { OnErr result (self.old.made ≤ self.new.made) }
    {
        let number = self.made;
        self.made = number.saturating_add(1);
        if number >= self.calls || self.failing.contains(&number) || self.room < octets {
            self.faults = self.faults.saturating_add(1);
            return Err(Failed);
        }
        self.room -= octets;
        Ok(())
    }
}
