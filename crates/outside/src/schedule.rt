// Which calls of a store or a sink in memory fail.
ghost use Rattle.std.specs.Prelude.{◌≡◌};
ghost use Rattle.outside.specs.Schedule.{Schedule as Calls, after_call, fresh, is_next_listed, schedule_code};

use std::marker::Model;

// The numbers of the calls that fail, counted from 1, and how many calls were made and failed so far.
#[derive(Debug, Drop)]
pub(crate) struct Schedule {
    fail: Vec<u64>,
    calls: u64,
    faults: u64,
}

impl Model for Schedule {
    ghost Value = { Calls };

    ghost coded = { schedule_code };

    ghost view = { λ s. record { fail = s.fail.items; calls = s.calls; faults = s.faults } };
}

impl Schedule {
    pub(crate) fn new(fail: Vec<u64>) -> Self
        ensures { result ≡ fresh fail.items }
    {
        Schedule {
            fail,
            calls: 0,
            faults: 0,
        }
    }

    // Whether the next call fails.
    pub(crate) fn is_next_listed(&self) -> bool
        ensures { result ≡ is_next_listed self.now }
    {
        self.fail
            .iter()
            .any(|&number| number.checked_sub(self.calls) == Some(1))
    }

    // Counts a call, and a fault where it failed.
    pub(crate) fn count(&mut self)
        ensures { self.new ≡ after_call self.old }
    {
        if self.is_next_listed() {
            self.faults = self.faults.saturating_add(1);
        }
        self.calls = self.calls.saturating_add(1);
    }
}
