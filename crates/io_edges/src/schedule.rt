// Which calls fail.

ghost use Rattle.std.specs.Prelude.{◌≡◌, ◌≤◌, IsSome, IfSome, OnSome};
ghost use Rattle.io_edges.specs.Counts.{TakesCall};
ghost use Rattle.ubifs_base.specs.Faults.{Rose};

use std::marker::Model;

// The numbers of the calls that are to fail, from 1, and the counts of calls and of failures.
#[derive(Drop)]
pub(crate) struct Schedule {
    fails: Vec<u64>,
    calls: u64,
    faults: u64,
}

impl Model for Schedule {
    ghost use Rattle.io_edges.specs.Counts.{Calls};

    ghost Value = { Calls };

    ghost view = { λ s. record { listed = s.fails.items; made = s.calls; failed = s.faults } };
}

impl Schedule {
    pub(crate) fn new(fails: Vec<u64>) -> Schedule
        ensures { result ≡ record { listed = fails.items; made = 0; failed = 0 } }
    {
        Schedule {
            fails,
            calls: 0,
            faults: 0,
        }
    }

    // Counts a call. Where it is one that fails, it counts that too, and answers how many have failed.
    pub(crate) fn next_call(&mut self) -> Option<u64>
        ensures taken { TakesCall self.old self.new (IsSome result) }
        ensures count { IfSome result (λ count. count ≡ self.new.failed) }
        ensures rose { OnSome result ((self.old.failed ≤ self.new.failed) × Rose self.old.failed self.new.failed) }
    {
        self.calls = self.calls.saturating_add(1);
        if self.fails.contains(&self.calls) {
            self.faults = self.faults.saturating_add(1);
            return Some(self.faults);
        }
        None
    }

    // How many calls have failed.
    pub(crate) fn failed(&self) -> u64
        ensures { result ≡ self.now.failed }
    {
        self.faults
    }
}
