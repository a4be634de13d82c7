//! Counts of faults, and plans by which numbered calls fail. Forms in memory fail by such plans.
ghost use Rattle.std.specs.Prelude.{◌≡◌, ◌≤◌, ◌↔◌, IsTrue};
ghost use Rattle.io_edge.specs.Count.{Rose, next_count};
ghost use Rattle.io_edge.specs.Plan.{FailsNext, IsNewPlan, LaterCalls, NextCall};

/// The count after one more fault. At its last value it stands still.
pub fn raised(count: u64) -> u64
    ensures rose { Rose count result }
    ensures next { result ≡ next_count count }
{
    count.saturating_add(1)
}

// Which calls of a kind are to fail, by their numbers from 1 on, and how many were made so far. That
// count stands still at its last value.
#[derive(Drop)]
pub(crate) struct FaultPlan {
    pub(crate) fail: Vec<u64>,
    pub(crate) calls: u64,
}

impl FaultPlan {
    pub(crate) fn new(fail: Vec<u64>) -> FaultPlan
        ensures { IsNewPlan result fail.items }
    {
        FaultPlan { fail, calls: 0 }
    }

    // Counts one more call, and says whether it is to fail.
    pub(crate) fn next_fails(&mut self) -> bool
        ensures call { NextCall self.old self.new }
        ensures later { LaterCalls self.old self.new }
        ensures fails { IsTrue result ↔ FailsNext self.old }
    {
        self.calls = raised(self.calls);
        self.fail.contains(&self.calls)
    }
}
