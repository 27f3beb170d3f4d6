ghost use Rattle.std.specs.Prelude.{◌≡◌, ◌↔◌, IsTrue, Contains};

use listed::Listed;

/// The numbers of the calls that are to fail, from 1.
pub type Calls = Listed<u64>;

// How many calls were made, and which are to fail.
#[derive(Drop)]
pub(crate) struct PlannedFaults {
    calls: u64,
    fails: Calls,
}

impl PlannedFaults {
    ghost use Rattle.cos_outside.specs.PlannedFaults.{FailsNext, CountsCall, IsNewPlan};

    pub fn new(fails: Calls) -> PlannedFaults
        ensures { IsNewPlan result fails }
    {
        PlannedFaults { calls: 0, fails }
    }

    // Counts one more call, and says whether it is to fail.
    pub fn next_fails(&mut self) -> bool
        ensures planned { IsTrue result ↔ FailsNext self.old }
        ensures counted { CountsCall self.old self.new }
    {
        self.calls = self.calls.saturating_add(1);
        self.fails.as_slice().contains(&self.calls)
    }
}
