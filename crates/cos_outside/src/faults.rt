ghost use Rattle.std.specs.Prelude.{◌≡◌, ◌≤◌};
ghost use Rattle.cos_outside.specs.Causes.{raised};

use crate::Failed;

// How many calls failed. The count stands still at its last value.
#[derive(Drop)]
pub(crate) struct FaultCount {
    pub count: u64,
}

impl FaultCount {
    pub fn new() -> FaultCount
        ensures { result.count ≡ 0 }
    {
        FaultCount { count: 0 }
    }

    // One more call failed: each answer `Failed` is made here.
    pub fn rise(&mut self) -> Failed
        ensures one_more { self.new.count ≡ raised self.old.count }
        ensures later { self.old.count ≤ self.new.count }
    {
        self.count = self.count.saturating_add(1);
        Failed
    }
}
