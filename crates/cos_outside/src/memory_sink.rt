ghost use Rattle.std.specs.Prelude.{◌≡◌, ◌<◌, ◌≤◌, [], ◌++◌, length, min, take, true, OnErr, IfOk, IsErr};
ghost use Rattle.cos_outside.specs.Causes.{HasCause};

use crate::faults::FaultCount;
use crate::planned::PlannedFaults;
use crate::{Calls, Failed, Sink};
use listed::Bytes;
use std::alloc::Global;

/// Bytes in memory, for tests. It takes each piece whole, or at most so many bytes of it, tells its meanings, and fails at
/// the calls that it is told to fail at. Want of memory is a fault too.
#[derive(Drop)]
pub struct MemorySink {
    bytes: Bytes,
    piece: usize,
    plan: PlannedFaults,
    faults: FaultCount,
    ghost some: { 0 < piece },
}

impl MemorySink {
    ghost use Rattle.cos_outside.specs.MemorySink.{bytes_in, piece_of, plan_of};
    ghost use Rattle.cos_outside.specs.PlannedFaults.{IsNewPlan};

    /// A sink with nothing written, whose calls of `write` in `fails` fail, counted from 1.
    pub fn new(alloc: Global, fails: Calls) -> MemorySink
        ensures tells { ⟦<MemorySink as Sink>⟧.tells result ≡ true }
        ensures written { ⟦<MemorySink as Sink>⟧.written result ≡ [] }
        ensures faults { ⟦<MemorySink as Sink>⟧.faults result ≡ 0 }
        ensures piece { piece_of result ≡ usize.MAX }
        ensures plan { IsNewPlan (plan_of result) fails }
    {
        MemorySink::short(alloc, fails, usize::MAX)
    }

    /// The same, which takes at most `piece` bytes of each piece.
    pub fn short(alloc: Global, fails: Calls, piece: usize) -> MemorySink
        requires { 0 < piece }
        ensures tells { ⟦<MemorySink as Sink>⟧.tells result ≡ true }
        ensures written { ⟦<MemorySink as Sink>⟧.written result ≡ [] }
        ensures faults { ⟦<MemorySink as Sink>⟧.faults result ≡ 0 }
        ensures piece { piece_of result ≡ piece }
        ensures plan { IsNewPlan (plan_of result) fails }
    {
        MemorySink {
            bytes: Bytes::new(alloc),
            piece,
            plan: PlannedFaults::new(fails),
            faults: FaultCount::new(),
        }
    }

    /// The bytes written.
    pub fn written(&self) -> &[u8]
        ensures { result.now ≡ bytes_in self.now }
    {
        self.bytes.as_slice()
    }
}

impl Sink for MemorySink {
    ghost use Rattle.cos_outside.specs.MemorySink.{bytes_in, fault_count, piece_of, plan_of};
    ghost use Rattle.cos_outside.specs.PlannedFaults.{FailsNext, CountsCall};

    ghost tells = { λ _. true };

    ghost written = { bytes_in };

    ghost faults = { fault_count };

    fn write(&mut self, piece: &[u8]) -> Result<usize, Failed>
        ensures bound { IfOk result (λ count. count ≤ length piece.now) }
        ensures some { IfOk result (λ count. 0 < length piece.now → 0 < count) }
        ensures appended { IfOk result (λ count.
            bytes_in self.new ≡ bytes_in self.old ++ take count piece.now) }
        ensures kept { OnErr result (bytes_in self.new ≡ bytes_in self.old) }
        ensures cause { HasCause (fault_count self.old) (fault_count self.new) result }
        ensures most { IfOk result (λ count. count ≡ min (piece_of self.old) (length piece.now)) }
        ensures planned { FailsNext (plan_of self.old) → IsErr result }
        ensures counted { CountsCall (plan_of self.old) (plan_of self.new) }
    {
        let count = self.piece.min(piece.len());
        if self.plan.next_fails() || self.bytes.extend(&piece[..count]).is_err() {
            return Err(self.faults.rise());
        }
        Ok(count)
    }
}
