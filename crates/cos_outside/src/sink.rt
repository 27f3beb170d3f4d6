ghost use Rattle.std.specs.Prelude.{◌≡◌, ◌<◌, ◌≤◌, ◌++◌, ℕ, Bool, List, length, take, IsTrue, IfOk, OnErr};
ghost use Rattle.cos_outside.specs.Causes.{HasCause};

use crate::Failed;

/// Where bytes are written. Each call may fail, and its count of faults rises with it.
pub trait Sink {
    /// Whether the bytes written are told.
    ghost tells: { Self → Bool };

    /// The bytes written.
    ghost written: { Self → List ℕ };

    /// A count of faults, which never falls.
    ghost faults: { Self → ℕ };

    /// Appends a prefix of `piece`, and answers its length. After `Failed` nothing was appended.
    fn write(&mut self, piece: &[u8]) -> Result<usize, Failed>
        ensures told { tells self.new ≡ tells self.old }
        ensures bound { IfOk result (λ count. count ≤ length piece.now) }
        ensures some { IfOk result (λ count. 0 < length piece.now → 0 < count) }
        ensures appended { IsTrue (tells self.old) →
            IfOk result (λ count. written self.new ≡ written self.old ++ take count piece.now) }
        ensures kept { IsTrue (tells self.old) → OnErr result (written self.new ≡ written self.old) }
        ensures cause { HasCause (faults self.old) (faults self.new) result };
}
