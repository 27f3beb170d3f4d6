ghost use Rattle.std.specs.Prelude.{◌≡◌, ◌<◌, ◌≤◌, [], ◌∷◌, ◌++◌, ℕ, Bool, List, Option, length, take, is_ok, IsTrue, IfOk, OnOk, OnErr};
ghost use Rattle.cos_outside.specs.Causes.{HasCause};
ghost use Rattle.cos_outside.specs.Runs.{AppendsPrefix};

use crate::Failed;

/// Files that are read from their start, one at a time.
///
/// Each call may fail, and its count of faults rises with it. A shelf that tells no contents promises that much alone.
pub trait Shelf {
    /// Whether the next three meanings are told.
    ghost tells: { Self → Bool };

    /// The files by name.
    ghost files: { Self → List ℕ → Option (List ℕ) };

    /// The rest of the file in hand.
    ghost rest: { Self → List ℕ };

    /// The names begun, in order.
    ghost begun: { Self → List (List ℕ) };

    /// Whether a file is in hand.
    ghost in_hand: { Self → Bool };

    /// A count of faults, which never falls.
    ghost faults: { Self → ℕ };

    /// Puts the named file in hand, from its start. After `Failed` no file is in hand.
    fn begin(&mut self, name: &str) -> Result<(), Failed>
        ensures told { tells self.new ≡ tells self.old }
        ensures same_files { files self.new ≡ files self.old }
        ensures noted { IsTrue (tells self.old) →
            OnOk result (begun self.new ≡ begun self.old ++ name.now ∷ []) }
        // Only `Failed` may leave the name out.
        ensures noted_or_not { IsTrue (tells self.old) →
            AppendsPrefix (begun self.old) (begun self.new) (name.now ∷ []) }
        ensures found { IsTrue (tells self.old) →
            OnOk result (files self.old name.now ≡ Some (rest self.new)) }
        ensures held { in_hand self.new ≡ is_ok result }
        ensures cause { HasCause (faults self.old) (faults self.new) result };

    /// Copies the next bytes of the file in hand to the front of `buf`, and answers how many.
    ///
    /// The file stays in hand, at its end and after `Failed` too.
    fn next(&mut self, buf: &mut [u8]) -> Result<usize, Failed>
        requires { IsTrue (in_hand self.old) }
        ensures told { tells self.new ≡ tells self.old }
        ensures same_files { files self.new ≡ files self.old }
        ensures same_names { begun self.new ≡ begun self.old }
        ensures held { IsTrue (in_hand self.new) }
        ensures bound { IfOk result (λ count. count ≤ length buf.new) }
        ensures taken { IsTrue (tells self.old) →
            IfOk result (λ count. rest self.old ≡ take count buf.new ++ rest self.new) }
        // It answers 0 only at the end of the file, or for an empty `buf`.
        ensures end { IsTrue (tells self.old) →
            IfOk result (λ count. count ≡ 0 → 0 < length buf.new → rest self.old ≡ []) }
        ensures kept { IsTrue (tells self.old) → OnErr result (rest self.new ≡ rest self.old) }
        ensures cause { HasCause (faults self.old) (faults self.new) result };
}
