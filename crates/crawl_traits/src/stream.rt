// Bytes that come in, and bytes that go out.
ghost use Rattle.std.specs.Prelude.{◌≡◌, ◌≤◌, ◌<◌, ◌++◌, [], ℕ, List, Bool, IsTrue, IfOk, OnErr, length, take};
ghost use Rattle.crawl_traits.specs.Causes.{Rose, HasCause};

use crate::Failed;

/// Bytes that come in.
pub trait Source {
    /// Whether it tells what it has left.
    ghost tells: { Self → Bool };

    /// The bytes that it has left, where it tells.
    ghost left: { Self → List ℕ };

    /// How often it has failed.
    ghost faults: { Self → ℕ };

    /// Puts the next bytes into the front of a buffer, and says how many. 0 into a buffer that is not empty is
    /// the end of input.
    fn read(&mut self, into: &mut [u8]) -> Result<usize, Failed>
        ensures within { IfOk result (λ n. n ≤ length into.new) }
        ensures bytes { IsTrue (tells self.old) → IfOk result (λ n. left self.old ≡ take n into.new ++ left self.new) }
        ensures end { IsTrue (tells self.old) → IfOk result (λ n. n ≡ 0 → 0 < length into.new → left self.new ≡ []) }
        ensures err { IsTrue (tells self.old) → OnErr result (left self.new ≡ left self.old) }
        ensures tells { tells self.new ≡ tells self.old }
        ensures cause { HasCause (faults self.old) (faults self.new) result };
}

/// Bytes that go out.
pub trait Sink {
    /// Whether it tells what was written.
    ghost tells: { Self → Bool };

    /// The bytes that were written, where it tells.
    ghost written: { Self → List ℕ };

    /// How often it has failed.
    ghost faults: { Self → ℕ };

    /// Takes the front of a piece, and says how many bytes. After a failure a front of the piece, which may be
    /// empty, was written. 0 of a piece that is not empty is taken only where the count of faults rose.
    fn write(&mut self, from: &[u8]) -> Result<usize, Failed>
        ensures within { IfOk result (λ n. n ≤ length from.now) }
        ensures bytes { IsTrue (tells self.old) → IfOk result (λ n. written self.new ≡ written self.old ++ take n from.now) }
        ensures err { IsTrue (tells self.old) → OnErr result ((n : ℕ) × (n ≤ length from.now) × (written self.new ≡ written self.old ++ take n from.now)) }
        ensures nothing { IfOk result (λ n. n ≡ 0 → 0 < length from.now → Rose (faults self.old) (faults self.new)) }
        ensures tells { tells self.new ≡ tells self.old }
        ensures cause { HasCause (faults self.old) (faults self.new) result };
}
