// The clock.
ghost use Rattle.std.specs.Prelude.{ℕ};

/// A clock of milliseconds since 1970. Nothing is promised of its moments but that each was given.
pub trait Clock {
    /// The moments that it gives.
    ghost gives: { Self → ℕ → Type 0 };

    /// The present moment, in milliseconds.
    fn now(&self) -> u64
        ensures { gives self.now result };

    /// Waits for so many milliseconds.
    fn rest(&self, ms: u64);
}
