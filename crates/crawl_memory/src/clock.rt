// A clock in memory.
ghost use Rattle.std.specs.Prelude.{⊤};

use crawl_traits::Clock;
use std::cell::Cell;

/// A clock that moves only where it is told to rest. No clause can see into its cell, so it gives any moment.
#[derive(Drop)]
pub struct MemClock {
    now: Cell<u64>,
}

impl MemClock {
    /// A clock that stands at this moment, in milliseconds.
    pub fn at(start: u64) -> Self {
        MemClock {
            now: Cell::new(start),
        }
    }
}

impl Clock for MemClock {
    ghost gives = { λ clock moment. ⊤ };

    fn now(&self) -> u64 {
        self.now.get()
    }

    fn rest(&self, ms: u64) {
        self.now.set(self.now.get().saturating_add(ms));
    }
}
