// The clock of a scenario.
ghost use Rattle.std.specs.Prelude.{⊤};

use crawl_traits::Clock;
use std::cell::Cell;

/// When a scenario begins, in milliseconds since 1970.
pub const START: u64 = 1_700_000_000_000;

/// A clock that moves by a step after each look, and where it rests by that time and some more, or never.
#[derive(Drop)]
pub struct SceneClock {
    now: Cell<u64>,
    step: i64,
    /// How much longer it rests than it is told; none where it stands still.
    more: Option<i64>,
}

/// A moment, moved forward or back.
pub fn moved(now: u64, by: i64) -> u64 {
    if by < 0 {
        now.saturating_sub(by.unsigned_abs())
    } else {
        now.saturating_add(by.unsigned_abs())
    }
}

impl SceneClock {
    /// A clock that is at this moment.
    pub fn new(now: u64, step: i64, more: Option<i64>) -> Self {
        SceneClock {
            now: Cell::new(now),
            step,
            more,
        }
    }

    /// Its moment, which is no look.
    pub fn moment(&self) -> u64 {
        self.now.get()
    }

    /// Puts it to a moment.
    pub fn put(&self, now: u64) {
        self.now.set(now);
    }
}

impl Clock for SceneClock {
    ghost gives = { λ clock moment. ⊤ };

    fn now(&self) -> u64 {
        let now = self.now.get();
        self.now.set(moved(now, self.step));
        now
    }

    fn rest(&self, ms: u64) {
        if let Some(more) = self.more {
            self.now.set(moved(self.now.get().saturating_add(ms), more));
        }
    }
}
