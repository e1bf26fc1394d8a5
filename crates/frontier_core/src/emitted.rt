// An item that is out, and what asking for one answers.
ghost use Rattle.std.specs.Prelude.{◌≡◌};
ghost use Rattle.frontier_core.specs.Emitting.{HeldLaws};

use crawl_kinds::{Millis, Work};

/// An item that was handed out. It can't be dropped: it comes to its end, or is given up.
pub struct Emitted {
    pub(crate) work: Work,
    pub(crate) ticket: u64,
    pub(crate) caller: u32,
}

impl Emitted {
    /// The item, and what may be done with it.
    pub fn work(&self) -> &Work
        ensures { result.now ≡ self.now.work }
    {
        &self.work
    }

    /// Its number, from 1 on.
    pub fn ticket(&self) -> u64
        ensures { result ≡ self.now.ticket }
    {
        self.ticket
    }

    /// The number of the worker that asked for it.
    pub fn caller(&self) -> u32
        ensures { result ≡ self.now.caller }
    {
        self.caller
    }

    /// Leaves the item out: no event is made, and it is not handed out again before the next session. It changes nothing,
    /// so that no clause stands here: the core keeps its events, and counts the item as out.
    pub fn give_up(self) {
        let Emitted {
            work,
            ticket: _,
            caller: _,
        } = self;
        drop(work);
    }
}

/// What asking for an item answers.
pub enum Answer {
    /// This item goes out.
    Work(Emitted),
    /// Nothing may go yet. `next` is the moment from which on something may, in milliseconds, where it is known.
    Empty { next: Option<Millis> },
    /// Nothing will go any more.
    Over,
}

/// What is handed out stays out until its end or the next session.
pub fn held_laws()
    ensures { HeldLaws }
{}
