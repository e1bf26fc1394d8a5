// Which calls of an object in memory are to fail, and how many have failed.
ghost use Rattle.std.specs.Prelude.{◌≡◌, ◌+◌, ◌-◌, ◌^◌, ◌≤◌, ◌↔◌, min, IsTrue};
ghost use Rattle.std.specs.Bool.{OnTrue, OnFalse};
ghost use Rattle.crawl_traits.specs.Causes.{Rose};

/// The numbers of the calls that are to fail, counted from 1, and what has come of the calls so far.
#[derive(Drop)]
pub struct Fails {
    listed: Vec<u64>,
    calls: u64,
    faults: u64,
    starved: u64,
}

impl Fails {
    ghost use Rattle.crawl_memory.specs.Fails.{IsListed, next_call};

    pub fn new(listed: Vec<u64>) -> Self
        ensures listed { result.listed.items ≡ listed.items }
        ensures calls { result.calls ≡ 0 }
        ensures faults { result.faults ≡ 0 }
        ensures starved { result.starved ≡ 0 }
    {
        Fails {
            listed,
            calls: 0,
            faults: 0,
            starved: 0,
        }
    }

    /// Counts a call, and says whether it is to fail.
    pub fn next(&mut self) -> bool
        ensures listed { IsTrue result ↔ IsListed self.old }
        ensures rose { OnTrue result (Rose self.old.faults self.new.faults) }
        ensures same { OnFalse result (self.new.faults ≡ self.old.faults) }
        ensures later { self.old.faults ≤ self.new.faults }
        ensures starved { self.new.starved ≡ self.old.starved }
        ensures list { self.new.listed.items ≡ self.old.listed.items }
        ensures calls { self.new.calls ≡ next_call self.old }
    {
        self.calls = self.calls.saturating_add(1);
        let fails = self.listed.contains(&self.calls);
        if fails {
            self.faults = self.faults.saturating_add(1);
        }
        fails
    }

    /// Counts a call that found no memory.
    pub fn starve(&mut self)
        ensures faults { Rose self.old.faults self.new.faults }
        ensures starved { Rose self.old.starved self.new.starved }
        ensures later { self.old.faults ≤ self.new.faults }
        ensures list { self.new.listed.items ≡ self.old.listed.items }
        ensures calls { self.new.calls ≡ self.old.calls }
    {
        self.faults = self.faults.saturating_add(1);
        self.starved = self.starved.saturating_add(1);
    }

    /// How many calls found no memory.
    pub fn starved(&self) -> u64
        ensures { result ≡ self.now.starved }
    {
        self.starved
    }
}
