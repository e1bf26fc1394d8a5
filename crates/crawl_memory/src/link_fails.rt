// Which calls of a link in memory are to fail, and how many have failed.
ghost use Rattle.std.specs.Prelude.{◌≡◌, ◌≤◌, Some};
ghost use Rattle.crawl_traits.specs.Causes.{Tallied};
ghost use Rattle.crawl_traits.specs.declared.link.LinkFault.{LinkFault};
ghost use Rattle.crawl_traits.specs.declared.link.LinkFault.TheVariants.{Lost};

use crawl_traits::LinkFault;

/// The numbers of the calls that are to fail, counted from 1, each with its fault, and what has come of the calls.
#[derive(Drop)]
pub struct LinkFails {
    listed: Vec<(u64, LinkFault)>,
    calls: u64,
    refused: u64,
    lost: u64,
    timed_out: u64,
    starved: u64,
}

impl LinkFails {
    ghost use Rattle.crawl_memory.specs.LinkFails.{fault_at, next_number, count_of, counted, LinkFailsExactly};

    pub fn new(listed: Vec<(u64, LinkFault)>) -> Self
        ensures listed { result.listed.items ≡ listed.items }
        ensures calls { result.calls ≡ 0 }
        ensures counts { (fault : LinkFault) → count_of result fault ≡ 0 }
        ensures starved { result.starved ≡ 0 }
    {
        LinkFails {
            listed,
            calls: 0,
            refused: 0,
            lost: 0,
            timed_out: 0,
            starved: 0,
        }
    }

    /// The fault of the first entry with this number.
    fn fault_at(&self, number: u64) -> Option<LinkFault>
        ensures { result ≡ fault_at number self.now.listed.items }
    {
        for entry in &self.listed {
            if entry.0 == number {
                return Some(entry.1);
            }
        }
        None
    }

    /// Counts a fault.
    fn count(&mut self, fault: LinkFault)
        ensures counts { (other : LinkFault) → count_of self.new other ≡ counted (Some fault) other (count_of self.old other) }
        ensures later { (other : LinkFault) → count_of self.old other ≤ count_of self.new other }
        ensures starved { self.new.starved ≡ self.old.starved }
        ensures list { self.new.listed.items ≡ self.old.listed.items }
        ensures calls { self.new.calls ≡ self.old.calls }
    {
        match fault {
            LinkFault::Refused => self.refused = self.refused.saturating_add(1),
            LinkFault::Lost => self.lost = self.lost.saturating_add(1),
            LinkFault::TimedOut => self.timed_out = self.timed_out.saturating_add(1),
        }
    }

    /// Counts a call, which fails where it is listed, or else for a reason of its own.
    pub fn next(&mut self, own: Option<LinkFault>) -> Result<(), LinkFault>
        ensures exact { LinkFailsExactly self.old self.new own result }
        ensures starved { self.new.starved ≡ self.old.starved }
    {
        self.calls = self.calls.saturating_add(1);
        match self.fault_at(self.calls).or(own) {
            Some(fault) => {
                self.count(fault);
                Err(fault)
            }
            None => Ok(()),
        }
    }

    /// Counts a call that found no memory, and gives its fault.
    pub fn starve(&mut self) -> LinkFault
        ensures fault { result ≡ Lost }
        ensures counts { (other : LinkFault) → count_of self.new other ≡ counted (Some Lost) other (count_of self.old other) }
        ensures later { (other : LinkFault) → count_of self.old other ≤ count_of self.new other }
        ensures starved { Tallied self.old.starved 1 self.new.starved }
        ensures list { self.new.listed.items ≡ self.old.listed.items }
        ensures calls { self.new.calls ≡ self.old.calls }
    {
        self.count(LinkFault::Lost);
        self.starved = self.starved.saturating_add(1);
        LinkFault::Lost
    }

    /// How many calls found no memory.
    pub fn starved(&self) -> u64
        ensures { result ≡ self.now.starved }
    {
        self.starved
    }
}
