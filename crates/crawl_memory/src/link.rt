// A link in memory.
ghost use Rattle.std.specs.Prelude.{◌≡◌, ◌≤◌, ◌<◌, ℕ, [], ◌∷◌, ◌++◌, length, take, min, true, false, IfOk, OnOk, OnErr, IsErr};
ghost use Rattle.crawl_traits.specs.Exchanges.{opened, taking, giving, with_last, is_end};
ghost use Rattle.crawl_traits.specs.declared.link.LinkFault.{LinkFault};
ghost use Rattle.crawl_traits.specs.declared.link.LinkFault.TheVariants.{Refused, Lost};
ghost use Rattle.crawl_memory.specs.LinkFails.{count_of, unless, LinkFailsExactly};
ghost use Rattle.crawl_memory.specs.Site.{listens, left};

use crate::exchanges::{give_last, opened, take_last};
use crate::link_fails::LinkFails;
use crate::page::{Site, left, listens};
use crawl_kinds::NoMemory;
use crawl_traits::{Exchange, Link, LinkFault};
use std::alloc::Global;

/// A link to the pages of a site, which keeps its exchanges, and tells them. A call that is to fail has no effect
/// but that a `connect` closes an earlier connection.
#[derive(Drop)]
pub struct MemLink {
    alloc: Global,
    site: Site,
    exchanges: Vec<Exchange>,
    connected: bool,
    fails: LinkFails,
}

impl MemLink {
    /// A link to these pages, whose calls of these numbers fail, each with its fault. Calls are numbered from 1;
    /// `close` has no number.
    pub fn new(alloc: Global, site: Site, faults: Vec<(u64, LinkFault)>) -> Self
        ensures site { result.site ≡ site }
        ensures exchanges { result.exchanges.items ≡ [] }
        ensures shut { result.connected ≡ false }
        ensures listed { result.fails.listed.items ≡ faults.items }
        ensures first { result.fails.calls ≡ 0 }
        ensures counts { (fault : LinkFault) → count_of result.fails fault ≡ 0 }
        ensures starved { result.fails.starved ≡ 0 }
    {
        MemLink {
            alloc,
            site,
            exchanges: Vec::new(alloc),
            connected: false,
            fails: LinkFails::new(faults),
        }
    }

    /// The exchanges so far, one for each connection that was made.
    pub fn exchanges(&self) -> &[Exchange]
        ensures { result.now ≡ self.now.exchanges.items }
    {
        &self.exchanges
    }

    /// How many calls found no memory.
    pub fn starved(&self) -> u64
        ensures { result ≡ self.now.fails.starved }
    {
        self.fails.starved()
    }

    /// Begins an exchange.
    fn open(&mut self, host: &str, port: u16) -> Result<(), NoMemory>
        ensures ok { OnOk result (self.new.exchanges.items ≡ self.old.exchanges.items ++ opened host.now port ∷ []) }
        ensures err { OnErr result (self.new.exchanges.items ≡ self.old.exchanges.items) }
        ensures connected { self.new.connected ≡ self.old.connected }
        ensures site { self.new.site ≡ self.old.site }
        ensures fails { self.new.fails ≡ self.old.fails }
    {
        let exchange = opened(self.alloc, host, port)?;
        self.exchanges.push(exchange)?;
        Ok(())
    }

    /// Gives the front of what is left of the last exchange's answer.
    fn give(&mut self, into: &mut [u8]) -> Result<usize, NoMemory>
        ensures count { IfOk result (λ n. n ≡ min (length into.old) (length (left self.old.site self.old.exchanges.items))) }
        ensures bytes { IfOk result (λ n. take n into.new ≡ take n (left self.old.site self.old.exchanges.items)) }
        ensures given { IfOk result (λ n. self.new.exchanges.items ≡ with_last (giving (take n into.new) (is_end n into.new)) self.old.exchanges.items) }
        ensures err { OnErr result (self.new.exchanges.items ≡ self.old.exchanges.items) }
        ensures kept { OnErr result (into.new ≡ into.old) }
        ensures connected { self.new.connected ≡ self.old.connected }
        ensures site { self.new.site ≡ self.old.site }
        ensures fails { self.new.fails ≡ self.old.fails }
    {
        let rest = left(self.site.as_slice(), &self.exchanges);
        let n = rest.len().min(into.len());
        let ends = n == 0 && !into.is_empty();
        give_last(self.alloc, &mut self.exchanges, &rest[..n], ends)?;
        into[..n].copy_from_slice(&rest[..n]);
        Ok(n)
    }
}

/// The fault of a call that needs what does not hold.
fn unless(holds: bool, fault: LinkFault) -> Option<LinkFault>
    ensures { result ≡ unless holds fault }
{
    if holds { None } else { Some(fault) }
}

impl Link for MemLink {
    ghost tells = { λ l. true };

    ghost exchanges = { λ l. l.exchanges.items };

    ghost connected = { λ l. l.connected };

    ghost faults = { λ l. count_of l.fails };

    /// Connects to a port of a host that has a page, and is `Refused` at any other. It never waits.
    fn connect(&mut self, host: &str, port: u16, timeout_ms: u64) -> Result<(), LinkFault>
        ensures made { OnOk result (self.new.exchanges.items ≡ self.old.exchanges.items ++ opened host.now port ∷ []) }
        ensures open { OnOk result (self.new.connected ≡ true) }
        ensures err { OnErr result (self.new.exchanges.items ≡ self.old.exchanges.items) }
        ensures shut { OnErr result (self.new.connected ≡ false) }
        ensures site { self.new.site ≡ self.old.site }
        ensures exact { LinkFailsExactly self.old.fails self.new.fails (unless (listens self.old.site host.now port) Refused) result }
    {
        let _ = timeout_ms;
        self.connected = false;
        let known = listens(self.site.as_slice(), host.as_bytes(), port);
        self.fails.next(unless(known, LinkFault::Refused))?;
        match self.open(host, port) {
            Ok(()) => {
                self.connected = true;
                Ok(())
            }
            Err(NoMemory) => Err(self.fails.starve()),
        }
    }

    /// Takes the whole piece.
    fn write(&mut self, from: &[u8]) -> Result<usize, LinkFault>
        ensures all { IfOk result (λ n. n ≡ length from.now) }
        ensures taken { OnOk result (self.new.exchanges.items ≡ with_last (taking from.now) self.old.exchanges.items) }
        ensures err { OnErr result (self.new.exchanges.items ≡ self.old.exchanges.items) }
        ensures none { self.old.connected ≡ false → IsErr result }
        ensures connected { self.new.connected ≡ self.old.connected }
        ensures site { self.new.site ≡ self.old.site }
        ensures exact { LinkFailsExactly self.old.fails self.new.fails (unless self.old.connected Lost) result }
    {
        self.fails.next(unless(self.connected, LinkFault::Lost))?;
        match take_last(self.alloc, &mut self.exchanges, from) {
            Ok(()) => Ok(from.len()),
            Err(NoMemory) => Err(self.fails.starve()),
        }
    }

    /// Gives as much of what is left of the answer as the buffer takes: the bytes of the first page with this host
    /// and port whose target is the one that was asked for, or a head with status 404.
    fn read(&mut self, into: &mut [u8]) -> Result<usize, LinkFault>
        ensures count { IfOk result (λ n. n ≡ min (length into.old) (length (left self.old.site self.old.exchanges.items))) }
        ensures bytes { IfOk result (λ n. take n into.new ≡ take n (left self.old.site self.old.exchanges.items)) }
        ensures given { IfOk result (λ n. self.new.exchanges.items ≡ with_last (giving (take n into.new) (is_end n into.new)) self.old.exchanges.items) }
        ensures err { OnErr result (self.new.exchanges.items ≡ self.old.exchanges.items) }
        ensures kept { OnErr result (into.new ≡ into.old) }
        ensures none { self.old.connected ≡ false → IsErr result }
        ensures connected { self.new.connected ≡ self.old.connected }
        ensures site { self.new.site ≡ self.old.site }
        ensures exact { LinkFailsExactly self.old.fails self.new.fails (unless self.old.connected Lost) result }
    {
        let own = unless(self.connected, LinkFault::Lost);
        self.fails.next(own)?;
        match self.give(into) {
            Ok(n) => Ok(n),
            Err(NoMemory) => Err(self.fails.starve()),
        }
    }

    fn close(&mut self)
        ensures exchanges { self.new.exchanges.items ≡ self.old.exchanges.items }
        ensures shut { self.new.connected ≡ false }
        ensures site { self.new.site ≡ self.old.site }
        ensures fails { self.new.fails ≡ self.old.fails }
    {
        self.connected = false;
    }
}
