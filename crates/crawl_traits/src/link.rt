// A link to the servers of the web.
ghost use Rattle.std.specs.Prelude.{◌≡◌, ◌≤◌, ◌<◌, ◌++◌, ◌∷◌, [], ℕ, List, Bool, true, false, IsTrue, IfOk, OnOk, OnErr, IsErr, length, take};
ghost use Rattle.crawl_traits.specs.Causes.{Rose, HasLinkCause};
ghost use Rattle.crawl_traits.specs.Exchanges.{opened, taking, giving, with_last, is_end};
ghost use Rattle.crawl_traits.specs.declared.link.Exchange.{Exchange};
ghost use Rattle.crawl_traits.specs.declared.link.LinkFault.{LinkFault};
ghost use Rattle.crawl_traits.specs.declared.link.LinkFault.TheVariants.{Lost};

use crawl_kinds::Listed;

/// Why a call on a link failed.
#[derive(Clone, Copy, Debug, PartialEq, Eq)]
pub enum LinkFault {
    /// Nobody answers at that host and port.
    Refused,
    /// The connection broke, or there is none.
    Lost,
    /// It took longer than the time that was given.
    TimedOut,
}

/// What went over one connection: to whom, the bytes that were taken, the bytes that were given, and whether the
/// peer's end came.
#[derive(Drop)]
pub struct Exchange {
    pub host: Listed<u8>,
    pub port: u16,
    pub taken: Listed<u8>,
    pub given: Listed<u8>,
    pub ended: bool,
}

/// A link that has at most one connection at a time. Each fault has a count of its own, and a call answers a fault
/// only where that count rose.
pub trait Link {
    /// Whether it tells what went over it.
    ghost tells: { Self → Bool };

    /// The exchanges so far, one for each connection that was made, in order, where it tells.
    ghost exchanges: { Self → List Exchange };

    /// Whether there is a connection, which is then the last exchange's, where it tells.
    ghost connected: { Self → Bool };

    /// How often it has failed, by fault.
    ghost faults: { Self → LinkFault → ℕ };

    /// Connects to a port of a host, and closes an earlier connection. It waits at most so many milliseconds.
    fn connect(&mut self, host: &str, port: u16, timeout_ms: u64) -> Result<(), LinkFault>
        ensures made { IsTrue (tells self.old) → OnOk result (exchanges self.new ≡ exchanges self.old ++ opened host.now port ∷ []) }
        ensures open { IsTrue (tells self.old) → OnOk result (connected self.new ≡ true) }
        ensures err { IsTrue (tells self.old) → OnErr result (exchanges self.new ≡ exchanges self.old) }
        ensures shut { IsTrue (tells self.old) → OnErr result (connected self.new ≡ false) }
        ensures tells { tells self.new ≡ tells self.old }
        ensures cause { HasLinkCause (faults self.old) (faults self.new) result };

    /// Takes the front of a piece, and says how many bytes. 0 of a piece that is not empty is taken only where the
    /// count of `Lost` rose. Without a connection it fails, with `Lost` unless the count
    /// of another fault rose.
    fn write(&mut self, from: &[u8]) -> Result<usize, LinkFault>
        ensures within { IfOk result (λ n. n ≤ length from.now) }
        ensures taken { IsTrue (tells self.old) → IfOk result (λ n. exchanges self.new ≡ with_last (taking (take n from.now)) (exchanges self.old)) }
        ensures nothing { IfOk result (λ n. n ≡ 0 → 0 < length from.now → Rose (faults self.old Lost) (faults self.new Lost)) }
        ensures err { IsTrue (tells self.old) → OnErr result (exchanges self.new ≡ exchanges self.old) }
        ensures none { IsTrue (tells self.old) → connected self.old ≡ false → IsErr result }
        ensures connected { IsTrue (tells self.old) → connected self.new ≡ connected self.old }
        ensures tells { tells self.new ≡ tells self.old }
        ensures cause { HasLinkCause (faults self.old) (faults self.new) result };

    /// Puts the next bytes that the peer gives into the front of a buffer, and says how many. 0 into a buffer that is
    /// not empty is the peer's end. Without a connection it fails, with `Lost` unless the count
    /// of another fault rose.
    fn read(&mut self, into: &mut [u8]) -> Result<usize, LinkFault>
        ensures within { IfOk result (λ n. n ≤ length into.new) }
        ensures given { IsTrue (tells self.old) → IfOk result (λ n. exchanges self.new ≡ with_last (giving (take n into.new) (is_end n into.new)) (exchanges self.old)) }
        ensures err { IsTrue (tells self.old) → OnErr result (exchanges self.new ≡ exchanges self.old) }
        ensures none { IsTrue (tells self.old) → connected self.old ≡ false → IsErr result }
        ensures connected { IsTrue (tells self.old) → connected self.new ≡ connected self.old }
        ensures tells { tells self.new ≡ tells self.old }
        ensures cause { HasLinkCause (faults self.old) (faults self.new) result };

    /// Closes the connection, where there is one.
    fn close(&mut self)
        ensures exchanges { IsTrue (tells self.old) → exchanges self.new ≡ exchanges self.old }
        ensures shut { IsTrue (tells self.old) → connected self.new ≡ false }
        ensures tells { tells self.new ≡ tells self.old }
        ensures faults { (fault : LinkFault) → faults self.new fault ≡ faults self.old fault };
}
