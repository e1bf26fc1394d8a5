// The request to the link.
ghost use Rattle.std.specs.Prelude.{◌≡◌, ◌≤◌, ℕ, length, take, IsTrue, OnOk, OnErr};
ghost use Rattle.crawl_traits.specs.Causes.{HasLinkCause};
ghost use Rattle.crawl_traits.specs.Exchanges.{taking, with_last};

use crawl_traits::{Link, LinkFault};

/// Gives a link all of a text. A link that takes nothing of it has lost the connection.
pub(crate) fn send_whole<L: Link>(link: &mut L, text: &[u8]) -> Result<(), LinkFault>
    ensures ok { IsTrue (L.tells link.old) → OnOk result (L.exchanges link.new ≡ with_last (taking text.now) (L.exchanges link.old)) }
    ensures err { IsTrue (L.tells link.old) → OnErr result ((n : ℕ) × (n ≤ length text.now) × (L.exchanges link.new ≡ with_last (taking (take n text.now)) (L.exchanges link.old))) }
    ensures connected { IsTrue (L.tells link.old) → L.connected link.new ≡ L.connected link.old }
    ensures tells { L.tells link.new ≡ L.tells link.old }
    ensures cause { HasLinkCause (L.faults link.old) (L.faults link.new) result }
{
    let mut at = 0;
    while at < text.len() {
        let n = match link.write(&text[at..]) {
            Ok(n) => n,
            Err(fault) => return Err(fault),
        };
        if n == 0 {
            return Err(LinkFault::Lost);
        }
        at += n;
    }
    Ok(())
}
