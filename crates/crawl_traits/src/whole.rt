// A whole text to a sink.
ghost use Rattle.std.specs.Prelude.{◌≡◌, ◌≤◌, ◌++◌, ℕ, length, take, IsTrue, OnOk, OnErr};
ghost use Rattle.crawl_traits.specs.Causes.{HasCause};

use crate::{Failed, Sink};

/// Writes all of a text. After a failure a front of it was written.
pub fn write_whole<W: Sink>(out: &mut W, text: &[u8]) -> Result<(), Failed>
    ensures ok { IsTrue (W.tells out.old) → OnOk result (W.written out.new ≡ W.written out.old ++ text.now) }
    ensures err { IsTrue (W.tells out.old) → OnErr result ((n : ℕ) × (n ≤ length text.now) × (W.written out.new ≡ W.written out.old ++ take n text.now)) }
    ensures tells { W.tells out.new ≡ W.tells out.old }
    ensures cause { HasCause (W.faults out.old) (W.faults out.new) result }
{
    let mut at = 0;
    while at < text.len() {
        let n = match out.write(&text[at..]) {
            Ok(n) => n,
            Err(Failed) => return Err(Failed),
        };
        if n == 0 {
            return Err(Failed);
        }
        at += n;
    }
    Ok(())
}
