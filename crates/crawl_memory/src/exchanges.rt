// The exchanges of a link in memory.
ghost use Rattle.std.specs.Prelude.{◌≡◌, ◌++◌, Bool, IfOk, OnOk, OnErr};
ghost use Rattle.crawl_traits.specs.Exchanges.{opened, taking, giving, with_last};

use crawl_kinds::{Listed, NoMemory};
use crawl_traits::Exchange;
use std::alloc::Global;
use std::mem::replace;

/// An exchange at its beginning.
pub fn opened(alloc: Global, host: &str, port: u16) -> Result<Exchange, NoMemory>
    ensures { IfOk result (λ e. e ≡ opened host.now port) }
{
    let host = Listed::from(host.as_bytes().to_vec(alloc)?);
    Ok(Exchange {
        host,
        port,
        taken: Listed::new(alloc),
        given: Listed::new(alloc),
        ended: false,
    })
}

/// Puts bytes at the end of a list. For want of memory it stays as it was.
fn extend(alloc: Global, list: &mut Listed<u8>, from: &[u8]) -> Result<(), NoMemory>
    ensures ok { OnOk result (list.new ≡ list.old ++ from.now) }
    ensures err { OnErr result (list.new ≡ list.old) }
{
    let mut bytes = replace(list, Listed::new(alloc)).into_vec();
    let extended = bytes.extend_from_slice(from);
    *list = Listed::from(bytes);
    extended?;
    Ok(())
}

/// Takes bytes into the last exchange. For want of memory all stay as they were.
pub fn take_last(alloc: Global, exchanges: &mut Vec<Exchange>, from: &[u8]) -> Result<(), NoMemory>
    ensures ok { OnOk result (exchanges.new.items ≡ with_last (taking from.now) exchanges.old.items) }
    ensures err { OnErr result (exchanges.new.items ≡ exchanges.old.items) }
{
    if exchanges.is_empty() {
        return Ok(());
    }
    let at = exchanges.len() - 1;
    let last = &mut exchanges[at];
    extend(alloc, &mut last.taken, from)?;
    Ok(())
}

/// Gives bytes, or the peer's end, of the last exchange. For want of memory all stay as they were.
pub fn give_last(
    alloc: Global,
    exchanges: &mut Vec<Exchange>,
    from: &[u8],
    ends: bool,
) -> Result<(), NoMemory>
    ensures ok { OnOk result (exchanges.new.items ≡ with_last (giving from.now ends) exchanges.old.items) }
    ensures err { OnErr result (exchanges.new.items ≡ exchanges.old.items) }
{
    if exchanges.is_empty() {
        return Ok(());
    }
    let at = exchanges.len() - 1;
    let last = &mut exchanges[at];
    extend(alloc, &mut last.given, from)?;
    last.ended = last.ended || ends;
    Ok(())
}
