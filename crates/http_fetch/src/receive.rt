// The response from the link.
ghost use Rattle.std.specs.Prelude.{◌≡◌, ◌≤◌, ◌<◌, ◌+◌, ◌∷◌, ℕ, Bool, List, length, take, slice_range, nat_eq, nat_lt, vec_len, IsTrue, IfOk, IfSome, IsSome, OnErr, Err, false, is_none};
ghost use Rattle.crawl_traits.specs.declared.link.Exchange.{Exchange};
ghost use Rattle.crawl_traits.specs.Causes.{HasLinkCause, Rose};
ghost use Rattle.crawl_traits.specs.Exchanges.{giving, with_last};
ghost use Rattle.page_spec.specs.Response.{IsWhole, most_head};
ghost use Rattle.http_fetch.specs.Reading.{Decides, Fills, Reads};

use crawl_kinds::{Listed, NoMemory};
use crawl_traits::{Link, LinkFault};
use http_message::{Front, read_front};
use std::alloc::Global;

/// The most bytes of a head.
const MOST_HEAD: usize = 65536;

/// Why no response was read.
#[derive(Clone, Copy, Debug)]
pub(crate) enum Stopped {
    Link(LinkFault),
    NoMemory,
}

/// Reads once into what is left of a buffer, behind the bytes that came so far. 0 bytes are the peer's end.
fn read_more<L: Link>(link: &mut L, buffer: &mut [u8], filled: usize) -> Result<usize, LinkFault>
    requires { filled < length buffer.old }
    ensures within { IfOk result (λ n. filled + n ≤ length buffer.new) }
    ensures front { take filled buffer.new ≡ take filled buffer.old }
    ensures given { IsTrue (L.tells link.old) → IfOk result (λ n. L.exchanges link.new ≡ with_last (giving (slice_range buffer.new filled (filled + n)) (nat_eq n 0)) (L.exchanges link.old)) }
    ensures err { IsTrue (L.tells link.old) → OnErr result (L.exchanges link.new ≡ L.exchanges link.old) }
    ensures connected { IsTrue (L.tells link.old) → L.connected link.new ≡ L.connected link.old }
    ensures tells { L.tells link.new ≡ L.tells link.old }
    ensures cause { HasLinkCause (L.faults link.old) (L.faults link.new) result }
{
    link.read(&mut buffer[filled..])
}

/// Writes these bytes at the front of a buffer.
fn put_front(into: &mut [u8], front: &[u8])
    requires { length front.now ≤ length into.old }
    ensures { take (length front.now) into.new ≡ front.now }
{
    into[..front.len()].copy_from_slice(front);
}

/// A buffer of so many bytes that begins with these.
fn grown(alloc: Global, front: &[u8], total: usize) -> Result<Vec<u8>, NoMemory>
    requires { length front.now ≤ total }
    ensures len { IfOk result (λ v. vec_len v ≡ total) }
    ensures front { IfOk result (λ v. take (length front.now) v.items ≡ front.now) }
{
    let mut bytes = vec![in alloc; 0; total]?;
    put_front(bytes.as_mut_slice(), front);
    Ok(bytes)
}

/// What came up to where the response's head was decided.
#[derive(Clone, Copy, Debug)]
pub(crate) struct Came {
    /// How many bytes came.
    pub filled: usize,
    /// Whether the peer's end came.
    pub ended: bool,
    pub front: Front,
}

/// A byte of these is no part of an end of line.
fn has_text(bytes: &[u8]) -> bool {
    bytes.iter().any(|b| *b != b'\r' && *b != b'\n')
}

/// The end of an empty line stands at this place.
fn ends_empty(bytes: &[u8], at: usize) -> bool
    requires { at < length bytes.now }
{
    bytes[at] == b'\n'
        && ((at >= 1 && bytes[at - 1] == b'\n')
            || (at >= 2 && bytes[at - 1] == b'\r' && bytes[at - 2] == b'\n'))
}

/// An empty line ends at one of the bytes from a place on, as a head ends. It decides when a head is looked for, and
/// never what is found.
fn ends_empty_from(bytes: &[u8], from: usize) -> bool {
    for at in from..bytes.len() {
        if ends_empty(bytes, at) {
            return true;
        }
    }
    false
}

/// What the bytes given so far decide, if they do.
fn look(bytes: &[u8], limit: u64, ended: bool) -> Option<Front>
    ensures decides { IfSome result (λ front. Decides limit bytes.now ended front) }
    ensures full { most_head ≤ length bytes.now → IsSome result }
    ensures ended { IsTrue ended → IsSome result }
{
    match read_front(bytes, limit) {
        Front::Expects(total) => Some(Front::Expects(total)),
        Front::Never => Some(Front::Never),
        Front::Partial => { if ended { Some(Front::Partial) } else { None } }
    }
}

/// Reads until the response's head is decided. A head is looked for in the first bytes, at the peer's end, where an
/// empty line came behind a text, and in a full buffer: a head in many small pieces is parsed a few times, not once a
/// piece.
fn read_start<L: Link>(link: &mut L, buffer: &mut [u8], limit: u64) -> Result<Came, LinkFault>
    requires { length buffer.old ≡ most_head }
    ensures within { IfOk result (λ came. came.filled ≤ length buffer.new) }
    ensures decides { IfOk result (λ came. Decides limit (take came.filled buffer.new) came.ended came.front) }
    ensures given { IsTrue (L.tells link.old) → IfOk result (λ came. L.exchanges link.new ≡ with_last (giving (take came.filled buffer.new) came.ended) (L.exchanges link.old)) }
    ensures err { IsTrue (L.tells link.old) → OnErr result ((given : List ℕ) × (L.exchanges link.new ≡ with_last (giving given false) (L.exchanges link.old))) }
    ensures connected { IsTrue (L.tells link.old) → L.connected link.new ≡ L.connected link.old }
    ensures tells { L.tells link.new ≡ L.tells link.old }
    ensures cause { HasLinkCause (L.faults link.old) (L.faults link.new) result }
{
    let mut filled = 0;
    let mut begun = false;
    'pieces: while filled < buffer.len() {
        let from = filled;
        let n = match read_more(link, buffer, from) {
            Ok(n) => n,
            Err(fault) => return Err(fault),
        };
        filled = from + n;
        let came = &buffer[..filled];
        begun = begun || has_text(&came[from..]);
        let ended = n == 0;
        if ended || from == 0 || (begun && ends_empty_from(came, from)) {
            if let Some(front) = look(came, limit, ended) {
                return Ok(Came {
                    filled,
                    ended,
                    front,
                });
            }
        }
        if ended {
            unreachable!();
        }
    }
    match look(&buffer[..filled], limit, false) {
        Some(front) => Ok(Came {
            filled,
            ended: false,
            front,
        }),
        None => unreachable!(),
    }
}

/// Reads until a buffer is full or the peer's end comes, behind the bytes that came so far.
fn read_rest<L: Link>(link: &mut L, buffer: &mut [u8], came: usize) -> Result<usize, LinkFault>
    requires { came ≤ length buffer.old }
    ensures within { IfOk result (λ m. m ≤ length buffer.new) }
    ensures more { IfOk result (λ m. came ≤ m) }
    ensures given { IsTrue (L.tells link.old) → (xs : List Exchange) → L.exchanges link.old ≡ with_last (giving (take came buffer.old) false) xs
        → IfOk result (λ m. L.exchanges link.new ≡ with_last (giving (take m buffer.new) (nat_lt m (length buffer.new))) xs) }
    ensures front { take came buffer.new ≡ take came buffer.old }
    ensures err { IsTrue (L.tells link.old) → (xs : List Exchange) → L.exchanges link.old ≡ with_last (giving (take came buffer.old) false) xs
        → OnErr result ((given : List ℕ) × (L.exchanges link.new ≡ with_last (giving given false) xs)) }
    ensures connected { IsTrue (L.tells link.old) → L.connected link.new ≡ L.connected link.old }
    ensures tells { L.tells link.new ≡ L.tells link.old }
    ensures cause { HasLinkCause (L.faults link.old) (L.faults link.new) result }
{
    let mut filled = came;
    'pieces: while filled < buffer.len() {
        let n = match read_more(link, buffer, filled) {
            Ok(n) => n,
            Err(fault) => return Err(fault),
        };
        if n == 0 {
            return Ok(filled);
        }
        filled += n;
    }
    Ok(filled)
}

/// The whole response behind what came so far, or none where the peer's end comes before it.
fn receive_rest<L: Link>(
    alloc: Global,
    link: &mut L,
    front: &[u8],
    total: usize,
) -> Result<Option<Listed<u8>>, Stopped>
    requires { length front.now < total }
    ensures given { IsTrue (L.tells link.old) → (xs : List Exchange) → L.exchanges link.old ≡ with_last (giving front.now false) xs
        → IfOk result (λ block. (given : List ℕ) × (L.exchanges link.new ≡ with_last (giving given (is_none block)) xs) × Fills front.now total given block) }
    ensures fills { IfOk result (λ block. (given : List ℕ) × Fills front.now total given block) }
    ensures err { IsTrue (L.tells link.old) → (xs : List Exchange) → L.exchanges link.old ≡ with_last (giving front.now false) xs
        → OnErr result ((given : List ℕ) × (L.exchanges link.new ≡ with_last (giving given false) xs)) }
    ensures connected { IsTrue (L.tells link.old) → L.connected link.new ≡ L.connected link.old }
    ensures tells { L.tells link.new ≡ L.tells link.old }
    ensures later { (fault : LinkFault) → L.faults link.old fault ≤ L.faults link.new fault }
    ensures failed { (fault : LinkFault) → result ≡ Err (Stopped.Link fault) → Rose (L.faults link.old fault) (L.faults link.new fault) }
{
    let Ok(mut block) = grown(alloc, front, total) else {
        return Err(Stopped::NoMemory);
    };
    let filled = match read_rest(link, block.as_mut_slice(), front.len()) {
        Ok(filled) => filled,
        Err(fault) => return Err(Stopped::Link(fault)),
    };
    if filled < total {
        return Ok(None);
    }
    Ok(Some(Listed::from(block)))
}

/// Reads the response (RFC 9112 §6): all its bytes where it is a whole one of the form that is read, of at most `limit`
/// bytes; none where none can come or the peer's end came before it. A fault of the link and want of memory are the
/// errors, and the peer's end came before neither.
pub(crate) fn receive<L: Link>(
    alloc: Global,
    link: &mut L,
    limit: u64,
) -> Result<Option<Listed<u8>>, Stopped>
    ensures given { IsTrue (L.tells link.old) → IfOk result (λ block. (given : List ℕ) × (ended : Bool)
        × (L.exchanges link.new ≡ with_last (giving given ended) (L.exchanges link.old)) × Reads limit given ended block) }
    ensures whole { IfOk result (λ block. IfSome block (IsWhole limit)) }
    ensures err { IsTrue (L.tells link.old) → OnErr result ((given : List ℕ) × (L.exchanges link.new ≡ with_last (giving given false) (L.exchanges link.old))) }
    ensures connected { IsTrue (L.tells link.old) → L.connected link.new ≡ L.connected link.old }
    ensures tells { L.tells link.new ≡ L.tells link.old }
    ensures later { (fault : LinkFault) → L.faults link.old fault ≤ L.faults link.new fault }
    ensures failed { (fault : LinkFault) → result ≡ Err (Stopped.Link fault) → Rose (L.faults link.old fault) (L.faults link.new fault) }
{
    let Ok(mut buffer) = vec![in alloc; 0; MOST_HEAD] else {
        return Err(Stopped::NoMemory);
    };
    let came = match read_start(link, buffer.as_mut_slice(), limit) {
        Ok(came) => came,
        Err(fault) => return Err(Stopped::Link(fault)),
    };
    let total = match came.front {
        Front::Expects(total) => total,
        Front::Never => return Ok(None),
        Front::Partial => return Ok(None),
    };
    if total <= came.filled {
        // The peer's end may have come, so no more memory is asked for: the block keeps the buffer's.
        buffer.truncate(total);
        return Ok(Some(Listed::from(buffer)));
    }
    if came.ended {
        return Ok(None);
    }
    let block = match receive_rest(alloc, link, &buffer[..came.filled], total) {
        Ok(block) => block,
        Err(stopped) => return Err(stopped),
    };
    Ok(block)
}
