// The pages of a site in memory.
ghost use Rattle.std.specs.Prelude.{◌≡◌, ◌==◌, ◌≤◌, length, IfOk};
ghost use Rattle.std.specs.List.{position_or_len};
ghost use Rattle.crawl_memory.specs.Site.{lies_at, fits, listens, target_of, answer, left_of, left};

use crawl_kinds::{Listed, NoMemory};
use crawl_traits::Exchange;
use std::alloc::Global;

/// What is answered to a request of which no page is the target (RFC 9110 §15.5.5).
const NOT_FOUND: &[u8] = b"HTTP/1.1 404 Not Found\r\nContent-Length: 0\r\n\r\n";

/// The bytes that a port of a host answers to a request for a target.
#[derive(Drop)]
pub struct Page {
    pub host: Listed<u8>,
    pub port: u16,
    pub target: Listed<u8>,
    pub bytes: Listed<u8>,
}

/// The pages that a link in memory finds. Of pages with one host, port and target it gives the first.
pub type Site = Listed<Page>;

impl Page {
    /// A page of copies of these texts and bytes: of a whole answer, with its head. It fails for want of memory alone.
    pub fn of(
        alloc: Global,
        host: &str,
        port: u16,
        target: &str,
        bytes: &[u8],
    ) -> Result<Self, NoMemory>
        ensures { IfOk result (λ page. page ≡ record { host = host.now; port = port; target = target.now; bytes = bytes.now }) }
    {
        let host = Listed::from(host.as_bytes().to_vec(alloc)?);
        let target = Listed::from(target.as_bytes().to_vec(alloc)?);
        let bytes = Listed::from(bytes.to_vec(alloc)?);
        Ok(Page {
            host,
            port,
            target,
            bytes,
        })
    }

    /// Whether it is of this port of a host.
    fn lies_at(&self, host: &[u8], port: u16) -> bool
        ensures { result ≡ lies_at host.now port self.now }
    {
        self.port == port && self.host.as_slice() == host
    }

    /// Whether it is of this target too.
    fn fits(&self, host: &[u8], port: u16, target: &[u8]) -> bool
        ensures { result ≡ fits host.now port target.now self.now }
    {
        self.lies_at(host, port) && self.target.as_slice() == target
    }
}

/// Whether some page is of this port of a host.
pub fn listens(site: &[Page], host: &[u8], port: u16) -> bool
    ensures { result ≡ listens site.now host.now port }
{
    for page in site {
        if page.lies_at(host, port) {
            return true;
        }
    }
    false
}

/// The place of the first space, or the length.
fn first_space(bytes: &[u8]) -> usize
    ensures place { result ≡ position_or_len (λ b. b == 32) bytes.now }
    ensures within { result ≤ length bytes.now }
{
    bytes.iter().position(|b| *b == b' ').unwrap_or(bytes.len())
}

/// What stands between the first space and the next (RFC 9112 §3).
fn target_of(request: &[u8]) -> &[u8]
    ensures { result.now ≡ target_of request.now }
{
    let space = first_space(request);
    if space == request.len() {
        return &[];
    }
    let rest = &request[space + 1..];
    &rest[..first_space(rest)]
}

/// The bytes of the first page that fits, or that there is none.
fn answer<'a>(site: &'a [Page], exchange: &Exchange) -> &'a [u8]
    ensures { result.now ≡ answer site.now exchange.now }
{
    let target = target_of(exchange.taken.as_slice());
    for page in site {
        if page.fits(exchange.host.as_slice(), exchange.port, target) {
            return page.bytes.as_slice();
        }
    }
    NOT_FOUND
}

/// What of the answer was not given yet.
fn left_of<'a>(site: &'a [Page], exchange: &Exchange) -> &'a [u8]
    ensures { result.now ≡ left_of site.now exchange.now }
{
    let answer = answer(site, exchange);
    let given = exchange.given.as_slice().len();
    if given < answer.len() {
        &answer[given..]
    } else {
        &[]
    }
}

/// What the last exchange was not given yet.
pub fn left<'a>(site: &'a [Page], exchanges: &[Exchange]) -> &'a [u8]
    ensures { result.now ≡ left site.now exchanges.now }
{
    if exchanges.is_empty() {
        return &[];
    }
    left_of(site, &exchanges[exchanges.len() - 1])
}
