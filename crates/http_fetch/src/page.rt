// One exchange, from the request to the reply.
ghost use Rattle.std.specs.Prelude.{◌≡◌, ◌≤◌, ◌++◌, ◌∷◌, [], ℕ, Bool, List, IsTrue, IfOk, IfErr, IfSome, OnOk, OnErr, Ok, Err, false, length, min, string_bytes, ◌⊎◌};
ghost use Rattle.crawl_kinds.specs.Address.{IsUri};
ghost use Rattle.crawl_traits.specs.Causes.{Rose};
ghost use Rattle.crawl_traits.specs.Exchanges.{giving, opened, taking, with_last};
ghost use Rattle.crawl_traits.specs.declared.link.Exchange.{Exchange};
ghost use Rattle.http_fetch.specs.Fetching.{IsBegun, IsReplyIn, IsSpanOf, Suits, latest};
ghost use Rattle.http_fetch.specs.Reading.{Reads};
ghost use Rattle.page_spec.specs.Peer.{is_supported, peer_host, peer_port};
ghost use Rattle.page_spec.specs.Request.{request_text};
ghost use Rattle.page_spec.specs.Response.{IsReplyOf, IsWhole};

use crate::receive::{Stopped, receive};
use crate::send::send_whole;
use crawl_kinds::{Fetch, Listed, MAX_MS, NoMemory, Settings, Uri};
use crawl_traits::{Clock, Link, LinkFault};
use http_message::{Peer, Reply, peer_of, read_reply, request_bytes};
use std::alloc::Global;

/// A fetch that came to its end: when it was, what was asked, and the reply. There is none where what was given is no
/// whole response of the form that is read.
#[derive(Drop)]
pub struct Fetched {
    pub span: Fetch,
    pub request: Listed<u8>,
    pub reply: Option<Reply>,
}

/// Why a fetch has no end.
#[derive(Clone, Copy, Debug)]
pub enum FetchStop {
    /// The link failed.
    Link { fault: LinkFault, span: Fetch },
    NoMemory,
}

/// The present moment, cut at the latest time of an event.
fn moment<C: Clock>(clock: &C) -> u64
    ensures { (now : ℕ) × C.gives clock.now now × (result ≡ min now latest) }
{
    clock.now().min(MAX_MS)
}

/// The span from a moment to the present one.
fn span_from<C: Clock>(clock: &C, start: u64) -> Fetch
    requires { (now : ℕ) × C.gives clock.now now × (start ≡ min now latest) }
    ensures { IsSpanOf (C.gives clock.now) result }
{
    let end = moment(clock);
    Fetch {
        start,
        duration: end.saturating_sub(start),
    }
}

/// Connects, sends the request and reads the response.
fn exchange<L: Link>(
    alloc: Global,
    link: &mut L,
    peer: &Peer,
    request: &[u8],
    settings: &Settings,
) -> Result<Option<Listed<u8>>, Stopped>
    ensures given { IsTrue (L.tells link.old) → IfOk result (λ block. (given : List ℕ) × (ended : Bool)
        × (L.exchanges link.new ≡ L.exchanges link.old ++ giving given ended (taking request.now (opened (string_bytes peer.now.host) peer.now.port)) ∷ [])
        × Reads settings.now.max_response_bytes given ended block) }
    ensures whole { IfOk result (λ block. IfSome block (IsWhole settings.now.max_response_bytes)) }
    ensures err { IsTrue (L.tells link.old) → OnErr result ((L.exchanges link.new ≡ L.exchanges link.old)
        ⊎ ((taken : List ℕ) × (given : List ℕ) × (L.exchanges link.new ≡ L.exchanges link.old ++ giving given false (taking taken (opened (string_bytes peer.now.host) peer.now.port)) ∷ []))) }
    ensures tells { L.tells link.new ≡ L.tells link.old }
    ensures later { (fault : LinkFault) → L.faults link.old fault ≤ L.faults link.new fault }
    ensures failed { (fault : LinkFault) → result ≡ Err (Stopped.Link fault) → Rose (L.faults link.old fault) (L.faults link.new fault) }
{
    match link.connect(peer.host.as_str(), peer.port, settings.timeout_ms) {
        Ok(()) => {}
        Err(fault) => return Err(Stopped::Link(fault)),
    }
    match send_whole(link, request) {
        Ok(()) => {}
        Err(fault) => return Err(Stopped::Link(fault)),
    }
    receive(alloc, link, settings.max_response_bytes)
}

/// Makes one exchange, closes the connection, and says when that was.
fn timed<L: Link, C: Clock>(
    alloc: Global,
    link: &mut L,
    clock: &C,
    peer: &Peer,
    request: &[u8],
    settings: &Settings,
) -> Result<(Fetch, Option<Listed<u8>>), FetchStop>
    ensures given { IsTrue (L.tells link.old) → IfOk result (λ r. (given : List ℕ) × (ended : Bool)
        × (L.exchanges link.new ≡ L.exchanges link.old ++ giving given ended (taking request.now (opened (string_bytes peer.now.host) peer.now.port)) ∷ [])
        × Reads settings.now.max_response_bytes given ended r.1) }
    ensures whole { IfOk result (λ r. IfSome r.1 (IsWhole settings.now.max_response_bytes)) }
    ensures err { IsTrue (L.tells link.old) → OnErr result ((L.exchanges link.new ≡ L.exchanges link.old)
        ⊎ ((taken : List ℕ) × (given : List ℕ) × (L.exchanges link.new ≡ L.exchanges link.old ++ giving given false (taking taken (opened (string_bytes peer.now.host) peer.now.port)) ∷ []))) }
    ensures span { IfOk result (λ r. IsSpanOf (C.gives clock.now) r.0) }
    ensures stop_span { (fault : LinkFault) (span : Fetch) → result ≡ Err (FetchStop.Link fault span) → IsSpanOf (C.gives clock.now) span }
    ensures failed { (fault : LinkFault) (span : Fetch) → result ≡ Err (FetchStop.Link fault span) → Rose (L.faults link.old fault) (L.faults link.new fault) }
    ensures later { (fault : LinkFault) → L.faults link.old fault ≤ L.faults link.new fault }
    ensures tells { L.tells link.new ≡ L.tells link.old }
    ensures shut { IsTrue (L.tells link.old) → L.connected link.new ≡ false }
{
    let start = moment(clock);
    let outcome = exchange(alloc, link, peer, request, settings);
    link.close();
    let span = span_from(clock, start);
    match outcome {
        Ok(block) => Ok((span, block)),
        Err(Stopped::Link(fault)) => Err(FetchStop::Link { fault, span }),
        Err(Stopped::NoMemory) => Err(FetchStop::NoMemory),
    }
}

/// The reply that a whole response is, where there is one.
fn reply_of(alloc: Global, block: Option<Listed<u8>>, limit: u64) -> Result<Option<Reply>, NoMemory>
    requires { IfSome block (IsWhole limit) }
    ensures { IfOk result (IsReplyIn limit block) }
{
    match block {
        None => Ok(None),
        Some(block) => Ok(Some(read_reply(alloc, block.into_vec())?)),
    }
}

/// Fetches an address over a link, one of scheme http or, through a proxy, of any: it connects to the host and port of the
/// address, or to those of the proxy where the settings name one, gives the link the whole request, and reads the response
/// up to `max_response_bytes`. It waits at most `timeout_ms` milliseconds for the connection. The connection is closed at
/// the end.
///
/// The reply is there where the bytes given begin with a whole response of the form that is read. It fails with the
/// link's fault, only where the link's count of that fault rose, or for want of memory. Memory that is wanting before
/// the connection is made leaves the link as it was.
pub fn fetch<L: Link, C: Clock>(
    alloc: Global,
    link: &mut L,
    clock: &C,
    uri: &Uri,
    settings: &Settings,
) -> Result<Fetched, FetchStop>
    requires uri { IsUri uri.now }
    requires supported { IsTrue (is_supported settings.now uri.now) }
    ensures request { IfOk result (λ f. f.request ≡ request_text uri.now settings.now) }
    ensures exchange { IsTrue (L.tells link.old) → IfOk result (λ f. (e : Exchange)
        × (L.exchanges link.new ≡ L.exchanges link.old ++ e ∷ []) × Suits uri.now settings.now e f.reply) }
    ensures reply { IfOk result (λ f. IfSome f.reply (λ reply. IsReplyOf settings.now.max_response_bytes reply.block reply.status reply.media reply.head_len)) }
    ensures head { IfOk result (λ f. IfSome f.reply (λ reply. reply.head_len ≤ length reply.block)) }
    ensures begun { IsTrue (L.tells link.old) → OnErr result (IsBegun uri.now settings.now (L.exchanges link.old) (L.exchanges link.new)) }
    ensures span { IfOk result (λ f. IsSpanOf (C.gives clock.now) f.span) }
    ensures stop_span { (fault : LinkFault) (span : Fetch) → result ≡ Err (FetchStop.Link fault span) → IsSpanOf (C.gives clock.now) span }
    ensures failed { (fault : LinkFault) (span : Fetch) → result ≡ Err (FetchStop.Link fault span) → Rose (L.faults link.old fault) (L.faults link.new fault) }
    ensures later { (fault : LinkFault) → L.faults link.old fault ≤ L.faults link.new fault }
    ensures tells { L.tells link.new ≡ L.tells link.old }
    ensures shut { IsTrue (L.tells link.old) → OnOk result (L.connected link.new ≡ false) }
    ensures stop_shut { (fault : LinkFault) (span : Fetch) → result ≡ Err (FetchStop.Link fault span) → IsTrue (L.tells link.old) → L.connected link.new ≡ false }
    ensures starved { result ≡ Err FetchStop.NoMemory → IsTrue (L.tells link.old) → (L.connected link.new ≡ false) ⊎ (link.new ≡ link.old) }
{
    let Ok(peer) = peer_of(alloc, uri, settings) else {
        return Err(FetchStop::NoMemory);
    };
    let Ok(request) = request_bytes(alloc, uri, settings) else {
        return Err(FetchStop::NoMemory);
    };
    let (span, block) = timed(alloc, link, clock, &peer, request.as_slice(), settings)?;
    let Ok(reply) = reply_of(alloc, block, settings.max_response_bytes) else {
        return Err(FetchStop::NoMemory);
    };
    Ok(Fetched {
        span,
        request: Listed::from(request),
        reply,
    })
}
