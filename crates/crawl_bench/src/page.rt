//! `page BYTES ROUNDS`: a page with a body of so many bytes is fetched over a link in memory and its WARC record made, so many
//! times over. Counts the bytes of the records.
ghost use Rattle.std.specs.Prelude.{IsTrue};
ghost use Rattle.crawl_kinds.specs.Address.{IsUri};
ghost use Rattle.page_spec.specs.Peer.{is_supported};

use crate::shared::count;
use crawl_kinds::{Key, Listed, Settings, TextFault, Uri};
use crawl_memory::{MemClock, MemLink, Page};
use http_fetch::fetch;
use http_message::is_supported;
use record_spec::Naming;
use std::alloc::{AllocError, Global};
use std::test::Fail;
use uri_form::parse_uri;
use warc_record::{digest_of, response_record};

/// Where the page is.
const ADDRESS: &str = "http://bench.test/page";

/// The settings of the fetches: no proxy.
fn settings(alloc: Global) -> Result<Settings, TextFault> {
    Ok(Settings {
        name: Key::new(alloc, "bench")?,
        agent: Key::new(alloc, "bench")?,
        contact: Uri::new(alloc, "http://bench.test/")?,
        proxy: None,
        workers: 1,
        delay_factor: 0,
        min_delay_ms: 0,
        max_delay_ms: 0,
        max_crawl_delay_s: 0,
        max_tries: 1,
        retry_delay_s: 0,
        timeout_ms: 20_000,
        host_budget: 0,
        max_pages: 0,
        max_bytes: 0,
        max_seconds: 0,
        max_keys: 0,
        max_response_bytes: 1 << 30,
        warc_max_bytes: 1_000_000_000,
        checkpoint_finishes: 10_000,
    })
}

/// A response with a body of so many bytes.
fn response(alloc: Global, size: usize) -> Result<Vec<u8>, AllocError> {
    let head = format!(in alloc;
        "HTTP/1.1 200 OK\r\nContent-Type: text/html\r\nContent-Length: {size}\r\n\r\n"
    )?;
    let mut bytes = Vec::from_slice(alloc, head.as_bytes())?;
    for i in 0..size {
        bytes.push(b"<p>a line of 26 bytes</p>\n"[i % 26])?;
    }
    Ok(bytes)
}

/// A link to the page alone.
fn link_to(alloc: Global, bytes: &[u8]) -> Result<MemLink, Fail> {
    let mut site = Listed::new(alloc);
    site.push(Page::of(alloc, "bench.test", 80, "/page", bytes)?)?;
    Ok(MemLink::new(alloc, site, Vec::new(alloc)))
}

/// The page's record, after a fetch of it.
fn record(
    alloc: Global,
    link: &mut MemLink,
    uri: &Uri,
    settings: &Settings,
    place: &Naming,
) -> Result<Vec<u8>, Fail>
    requires uri { IsUri uri.now }
    requires supported { IsTrue (is_supported settings.now uri.now) }
{
    let fetched = fetch(alloc, link, &MemClock::at(0), uri, settings)?;
    let Some(reply) = &fetched.reply else {
        return Err(Fail::new("no whole response came"));
    };
    let block = reply.block.as_slice();
    let digest = digest_of(alloc, &block[reply.head_len..])?;
    let start = fetched.span.start;
    Ok(response_record(alloc, place, uri, start, &digest, block)?)
}

/// Makes the record of the page behind a link so many times over, and counts the records' bytes.
fn records(alloc: Global, link: &mut MemLink, rounds: u64) -> Result<usize, Fail> {
    let uri = parse_uri(alloc, ADDRESS)?;
    let settings = settings(alloc)?;
    if !is_supported(&uri, &settings) {
        return Err(Fail::new("its scheme cannot be fetched"));
    }
    let place = Naming {
        job: Key::new(alloc, "bench")?,
        file: 0,
        at: 0,
    };
    let mut total = 0usize;
    for _ in 0..rounds {
        let bytes = record(alloc, link, &uri, &settings, &place)?;
        total = total.wrapping_add(bytes.len());
    }
    Ok(total)
}

pub fn bench(alloc: Global, words: &[String]) -> Result<String, Fail> {
    let response = response(alloc, count(words, 1)? as usize)?;
    let mut link = link_to(alloc, &response)?;
    let total = records(alloc, &mut link, count(words, 2)?)?;
    Ok(format!(in alloc; "{total}\n")?)
}
