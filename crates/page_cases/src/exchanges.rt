// Requests, and exchanges over a link in memory.
ghost use Rattle.std.specs.Prelude.{IsTrue};
ghost use Rattle.crawl_kinds.specs.Address.{IsUri};
ghost use Rattle.page_spec.specs.Peer.{is_supported};

use case_file::{Entry, Reply};
use crawl_kinds::{Key, Listed, Settings, Uri};
use crawl_memory::{MemClock, MemLink, Page};
use crawl_traits::LinkFault;
use http_fetch::{FetchStop, fetch};
use http_message::{is_supported, request_bytes};
use std::alloc::Global;
use std::test::Fail;
use uri_form::parse_uri;

/// When an exchange begins, in milliseconds since 1970.
const START: u64 = 1_700_000_000_000;

/// The settings of a job that has the agent `sampler`, with this proxy or none where the text is empty.
fn settings(alloc: Global, proxy: &str) -> Result<Settings, Fail> {
    let proxy = if proxy.is_empty() {
        None
    } else {
        Some(Key::new(alloc, proxy)?)
    };
    Ok(Settings {
        name: Key::new(alloc, "sample")?,
        agent: Key::new(alloc, "sampler")?,
        contact: Uri::new(alloc, "http://example.org/bot")?,
        proxy,
        workers: 1,
        delay_factor: 0,
        min_delay_ms: 0,
        max_delay_ms: 0,
        max_crawl_delay_s: 0,
        max_tries: 1,
        retry_delay_s: 0,
        timeout_ms: 20_000,
        host_budget: 0,
        max_pages: 0,
        max_bytes: 0,
        max_seconds: 0,
        max_keys: 0,
        max_response_bytes: 8_388_608,
        warc_max_bytes: 1_000_000_000,
        checkpoint_finishes: 10_000,
    })
}

fn said(alloc: Global, text: &str) -> Result<Reply, Fail> {
    Ok(Reply::Said(text.as_bytes().to_vec(alloc)?))
}

/// `request ADDRESS [PROXY]`: the request for an address.
pub fn request(alloc: Global, entry: &Entry) -> Result<Reply, Fail> {
    let uri = parse_uri(alloc, entry.text_word(0))?;
    let settings = settings(alloc, entry.text_word(1))?;
    Ok(Reply::Said(request_bytes(alloc, &uri, &settings)?))
}

/// The link whose one page has the entry's text: its host, port and target are the words 1 to 3. Its call of the number that is
/// word 4 fails by word 5.
fn link_of(alloc: Global, entry: &Entry) -> Result<MemLink, Fail> {
    let port = entry.text_word(2).parse::<u16>().unwrap_or(80);
    let mut site = Listed::new(alloc);
    let (host, target) = (entry.text_word(1), entry.text_word(3));
    site.push(Page::of(alloc, host, port, target, entry.text.as_slice())?)?;
    let mut faults = Vec::new(alloc);
    if let Some(call) = entry.number(4) {
        let fault = match entry.text_word(5) {
            "refused" => LinkFault::Refused,
            "lost" => LinkFault::Lost,
            _ => LinkFault::TimedOut,
        };
        faults.push((call, fault))?;
    }
    Ok(MemLink::new(alloc, site, faults))
}

/// What came of an exchange for an address.
fn came(alloc: Global, link: &mut MemLink, uri: &Uri, settings: &Settings) -> Result<Reply, Fail>
    requires uri { IsUri uri.now }
    requires supported { IsTrue (is_supported settings.now uri.now) }
{
    match fetch(alloc, link, &MemClock::at(START), uri, settings) {
        Ok(fetched) => match &fetched.reply {
            Some(reply) => {
                let (head, block) = (reply.head_len, reply.block.as_slice().len());
                let (status, media) = (reply.status, reply.media.as_str());
                said(
                    alloc,
                    format!(in alloc; "{status} {media} {head} {block}")?.as_str(),
                )
            }
            None => said(alloc, "no whole response"),
        },
        Err(FetchStop::Link { fault, .. }) => {
            said(alloc, format!(in alloc; "{fault:?}")?.as_str())
        }
        Err(FetchStop::NoMemory) => Err(Fail::from("no memory")),
    }
}

/// `fetch ADDRESS HOST PORT TARGET [CALL refused|lost|late]`: an exchange for an address, over a link whose one page has the text.
/// Its status, its media type, the length of its head and of all of it; or that there was no whole response, or how it failed.
pub fn fetched(alloc: Global, entry: &Entry) -> Result<Reply, Fail> {
    let uri = parse_uri(alloc, entry.text_word(0))?;
    let settings = settings(alloc, "")?;
    if !is_supported(&uri, &settings) {
        return said(alloc, "not supported");
    }
    let mut link = link_of(alloc, entry)?;
    came(alloc, &mut link, &uri, &settings)
}
