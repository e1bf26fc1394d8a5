// The links of a response.
ghost use Rattle.std.specs.Prelude.{◌≡◌, find, true, IfOk};
ghost use Rattle.std.specs.Option.{option_copied};
ghost use Rattle.crawl_kinds.specs.Address.{IsUri};
ghost use Rattle.crawl_history.specs.Outcomes as outcomes;
ghost use Rattle.extract_spec.specs.Links.{is_redirection};
ghost use Rattle.process_chains.specs.Done.{AreLinks, alone, is_redirect};

use crawl_kinds::{Copied, Item, NoMemory};
use http_message::Reply;
use link_extract::{Found, Links, extract};
use std::alloc::Global;

/// Whether an item is a robots file, or what one redirects to.
fn is_prerequisite(item: &Item) -> bool
    ensures { result ≡ outcomes.is_prerequisite item.now }
{
    item.key.as_bytes().starts_with(b"robots")
}

/// Whether a status is that of a redirection (RFC 9110 section 15.4).
fn is_redirection(status: u16) -> bool
    ensures { result ≡ is_redirection status }
{
    300 <= status && status <= 399
}

/// The first link with the letter of a redirect.
fn redirect_in(links: &[Found]) -> Option<&Found>
    ensures { option_copied result ≡ find is_redirect links.now }
{
    links.iter().find(|found| found.letter == b'R')
}

/// A link a second time.
fn copy_of(found: &Found) -> Result<Found, NoMemory>
    ensures { IfOk result (λ own. own ≡ found.now) }
{
    Ok(Found {
        letter: found.letter,
        uri: found.uri.copy()?,
    })
}

/// The first redirect of links, alone.
fn redirect_of(alloc: Global, links: &Links) -> Result<Links, NoMemory>
    ensures { IfOk result (λ own. own ≡ alone (find is_redirect links.now)) }
{
    let mut redirect = Links::new(alloc);
    if let Some(found) = redirect_in(links.as_slice()) {
        redirect.push(copy_of(found)?)?;
    }
    Ok(redirect)
}

/// The links to which a robots file leads.
fn robots_links(alloc: Global, item: &Item, reply: &Reply) -> Result<Links, NoMemory>
    requires address { IsUri item.now.uri }
    requires robots { outcomes.is_prerequisite item.now ≡ true }
    ensures { IfOk result (AreLinks item.now reply.now) }
{
    if !is_redirection(reply.status) {
        return Ok(Links::new(alloc));
    }
    let links = extract(alloc, &item.uri, reply.block.as_slice())?;
    let redirect = redirect_of(alloc, &links)?;
    Ok(redirect)
}

/// The links to which the response of an item leads: of a page all, and of a robots file the first redirect alone.
pub(crate) fn item_links(alloc: Global, item: &Item, reply: &Reply) -> Result<Links, NoMemory>
    requires { IsUri item.now.uri }
    ensures { IfOk result (AreLinks item.now reply.now) }
{
    if is_prerequisite(item) {
        return robots_links(alloc, item, reply);
    }
    let links = extract(alloc, &item.uri, reply.block.as_slice())?;
    Ok(links)
}
