// How texts are read as addresses, alone or against a base.
ghost use Rattle.std.specs.Prelude.{◌≡◌, ◌<◌, length, None, IfOk};
ghost use Rattle.crawl_kinds.specs.Address.{IsUri, is_web};
ghost use Rattle.url.specs.Parser.{parse_url};
ghost use Rattle.uri_form.specs.Fault.{Answers, address_of, address_in, joined_url, most_text};

use crate::fault::{UriFault, fault_of_parse};
use crate::reading::{keep, url_of};
use crawl_kinds::Uri;
use std::alloc::Global;
use url::{Position, Url};

/// The most bytes of a text that is read.
pub(crate) const MOST_TEXT: usize = 65536;

/// The most bytes of an address.
pub(crate) const MOST_URI: usize = 2083;

/// The most bytes of an address before its path.
pub(crate) const MOST_HEAD: usize = 2072;

/// The scheme is http or https.
pub(crate) fn is_web(url: &Url) -> bool
    ensures { result ≡ is_web url.now }
{
    let scheme = url.scheme();
    scheme == "http" || scheme == "https"
}

/// The address that a URL is, without its fragment.
pub(crate) fn address_of(alloc: Global, url: &Url) -> Result<Uri, UriFault>
    ensures answer { Answers result (address_of url.now) }
    ensures address { IfOk result IsUri }
{
    let len = url.index(Position::AfterQuery);
    if len > MOST_URI {
        return Err(UriFault::TooLong { len });
    }
    let head = url.index(Position::BeforePath);
    if head > MOST_HEAD {
        return Err(UriFault::TooLong { len: head });
    }
    if !is_web(url) {
        return Err(UriFault::OtherScheme);
    }
    let text = url.slice(Position::BeforeScheme, Position::AfterQuery);
    Ok(keep(alloc, text)?)
}

/// Reads a text as an address: as the parser of the URL Standard (section 4.4) reads it, http or https, without its
/// fragment. It is refused by the first fault that it has.
pub fn parse_uri(alloc: Global, text: &str) -> Result<Uri, UriFault>
    ensures answer { Answers result (address_in text.now (parse_url None text.now)) }
    ensures long { most_text < length text.now → result ≡ Err (UriFault.TooLong (length text.now)) }
    ensures address { IfOk result IsUri }
{
    if text.len() > MOST_TEXT {
        return Err(UriFault::TooLong { len: text.len() });
    }
    match Url::parse(alloc, text) {
        Ok(url) => address_of(alloc, &url),
        Err(refusal) => Err(fault_of_parse(refusal)),
    }
}

/// Reads a text as an address against a base, as a reference on the base's page is read.
pub fn join_uri(alloc: Global, base: &Uri, text: &str) -> Result<Uri, UriFault>
    requires { IsUri base.now }
    ensures answer { Answers result (address_in text.now (joined_url base.now text.now)) }
    ensures long { most_text < length text.now → result ≡ Err (UriFault.TooLong (length text.now)) }
    ensures address { IfOk result IsUri }
{
    if text.len() > MOST_TEXT {
        return Err(UriFault::TooLong { len: text.len() });
    }
    let base = url_of(alloc, base)?;
    match base.join(text) {
        Ok(url) => address_of(alloc, &url),
        Err(refusal) => Err(fault_of_parse(refusal)),
    }
}
