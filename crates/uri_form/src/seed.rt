// Seeds, and the prefixes that they make.
ghost use Rattle.std.specs.Prelude.{◌≡◌, ◌==◌, ◌++◌, ◌&&◌, None, is_none, IfOk, OnOk, IsTrue, string_bytes, codes};
ghost use Rattle.std.specs.Option.{option_copied};
ghost use Rattle.std.specs.List.{before_last};
ghost use Rattle.crawl_kinds.specs.Address.{IsUri, is_web};
ghost use Rattle.url.specs.Ascii.{slash};
ghost use Rattle.url.specs.Parts.{host_or_empty};
ghost use Rattle.url.specs.Parser.{parse_url};
ghost use Rattle.uri_spec.specs.Surt.{of_parsed};
ghost use Rattle.uri_spec.specs.Prefix.{after_marks, is_name, names_a_path, prefix_end, prefix_of, seed_text};
ghost use Rattle.uri_form.specs.Fault.{Answers, address_in};
ghost use Rattle.uri_form.specs.Prefix.{prefix_in};

use crate::fault::UriFault;
use crate::parse::parse_uri;
use crate::reading::{keep, url_of};
use crate::surt_form::{Surt, push_authority};
use crawl_kinds::{NoMemory, Uri};
use std::alloc::Global;
use url::{Position, Url};

/// What follows the first `://`.
fn after_marks(text: &str) -> Option<&str>
    ensures { option_copied result ≡ after_marks text.now }
{
    match text.split_once("://") {
        Some((_, rest)) => Some(rest),
        None => None,
    }
}

/// Whether a `/` follows the `://` of a seed.
fn names_a_path(text: &str) -> bool
    ensures { result ≡ names_a_path text.now }
{
    let rest = match after_marks(text) {
        Some(rest) => rest,
        None => text,
    };
    rest.as_bytes().contains(&b'/')
}

/// What stands before the last `/` of a path.
fn folder(path: &str) -> &str
    ensures { result.now ≡ before_last (λ b. b == slash) path.now }
{
    match path.rfind('/') {
        Some(at) => &path[..at],
        None => "",
    }
}

/// Whether the host is a name without a port.
fn is_whole_domain(url: &Url) -> bool
    requires { IsTrue (is_web url.now) }
    ensures { result ≡ (is_name (host_or_empty url.now) && is_none url.now.port) }
{
    url.port().is_none() && url.domain().is_some()
}

/// Puts what follows the authority in a prefix at the end of a text.
fn push_end(out: &mut String, named: bool, url: &Url) -> Result<(), NoMemory>
    requires { IsTrue (is_web url.now) }
    ensures { OnOk result (string_bytes out.new ≡ string_bytes out.old ++ prefix_end named url.now) }
{
    if named {
        out.push_str(")")?;
        out.push_str(folder(url.path()))?;
        out.push_str("/")?;
        return Ok(());
    }
    if is_whole_domain(url) {
        return Ok(());
    }
    out.push_str(")")?;
    Ok(())
}

/// The prefix that a URL makes, of a seed that names a path or of one that does not.
fn prefix_of(alloc: Global, named: bool, url: &Url) -> Result<String, NoMemory>
    requires { IsTrue (is_web url.now) }
    ensures { IfOk result (λ text. string_bytes text ≡ prefix_of named url.now) }
{
    let mut out = String::from_str(alloc, "http://(")?;
    push_authority(&mut out, url)?;
    push_end(&mut out, named, url)?;
    Ok(out)
}

/// Reads a seed: a text that holds no `://` is read with `http://` before it.
pub fn seed_uri(alloc: Global, text: &str) -> Result<Uri, UriFault>
    ensures answer { Answers result (address_in (seed_text text.now) (parse_url None (seed_text text.now))) }
    ensures address { IfOk result IsUri }
{
    if after_marks(text).is_some() {
        return parse_uri(alloc, text);
    }
    match seed_with_scheme(alloc, text) {
        Ok(seed) => parse_uri(alloc, seed.as_str()),
        Err(NoMemory) => Err(UriFault::NoMemory),
    }
}

/// The text behind `http://`.
fn seed_with_scheme(alloc: Global, text: &str) -> Result<String, NoMemory>
    ensures { IfOk result (λ seed. string_bytes seed ≡ codes "http://" ++ text.now) }
{
    let mut seed = String::from_str(alloc, "http://")?;
    seed.push_str(text)?;
    Ok(seed)
}

/// The prefix of SURT forms that a seed makes. One that names a path makes the SURT form up to the path's last `/`;
/// one that does not, that of the whole domain of a name without port, and else of the host and port alone. A text is
/// refused as `seed_uri` refuses it.
pub fn seed_prefix(alloc: Global, text: &str) -> Result<Surt, UriFault>
    ensures { Answers result (prefix_in text.now) }
{
    let uri = seed_uri(alloc, text)?;
    match prefix_text(alloc, names_a_path(text), &uri) {
        Ok(own) => Ok(own),
        Err(NoMemory) => Err(UriFault::NoMemory),
    }
}

/// The prefix that an address makes.
fn prefix_text(alloc: Global, named: bool, uri: &Uri) -> Result<Surt, NoMemory>
    requires { IsUri uri.now }
    ensures { IfOk result (λ own. own ≡ of_parsed (prefix_of named) (parse_url None uri.now)) }
{
    let url = url_of(alloc, uri)?;
    let text = prefix_of(alloc, named, &url)?;
    keep(alloc, text.as_str())
}
