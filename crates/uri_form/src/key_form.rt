// Canonical keys.
ghost use Rattle.std.specs.Prelude.{◌≡◌, ◌++◌, None, IfOk, OnOk, IsTrue, string_bytes};
ghost use Rattle.std.specs.Char.{is_ascii_digit};
ghost use Rattle.std.specs.List.{list_all};
ghost use Rattle.crawl_kinds.specs.Address.{IsUri, is_web};
ghost use Rattle.url.specs.Host.{host_map, host_text};
ghost use Rattle.url.specs.Parts.{host_or_empty, serialize};
ghost use Rattle.uri_spec.specs.Key.{canonical, is_robots, is_www, key_of, key_text, name_without_www, robots_key};
ghost use Rattle.uri_spec.specs.Surt.{class_of};
ghost use Rattle.uri_form.specs.Members.{whole_query};

use crate::cut::cut_first;
use crate::ids::{push_path, push_query};
use crate::reading::{keep, url_of};
use crate::surt_form::push_class;
use crawl_kinds::{Key, NoMemory, Uri};
use std::alloc::Global;
use url::{Position, Url};

fn are_digits(bytes: &[u8]) -> bool
    ensures { result ≡ list_all is_ascii_digit bytes.now }
{
    bytes.iter().all(|b| b.is_ascii_digit())
}

/// `www` and any digits.
fn is_www(label: &[u8]) -> bool
    ensures { result ≡ is_www label.now }
{
    label.starts_with(b"www") && are_digits(&label[3..])
}

/// A host name without a first label `www`, `www2` and so on, where a dot stands between the labels that follow.
fn without_www(name: &str) -> &str
    ensures { result.now ≡ name_without_www name.now }
{
    let Some((first, rest)) = cut_first(name, '.') else {
        return name;
    };
    let Some((_, _more)) = cut_first(rest, '.') else {
        return name;
    };
    if is_www(first.as_bytes()) {
        return rest;
    }
    name
}

/// Puts a host at the end of a text, a name without its `www`.
pub(crate) fn push_host(out: &mut String, url: &Url) -> Result<(), NoMemory>
    requires { IsTrue (is_web url.now) }
    ensures { OnOk result (string_bytes out.new
        ≡ string_bytes out.old ++ host_text (host_map name_without_www (host_or_empty url.now))) }
{
    match url.domain() {
        Some(name) => Ok(out.push_str(without_www(name))?),
        None => Ok(out.push_str(url.slice(Position::BeforeHost, Position::AfterHost))?),
    }
}

/// Puts what is left of a query at the end of a text.
fn push_tail(alloc: Global, out: &mut String, url: &Url) -> Result<(), NoMemory>
    ensures { OnOk result (string_bytes out.new ≡ string_bytes out.old ++ whole_query url.now.query) }
{
    match url.query() {
        Some(query) => {
            let query = query.to_ascii_lowercase(alloc)?;
            push_query(alloc, out, query.as_str())
        }
        None => Ok(()),
    }
}

/// The URL, rewritten.
fn canonical_text(alloc: Global, url: &Url) -> Result<String, NoMemory>
    requires web { IsTrue (is_web url.now) }
    requires fragment { url.now.fragment ≡ None }
    ensures { IfOk result (λ text. string_bytes text ≡ serialize (canonical url.now)) }
{
    let mut out = String::from_str(
        alloc,
        url.slice(Position::BeforeScheme, Position::BeforeUsername),
    )?;
    push_host(&mut out, url)?;
    out.push_str(url.slice(Position::AfterHost, Position::AfterPort))?;
    let path = url.path().to_ascii_lowercase(alloc)?;
    push_path(&mut out, path.as_str())?;
    push_tail(alloc, &mut out, url)?;
    Ok(out)
}

/// The key of a robots file: its class, marked.
fn robots_key_text(alloc: Global, url: &Url) -> Result<String, NoMemory>
    requires { IsTrue (is_web url.now) }
    ensures { IfOk result (λ text. string_bytes text ≡ robots_key 0 (class_of url.now)) }
{
    let mut out = String::from_str(alloc, "robots0:")?;
    push_class(&mut out, url)?;
    Ok(out)
}

/// Whether a URL is that of a robots file.
fn is_robots(url: &Url) -> bool
    ensures { result ≡ is_robots url.now }
{
    url.path() == "/robots.txt" && url.query().is_none()
}

/// The key of a URL.
pub(crate) fn key_of(alloc: Global, url: &Url) -> Result<String, NoMemory>
    requires web { IsTrue (is_web url.now) }
    requires fragment { url.now.fragment ≡ None }
    ensures { IfOk result (λ text. string_bytes text ≡ key_of url.now) }
{
    if is_robots(url) {
        robots_key_text(alloc, url)
    } else {
        canonical_text(alloc, url)
    }
}

/// The name under which an address is known as seen. A robots file is known by its class; any other page by its address
/// in lower case, without user name and password, without a first label `www`, without session ids, and without `&` at
/// the end of its query. The address itself is what is fetched.
pub fn canonical_key(alloc: Global, uri: &Uri) -> Result<Key, NoMemory>
    requires { IsUri uri.now }
    ensures { IfOk result (λ own. own ≡ key_text uri.now) }
{
    let url = url_of(alloc, uri)?;
    let text = key_of(alloc, &url)?;
    keep(alloc, text.as_str())
}
