// What the addresses of one host share: they are read and named without a parse, where their paths are plain.
ghost use Rattle.std.specs.Prelude.{◌≡◌, ◌≤◌, ◌++◌, ◌==◌, true, length, string_bytes, IfOk, IsTrue, MatchOption};
ghost use Rattle.std.specs.List.{list_all, slice_split};
ghost use Rattle.crawl_kinds.specs.Address.{IsUri, is_web};
ghost use Rattle.url.specs.Ascii.{slash};
ghost use Rattle.uri_spec.specs.Key.{key_text};
ghost use Rattle.uri_form.specs.Named.{IsNamed, IsSite, is_plain_byte, is_plain_path, is_plain_segment, key_head};

use crate::key_form::push_host;
use crate::named::{Named, named_uri};
use crate::parse::MOST_URI;
use crate::reading::{keep, url_of};
use crate::surt_form::class_of;
use crawl_kinds::{ClassKey, Copied, NoMemory, Uri};
use std::alloc::Global;
use url::{Position, Url};

/// What stands before the paths of the addresses of one host, of them and of their keys, and their class.
#[derive(Drop)]
pub struct Site {
    pub head: String,
    pub key_head: String,
    pub class: ClassKey,
}

/// What stands before the path of the key of a URL.
fn key_head_of(alloc: Global, url: &Url) -> Result<String, NoMemory>
    requires { IsTrue (is_web url.now) }
    ensures { IfOk result (λ text. string_bytes text ≡ key_head url.now) }
{
    let mut out = String::from_str(
        alloc,
        url.slice(Position::BeforeScheme, Position::BeforeUsername),
    )?;
    push_host(&mut out, url)?;
    out.push_str(url.slice(Position::AfterHost, Position::AfterPort))?;
    Ok(out)
}

/// What an address shares with the others of its host.
pub fn site_of(alloc: Global, uri: &Uri) -> Result<Site, NoMemory>
    requires { IsUri uri.now }
    ensures { IfOk result IsSite }
{
    let url = url_of(alloc, uri)?;
    let head = String::from_str(
        alloc,
        url.slice(Position::BeforeScheme, Position::BeforePath),
    )?;
    let key_head = key_head_of(alloc, &url)?;
    let class = class_of(alloc, &url)?;
    Ok(Site {
        head,
        key_head,
        class: keep(alloc, class.as_str())?,
    })
}

fn is_plain_byte(byte: u8) -> bool
    ensures { result ≡ is_plain_byte byte }
{
    (b'a' <= byte && byte <= b'z')
        || ((b'A' <= byte && byte <= b'Z')
            || ((b'0' <= byte && byte <= b'9')
                || (byte == b'-' || (byte == b'_' || (byte == b'~' || byte == b'.')))))
}

fn are_plain_bytes(bytes: &[u8]) -> bool
    ensures { result ≡ list_all is_plain_byte bytes.now }
{
    bytes.iter().all(|b| is_plain_byte(*b))
}

/// No dot is in front.
fn is_plain_segment(segment: &[u8]) -> bool
    ensures { result ≡ is_plain_segment segment.now }
{
    match segment {
        [] => true,
        [first, ..] => *first != b'.' && are_plain_bytes(segment),
    }
}

fn are_plain_segments(path: &[u8]) -> bool
    ensures { result ≡ list_all is_plain_segment (slice_split (λ b. b == slash) path.now) }
{
    path.split(|b| *b == b'/')
        .all(|segment| is_plain_segment(segment))
}

/// A path that needs no parser.
fn is_plain_path(path: &[u8]) -> bool
    ensures { result ≡ is_plain_path path.now }
{
    match path {
        [] => false,
        [first, rest @ ..] => *first == b'/' && are_plain_segments(rest),
    }
}

/// Two texts, one behind the other.
fn joined(alloc: Global, front: &str, back: &str) -> Result<String, NoMemory>
    ensures { IfOk result (λ text. string_bytes text ≡ front.now ++ back.now) }
{
    let mut text = String::with_capacity(alloc, front.len() + back.len())?;
    text.push_str(front)?;
    text.push_str(back)?;
    Ok(text)
}

/// The text of the key of an address of a site with a plain path.
fn plain_key_text(alloc: Global, site: &Site, path: &str) -> Result<String, NoMemory>
    requires site { IsSite site.now }
    requires path { is_plain_path path.now ≡ true }
    requires within { length (string_bytes site.now.head ++ path.now) ≤ 2083 }
    ensures { IfOk result (λ text. string_bytes text ≡ key_text (string_bytes site.now.head ++ path.now)) }
{
    if path == "/robots.txt" {
        return Ok(format!(in alloc; "robots0:{}", site.class)?);
    }
    let path = path.to_ascii_lowercase(alloc)?;
    joined(alloc, site.key_head.as_str(), path.as_str())
}

/// An address of a site with a plain path, with its names.
fn plain_uri(alloc: Global, site: &Site, text: &str, path: &str) -> Result<Named, NoMemory>
    requires site { IsSite site.now }
    requires path { is_plain_path path.now ≡ true }
    requires text { text.now ≡ string_bytes site.now.head ++ path.now }
    requires within { length text.now ≤ 2083 }
    ensures { IfOk result (IsNamed text.now) }
{
    let key = plain_key_text(alloc, site, path)?;
    Ok(Named {
        uri: keep(alloc, text)?,
        key: keep(alloc, key.as_str())?,
        class: site.class.copy()?,
    })
}

/// Reads and names an address as `named_uri` does. It need not be one of the site; the addresses that are, with plain
/// paths, are read without a parse.
pub fn named_on(alloc: Global, site: &Site, text: &str) -> Result<Option<Named>, NoMemory>
    requires { IsSite site.now }
    ensures { IfOk result (λ found. MatchOption found (IsUri text.now → ⊥) (IsNamed text.now)) }
{
    if text.len() > MOST_URI {
        return named_uri(alloc, text);
    }
    let Some(path) = text.strip_prefix(site.head.as_str()) else {
        return named_uri(alloc, text);
    };
    if !is_plain_path(path.as_bytes()) {
        return named_uri(alloc, text);
    }
    Ok(Some(plain_uri(alloc, site, text, path)?))
}
