// Addresses with the names under which they are known, at one parse.
ghost use Rattle.std.specs.Prelude.{◌≡◌, None, Ok, IfOk, MatchBool, MatchOption};
ghost use Rattle.crawl_kinds.specs.Address.{IsUri, IsUriOf};
ghost use Rattle.url.specs.Parser.{parse_url};
ghost use Rattle.uri_form.specs.Named.{IsNamed};

use crate::key_form::key_of;
use crate::parse::{MOST_HEAD, MOST_URI, is_web};
use crate::reading::keep;
use crate::surt_form::class_of;
use crawl_kinds::{ClassKey, Key, NoMemory, Uri};
use std::alloc::Global;
use url::{ParseError, Position, Url};

/// An address, with its canonical key and its class.
#[derive(Drop)]
pub struct Named {
    pub uri: Uri,
    pub key: Key,
    pub class: ClassKey,
}

/// Whether a text is an address in the form in which it is written, by the URL that it reads as.
fn is_written(text: &str, url: &Url) -> bool
    requires { parse_url None text.now ≡ Ok url.now }
    ensures { MatchBool result (IsUriOf text.now url.now) (IsUri text.now → ⊥) }
{
    if url.as_str() != text {
        return false;
    }
    if url.fragment().is_some() {
        return false;
    }
    if text.len() > MOST_URI {
        return false;
    }
    if url.index(Position::BeforePath) > MOST_HEAD {
        return false;
    }
    is_web(url)
}

/// An address with its names.
fn with_names(alloc: Global, text: &str, url: &Url) -> Result<Named, NoMemory>
    requires { IsUriOf text.now url.now }
    ensures { IfOk result (IsNamed text.now) }
{
    let key = key_of(alloc, url)?;
    let class = class_of(alloc, url)?;
    Ok(Named {
        uri: keep(alloc, text)?,
        key: keep(alloc, key.as_str())?,
        class: keep(alloc, class.as_str())?,
    })
}

/// Reads a text that is an address in the form in which it is written, and names it as `canonical_key` and `class_key` do,
/// at one parse. `None` is answered where the text is no address, or not in that form.
pub fn named_uri(alloc: Global, text: &str) -> Result<Option<Named>, NoMemory>
    ensures { IfOk result (λ found. MatchOption found (IsUri text.now → ⊥) (IsNamed text.now)) }
{
    let url = match Url::parse(alloc, text) {
        Ok(url) => url,
        Err(ParseError::OutOfMemory) => return Err(NoMemory),
        Err(ParseError::Overflow) => return Err(NoMemory),
        Err(_) => return Ok(None),
    };
    if !is_written(text, &url) {
        return Ok(None);
    }
    Ok(Some(with_names(alloc, text, &url)?))
}
