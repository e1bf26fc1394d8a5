// Addresses with their names.
use crate::answer::{agreed, reply};
use crate::words::asked;
use case_file::{Entry, Reply};
use std::alloc::Global;
use std::test::Fail;
use uri_form::{Named, canonical_key, class_key, named_on, named_uri, parse_uri, site_of};

/// An address with its names, where a text is one.
fn shown(alloc: Global, named: &Option<Named>) -> Result<String, Fail> {
    match named {
        Some(named) => Ok(format!(in alloc; "{} {} {}", named.uri, named.key, named.class)?),
        None => Ok(String::from_str(alloc, "none")?),
    }
}

/// The same, where a text is written as the address that it is read as, by a call for each name.
fn shown_by_calls(alloc: Global, text: &str) -> Result<String, Fail> {
    let Ok(uri) = parse_uri(alloc, text) else {
        return Ok(String::from_str(alloc, "none")?);
    };
    if uri.as_str() != text {
        return Ok(String::from_str(alloc, "none")?);
    }
    let key = canonical_key(alloc, &uri)?;
    let class = class_key(alloc, &uri)?;
    Ok(format!(in alloc; "{uri} {key} {class}")?)
}

/// The same, by the site of another address.
fn shown_on(alloc: Global, other: &str, text: &str) -> Result<String, Fail> {
    let site = site_of(alloc, &parse_uri(alloc, other)?)?;
    shown(alloc, &named_on(alloc, &site, text)?)
}

/// `named SITE TEXT`: the address that a text is, its key and its class, in each of the ways to ask, also by the site of an
/// address; `none` where it is not written as an address.
pub fn named(alloc: Global, entry: &Entry) -> Result<Reply, Fail> {
    let (other, text) = (entry.text_word(0), asked(entry, 1));
    let at_once = shown(alloc, &named_uri(alloc, text)?)?;
    let on_site = shown_on(alloc, other, text)?;
    let by_calls = shown_by_calls(alloc, text)?;
    let both = agreed(alloc, at_once, on_site)?;
    reply(agreed(alloc, both, by_calls)?)
}
