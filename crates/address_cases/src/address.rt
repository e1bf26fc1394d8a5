// Addresses, and the texts that are made of them.
use crate::answer::{agreed, reply, shown};
use crate::words::asked;
use case_file::{Entry, Reply};
use crawl_kinds::{ClassKey, Key, Uri};
use std::alloc::Global;
use std::test::Fail;
use uri_form::{
    Base, Surt, UriFault, canonical_key, class_key, join_uri, parse_uri, robots_uri,
    surt as surt_of,
};

/// `parse TEXT`: the address that a text is read as.
pub fn parse(alloc: Global, entry: &Entry) -> Result<Reply, Fail> {
    reply(shown(alloc, parse_uri(alloc, asked(entry, 0)))?)
}

/// A text joined to a base.
fn joined(alloc: Global, base: &str, text: &str) -> Result<Uri, UriFault> {
    let base = parse_uri(alloc, base)?;
    join_uri(alloc, &base, text)
}

/// A text joined to a base that is read once for many texts.
fn joined_again(alloc: Global, base: &str, text: &str) -> Result<Uri, UriFault> {
    let uri = parse_uri(alloc, base)?;
    let base = Base::of(alloc, &uri)?;
    base.join(alloc, text)
}

/// `join BASE TEXT`: the address that a reference on the base's page means, in both ways to ask.
pub fn join(alloc: Global, entry: &Entry) -> Result<Reply, Fail> {
    let (base, text) = (entry.text_word(0), asked(entry, 1));
    let one = shown(alloc, joined(alloc, base, text))?;
    let other = shown(alloc, joined_again(alloc, base, text))?;
    reply(agreed(alloc, one, other)?)
}

fn key_of(alloc: Global, text: &str) -> Result<Key, UriFault> {
    let uri = parse_uri(alloc, text)?;
    Ok(canonical_key(alloc, &uri)?)
}

/// `key ADDRESS`: its canonical key.
pub fn key(alloc: Global, entry: &Entry) -> Result<Reply, Fail> {
    reply(shown(alloc, key_of(alloc, asked(entry, 0)))?)
}

fn class_of(alloc: Global, text: &str) -> Result<ClassKey, UriFault> {
    let uri = parse_uri(alloc, text)?;
    Ok(class_key(alloc, &uri)?)
}

/// `class ADDRESS`: the key of its host queue.
pub fn class(alloc: Global, entry: &Entry) -> Result<Reply, Fail> {
    reply(shown(alloc, class_of(alloc, asked(entry, 0)))?)
}

fn surt_form(alloc: Global, text: &str) -> Result<Surt, UriFault> {
    let uri = parse_uri(alloc, text)?;
    Ok(surt_of(alloc, &uri)?)
}

/// `surt ADDRESS`: its SURT form.
pub fn surt(alloc: Global, entry: &Entry) -> Result<Reply, Fail> {
    reply(shown(alloc, surt_form(alloc, asked(entry, 0)))?)
}

/// `surt_text TEXT`: a text that may be a SURT form or the beginning of one.
pub fn surt_text(alloc: Global, entry: &Entry) -> Result<Reply, Fail> {
    reply(shown(alloc, Surt::new(alloc, asked(entry, 0)))?)
}

fn robots_of(alloc: Global, text: &str) -> Result<Uri, UriFault> {
    let uri = parse_uri(alloc, text)?;
    Ok(robots_uri(alloc, &uri)?)
}

/// `robots_address ADDRESS`: the address of the robots file of its host.
pub fn robots_address(alloc: Global, entry: &Entry) -> Result<Reply, Fail> {
    reply(shown(alloc, robots_of(alloc, asked(entry, 0)))?)
}
