// The attributes of a tag.
ghost use Rattle.std.specs.Prelude.{true, false, ◌≡◌, ◌+◌, ◌<◌, ◌≤◌, length, take, drop, IfOk, OnOk, fold};
ghost use Rattle.std.specs.List.{prefix_len, list_any};
ghost use Rattle.link_spec.specs.Reading.{piece_of};
ghost use Rattle.html_links.specs.Reading.{begins_gap, goes_on};
ghost use Rattle.link_spec.specs.Attributes.{attribute, attribute_at, attributes_of, attributes_size, bare, is_bare_byte, is_name_byte, name_of, named, place_of, quoted_or_bare, same_name, value_at, value_behind, with_one};

use crate::entities::decoded;
use crawl_kinds::{Listed, NoMemory};
use link_spec::scan::{Found, blanks_len, from, is_blank, quoted, same_word, up_to};
use link_spec::{Attribute, Name};
use std::alloc::Global;

/// A name and its value, as they stand, and how many bytes both take.
#[derive(Clone, Copy)]
struct Pair<'a> {
    size: usize,
    name: &'a [u8],
    value: &'a [u8],
}

/// The attributes of a tag that count, and how many bytes all take.
#[derive(Drop)]
pub struct Kept {
    pub size: usize,
    pub list: Listed<Attribute>,
}

fn name_of(word: &[u8]) -> Option<Name>
    ensures { result ≡ name_of word.now }
{
    if same_word(word, b"href") {
        Some(Name::Href)
    } else if same_word(word, b"src") {
        Some(Name::Src)
    } else if same_word(word, b"srcset") {
        Some(Name::Srcset)
    } else if same_word(word, b"poster") {
        Some(Name::Poster)
    } else if same_word(word, b"data") {
        Some(Name::Data)
    } else if same_word(word, b"background") {
        Some(Name::Background)
    } else if same_word(word, b"content") {
        Some(Name::Content)
    } else if same_word(word, b"style") {
        Some(Name::Style)
    } else if same_word(word, b"rel") {
        Some(Name::Rel)
    } else if same_word(word, b"http-equiv") {
        Some(Name::HttpEquiv)
    } else {
        None
    }
}

fn place_of(name: Name) -> u8
    ensures { result ≡ place_of name }
{
    match name {
        Name::Href => 0,
        Name::Src => 1,
        Name::Srcset => 2,
        Name::Poster => 3,
        Name::Data => 4,
        Name::Background => 5,
        Name::Content => 6,
        Name::Style => 7,
        Name::Rel => 8,
        Name::HttpEquiv => 9,
    }
}

/// Whether two names are one.
pub fn same_name(a: Name, b: Name) -> bool
    ensures { result ≡ same_name a b }
{
    place_of(a) == place_of(b)
}

fn is_name_byte(byte: u8) -> bool
    ensures { result ≡ is_name_byte byte }
{
    !(is_blank(byte) || byte == b'/' || byte == b'>' || byte == b'=')
}

fn name_len(bytes: &[u8]) -> usize
    ensures count { result ≡ prefix_len is_name_byte bytes.now }
    ensures within { result ≤ length bytes.now }
{
    bytes
        .iter()
        .position(|b| !is_name_byte(*b))
        .unwrap_or(bytes.len())
}

fn is_bare_byte(byte: u8) -> bool
    ensures { result ≡ is_bare_byte byte }
{
    !(is_blank(byte) || byte == b'>')
}

fn bare_len(bytes: &[u8]) -> usize
    ensures count { result ≡ prefix_len is_bare_byte bytes.now }
    ensures within { result ≤ length bytes.now }
{
    bytes
        .iter()
        .position(|b| !is_bare_byte(*b))
        .unwrap_or(bytes.len())
}

/// A value without quotes.
fn bare(text: &[u8]) -> Found<'_>
    ensures found { piece_of result ≡ bare text.now }
    ensures within { result.size ≤ length text.now + 1 }
{
    let len = bare_len(text);
    Found {
        size: len,
        text: up_to(text, len),
    }
}

/// A value in quotes or without.
fn quoted_or_bare(text: &[u8]) -> Found<'_>
    ensures found { piece_of result ≡ quoted_or_bare text.now }
    ensures within { result.size ≤ length text.now + 1 }
{
    match quoted(text) {
        Some(found) => found,
        None => bare(text),
    }
}

/// The value behind `=`.
fn value_behind(text: &[u8]) -> Found<'_>
    ensures found { piece_of result ≡ value_behind text.now }
    ensures within { result.size ≤ length text.now + 1 }
{
    let blanks = blanks_len(text);
    let found = quoted_or_bare(from(text, blanks));
    Found {
        size: blanks + found.size,
        text: found.text,
    }
}

/// The value behind a name, if there is one.
fn value_at(text: &[u8]) -> Found<'_>
    ensures found { piece_of result ≡ value_at text.now }
    ensures within { result.size ≤ length text.now + 1 }
{
    let gap = blanks_len(text);
    let rest = from(text, gap);
    if !rest.starts_with(b"=") {
        return Found { size: 0, text: &[] };
    }
    let found = value_behind(from(rest, 1));
    Found {
        size: gap + 1 + found.size,
        text: found.text,
    }
}

/// The attribute at the front: a name and its value.
fn attribute(text: &[u8]) -> Pair<'_>
    requires on { goes_on text.now ≡ true }
    requires pair { begins_gap text.now ≡ false }
    ensures size { result.size ≡ (attribute text.now).size }
    ensures some { 0 < result.size }
    ensures named { named result.name.now result.value.now ≡ (attribute text.now).gives }
    ensures within { result.size ≤ length text.now + 1 }
{
    let len = name_len(text);
    let value = value_at(from(text, len));
    Pair {
        size: len + value.size,
        name: up_to(text, len),
        value: value.text,
    }
}

/// Whether an attribute of this name is there.
fn has(kept: &[Attribute], name: Name) -> bool
    ensures { result ≡ list_any (λ b. same_name name b.name) kept.now }
{
    kept.iter().any(|b| same_name(name, b.name))
}

/// Puts an attribute at the end, if it is one that is read and its name is not there already.
fn keep(alloc: Global, kept: &mut Listed<Attribute>, pair: &Pair<'_>) -> Result<(), NoMemory>
    ensures { OnOk result (kept.new ≡ fold with_one kept.old (named pair.now.name.now pair.now.value.now)) }
{
    let Some(name) = name_of(pair.name) else {
        return Ok(());
    };
    if has(kept.as_slice(), name) {
        return Ok(());
    }
    let value = Listed::from(decoded(alloc, pair.value)?);
    kept.push(Attribute { name, value })?;
    Ok(())
}

/// Whether the tag goes on.
fn goes_on(text: &[u8]) -> bool
    ensures test { result ≡ goes_on text.now }
    ensures some { result ≡ true → 0 < length text.now }
{
    match text {
        [first, ..] => *first != b'>',
        _ => false,
    }
}

/// Whether a byte between attributes stands at the front.
fn begins_gap(text: &[u8]) -> bool
    ensures { result ≡ begins_gap text.now }
{
    match text {
        [first, ..] => is_blank(*first) || *first == b'/',
        _ => false,
    }
}

/// The attributes behind a tag's name, up to its `>` or to the end.
pub fn attributes(alloc: Global, text: &[u8]) -> Result<Kept, NoMemory>
    ensures list { IfOk result (λ found. found.list ≡ attributes_of text.now) }
    ensures size { IfOk result (λ found. found.size ≡ attributes_size text.now) }
    ensures within { IfOk result (λ found. found.size ≤ length text.now + 1) }
{
    let mut list = Listed::new(alloc);
    let mut size: usize = 0;
    let mut rest = text;
    while goes_on(rest) {
        if begins_gap(rest) {
            size += 1;
            rest = from(rest, 1);
        } else {
            let pair = attribute(rest);
            keep(alloc, &mut list, &pair)?;
            size += pair.size;
            rest = from(rest, pair.size);
        }
    }
    Ok(Kept { size, list })
}
