// The segments of a page.
ghost use Rattle.std.specs.Prelude.{◌≡◌, ◌+◌, ◌<◌, ◌≤◌, nat_eq, length, take, drop, codes, IfOk, IfSome, Some, option_map};
ghost use Rattle.std.specs.List.{prefix_len, starts_with};
ghost use Rattle.link_spec.specs.Cut.{before_where};
ghost use Rattle.link_spec.specs.Attributes.{attributes_of, attributes_size};
ghost use Rattle.link_spec.specs.Tags.{element_of, element_place, ends_raw, is_embedding, is_tag_name_byte, raw_size, same_element, start_tag_at, tag_size};
ghost use Rattle.link_spec.specs.Segments.{begins_segment, begins_with_letter, ends_comment, is_declaration, is_end_tag, is_start_tag};
ghost use Rattle.html_links.specs.Cutting.{size_at, start_of, tags_at, tags_in};

use crate::attributes::attributes;
use crawl_kinds::{Listed, NoMemory};
use link_spec::scan::{first_of, from, is_blank, same_word, up_to};
use link_spec::{Attribute, Element};
use std::alloc::Global;

/// A start tag with the raw text behind it, and how many bytes both take.
#[derive(Drop)]
pub struct Tag<'a> {
    pub size: usize,
    pub element: Element,
    pub attributes: Listed<Attribute>,
    pub raw: &'a [u8],
}

/// A segment: how many bytes it takes, and its start tag, if it is one.
#[derive(Drop)]
pub struct Taken<'a> {
    pub size: usize,
    pub tag: Option<Tag<'a>>,
}

fn element_of(word: &[u8]) -> Element
    ensures { result ≡ element_of word.now }
{
    if same_word(word, b"a") || same_word(word, b"area") {
        Element::Anchor
    } else if same_word(word, b"link") {
        Element::Link
    } else if same_word(word, b"img") || same_word(word, b"source") {
        Element::Image
    } else if same_word(word, b"video") {
        Element::Video
    } else if is_embedding(word) {
        Element::Embedding
    } else if same_word(word, b"script") {
        Element::Script
    } else if same_word(word, b"style") {
        Element::Style
    } else if same_word(word, b"object") {
        Element::Object
    } else if same_word(word, b"body") {
        Element::Body
    } else if same_word(word, b"meta") {
        Element::Meta
    } else if same_word(word, b"base") {
        Element::Base
    } else {
        Element::Other
    }
}

fn element_place(element: Element) -> u8
    ensures { result ≡ element_place element }
{
    match element {
        Element::Anchor => 0,
        Element::Link => 1,
        Element::Image => 2,
        Element::Video => 3,
        Element::Embedding => 4,
        Element::Script => 5,
        Element::Style => 6,
        Element::Object => 7,
        Element::Body => 8,
        Element::Meta => 9,
        Element::Base => 10,
        Element::Other => 11,
    }
}

/// Whether two elements are one.
pub fn same_element(a: Element, b: Element) -> bool
    ensures { result ≡ same_element a b }
{
    element_place(a) == element_place(b)
}

/// Whether the word names an element with `src` alone.
fn is_embedding(word: &[u8]) -> bool
    ensures { result ≡ is_embedding word.now }
{
    same_word(word, b"iframe")
        || same_word(word, b"frame")
        || same_word(word, b"embed")
        || same_word(word, b"audio")
        || same_word(word, b"track")
        || same_word(word, b"input")
}

fn begins_with_letter(text: &[u8]) -> bool
    ensures { result ≡ begins_with_letter text.now }
{
    match text {
        [first, ..] => first.is_ascii_alphabetic(),
        _ => false,
    }
}

fn is_start_tag(text: &[u8]) -> bool
    ensures { result ≡ is_start_tag text.now }
{
    text.starts_with(b"<") && begins_with_letter(from(text, 1))
}

fn is_end_tag(text: &[u8]) -> bool
    ensures { result ≡ is_end_tag text.now }
{
    text.starts_with(b"</") && begins_with_letter(from(text, 2))
}

fn is_declaration(text: &[u8]) -> bool
    ensures { result ≡ is_declaration text.now }
{
    text.starts_with(b"<!") || text.starts_with(b"<?")
}

/// Whether a segment that is no text begins here.
fn begins_segment(text: &[u8]) -> bool
    ensures { result ≡ begins_segment text.now }
{
    is_declaration(text) || is_start_tag(text) || is_end_tag(text)
}

/// How many bytes of text stand at the front.
fn text_len(text: &[u8]) -> usize
    ensures count { result ≡ before_where begins_segment text.now }
    ensures within { result ≤ length text.now }
{
    let mut len: usize = 0;
    while len < text.len() {
        if begins_segment(from(text, len)) {
            return len;
        }
        len += 1;
    }
    len
}

fn ends_comment(text: &[u8]) -> bool
    ensures { result ≡ ends_comment text.now }
{
    text.starts_with(b"-->")
}

/// How many bytes of a comment stand at the front.
fn comment_len(text: &[u8]) -> usize
    ensures count { result ≡ before_where ends_comment text.now }
    ensures within { result ≤ length text.now }
{
    let mut len: usize = 0;
    while len < text.len() {
        if ends_comment(from(text, len)) {
            return len;
        }
        len += 1;
    }
    len
}

fn is_tag_name_byte(byte: u8) -> bool
    ensures { result ≡ is_tag_name_byte byte }
{
    !(is_blank(byte) || byte == b'/' || byte == b'>')
}

fn tag_name_len(bytes: &[u8]) -> usize
    ensures count { result ≡ prefix_len is_tag_name_byte bytes.now }
    ensures within { result ≤ length bytes.now }
{
    bytes
        .iter()
        .position(|b| !is_tag_name_byte(*b))
        .unwrap_or(bytes.len())
}

/// Whether an end tag of this name stands at the front.
fn ends_raw(word: &[u8], text: &[u8]) -> bool
    ensures { result ≡ ends_raw word.now text.now }
{
    if !text.starts_with(b"</") {
        return false;
    }
    let name = from(text, 2);
    same_word(up_to(name, tag_name_len(name)), word)
}

/// How many bytes of raw text stand before an end tag of this name.
fn raw_len(word: &[u8], text: &[u8]) -> usize
    ensures count { result ≡ before_where (ends_raw word.now) text.now }
    ensures within { result ≤ length text.now }
{
    let mut len: usize = 0;
    while len < text.len() {
        if ends_raw(word, from(text, len)) {
            return len;
        }
        len += 1;
    }
    len
}

/// How many bytes of raw text stand behind a start tag.
fn raw_size(element: Element, text: &[u8]) -> usize
    ensures count { result ≡ raw_size element text.now }
    ensures within { result ≤ length text.now }
{
    if same_element(element, Element::Script) {
        raw_len(b"script", text)
    } else if same_element(element, Element::Style) {
        raw_len(b"style", text)
    } else {
        0
    }
}

/// The start tag at the front, and the raw text behind it.
fn start_tag<'a>(alloc: Global, text: &'a [u8]) -> Result<Tag<'a>, NoMemory>
    requires { 0 < length text.now }
    ensures found { IfOk result (λ tag. start_of tag ≡ start_tag_at text.now) }
    ensures some { IfOk result (λ tag. 0 < tag.size) }
{
    let inner = from(text, 1);
    let len = tag_name_len(inner);
    let kept = attributes(alloc, from(inner, len))?;
    let element = element_of(up_to(inner, len));
    let size = 1 + (len + kept.size + 1);
    let rest = from(text, size);
    let raw = raw_size(element, rest);
    Ok(Tag {
        size: size + raw,
        element,
        attributes: kept.list,
        raw: up_to(rest, raw),
    })
}

/// How many bytes of an end tag stand behind its `</`.
fn end_tag_size(alloc: Global, text: &[u8]) -> Result<usize, NoMemory>
    ensures size { IfOk result (λ size. size ≡ tag_size text.now) }
    ensures within { IfOk result (λ size. size ≤ length text.now + 2) }
{
    let len = tag_name_len(text);
    let kept = attributes(alloc, from(text, len))?;
    Ok(len + kept.size + 1)
}

/// The segment at the front of what is left of a page.
#[tactic(auto, unfolding(link_spec::specs::Segments::segment_at))]
pub fn segment(alloc: Global, text: &[u8]) -> Result<Taken<'_>, NoMemory>
    requires { 0 < length text.now }
    ensures size { IfOk result (λ found. Some found.size ≡ size_at text.now) }
    ensures tag { IfOk result (λ found. Some (tags_in found.tag) ≡ tags_at text.now) }
    ensures some { IfOk result (λ found. 0 < found.size) }
{
    if text.starts_with(b"<!--") {
        return Ok(Taken {
            size: 4 + comment_len(from(text, 4)) + 3,
            tag: None,
        });
    }
    if is_declaration(text) {
        return Ok(Taken {
            size: 2 + first_of(from(text, 2), b'>') + 1,
            tag: None,
        });
    }
    if is_start_tag(text) {
        let tag = start_tag(alloc, text)?;
        return Ok(Taken {
            size: tag.size,
            tag: Some(tag),
        });
    }
    if is_end_tag(text) {
        return Ok(Taken {
            size: 2 + end_tag_size(alloc, from(text, 2))?,
            tag: None,
        });
    }
    Ok(Taken {
        size: text_len(text),
        tag: None,
    })
}
