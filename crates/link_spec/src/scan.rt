// What both kinds of text are read by.
ghost use Rattle.std.specs.Prelude.{◌≡◌, ◌+◌, ◌≤◌, ◌==◌, length, take, drop, IfOk, IfSome, option_map};
ghost use Rattle.std.specs.List.{prefix_len, position_or_len};
ghost use Rattle.link_spec.specs.Words.{is_blank, is_quote, begins, closed_by, quoted, reference, same_word};
ghost use Rattle.link_spec.specs.Reading.{piece_of};

use crate::reference::Ref;
use crawl_kinds::{Listed, NoMemory};
use std::alloc::Global;

/// What is found at the front of a text: how many bytes it takes, and its own text.
#[derive(Clone, Copy)]
pub struct Found<'a> {
    pub size: usize,
    pub text: &'a [u8],
}

/// What follows the first bytes, or nothing where there are fewer.
pub fn from(bytes: &[u8], start: usize) -> &[u8]
    ensures { result.now ≡ drop start bytes.now }
{
    if start < bytes.len() {
        &bytes[start..]
    } else {
        &[]
    }
}

/// The first bytes, or all where there are fewer.
pub fn up_to(bytes: &[u8], end: usize) -> &[u8]
    ensures { result.now ≡ take end bytes.now }
{
    if end < bytes.len() {
        &bytes[..end]
    } else {
        bytes
    }
}

/// The place of the first such byte, or the length.
pub fn first_of(bytes: &[u8], byte: u8) -> usize
    ensures place { result ≡ position_or_len (λ b. b == byte) bytes.now }
    ensures within { result ≤ length bytes.now }
{
    bytes.iter().position(|b| *b == byte).unwrap_or(bytes.len())
}

/// A space, a tab or a line end.
pub fn is_blank(byte: u8) -> bool
    ensures { result ≡ is_blank byte }
{
    matches!(byte, b' ' | b'\t' | b'\n' | 12 | b'\r')
}

pub fn is_quote(byte: u8) -> bool
    ensures { result ≡ is_quote byte }
{
    byte == b'"' || byte == b'\''
}

/// How many blanks stand at the front.
pub fn blanks_len(bytes: &[u8]) -> usize
    ensures count { result ≡ prefix_len is_blank bytes.now }
    ensures within { result ≤ length bytes.now }
{
    bytes
        .iter()
        .position(|b| !is_blank(*b))
        .unwrap_or(bytes.len())
}

/// Whether two words are one, in whatever case.
pub fn same_word(a: &[u8], b: &[u8]) -> bool
    ensures { result ≡ same_word a.now b.now }
{
    a.eq_ignore_ascii_case(b)
}

/// Whether the text begins with a word, in whatever case.
pub fn begins(word: &[u8], text: &[u8]) -> bool
    ensures { result ≡ begins word.now text.now }
{
    up_to(text, word.len()).eq_ignore_ascii_case(word)
}

/// What stands before the first such byte, or all.
pub fn closed_by(text: &[u8], byte: u8) -> Found<'_>
    ensures found { piece_of result ≡ closed_by (λ b. b == byte) text.now }
    ensures within { result.size ≤ length text.now + 1 }
{
    let len = first_of(text, byte);
    Found {
        size: len + 1,
        text: up_to(text, len),
    }
}

/// A text in quotes at the front. One that is not closed runs to the end.
pub fn quoted(text: &[u8]) -> Option<Found<'_>>
    ensures found { option_map piece_of result ≡ quoted text.now }
    ensures within { IfSome result (λ found. found.size ≤ length text.now + 1) }
{
    let (quote, rest) = text.split_first()?;
    if !is_quote(*quote) {
        return None;
    }
    let inner = closed_by(rest, *quote);
    Some(Found {
        size: 1 + inner.size,
        text: inner.text,
    })
}

/// The reference of this letter and text.
pub fn reference(alloc: Global, letter: u8, text: &[u8]) -> Result<Ref, NoMemory>
    ensures { IfOk result (λ own. own ≡ reference letter text.now) }
{
    let text = Listed::from(text.to_vec(alloc)?);
    Ok(Ref { letter, text })
}
