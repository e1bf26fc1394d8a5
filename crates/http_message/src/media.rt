// Media types (RFC 9110 section 8.3).
ghost use Rattle.std.specs.Prelude.{◌≡◌, ◌≤◌, ◌==◌, length, map, position, codes, All, IfOk, if◌then◌else◌};
ghost use Rattle.std.specs.List.{before_first, after_first};
ghost use Rattle.httparse.specs.Grammar.{trim_ows};
ghost use Rattle.httparse.specs.Spans.{header_bytes, IsHeaderWithin};
ghost use Rattle.page_spec.specs.Fields.{is_media, media_of, media_part};

use crate::fields::{Seen, find_values};
use crate::reading::keep;
use crawl_kinds::{Media, NoMemory};
use httparse::spans::HeaderSpan;
use httparse::{is_space_or_tab, is_token};
use std::alloc::Global;

/// Where the first such byte stands.
fn place_of(bytes: &[u8], stop: u8) -> Option<usize>
    ensures { result ≡ position (λ b. b == stop) bytes.now }
{
    bytes.iter().position(|b| *b == stop)
}

/// What stands before the first such byte, or all.
fn before(bytes: &[u8], stop: u8) -> &[u8]
    ensures { result.now ≡ before_first (λ b. b == stop) bytes.now }
{
    match place_of(bytes, stop) {
        Some(at) => &bytes[..at],
        None => bytes,
    }
}

/// What stands after the first such byte, or nothing.
fn after(bytes: &[u8], stop: u8) -> &[u8]
    ensures { result.now ≡ after_first (λ b. b == stop) bytes.now }
{
    match place_of(bytes, stop) {
        Some(at) => &bytes[at + 1..],
        None => &bytes[bytes.len()..],
    }
}

/// The bytes without spaces and tabs at both ends (RFC 9110 section 5.6.3).
pub fn trim(bytes: &[u8]) -> &[u8]
    ensures { result.now ≡ trim_ows bytes.now }
{
    let mut start = 0;
    let mut end = bytes.len();
    while start < end && is_space_or_tab(bytes[start]) {
        start += 1;
    }
    while start < end && is_space_or_tab(bytes[end - 1]) {
        end -= 1;
    }
    &bytes[start..end]
}

/// Two tokens with `/` between, of at most 100 bytes.
fn is_media(text: &[u8]) -> bool
    ensures { result ≡ is_media text.now }
{
    is_token(before(text, b'/')) && is_token(after(text, b'/')) && text.len() <= 100
}

/// The media type that a value of a Content-Type field names.
pub(crate) fn media_in(alloc: Global, value: &[u8]) -> Result<Media, NoMemory>
    ensures { IfOk result (λ own. own ≡ (if is_media (media_part value.now) then media_part value.now else codes "unknown")) }
{
    let part = trim(before(value, b';')).to_ascii_lowercase(alloc)?;
    if !is_media(part.as_slice()) {
        return keep(alloc, "unknown");
    }
    match std::str::from_utf8(part.as_slice()) {
        Ok(text) => keep(alloc, text),
        Err(_) => unreachable!(),
    }
}

/// The media type of a response: `no-type` where no field names one, `unknown` where it is not in form.
pub(crate) fn media_of(alloc: Global, bytes: &[u8], spans: &[HeaderSpan]) -> Result<Media, NoMemory>
    requires { All (IsHeaderWithin (length bytes.now)) spans.now }
    ensures { IfOk result (λ own. own ≡ media_of (map (header_bytes bytes.now) spans.now)) }
{
    match find_values(bytes, spans, b"content-type") {
        Seen::Absent => keep(alloc, "no-type"),
        Seen::One(span) => media_in(alloc, span.of(bytes)),
        Seen::Several(span) => media_in(alloc, span.of(bytes)),
    }
}
