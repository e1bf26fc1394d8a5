// What a success recorded.
ghost use Rattle.std.specs.Prelude.{◌≡◌, ◌∷◌, [], ℕ, nat_eq, codes, IsTrue, IfSome};
ghost use Rattle.std.specs.List.{list_all, list_any};
ghost use Rattle.crawl_kinds.specs.Text.{is_text, is_visible};
ghost use Rattle.journal_spec.specs.Fields.{body_fields};
ghost use Rattle.journal_valid.specs.Ends.{IsBody, is_base32, is_digest, is_pair, is_token, is_token_byte, is_type};
ghost use Rattle.journal_read.specs.Reading.{Reads, Takes, left};
ghost use Rattle.journal_read.specs.Ends.{IsBodyOf};

use crate::fault::Misread;
use crate::fetch::spot_of;
use crate::number::number_of;
use crate::parts::{Parts, find, is_same};
use crate::text::text_of;
use crawl_kinds::{Body, Digest, DigestForm, Media, MediaForm};
use std::alloc::Global;

/// One of the marks that a token may hold.
fn is_mark(byte: u8) -> bool
    ensures { result ≡ list_any (nat_eq byte) (codes "!#$%&'*+-.^_`|~") }
{
    b"!#$%&'*+-.^_`|~".iter().any(|mark| byte == *mark)
}

/// A byte of a token, in lower case.
fn is_token_byte(byte: u8) -> bool
    ensures { result ≡ is_token_byte byte }
{
    (b'a' <= byte && byte <= b'z') || (byte.is_ascii_digit() || is_mark(byte))
}

fn are_token_bytes(text: &[u8]) -> bool
    ensures { result ≡ list_all is_token_byte text.now }
{
    text.iter().all(|b| is_token_byte(*b))
}

fn is_token(text: &[u8]) -> bool
    ensures { result ≡ is_token text.now }
{
    text.len() != 0 && are_token_bytes(text)
}

/// Two tokens with `/` between.
fn is_pair(text: &[u8]) -> bool
    ensures { result ≡ is_pair text.now }
{
    match find(text, b'/') {
        Some(at) => is_token(&text[..at]) && is_token(&text[at + 1..]),
        None => false,
    }
}

/// Two tokens with `/` between, or a word for a type that is not known.
fn is_type(text: &[u8]) -> bool
    ensures { result ≡ is_type text.now }
{
    text == b"unknown".as_slice() || (text == b"no-type".as_slice() || is_pair(text))
}

fn is_base32(byte: u8) -> bool
    ensures { result ≡ is_base32 byte }
{
    (b'A' <= byte && byte <= b'Z') || (b'2' <= byte && byte <= b'7')
}

fn are_base32(text: &[u8]) -> bool
    ensures { result ≡ list_all is_base32 text.now }
{
    text.iter().all(|b| is_base32(*b))
}

/// `sha1:` and 32 letters of base32.
fn is_digest(text: &[u8]) -> bool
    ensures { result ≡ is_digest text.now }
{
    if !text.starts_with(b"sha1:") {
        return false;
    }
    if text.len() != 37 {
        return false;
    }
    are_base32(&text[5..])
}

/// The media type that bytes are.
fn media_of(alloc: Global, text: &[u8]) -> Result<Media, Misread>
    ensures { Reads (λ media. (media ≡ text.now) × IsTrue (is_text is_visible 100 text.now) × IsTrue (is_type text.now)) result }
{
    if !is_type(text) {
        return Err(Misread::Bad);
    }
    text_of::<MediaForm>(alloc, text)
}

/// The digest that bytes are.
fn digest_of(alloc: Global, text: &[u8]) -> Result<Digest, Misread>
    ensures { Reads (λ digest. (digest ≡ text.now) × IsTrue (is_text is_visible 37 text.now) × IsTrue (is_digest text.now)) result }
{
    if !is_digest(text) {
        return Err(Misread::Bad);
    }
    text_of::<DigestForm>(alloc, text)
}

/// What was recorded, of four fields.
fn body_of(
    alloc: Global,
    size: &[u8],
    media: &[u8],
    digest: &[u8],
    spot: &[u8],
) -> Result<Body, Misread>
    ensures { Reads (IsBodyOf size.now media.now digest.now spot.now) result }
{
    let Some(size) = number_of(size, 8_388_608) else {
        return Err(Misread::Bad);
    };
    let Some(spot) = spot_of(spot) else {
        return Err(Misread::Bad);
    };
    let media = media_of(alloc, media)?;
    let digest = digest_of(alloc, digest)?;
    Ok(Body {
        size,
        media,
        digest,
        spot,
    })
}

/// Takes four fields: what was recorded, or that nothing was.
pub fn take_body(alloc: Global, parts: &mut Parts) -> Result<Option<Body>, Misread>
    ensures { Takes body_fields (λ body. IfSome body IsBody) (left parts.old) (left parts.new) result }
{
    let size = parts.next()?;
    let media = parts.next()?;
    let digest = parts.next()?;
    let spot = parts.next()?;
    if !is_same(size, b"-") {
        return Ok(Some(body_of(alloc, size, media, digest, spot)?));
    }
    if !is_same(media, b"-") {
        return Err(Misread::Bad);
    }
    if !is_same(digest, b"-") {
        return Err(Misread::Bad);
    }
    if !is_same(spot, b"-") {
        return Err(Misread::Bad);
    }
    Ok(None)
}
