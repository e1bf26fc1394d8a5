// The pages of a scenario's hosts.
use crate::reply::unusable;
use case_file::{Entry, Reply};
use crawl_memory::{Page, Site};
use std::alloc::Global;
use std::test::Fail;

/// What a port of a host answers to a request for a target.
#[derive(Drop)]
pub struct Answer {
    host: String,
    port: u16,
    target: String,
    bytes: Vec<u8>,
}

/// The pages as a link in memory takes them.
pub fn site_of(alloc: Global, answers: &[Answer]) -> Result<Site, Fail> {
    let mut site = Site::new(alloc);
    for answer in answers {
        site.push(Page::of(
            alloc,
            answer.host.as_str(),
            answer.port,
            answer.target.as_str(),
            &answer.bytes,
        )?)?;
    }
    Ok(site)
}

/// A port of a host.
#[derive(Clone, Copy)]
struct Place<'a> {
    host: &'a str,
    port: u16,
}

/// The port that a word names; 80 where it names none.
fn place_of(word: &str) -> Place<'_> {
    if let Some((host, digits)) = word.rsplit_once(':') {
        if let Ok(port) = digits.parse::<u16>() {
            return Place { host, port };
        }
    }
    Place {
        host: word,
        port: 80,
    }
}

/// The page that an entry names, which answers these bytes.
fn page_of(alloc: Global, entry: &Entry, bytes: Vec<u8>) -> Result<Answer, Fail> {
    let place = place_of(entry.text_word(0));
    let target = entry.text_word(1);
    if place.host.is_empty() || target.is_empty() {
        return Err(unusable(entry, "a page is of a HOST and a TARGET"));
    }
    Ok(Answer {
        host: String::from_str(alloc, place.host)?,
        port: place.port,
        target: String::from_str(alloc, target)?,
        bytes,
    })
}

/// Does `raw`: a page that answers the text.
pub fn add_raw(alloc: Global, pages: &mut Vec<Answer>, entry: &Entry) -> Result<Reply, Fail> {
    let bytes = entry.text.as_slice().to_vec(alloc)?;
    pages.push(page_of(alloc, entry, bytes)?)?;
    Ok(Reply::Ready)
}

/// Does `page`: a page that answers a whole response with the text as its body.
pub fn add_page(alloc: Global, pages: &mut Vec<Answer>, entry: &Entry) -> Result<Reply, Fail> {
    let bytes = response(alloc, entry)?;
    pages.push(page_of(alloc, entry, bytes)?)?;
    Ok(Reply::Ready)
}

/// The response that an entry describes.
fn response(alloc: Global, entry: &Entry) -> Result<Vec<u8>, Fail> {
    let status = entry.number(2).unwrap_or(0);
    let phrase = phrase_of(status);
    if phrase.is_empty() {
        return Err(unusable(
            entry,
            "a page is HOST TARGET STATUS, where the status has a usual phrase",
        ));
    }
    let line = format!(in alloc; "HTTP/1.1 {status} {phrase}\r\n")?;
    let mut bytes = line.into_bytes();
    put_media(&mut bytes, entry.word(3))?;
    put_fields(&mut bytes, entry)?;
    let length = format!(in alloc; "Content-Length: {}\r\n\r\n", entry.text.len())?;
    bytes.extend_from_slice(length.as_bytes())?;
    bytes.extend_from_slice(entry.text.as_slice())?;
    Ok(bytes)
}

/// Puts the field of the media type, where there is one.
fn put_media(bytes: &mut Vec<u8>, media: &[u8]) -> Result<(), Fail> {
    if media.is_empty() || media == b"-".as_slice() {
        return Ok(());
    }
    bytes.extend_from_slice(b"Content-Type: ")?;
    bytes.extend_from_slice(media)?;
    bytes.extend_from_slice(b"\r\n")?;
    Ok(())
}

/// Puts the other fields.
fn put_fields(bytes: &mut Vec<u8>, entry: &Entry) -> Result<(), Fail> {
    for field in entry.words.iter().skip(4) {
        put_field(bytes, field.as_slice())?;
    }
    Ok(())
}

/// Puts a field, `Name:value`, with a space after the first colon.
fn put_field(bytes: &mut Vec<u8>, field: &[u8]) -> Result<(), Fail> {
    let mut is_value = false;
    for byte in field {
        bytes.push(*byte)?;
        if *byte == b':' && !is_value {
            is_value = true;
            bytes.push(b' ')?;
        }
    }
    bytes.extend_from_slice(b"\r\n")?;
    Ok(())
}

/// The usual phrase of a status (RFC 9110 section 15); empty where it has none here.
fn phrase_of(status: u64) -> &'static str {
    match status {
        100..=299 => phrase_of_success(status),
        300..=399 => phrase_of_redirect(status),
        400..=499 => phrase_of_refusal(status),
        _ => phrase_of_failure(status),
    }
}

fn phrase_of_success(status: u64) -> &'static str {
    match status {
        100 => "Continue",
        200 => "OK",
        201 => "Created",
        202 => "Accepted",
        203 => "Non-Authoritative Information",
        204 => "No Content",
        205 => "Reset Content",
        206 => "Partial Content",
        _ => "",
    }
}

fn phrase_of_redirect(status: u64) -> &'static str {
    match status {
        300 => "Multiple Choices",
        301 => "Moved Permanently",
        302 => "Found",
        303 => "See Other",
        304 => "Not Modified",
        307 => "Temporary Redirect",
        308 => "Permanent Redirect",
        _ => "",
    }
}

fn phrase_of_refusal(status: u64) -> &'static str {
    match status {
        400 => "Bad Request",
        401 => "Unauthorized",
        403 => "Forbidden",
        404 => "Not Found",
        405 => "Method Not Allowed",
        406 => "Not Acceptable",
        408 => "Request Timeout",
        410 => "Gone",
        429 => "Too Many Requests",
        451 => "Unavailable For Legal Reasons",
        _ => "",
    }
}

fn phrase_of_failure(status: u64) -> &'static str {
    match status {
        500 => "Internal Server Error",
        501 => "Not Implemented",
        502 => "Bad Gateway",
        503 => "Service Unavailable",
        504 => "Gateway Timeout",
        _ => "",
    }
}
