//! `links READER FRONT UNIT BYTES ROUNDS`: a text of so many bytes, a front and then one unit again and again, is read so many
//! times over. `html`, `css` and `script` read references, and `page` the links of a response with this text as its HTML. Counts
//! the references or links.
ghost use Rattle.crawl_kinds.specs.Address.{IsUri};

use crate::shared::{count, word};
use crawl_kinds::{NoMemory, Uri};
use html_links::html_refs;
use link_extract::extract;
use plain_links::{css_refs, string_refs};
use std::alloc::{AllocError, Global};
use std::test::Fail;
use uri_form::parse_uri;

/// Where the page is.
const ADDRESS: &str = "http://bench.test/d/page";

/// The head of the page.
const HEAD: &[u8] = b"HTTP/1.1 200 OK\r\nContent-Type: text/html\r\n\r\n";

/// What reads the text.
#[derive(Clone, Copy)]
enum Reader {
    Html,
    Css,
    Script,
    Page,
}

fn reader_of(word: &str) -> Option<Reader> {
    match word {
        "html" => Some(Reader::Html),
        "css" => Some(Reader::Css),
        "script" => Some(Reader::Script),
        "page" => Some(Reader::Page),
        _ => None,
    }
}

/// What stands before the text for a reader.
fn head_of(reader: Reader) -> &'static [u8] {
    match reader {
        Reader::Page => HEAD,
        _ => b"",
    }
}

/// Puts so many bytes at the end: a front, and then a unit again and again.
fn push_text(out: &mut Vec<u8>, front: &[u8], unit: &[u8], size: usize) -> Result<(), AllocError> {
    out.extend_from_slice(front)?;
    if unit.is_empty() {
        return Ok(());
    }
    for i in front.len()..size {
        out.push(unit[(i - front.len()) % unit.len()])?;
    }
    Ok(())
}

/// How many references or links there are.
fn found(alloc: Global, reader: Reader, uri: &Uri, text: &[u8]) -> Result<usize, NoMemory>
    requires { IsUri uri.now }
{
    match reader {
        Reader::Html => Ok(html_refs(alloc, text)?.refs.as_slice().len()),
        Reader::Css => Ok(css_refs(alloc, text)?.as_slice().len()),
        Reader::Script => Ok(string_refs(alloc, text)?.as_slice().len()),
        Reader::Page => Ok(extract(alloc, uri, text)?.as_slice().len()),
    }
}

/// The text that the words say, for a reader.
fn text_of(alloc: Global, reader: Reader, words: &[String]) -> Result<Vec<u8>, Fail> {
    let mut text = Vec::from_slice(alloc, head_of(reader))?;
    let front = word(words, 2).as_bytes();
    let unit = word(words, 3).as_bytes();
    push_text(&mut text, front, unit, count(words, 4)? as usize)?;
    Ok(text)
}

/// How many references or links are found in all, in so many rounds.
fn total(alloc: Global, reader: Reader, text: &[u8], rounds: u64) -> Result<usize, Fail> {
    let uri = parse_uri(alloc, ADDRESS)?;
    let mut total = 0usize;
    for _ in 0..rounds {
        total = total.wrapping_add(found(alloc, reader, &uri, text)?);
    }
    Ok(total)
}

pub fn bench(alloc: Global, words: &[String]) -> Result<String, Fail> {
    let Some(reader) = reader_of(word(words, 1)) else {
        return Err(Fail::new("html, css, script or page"));
    };
    let text = text_of(alloc, reader, words)?;
    let total = total(alloc, reader, text.as_slice(), count(words, 5)?)?;
    Ok(format!(in alloc; "{total}\n")?)
}
