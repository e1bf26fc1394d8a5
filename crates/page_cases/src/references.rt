// References of pages, style sheets and scripts, and the links of responses.
use case_file::{Entry, Reply};
use extract_spec::Found;
use html_links::html_refs;
use http_message::read_fields;
use link_extract::{extract, header_refs};
use link_spec::Refs;
use plain_links::{css_refs, string_refs};
use std::alloc::Global;
use std::test::Fail;
use uri_form::parse_uri;

/// Puts a line at the end: a letter, a space and a text.
fn push_line(lines: &mut Vec<u8>, letter: u8, text: &[u8]) -> Result<(), Fail> {
    if !lines.is_empty() {
        lines.push(b'\n')?;
    }
    lines.push(letter)?;
    lines.push(b' ')?;
    lines.extend_from_slice(text)?;
    Ok(())
}

/// A line for each reference, behind those that there are.
fn push_refs(lines: &mut Vec<u8>, refs: &Refs) -> Result<(), Fail> {
    for reference in refs.as_slice() {
        push_line(lines, reference.letter, reference.text.as_slice())?;
    }
    Ok(())
}

/// `html`: the references of a page, and before them `= BASE` where it names a base.
pub fn html(alloc: Global, entry: &Entry) -> Result<Reply, Fail> {
    let page = html_refs(alloc, entry.text.as_slice())?;
    let mut lines = Vec::new(alloc);
    if let Some(base) = &page.base {
        push_line(&mut lines, b'=', base.as_slice())?;
    }
    push_refs(&mut lines, &page.refs)?;
    Ok(Reply::Said(lines))
}

/// `css`: the references of a style sheet.
pub fn css(alloc: Global, entry: &Entry) -> Result<Reply, Fail> {
    let mut lines = Vec::new(alloc);
    push_refs(&mut lines, &css_refs(alloc, entry.text.as_slice())?)?;
    Ok(Reply::Said(lines))
}

/// `script`: the references of a script.
pub fn script(alloc: Global, entry: &Entry) -> Result<Reply, Fail> {
    let mut lines = Vec::new(alloc);
    push_refs(&mut lines, &string_refs(alloc, entry.text.as_slice())?)?;
    Ok(Reply::Said(lines))
}

/// `header_refs`: the references of a response's head.
pub fn of_head(alloc: Global, entry: &Entry) -> Result<Reply, Fail> {
    let mut lines = Vec::new(alloc);
    match read_fields(alloc, entry.text.as_slice())? {
        Some(head) => push_refs(&mut lines, &header_refs(alloc, head.status, &head.fields)?)?,
        None => lines.extend_from_slice(b"no head")?,
    }
    Ok(Reply::Said(lines))
}

/// `links ADDRESS`: the links of a response that came from there.
pub fn links(alloc: Global, entry: &Entry) -> Result<Reply, Fail> {
    let uri = parse_uri(alloc, entry.text_word(0))?;
    let found = extract(alloc, &uri, entry.text.as_slice())?;
    let mut lines = Vec::new(alloc);
    for link in found.as_slice() {
        push_line(&mut lines, link.letter, link.uri.as_str().as_bytes())?;
    }
    Ok(Reply::Said(lines))
}

/// How many links there are, the first and the last.
fn ends(alloc: Global, found: &[Found]) -> Result<Reply, Fail> {
    let first = found.first().map_or("none", |link| link.uri.as_str());
    let last = found.last().map_or("none", |link| link.uri.as_str());
    let text = format!(in alloc; "{} {first} {last}", found.len())?;
    Ok(Reply::Said(text.into_bytes()))
}

/// `many_links ADDRESS`: how many links a response has, the first and the last of them.
pub fn many_links(alloc: Global, entry: &Entry) -> Result<Reply, Fail> {
    let uri = parse_uri(alloc, entry.text_word(0))?;
    ends(
        alloc,
        extract(alloc, &uri, entry.text.as_slice())?.as_slice(),
    )
}
