// A reader of WARC records (ISO 28500 section 4), by their lengths alone.
use crate::history::{first_line, place};
use crate::reply::{add_line, unusable};
use crate::world::{WARC, World};
use case_file::{Entry, Reply};
use std::alloc::Global;
use std::test::Fail;

/// Where a record is in a file: its head is `from..head`, its block `block..end`, and the next one begins at `next`.
#[derive(Clone, Copy)]
struct Span {
    from: usize,
    head: usize,
    block: usize,
    end: usize,
    next: usize,
}

/// What parts a head from its block, and a record from the next.
const GAP: &[u8] = b"\r\n\r\n";

/// Where the head that begins here ends.
fn head_end(file: &[u8], from: usize) -> Option<usize> {
    for at in from..file.len() {
        if file.get(at..)?.starts_with(GAP) {
            return Some(at);
        }
    }
    None
}

/// The value of a field of a head.
fn field<'a>(head: &'a str, name: &str) -> Option<&'a str> {
    for line in head.split("\r\n") {
        if let Some((own, value)) = line.split_once(": ") {
            if own == name {
                return Some(value);
            }
        }
    }
    None
}

/// The head of a record.
fn head_of(file: &[u8], from: usize, end: usize) -> Option<&str> {
    str::from_utf8(file.get(from..end)?).ok()
}

/// The record that begins here, where there is a whole one.
fn record_at(file: &[u8], from: usize) -> Option<Span> {
    let head = head_end(file, from)?;
    let length = field(head_of(file, from, head)?, "Content-Length")?;
    let length = length.parse::<usize>().ok()?;
    let block = head.checked_add(GAP.len())?;
    let end = block.checked_add(length)?;
    if !file.get(end..)?.starts_with(GAP) {
        return None;
    }
    let next = end.checked_add(GAP.len())?;
    Some(Span {
        from,
        head,
        block,
        end,
        next,
    })
}

/// The records of a file, and whether they are all of it.
#[derive(Drop)]
pub struct Records {
    spans: Vec<Span>,
    pub is_whole: bool,
}

impl Records {
    pub fn len(&self) -> usize {
        self.spans.len()
    }
}

/// Cuts a file into its records.
pub fn records_of(alloc: Global, file: &[u8]) -> Result<Records, Fail> {
    let mut spans = Vec::new(alloc);
    let mut at = 0;
    for _ in 0..file.len() {
        let Some(span) = record_at(file, at) else {
            break;
        };
        at = span.next;
        spans.push(span)?;
    }
    Ok(Records {
        spans,
        is_whole: at == file.len(),
    })
}

/// Puts the line of a record.
fn put_record(lines: &mut Vec<u8>, file: &[u8], span: Span) -> Result<(), Fail> {
    let head = head_of(file, span.from, span.head).unwrap_or("");
    add_line(
        lines,
        field(head, "WARC-Target-URI").unwrap_or("-").as_bytes(),
    )?;
    lines.push(b' ')?;
    lines.extend_from_slice(field(head, "Content-Length").unwrap_or("-").as_bytes())?;
    lines.push(b' ')?;
    lines.extend_from_slice(first_line(file.get(span.block..span.end).unwrap_or(&[])))?;
    Ok(())
}

/// Does `records`. What comes after the last whole record has a line `no record`.
pub fn list_records(world: &World) -> Result<Reply, Fail> {
    let file = world.volume.bytes(WARC);
    let records = records_of(world.alloc, file)?;
    let mut lines = Vec::new(world.alloc);
    for span in &records.spans {
        put_record(&mut lines, file, *span)?;
    }
    if !records.is_whole {
        add_line(&mut lines, b"no record")?;
    }
    Ok(Reply::Said(lines))
}

/// Does `header`.
pub fn header(world: &World, entry: &Entry) -> Result<Reply, Fail> {
    let file = world.volume.bytes(WARC);
    let records = records_of(world.alloc, file)?;
    let Some(span) = records.spans.get(place(entry)) else {
        return Err(unusable(entry, "there is no record of this number"));
    };
    let mut lines = Vec::new(world.alloc);
    for line in head_of(file, span.from, span.head)
        .unwrap_or("")
        .split("\r\n")
    {
        add_line(&mut lines, line.as_bytes())?;
    }
    Ok(Reply::Said(lines))
}
