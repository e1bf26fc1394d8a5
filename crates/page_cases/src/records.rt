// WARC records, their dates, digests and ids.
use case_file::{Entry, Reply};
use crawl_kinds::{Digest, Key, MAX_MS, Uri};
use record_spec::Naming;
use std::alloc::Global;
use std::test::Fail;
use warc_record::{date_text, digest_of, record_id, response_record};

/// The place of a record, by three words from this one on: job, file, offset.
fn place_of(alloc: Global, entry: &Entry, from: usize) -> Result<Naming, Fail> {
    Ok(Naming {
        job: Key::new(alloc, entry.text_word(from))?,
        file: entry
            .text_word(from.saturating_add(1))
            .parse::<u32>()
            .unwrap_or(0),
        at: entry.number(from.saturating_add(2)).unwrap_or(0),
    })
}

/// The record of a response at a place: its address is word 3, the start of its fetch word 4, the digest of its payload word 5.
fn record_at(alloc: Global, entry: &Entry, place: &Naming) -> Result<Vec<u8>, Fail> {
    let uri = Uri::new(alloc, entry.text_word(3))?;
    let start = entry.number(4).unwrap_or(0).min(MAX_MS);
    let digest = Digest::new(alloc, entry.text_word(5))?;
    let block = entry.text.as_slice();
    Ok(response_record(alloc, place, &uri, start, &digest, block)?)
}

/// `record JOB FILE OFFSET ADDRESS START DIGEST`: the record of a response.
pub fn record(alloc: Global, entry: &Entry) -> Result<Reply, Fail> {
    let place = place_of(alloc, entry, 0)?;
    Ok(Reply::Said(record_at(alloc, entry, &place)?))
}

/// The block of the first record of a file, found by its Content-Length, and the records after it.
fn split(file: &[u8]) -> Option<(&[u8], &[u8])> {
    let text = str::from_utf8(file).ok()?;
    let (head, _) = text.split_once("\r\n\r\n")?;
    let (_, length) = head.split_once("Content-Length: ")?;
    let length = length.parse::<usize>().ok()?;
    let body = file.get(head.len()..)?.strip_prefix(b"\r\n\r\n")?;
    let others = body.get(length..)?.strip_prefix(b"\r\n\r\n")?;
    Some((body.get(..length)?, others))
}

/// How many records a file has whose block is this one, and how many bytes come after them.
fn blocks_in(file: &[u8], block: &[u8]) -> (usize, usize) {
    let mut left = file;
    let mut count = 0usize;
    for _ in 0..10 {
        match split(left) {
            Some((own, others)) if own == block => {
                count = count.saturating_add(1);
                left = others;
            }
            _ => break,
        }
    }
    (count, left.len())
}

/// `reread ..`, with the words of `record`: the record twice, one behind the other, read again by lengths alone: how many blocks
/// are the text, and how many bytes are left.
pub fn reread(alloc: Global, entry: &Entry) -> Result<Reply, Fail> {
    let mut place = place_of(alloc, entry, 0)?;
    let mut file = record_at(alloc, entry, &place)?;
    place.at = place.at.saturating_add(file.len() as u64);
    file.extend_from_slice(record_at(alloc, entry, &place)?.as_slice())?;
    let (count, left) = blocks_in(file.as_slice(), entry.text.as_slice());
    let text = format!(in alloc; "{count} blocks, {left} left")?;
    Ok(Reply::Said(text.into_bytes()))
}

/// `date MS`: the date of a moment.
pub fn date(alloc: Global, entry: &Entry) -> Result<Reply, Fail> {
    let moment = entry.number(0).ok_or("no moment")?;
    if moment > MAX_MS {
        return Err(Fail::from("too late"));
    }
    Ok(Reply::Said(date_text(moment).to_vec(alloc)?))
}

/// `digest`: the digest of the text.
pub fn digest(alloc: Global, entry: &Entry) -> Result<Reply, Fail> {
    let digest = digest_of(alloc, entry.text.as_slice())?;
    Ok(Reply::Said(digest.as_str().as_bytes().to_vec(alloc)?))
}

/// `id JOB FILE OFFSET KIND`: the id of a record.
pub fn id(alloc: Global, entry: &Entry) -> Result<Reply, Fail> {
    let place = place_of(alloc, entry, 0)?;
    Ok(Reply::Said(record_id(alloc, &place, entry.word(3))?))
}
