// Heads of responses.
use case_file::{Entry, Reply};
use http_message::{
    Front, HeadFault, field_values, media_type, read_fields, read_front, read_head,
};
use std::alloc::Global;
use std::test::Fail;

/// The greatest response that a job allows by default, in bytes.
const LIMIT: u64 = 8_388_608;

/// A text as an answer.
fn said(alloc: Global, text: &str) -> Result<Reply, Fail> {
    Ok(Reply::Said(text.as_bytes().to_vec(alloc)?))
}

/// `front [LIMIT]`: how many bytes the whole response at the front has, or whether one may still come.
pub fn front(alloc: Global, entry: &Entry) -> Result<Reply, Fail> {
    let limit = entry.number(0).unwrap_or(LIMIT);
    match read_front(entry.text.as_slice(), limit) {
        Front::Expects(size) => said(alloc, format!(in alloc; "expects {size}")?.as_str()),
        Front::Partial => said(alloc, "partial"),
        Front::Never => said(alloc, "never"),
    }
}

/// `read_head`: the length of the head at the front, or why there is none.
pub fn found(alloc: Global, entry: &Entry) -> Result<Reply, Fail> {
    match read_head(entry.text.as_slice()) {
        Ok(head) => said(alloc, format!(in alloc; "{} bytes", head.len)?.as_str()),
        Err(HeadFault::NotHttp) => said(alloc, "not http"),
        Err(_) => said(alloc, "partial"),
    }
}

/// `head`: the status of a head, its length in bytes, how many fields it has and its media type.
pub fn head(alloc: Global, entry: &Entry) -> Result<Reply, Fail> {
    let Some(head) = read_fields(alloc, entry.text.as_slice())? else {
        return said(alloc, "no head");
    };
    let count = head.fields.as_slice().len();
    let media = media_type(alloc, &head.fields)?;
    let (status, len) = (head.status, head.len);
    said(
        alloc,
        format!(in alloc; "{status} {len} {count} {}", media.as_str())?.as_str(),
    )
}

/// `field NAME`: the values of a field, a line each.
pub fn field(alloc: Global, entry: &Entry) -> Result<Reply, Fail> {
    let Some(head) = read_fields(alloc, entry.text.as_slice())? else {
        return said(alloc, "no head");
    };
    let values = field_values(alloc, &head.fields, entry.word(0))?;
    let mut lines = Vec::new(alloc);
    for value in values.as_slice() {
        lines.push(b'<')?;
        lines.extend_from_slice(value.as_slice())?;
        lines.extend_from_slice(b">")?;
    }
    Ok(Reply::Said(lines))
}

/// `media`: the media type of a response whose field Content-Type has the text as its value.
pub fn media(alloc: Global, entry: &Entry) -> Result<Reply, Fail> {
    let mut block = b"HTTP/1.1 200 OK\r\nContent-Type: ".to_vec(alloc)?;
    block.extend_from_slice(entry.text.as_slice())?;
    block.extend_from_slice(b"\r\n\r\n")?;
    let Some(head) = read_fields(alloc, block.as_slice())? else {
        return said(alloc, "no head");
    };
    said(alloc, media_type(alloc, &head.fields)?.as_str())
}
