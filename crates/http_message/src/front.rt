// Whole responses at the front of bytes.
ghost use Rattle.std.specs.Prelude.{◌≡◌, ◌<◌, ◌≤◌, ℕ, length, drop, IfOk};
ghost use Rattle.httparse.specs.Grammar.{MayBecomeResponse};
ghost use Rattle.http_message.specs.Reading.{Expects};
ghost use Rattle.page_spec.specs.Response.{BeginsWhole, IsReplyOf, IsWhole, NeverWhole, most_head};

use crate::head::{HeadFault, MOST_FIELDS, read_head};
use crate::media::media_of;
use crawl_kinds::{Listed, Media, NoMemory};
use httparse::Status;
use httparse::spans::{EMPTY_HEADER_SPAN, parse_response};
use std::alloc::Global;

/// What the bytes that came so far say of the response.
#[derive(Clone, Copy, Debug, PartialEq, Eq)]
pub enum Front {
    /// With its head it has so many bytes.
    Expects(usize),
    /// It is none of the form that is read, whatever follows.
    Never,
    /// Its head has not come whole.
    Partial,
}

/// What bytes say of the whole response that they begin with. It has at most so many bytes, and is of the narrow form:
/// a status from 200 to 599 but 204 and 304, no Transfer-Encoding, one Content-Length of 1 to 18 digits.
pub fn read_front(bytes: &[u8], limit: u64) -> Front
    ensures expects { (total : ℕ) → result ≡ Front.Expects total → Expects limit bytes.now total }
    ensures never { result ≡ Front.Never → NeverWhole limit bytes.now }
    ensures none { result ≡ Front.Partial → ¬ (BeginsWhole limit bytes.now) }
    ensures partial { result ≡ Front.Partial → MayBecomeResponse bytes.now × (length bytes.now < most_head) }
{
    let head = match read_head(bytes) {
        Ok(head) => head,
        Err(HeadFault::Partial) => return Front::Partial,
        Err(HeadFault::NotHttp) => return Front::Never,
    };
    let Some(body) = head.body else {
        return Front::Never;
    };
    if head.len as u64 > limit || body as u64 > limit - head.len as u64 {
        return Front::Never;
    }
    Front::Expects(head.len + body)
}

/// A whole response.
#[derive(Drop)]
pub struct Reply {
    /// Its status (RFC 9110 section 15).
    pub status: u16,
    /// Its media type, `no-type` or `unknown`.
    pub media: Media,
    /// The length of its head in bytes.
    pub head_len: usize,
    /// All its bytes. The payload stands behind the head.
    pub block: Listed<u8>,
}

/// Reads a whole response. It fails for want of memory alone.
pub fn read_reply(alloc: Global, block: Vec<u8>) -> Result<Reply, NoMemory>
    requires { (limit : ℕ) × IsWhole limit block.items }
    ensures block { IfOk result (λ reply. reply.block ≡ block.items) }
    ensures reply { (limit : ℕ) → IsWhole limit block.items
        → IfOk result (λ reply. IsReplyOf limit block.items reply.status reply.media reply.head_len) }
{
    let mut spans = [EMPTY_HEADER_SPAN; MOST_FIELDS];
    match parse_response(block.as_slice(), &mut spans) {
        Ok(Status::Complete(found)) => {
            let media = media_of(alloc, block.as_slice(), &spans[..found.headers])?;
            Ok(Reply {
                status: found.code,
                media,
                head_len: found.len,
                block: Listed::from(block),
            })
        }
        _ => unreachable!(),
    }
}
