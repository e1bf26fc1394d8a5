// Heads at the front of bytes.
ghost use Rattle.std.specs.Prelude.{◌≡◌, ◌<◌, ◌≤◌, length, take, drop, map, All, Err, IfOk};
ghost use Rattle.httparse.specs.Grammar.{ResponseHead, MayBecomeResponse};
ghost use Rattle.httparse.specs.Spans.{header_bytes, IsHeaderWithin};
ghost use Rattle.http_message.specs.Reading.{IsHeadAt, NeverHead, NoHead};
ghost use Rattle.page_spec.specs.Response.{most_head};

use crate::fields::announced;
use httparse::Status;
use httparse::spans::{EMPTY_HEADER_SPAN, parse_response};

/// The most fields of a head.
pub(crate) const MOST_FIELDS: usize = 256;

/// The most bytes of a head.
pub const MOST_HEAD: usize = 65536;

/// Why no head is read.
#[derive(Clone, Copy, Debug, PartialEq, Eq)]
pub enum HeadFault {
    /// None stands there yet.
    Partial,
    /// None ever will.
    NotHttp,
}

/// A head of a response.
#[derive(Clone, Copy, Debug, PartialEq, Eq)]
pub struct Head {
    /// Its status (RFC 9110 section 15).
    pub status: u16,
    /// Its length in bytes, with the empty line.
    pub len: usize,
    /// How many bytes of body it announces, where it is the head of a page.
    pub body: Option<usize>,
}

/// Reads the head of a response (RFC 9112 sections 2 to 5) at the front of bytes. A head has at most 256 fields and
/// 65,536 bytes. It is `Partial` where bytes may follow that make one, and `NotHttp` where none can.
pub fn read_head(bytes: &[u8]) -> Result<Head, HeadFault>
    ensures ok { IfOk result (λ head. (h : ResponseHead) × IsHeadAt bytes.now head h) }
    ensures none { result ≡ Err HeadFault.Partial → NoHead bytes.now }
    ensures partial { result ≡ Err HeadFault.Partial → MayBecomeResponse bytes.now × (length bytes.now < most_head) }
    ensures not_http { result ≡ Err HeadFault.NotHttp → NeverHead bytes.now }
{
    let mut spans = [EMPTY_HEADER_SPAN; MOST_FIELDS];
    match parse_response(bytes, &mut spans) {
        Ok(Status::Complete(found)) => {
            if found.len > MOST_HEAD {
                return Err(HeadFault::NotHttp);
            }
            Ok(Head {
                status: found.code,
                len: found.len,
                body: announced(found.code, bytes, &spans[..found.headers]),
            })
        }
        Ok(Status::Partial) => {
            if bytes.len() < MOST_HEAD {
                return Err(HeadFault::Partial);
            }
            Err(HeadFault::NotHttp)
        }
        Err(_) => Err(HeadFault::NotHttp),
    }
}
