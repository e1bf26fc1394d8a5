// Records of responses.
ghost use Rattle.std.specs.Prelude.{◌≡◌, ◌≤◌, IfOk};
ghost use Rattle.record_spec.specs.Record.{record_text, response_fields, IsResponseRecord};

use crate::date::date_text;
use crate::digest::digest_of;
use crate::id::record_id;
use crate::record::{Field, record_bytes};
use crawl_kinds::{Digest, MAX_MS, Millis, NoMemory, Uri};
use record_spec::Naming;
use std::alloc::Global;

/// The record of a response, of the values of its fields.
fn response_of<'a>(
    alloc: Global,
    uri: &'a [u8],
    date: &'a [u8],
    digest: &'a [u8],
    block_digest: &'a [u8],
    id: &'a [u8],
    block: &[u8],
) -> Result<Vec<u8>, NoMemory>
    ensures { IfOk result (λ bytes. bytes.items ≡ record_text (response_fields uri.now date.now digest.now block_digest.now id.now) block.now) }
{
    let fields = [
        Field {
            name: b"WARC-Type",
            value: b"response",
        },
        Field {
            name: b"WARC-Target-URI",
            value: uri,
        },
        Field {
            name: b"WARC-Date",
            value: date,
        },
        Field {
            name: b"WARC-Payload-Digest",
            value: digest,
        },
        Field {
            name: b"WARC-Block-Digest",
            value: block_digest,
        },
        Field {
            name: b"WARC-Record-ID",
            value: id,
        },
        Field {
            name: b"Content-Type",
            value: b"application/http; msgtype=response",
        },
    ];
    record_bytes(alloc, &fields, block)
}

/// The record of a response (ISO 28500 §6.3) that is to stand at a place: its block is what a server sent, from the
/// status line on, when it was asked for an address; the fetch began at `start`, in milliseconds since 1970 and at
/// most `MAX_MS`, and `digest` is that of the payload. The SHA-1 of the block is computed here, in one pass, and the
/// block is copied once.
pub fn response_record(
    alloc: Global,
    place: &Naming,
    uri: &Uri,
    start: Millis,
    digest: &Digest,
    block: &[u8],
) -> Result<Vec<u8>, NoMemory>
    requires { start ≤ MAX_MS }
    ensures { IfOk result (λ bytes. IsResponseRecord place.now uri.now start digest.now block.now bytes.items) }
{
    let date = date_text(start);
    let block_digest = digest_of(alloc, block)?;
    let id = record_id(alloc, place, b"response")?;
    response_of(
        alloc,
        uri.as_bytes(),
        &date,
        digest.as_bytes(),
        block_digest.as_bytes(),
        &id,
        block,
    )
}
