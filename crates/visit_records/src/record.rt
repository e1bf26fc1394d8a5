// The record of a response, and what the journal says of it.
ghost use Rattle.std.specs.Prelude.{◌≡◌, ◌≤◌, ◌<◌, ◌+◌, ◌^◌, IfOk, IfSome, IsTrue, Some, is_some, length};
ghost use Rattle.crawl_kinds.specs.Text.{is_text, is_visible};
ghost use Rattle.journal_valid.specs.Ends.{IsBody, IsFetch};
ghost use Rattle.crawl_facts.specs.Pages as pages;
ghost use Rattle.process_chains.specs.Done.{IsReply};
ghost use Rattle.visit_spec.specs.Recorded.{IsBodyAt, IsRecordedAs};

use crawl_kinds::{Body, Copied, Digest, Edge, Fetch, NoMemory, Settings, Spot};
use http_message::Reply;
use process_chains::Processed;
use std::alloc::Global;
use warc_record::{Naming, digest_of, response_record};

/// The last byte of a file that a line of the journal can name.
const MOST_END: u64 = 4_294_967_295;

/// What is to be written of an item into the WARC file, and what the journal says of it: nothing where no whole response came.
#[derive(Drop)]
pub struct Recorded {
    pub body: Option<Body>,
    pub bytes: Vec<u8>,
}

/// Where the next record stands: behind the last cited one, and the first at the front of the first file.
pub fn place_after(edge: Option<Edge>) -> Edge
    ensures { result ≡ pages.place_after edge }
{
    match edge {
        Some(edge) => edge,
        None => Edge { file: 0, end: 0 },
    }
}

/// The spot of a record. No line of the journal names a place behind the first 4 GiB, so a record that would end there counts
/// as want of memory, until files roll over.
fn spot_at(place: Edge, len: u64) -> Result<Spot, NoMemory>
    ensures is { IfOk result (λ spot. spot ≡ pages.spot_at place len) }
    ensures within { IfOk result (λ spot. place.end + len ≤ 4294967295) }
{
    if place.end > MOST_END || len > MOST_END - place.end {
        return Err(NoMemory);
    }
    Ok(Spot {
        file: place.file,
        at: place.end,
        len,
    })
}

/// What the journal says of a response whose payload has this digest, and whose record stands at this spot.
fn body_of(reply: &Reply, digest: Digest, spot: Spot) -> Result<Body, NoMemory>
    ensures is { IfOk result (λ body. body ≡ record { size = length reply.now.block; media = reply.now.media; digest = digest; spot = spot }) }
    ensures media { IsTrue (is_text is_visible 100 reply.now.media) }
    ensures digest { IsTrue (is_text is_visible 37 digest) }
    ensures file { spot.file < 2 ^ 32 }
{
    let _ = reply.media.as_bytes();
    let _ = digest.as_bytes();
    Ok(Body {
        size: reply.block.as_slice().len() as u64,
        media: reply.media.copy()?,
        digest,
        spot,
    })
}

/// The body of a response, and its record.
fn response_at(
    alloc: Global,
    settings: &Settings,
    place: Edge,
    done: &Processed,
    span: Fetch,
    reply: &Reply,
) -> Result<(Body, Vec<u8>), NoMemory>
    requires reply { done.now.reply ≡ Some reply.now }
    requires limit { settings.now.max_response_bytes ≤ 8388608 }
    requires whole { IsReply settings.now.max_response_bytes reply.now }
    requires fetch { done.now.ending.fetch ≡ Some span }
    requires span { IsFetch span }
    ensures is { IfOk result (λ r. IsBodyAt place settings.now done.now.work.item.uri done.now.ending.fetch reply.now r.0 r.1.items) }
    ensures named { IfOk result (λ r. IsBody r.0) }
{
    let naming = Naming {
        job: settings.name.copy()?,
        file: place.file,
        at: place.end,
    };
    let digest = digest_of(alloc, done.payload())?;
    let bytes = response_record(
        alloc,
        &naming,
        &done.work().item.uri,
        span.start,
        &digest,
        done.block(),
    )?;
    let spot = spot_at(place, bytes.len() as u64)?;
    let body = body_of(reply, digest, spot)?;
    Ok((body, bytes))
}

/// What is to be recorded of an item that was processed with these settings, at a place: where a whole response came its
/// record (ISO 28500 §6.3), with the body that a line of the journal can name, and else nothing. It fails for want of memory,
/// as which it counts until files roll over that a record would end behind the first 4 GiB of its file.
pub fn record_of(
    alloc: Global,
    settings: &Settings,
    place: Edge,
    done: &Processed,
) -> Result<Recorded, NoMemory>
    requires settings { done.now.settings ≡ settings.now }
    requires tries { 1 ≤ done.now.work.tries }
    requires limit { settings.now.max_response_bytes ≤ 8388608 }
    ensures is { IfOk result (λ own. IsRecordedAs place done.now done.now.reply own.body own.bytes.items) }
    ensures named { IfOk result (λ own. IfSome own.body IsBody) }
    ensures some { IfOk result (λ own. is_some own.body ≡ is_some done.now.reply) }
{
    let Some(reply) = done.reply() else {
        return Ok(Recorded {
            body: None,
            bytes: Vec::new(alloc),
        });
    };
    // No response comes without a fetch.
    let Some(span) = done.fetch() else {
        unreachable!();
    };
    let (body, bytes) = response_at(alloc, settings, place, done, span, reply)?;
    Ok(Recorded {
        body: Some(body),
        bytes,
    })
}
