// The fields of an item, of its ticket and of its end, with a space before each.
ghost use Rattle.std.specs.Prelude.{◌≡◌, [], ◌∷◌, ◌++◌, OnOk, OnErr, length, take, unwrap_or};
ghost use Rattle.journal_spec.specs.Fields.{item_fields, ticket_fields, path_field, verdict_field, outcome_tag, fetch_field, body_fields, spot_field, absent};
ghost use Rattle.journal_lines.specs.Written.{spaced};

use crate::write::{write_field, write_number, write_number_field, write_text};
use crawl_kinds::{Body, Fetch, HopPath, Item, Millis, NoMemory, Outcome, Spot, Uri, Verdict};

/// The letter of a verdict.
pub fn letter_of(verdict: Verdict) -> &'static [u8]
    ensures { result.now ≡ verdict_field verdict }
{
    match verdict {
        Verdict::Allowed => b"A",
        Verdict::Precluded => b"P",
        Verdict::Needed => b"N",
        Verdict::Unsupported => b"U",
        Verdict::Unreachable => b"X",
    }
}

/// The tag of a line that ends an item.
pub fn tag_of(outcome: Outcome) -> &'static [u8]
    ensures { result.now ≡ outcome_tag outcome }
{
    match outcome {
        Outcome::Success => b"Fs",
        Outcome::Failure => b"Ff",
        Outcome::Disregard => b"Fd",
        Outcome::Retry => b"Fr",
    }
}

/// The path, or `-` for the empty one.
fn path_text(path: &HopPath) -> &[u8]
    ensures { result.now ≡ path_field path.now }
{
    match path.as_bytes() {
        [] => b"-",
        letters => letters,
    }
}

/// The page that names an item, or `-`.
fn via_text(via: &Option<Uri>) -> &[u8]
    ensures { result.now ≡ unwrap_or via.now absent }
{
    match via {
        None => b"-",
        Some(uri) => uri.as_bytes(),
    }
}

/// Writes the address, the path and the page that names it.
pub fn write_item(item: &Item, into: &mut Vec<u8>) -> Result<(), NoMemory>
    ensures ok { OnOk result (into.new.items ≡ into.old.items ++ spaced (item_fields item.now)) }
    ensures err { OnErr result (take (length into.old.items) into.new.items ≡ into.old.items) }
{
    write_field(item.uri.as_bytes(), into)?;
    write_field(path_text(&item.path), into)?;
    write_field(via_text(&item.via), into)
}

/// Writes the time, the caller and the ticket.
pub fn write_ticket(
    time: Millis,
    caller: u32,
    ticket: u64,
    into: &mut Vec<u8>,
) -> Result<(), NoMemory>
    ensures ok { OnOk result (into.new.items ≡ into.old.items ++ spaced (ticket_fields time caller ticket)) }
    ensures err { OnErr result (take (length into.old.items) into.new.items ≡ into.old.items) }
{
    write_number_field(time, into)?;
    write_number_field(u64::from(caller), into)?;
    write_number_field(ticket, into)
}

/// Writes the start and the duration of a fetch, or `-`.
pub fn write_fetch(fetch: Option<Fetch>, into: &mut Vec<u8>) -> Result<(), NoMemory>
    ensures ok { OnOk result (into.new.items ≡ into.old.items ++ spaced (fetch_field fetch ∷ [])) }
    ensures err { OnErr result (take (length into.old.items) into.new.items ≡ into.old.items) }
{
    let Some(fetch) = fetch else {
        return write_field(b"-", into);
    };
    write_number_field(fetch.start, into)?;
    write_text(b"+", into)?;
    write_number(fetch.duration, into)
}

/// Writes the file, the place and the length of records.
fn write_spot(spot: Spot, into: &mut Vec<u8>) -> Result<(), NoMemory>
    ensures ok { OnOk result (into.new.items ≡ into.old.items ++ spaced (spot_field spot ∷ [])) }
    ensures err { OnErr result (take (length into.old.items) into.new.items ≡ into.old.items) }
{
    write_number_field(u64::from(spot.file), into)?;
    write_text(b":", into)?;
    write_number(spot.at, into)?;
    write_text(b":", into)?;
    write_number(spot.len, into)
}

/// Writes the size, the media type, the digest and the place of what was recorded, or four times `-`.
pub fn write_body(body: &Option<Body>, into: &mut Vec<u8>) -> Result<(), NoMemory>
    ensures ok { OnOk result (into.new.items ≡ into.old.items ++ spaced (body_fields body.now)) }
    ensures err { OnErr result (take (length into.old.items) into.new.items ≡ into.old.items) }
{
    let Some(body) = body else {
        return write_text(b" - - - -", into);
    };
    write_number_field(body.size, into)?;
    write_field(body.media.as_bytes(), into)?;
    write_field(body.digest.as_bytes(), into)?;
    write_spot(body.spot, into)
}
