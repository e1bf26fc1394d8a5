// What stands behind the tag of a line, read.
ghost use Rattle.std.specs.Prelude.{◌≡◌, ◌≢◌, ◌∷◌, ◌++◌, [], ◌≤◌, IsTrue, codes, decimal, length};
ghost use Rattle.crawl_kinds.specs.Text.{is_text, is_visible};
ghost use Rattle.crawl_kinds.specs.declared.event.TheConstants.{MAX_MS};
ghost use Rattle.journal_spec.specs.Fields.{item_fields, end_fields, outcome_tag, ticket_fields, verdict_field};
ghost use Rattle.journal_valid.specs.Ends.{IsEnd};
ghost use Rattle.journal_valid.specs.Items.{IsAdd, IsAddress, IsItem};
ghost use Rattle.journal_valid.specs.Valid.{IsSession, IsTicket};
ghost use Rattle.journal_read.specs.Lines.{IsTagged, rest_of};
ghost use Rattle.journal_read.specs.Reading.{Takes, Reads, left};

use crate::end::{tagged_outcome, take_end};
use crate::fault::Misread;
use crate::fields::{Ticket, take_item, take_ticket, take_time, verdict_of};
use crate::item::robots_redirects;
use crate::line::Line;
use crate::number::number_of;
use crate::parts::Parts;
use crate::recent::Recent;
use crate::text::{address_of, text_of};
use crawl_kinds::{End, Item, Key, KeyForm, Millis, Outcome, Uri, Verdict};
use std::alloc::Global;

/// The fields behind the tag of a session's line.
struct Opening {
    time: Millis,
    job: Key,
    format: u32,
}

/// The name of a job.
fn job_of(alloc: Global, text: &[u8]) -> Result<Key, Misread>
    ensures { Reads (λ job. (job ≡ text.now) × (1 ≤ length job) × IsTrue (is_text is_visible 2200 job)) result }
{
    if text.is_empty() {
        return Err(Misread::Bad);
    }
    text_of::<KeyForm>(alloc, text)
}

/// Takes the time, the name of the job and the number of the format.
fn take_opening(alloc: Global, parts: &mut Parts) -> Result<Opening, Misread>
    ensures { Takes (λ o. decimal o.time ∷ o.job ∷ decimal o.format ∷ []) (λ o. (o.time ≤ MAX_MS) × IsSession o.job o.format)
        (left parts.old) (left parts.new) result }
{
    let time = take_time(parts)?;
    let job = parts.next()?;
    let Some(format) = number_of(parts.next()?, 4_294_967_295) else {
        return Err(Misread::Bad);
    };
    let job = job_of(alloc, job)?;
    let format = format as u32;
    Ok(Opening { time, job, format })
}

/// Reads what stands behind `S+`.
fn session_line(alloc: Global, parts: &mut Parts) -> Result<Line, Misread>
    ensures { Takes rest_of (IsTagged (codes "S+")) (left parts.old) (left parts.new) result }
{
    match take_opening(alloc, parts) {
        Ok(Opening { time, job, format }) => Ok(Line::Session { time, job, format }),
        Err(fault) => Err(fault),
    }
}

/// Reads what stands behind `S*`.
fn seeds_line(parts: &mut Parts) -> Result<Line, Misread>
    ensures { Takes rest_of (IsTagged (codes "S*")) (left parts.old) (left parts.new) result }
{
    match take_time(parts) {
        Ok(time) => Ok(Line::Seeds { time }),
        Err(fault) => Err(fault),
    }
}

/// Takes an address.
fn take_address(alloc: Global, recent: &mut Recent, parts: &mut Parts) -> Result<Uri, Misread>
    ensures { Takes (λ uri. uri ∷ []) IsAddress (left parts.old) (left parts.new) result }
{
    address_of(alloc, &mut recent.hosts, parts.next()?)
}

/// Reads what stands behind `Sd`.
fn seed_line(alloc: Global, recent: &mut Recent, parts: &mut Parts) -> Result<Line, Misread>
    ensures { Takes rest_of (IsTagged (codes "Sd")) (left parts.old) (left parts.new) result }
{
    match take_address(alloc, recent, parts) {
        Ok(uri) => Ok(Line::Seed { uri }),
        Err(fault) => Err(fault),
    }
}

/// Takes an item that may be added: a robots file is redirected at most five times.
pub fn take_add(alloc: Global, recent: &mut Recent, parts: &mut Parts) -> Result<Item, Misread>
    ensures { Takes item_fields IsAdd (left parts.old) (left parts.new) result }
{
    let item = take_item(alloc, recent, parts)?;
    if let Some(redirects) = robots_redirects(item.path.as_bytes()) {
        if 5 < redirects {
            return Err(Misread::Bad);
        }
    }
    Ok(item)
}

/// The fields behind the tag of an item that was handed out.
struct Emission {
    item: Item,
    ticket: Ticket,
    verdict: Verdict,
}

/// Takes the item, the ticket and the verdict.
fn take_emission(alloc: Global, recent: &mut Recent, parts: &mut Parts) -> Result<Emission, Misread>
    ensures { Takes (λ e. item_fields e.item ++ ticket_fields e.ticket.time e.ticket.caller e.ticket.ticket ++ verdict_field e.verdict ∷ [])
        (λ e. IsTicket e.ticket.time e.ticket.caller e.ticket.ticket × IsItem e.item)
        (left parts.old) (left parts.new) result }
{
    let item = take_item(alloc, recent, parts)?;
    let ticket = take_ticket(parts)?;
    match verdict_of(parts.next()?) {
        Some(verdict) => Ok(Emission {
            item,
            ticket,
            verdict,
        }),
        None => Err(Misread::Bad),
    }
}

/// Reads what stands behind `Fe`.
fn emit_line(alloc: Global, recent: &mut Recent, parts: &mut Parts) -> Result<Line, Misread>
    ensures { Takes rest_of (IsTagged (codes "Fe")) (left parts.old) (left parts.new) result }
{
    match take_emission(alloc, recent, parts) {
        Ok(
            Emission {
                item,
                ticket: Ticket {
                    time,
                    caller,
                    ticket,
                },
                verdict,
            },
        ) => Ok(Line::Emit {
            time,
            caller,
            ticket,
            verdict,
            item,
        }),
        Err(fault) => Err(fault),
    }
}

/// The fields behind the tag of an item that came to its end.
struct Finishing {
    item: Item,
    ticket: Ticket,
    end: End,
}

/// Takes the item, the ticket and the end.
fn take_finishing(
    alloc: Global,
    recent: &mut Recent,
    outcome: Outcome,
    parts: &mut Parts,
) -> Result<Finishing, Misread>
    ensures { Takes (λ f. item_fields f.item ++ ticket_fields f.ticket.time f.ticket.caller f.ticket.ticket ++ end_fields f.end)
        (λ f. IsTicket f.ticket.time f.ticket.caller f.ticket.ticket × IsItem f.item × IsEnd f.end × (f.end.outcome ≡ outcome))
        (left parts.old) (left parts.new) result }
{
    let item = take_item(alloc, recent, parts)?;
    let ticket = take_ticket(parts)?;
    let end = take_end(alloc, outcome, parts)?;
    Ok(Finishing { item, ticket, end })
}

/// Reads what stands behind the tag of an outcome.
fn finish_line(
    alloc: Global,
    recent: &mut Recent,
    outcome: Outcome,
    parts: &mut Parts,
) -> Result<Line, Misread>
    ensures { Takes rest_of (IsTagged (outcome_tag outcome)) (left parts.old) (left parts.new) result }
{
    match take_finishing(alloc, recent, outcome, parts) {
        Ok(
            Finishing {
                item,
                ticket: Ticket {
                    time,
                    caller,
                    ticket,
                },
                end,
            },
        ) => Ok(Line::Finish {
            time,
            caller,
            ticket,
            item,
            end,
        }),
        Err(fault) => Err(fault),
    }
}

/// Reads what stands behind a tag other than that of an added item.
pub fn tagged_line(
    alloc: Global,
    recent: &mut Recent,
    tag: &[u8],
    parts: &mut Parts,
) -> Result<Line, Misread>
    requires { tag.now ≢ codes "F+" }
    ensures { Takes rest_of (IsTagged tag.now) (left parts.old) (left parts.new) result }
{
    match tag {
        b"S+" => session_line(alloc, parts),
        b"S*" => seeds_line(parts),
        b"Sd" => seed_line(alloc, recent, parts),
        b"Fe" => emit_line(alloc, recent, parts),
        _ => match tagged_outcome(tag) {
            Some(outcome) => finish_line(alloc, recent, outcome, parts),
            None => Err(Misread::Bad),
        },
    }
}
