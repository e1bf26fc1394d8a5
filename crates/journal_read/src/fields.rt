// The fields of an item and of its ticket.
ghost use Rattle.std.specs.Prelude.{◌≡◌, ◌≤◌, ◌∷◌, [], IfSome, IsTrue, decimal, unwrap_or};
ghost use Rattle.crawl_kinds.specs.Text.{is_text, is_hop};
ghost use Rattle.journal_spec.specs.Fields.{absent, item_fields, path_field, ticket_fields, verdict_field};
ghost use Rattle.journal_valid.specs.Items.{IsAddress, IsItem};
ghost use Rattle.journal_valid.specs.Valid.{IsTicket};
ghost use Rattle.journal_read.specs.Reading.{Finds, Reads, Takes, left};

use crate::fault::Misread;
use crate::item::item_of;
use crate::number::number_of;
use crate::parts::{Parts, is_same};
use crate::recent::Recent;
use crate::text::{address_of, named_of, text_of};
use crawl_kinds::{Copied, HopPath, Item, MAX_MS, Millis, PathForm, Uri, Verdict};
use std::alloc::Global;

/// The path that a text spells, which may be empty.
fn path_of(alloc: Global, text: &[u8]) -> Result<HopPath, Misread>
    ensures { Reads (λ path. (text.now ≡ path_field path) × IsTrue (is_text is_hop 250 path)) result }
{
    if is_same(text, b"-") {
        return text_of::<PathForm>(alloc, b"");
    }
    if text.is_empty() {
        return Err(Misread::Bad);
    }
    text_of::<PathForm>(alloc, text)
}

/// The address that a text is, which is often that of the page.
fn address_on(alloc: Global, recent: &mut Recent, text: &[u8]) -> Result<Uri, Misread>
    ensures { Reads (λ uri. (uri ≡ text.now) × IsAddress text.now) result }
{
    if let Some(page) = &recent.page {
        let uri = page.uri();
        if is_same(uri.as_bytes(), text) {
            return Ok(uri.copy()?);
        }
    }
    address_of(alloc, &mut recent.hosts, text)
}

/// The address of the page that names an item, or that there is none.
fn via_of(alloc: Global, recent: &mut Recent, text: &[u8]) -> Result<Option<Uri>, Misread>
    ensures { Reads (λ via. (text.now ≡ unwrap_or via absent) × IfSome via IsAddress) result }
{
    if is_same(text, b"-") {
        return Ok(None);
    }
    Ok(Some(address_on(alloc, recent, text)?))
}

/// Takes the three fields of an item. Its host is often a known one, and its via the page.
pub fn take_item(alloc: Global, recent: &mut Recent, parts: &mut Parts) -> Result<Item, Misread>
    ensures { Takes item_fields IsItem (left parts.old) (left parts.new) result }
{
    let uri = parts.next()?;
    let path = parts.next()?;
    let via = parts.next()?;
    let named = named_of(alloc, &mut recent.hosts, uri)?;
    let path = path_of(alloc, path)?;
    let via = via_of(alloc, recent, via)?;
    item_of(alloc, named, path, via)
}

/// When an item was handed out or came to its end, to which caller, and under which ticket.
#[derive(Clone, Copy)]
pub struct Ticket {
    pub time: Millis,
    pub caller: u32,
    pub ticket: u64,
}

/// Takes a time.
pub fn take_time(parts: &mut Parts) -> Result<Millis, Misread>
    ensures { Takes (λ time. decimal time ∷ []) (λ time. time ≤ MAX_MS) (left parts.old) (left parts.new) result }
{
    match number_of(parts.next()?, MAX_MS) {
        Some(time) => Ok(time),
        None => Err(Misread::Bad),
    }
}

/// Takes the three fields of a ticket.
pub fn take_ticket(parts: &mut Parts) -> Result<Ticket, Misread>
    ensures { Takes (λ t. ticket_fields t.time t.caller t.ticket) (λ t. IsTicket t.time t.caller t.ticket)
        (left parts.old) (left parts.new) result }
{
    let time = take_time(parts)?;
    let Some(caller) = number_of(parts.next()?, 31) else {
        return Err(Misread::Bad);
    };
    let Some(ticket) = number_of(parts.next()?, 18_446_744_073_709_551_615) else {
        return Err(Misread::Bad);
    };
    let caller = caller as u32;
    Ok(Ticket {
        time,
        caller,
        ticket,
    })
}

/// The verdict that a text spells.
pub fn verdict_of(text: &[u8]) -> Option<Verdict>
    ensures { Finds (λ verdict. text.now ≡ verdict_field verdict) result }
{
    match text {
        b"A" => Some(Verdict::Allowed),
        b"P" => Some(Verdict::Precluded),
        b"N" => Some(Verdict::Needed),
        b"U" => Some(Verdict::Unsupported),
        b"X" => Some(Verdict::Unreachable),
        _ => None,
    }
}
