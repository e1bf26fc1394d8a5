// The lines of an event.
ghost use Rattle.std.specs.Prelude.{◌≡◌, ◌++◌, OnOk, OnErr, length, take, flat_map};
ghost use Rattle.journal_spec.specs.Journal.{session_line, seeds_line, seed_line, add_line, emit_line, finish_line, spelling};
ghost use Rattle.journal_lines.specs.Written.{spaced};
ghost use Rattle.journal_spec.specs.Fields.{end_fields};

use crate::fields::{letter_of, tag_of, write_body, write_fetch, write_item, write_ticket};
use crate::notes::write_notes;
use crate::write::{write_code, write_field, write_number_field, write_text};
use crawl_kinds::{End, Event, Item, Key, Millis, NoMemory, Uri, Verdict};

fn write_session(time: Millis, job: &Key, format: u32, into: &mut Vec<u8>) -> Result<(), NoMemory>
    ensures ok { OnOk result (into.new.items ≡ into.old.items ++ session_line time job.now format) }
    ensures err { OnErr result (take (length into.old.items) into.new.items ≡ into.old.items) }
{
    write_text(b"S+", into)?;
    write_number_field(time, into)?;
    write_field(job.as_bytes(), into)?;
    write_number_field(u64::from(format), into)?;
    write_text(b"\n", into)
}

fn write_seed(uri: &Uri, into: &mut Vec<u8>) -> Result<(), NoMemory>
    ensures ok { OnOk result (into.new.items ≡ into.old.items ++ seed_line uri.now) }
    ensures err { OnErr result (take (length into.old.items) into.new.items ≡ into.old.items) }
{
    write_text(b"Sd", into)?;
    write_field(uri.as_bytes(), into)?;
    write_text(b"\n", into)
}

fn write_seeds_line(time: Millis, into: &mut Vec<u8>) -> Result<(), NoMemory>
    ensures ok { OnOk result (into.new.items ≡ into.old.items ++ seeds_line time) }
    ensures err { OnErr result (take (length into.old.items) into.new.items ≡ into.old.items) }
{
    write_text(b"S*", into)?;
    write_number_field(time, into)?;
    write_text(b"\n", into)
}

/// Writes a line for each address.
fn write_seeds(list: &[Uri], into: &mut Vec<u8>) -> Result<(), NoMemory>
    ensures ok { OnOk result (into.new.items ≡ into.old.items ++ flat_map seed_line list.now) }
    ensures err { OnErr result (take (length into.old.items) into.new.items ≡ into.old.items) }
{
    for uri in list {
        write_seed(uri, into)?;
    }
    Ok(())
}

fn write_add(item: &Item, into: &mut Vec<u8>) -> Result<(), NoMemory>
    ensures ok { OnOk result (into.new.items ≡ into.old.items ++ add_line item.now) }
    ensures err { OnErr result (take (length into.old.items) into.new.items ≡ into.old.items) }
{
    write_text(b"F+", into)?;
    write_item(item, into)?;
    write_text(b"\n", into)
}

/// Writes a line for each item that is added.
#[tactic(auto, using(crate::proofs::Growth::take_of_longer))]
fn write_adds(adds: &[Item], into: &mut Vec<u8>) -> Result<(), NoMemory>
    ensures ok { OnOk result (into.new.items ≡ into.old.items ++ flat_map add_line adds.now) }
    ensures err { OnErr result (take (length into.old.items) into.new.items ≡ into.old.items) }
{
    for item in adds {
        write_add(item, into)?;
    }
    Ok(())
}

fn write_emit(
    time: Millis,
    caller: u32,
    ticket: u64,
    verdict: Verdict,
    item: &Item,
    into: &mut Vec<u8>,
) -> Result<(), NoMemory>
    ensures ok { OnOk result (into.new.items ≡ into.old.items ++ emit_line time caller ticket verdict item.now) }
    ensures err { OnErr result (take (length into.old.items) into.new.items ≡ into.old.items) }
{
    write_text(b"Fe", into)?;
    write_item(item, into)?;
    write_ticket(time, caller, ticket, into)?;
    write_field(letter_of(verdict), into)?;
    write_text(b"\n", into)
}

/// Writes the code, the fetch, what was recorded and the notes.
fn write_end(end: &End, into: &mut Vec<u8>) -> Result<(), NoMemory>
    ensures ok { OnOk result (into.new.items ≡ into.old.items ++ spaced (end_fields end.now)) }
    ensures err { OnErr result (take (length into.old.items) into.new.items ≡ into.old.items) }
{
    write_text(b" ", into)?;
    write_code(end.code, into)?;
    write_fetch(end.fetch, into)?;
    write_body(&end.body, into)?;
    write_notes(end.notes, into)
}

fn write_finish(
    time: Millis,
    caller: u32,
    ticket: u64,
    item: &Item,
    end: &End,
    into: &mut Vec<u8>,
) -> Result<(), NoMemory>
    ensures ok { OnOk result (into.new.items ≡ into.old.items ++ finish_line time caller ticket item.now end.now) }
    ensures err { OnErr result (take (length into.old.items) into.new.items ≡ into.old.items) }
{
    write_text(tag_of(end.outcome), into)?;
    write_item(item, into)?;
    write_ticket(time, caller, ticket, into)?;
    write_end(end, into)?;
    write_text(b"\n", into)
}

/// Writes the lines of an event. After a failure `into` still begins with what it held.
pub fn write_event(event: &Event, into: &mut Vec<u8>) -> Result<(), NoMemory>
    ensures ok { OnOk result (into.new.items ≡ into.old.items ++ spelling event.now) }
    ensures err { OnErr result (take (length into.old.items) into.new.items ≡ into.old.items) }
{
    match event {
        Event::Session { time, job, format } => write_session(*time, job, *format, into),
        Event::Seeds { time, list, adds } => {
            write_seeds_line(*time, into)?;
            write_seeds(list.as_slice(), into)?;
            write_adds(adds.as_slice(), into)
        }
        Event::Emit {
            time,
            caller,
            ticket,
            verdict,
            item,
        } => write_emit(*time, *caller, *ticket, *verdict, item, into),
        Event::Finish {
            time,
            caller,
            ticket,
            item,
            end,
            adds,
        } => {
            write_finish(*time, *caller, *ticket, item, end, into)?;
            write_adds(adds.as_slice(), into)
        }
    }
}
