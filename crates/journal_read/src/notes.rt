// The notes on an end.
ghost use Rattle.std.specs.Prelude.{◌≡◌, ◌∷◌, [], ℕ, ◌≤◌, ◌<◌, ◌^◌, pos, unwrap_or};
ghost use Rattle.journal_spec.specs.Fields.{notes_field};
ghost use Rattle.journal_valid.specs.Ends.{IsNotes};
ghost use Rattle.journal_read.specs.Reading.{Finds, MayTake, left};
ghost use Rattle.journal_read.specs.Ends.{cut_note, tries_note, cause_note, IsNoted, IsCause};

use crate::number::number_of;
use crate::parts::{Parts, is_same};
use crawl_kinds::{Cut, Notes};

/// The cut that a note is on.
fn cut_of(note: &[u8]) -> Option<Cut>
    ensures { Finds (λ cut. note.now ≡ cut_note cut) result }
{
    if note == b"trunc:length".as_slice() {
        return Some(Cut::Length);
    }
    if note == b"trunc:disconnect".as_slice() {
        return Some(Cut::Disconnect);
    }
    None
}

/// The try number that a note is on.
fn tries_of(note: &[u8]) -> Option<u32>
    ensures { Finds (λ tries. (note.now ≡ tries_note tries) × IsNoted tries) result }
{
    if !note.starts_with(b"tries:") {
        return None;
    }
    let Some(tries) = number_of(&note[6..], 4_294_967_295) else {
        return None;
    };
    if tries < 2 {
        return None;
    }
    Some(tries as u32)
}

/// The cause that a note is on.
fn cause_of(note: &[u8]) -> Option<i32>
    ensures { Finds (λ cause. (note.now ≡ cause_note cause) × IsCause cause) result }
{
    if is_same(note, b"cause:-2") {
        return Some(-2);
    }
    if is_same(note, b"cause:-3") {
        return Some(-3);
    }
    if is_same(note, b"cause:-4") {
        return Some(-4);
    }
    None
}

/// Takes the note on a cut, where it is the next.
fn take_cut(parts: &mut Parts) -> Option<Cut>
    ensures { MayTake cut_note (λ _. Unit {0}) (left parts.old) (left parts.new) result }
{
    let mut ahead = *parts;
    let Ok(note) = ahead.next() else {
        return None;
    };
    let Some(cut) = cut_of(note) else {
        return None;
    };
    *parts = ahead;
    Some(cut)
}

/// Takes the note on a try number, where it is the next.
fn take_tries(parts: &mut Parts) -> Option<u32>
    ensures { MayTake tries_note IsNoted (left parts.old) (left parts.new) result }
{
    let mut ahead = *parts;
    let Ok(note) = ahead.next() else {
        return None;
    };
    let Some(tries) = tries_of(note) else {
        return None;
    };
    *parts = ahead;
    Some(tries)
}

/// Takes the note on a cause, where it is the next.
fn take_cause(parts: &mut Parts) -> Option<i32>
    ensures { MayTake cause_note IsCause (left parts.old) (left parts.new) result }
{
    let mut ahead = *parts;
    let Ok(note) = ahead.next() else {
        return None;
    };
    let Some(cause) = cause_of(note) else {
        return None;
    };
    *parts = ahead;
    Some(cause)
}

/// The try number, the first where none is noted.
fn tries_or_first(tries: Option<u32>) -> u32
    ensures { result ≡ unwrap_or tries 1 }
{
    match tries {
        Some(tries) => tries,
        None => 1,
    }
}

/// The cause, 0 where none is noted.
fn cause_or_none(cause: Option<i32>) -> i32
    ensures { result ≡ unwrap_or cause (pos 0) }
{
    match cause {
        Some(cause) => cause,
        None => 0,
    }
}

/// The notes that a text spells.
pub fn notes_of(text: &[u8]) -> Option<Notes>
    ensures { Finds (λ notes. (text.now ≡ notes_field notes) × IsNotes notes) result }
{
    if is_same(text, b"-") {
        return Some(Notes {
            cut: None,
            tries: 1,
            cause: 0,
        });
    }
    let mut parts = Parts::of(b',', text);
    let cut = take_cut(&mut parts);
    let tries = take_tries(&mut parts);
    let cause = take_cause(&mut parts);
    match parts.end() {
        Ok(()) => Some(Notes {
            cut,
            tries: tries_or_first(tries),
            cause: cause_or_none(cause),
        }),
        Err(_) => None,
    }
}
