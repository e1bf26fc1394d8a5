// Ends of items: the fields that suit a code.
ghost use Rattle.std.specs.Prelude.{◌≡◌, IfSome, MatchBool, pos};
ghost use Rattle.std.specs.Ordering.{int_eq};
ghost use Rattle.journal_spec.specs.Fields.{end_fields, outcome_tag};
ghost use Rattle.journal_valid.specs.Ends.{IsBody, IsEnd, IsFetch, IsNotes, is_fetched, is_last_failure, is_status, outcome_of};
ghost use Rattle.journal_read.specs.Reading.{Finds, Takes, left};
ghost use Rattle.journal_read.specs.Ends.{IsEndOf};

use crate::body::take_body;
use crate::fault::Misread;
use crate::fetch::fetch_of;
use crate::notes::notes_of;
use crate::number::code_of;
use crate::parts::Parts;
use crawl_kinds::{Body, End, Fetch, Notes, Outcome};
use std::alloc::Global;

/// The outcome that a tag names.
pub fn tagged_outcome(tag: &[u8]) -> Option<Outcome>
    ensures { Finds (λ outcome. tag.now ≡ outcome_tag outcome) result }
{
    match tag {
        b"Fs" => Some(Outcome::Success),
        b"Ff" => Some(Outcome::Failure),
        b"Fd" => Some(Outcome::Disregard),
        b"Fr" => Some(Outcome::Retry),
        _ => None,
    }
}

/// An HTTP status.
fn is_status(code: i32) -> bool
    ensures { result ≡ is_status code }
{
    0 <= code && code <= 999
}

/// The outcome on whose line alone a code stands.
fn outcome_of(code: i32) -> Option<Outcome>
    ensures { result ≡ outcome_of code }
{
    if is_status(code) {
        return Some(Outcome::Success);
    }
    if code == -2 || code == -3 || code == -4 || code == -50 {
        return Some(Outcome::Retry);
    }
    if code == -7 || code == -8 || code == -61 || code == -404 {
        return Some(Outcome::Failure);
    }
    if code == -9998 {
        return Some(Outcome::Disregard);
    }
    None
}

/// Whether something was fetched where an item ends with this code.
fn is_fetched(code: i32) -> bool
    ensures { result ≡ is_fetched code }
{
    !(code == -7 || code == -50 || code == -61 || code == -9998)
}

/// The last try failed.
fn is_last_failure(code: i32) -> bool
    ensures { result ≡ is_last_failure code }
{
    code == -8
}

/// No cause is noted.
fn is_uncaused(notes: Notes) -> bool
    ensures { result ≡ int_eq notes.cause (pos 0) }
{
    notes.cause == 0
}

/// The code stands on the line of this outcome.
fn has_outcome(code: i32, outcome: Outcome) -> bool
    ensures { MatchBool result (outcome_of code ≡ Some outcome) (outcome_of code ≡ Some outcome → ⊥) }
{
    outcome_of(code) == Some(outcome)
}

/// The end of these, where they suit the outcome and one another.
fn end_of(
    outcome: Outcome,
    code: i32,
    fetch: Option<Fetch>,
    body: Option<Body>,
    notes: Notes,
) -> Option<End>
    requires fetch { IfSome fetch IsFetch }
    requires body { IfSome body IsBody }
    requires notes { IsNotes notes }
    ensures { Finds (λ end. IsEndOf code fetch body notes end × (end.outcome ≡ outcome)) result }
{
    if !has_outcome(code, outcome) {
        return None;
    }
    if fetch.is_some() != is_fetched(code) {
        return None;
    }
    if body.is_some() != is_status(code) {
        return None;
    }
    if is_uncaused(notes) == is_last_failure(code) {
        return None;
    }
    Some(End {
        outcome,
        code,
        fetch,
        body,
        notes,
    })
}

/// Takes the eight fields of an end with this outcome.
pub fn take_end(alloc: Global, outcome: Outcome, parts: &mut Parts) -> Result<End, Misread>
    ensures { Takes end_fields (λ end. IsEnd end × (end.outcome ≡ outcome)) (left parts.old) (left parts.new) result }
{
    let code = parts.next()?;
    let fetch = parts.next()?;
    let body = take_body(alloc, parts)?;
    let notes = parts.next()?;
    let Some(code) = code_of(code) else {
        return Err(Misread::Bad);
    };
    let Some(fetch) = fetch_of(fetch) else {
        return Err(Misread::Bad);
    };
    let Some(notes) = notes_of(notes) else {
        return Err(Misread::Bad);
    };
    match end_of(outcome, code, fetch, body, notes) {
        Some(end) => Ok(end),
        None => Err(Misread::Bad),
    }
}
