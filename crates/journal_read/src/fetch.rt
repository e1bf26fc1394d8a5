// Times of a fetch, and places of records.
ghost use Rattle.std.specs.Prelude.{◌≡◌, ◌≤◌, ◌<◌, ◌^◌, IfSome};
ghost use Rattle.journal_spec.specs.Fields.{fetch_field, spot_field};
ghost use Rattle.journal_valid.specs.Ends.{IsFetch};
ghost use Rattle.journal_read.specs.Reading.{Finds};
ghost use Rattle.journal_read.specs.Ends.{IsSpot};

use crate::number::number_of;
use crate::parts::cut;
use crawl_kinds::{Fetch, MAX_MS, Spot};

/// The start and the duration that a text spells.
fn times_of(text: &[u8]) -> Option<Fetch>
    ensures { Finds (λ fetch. (text.now ≡ fetch_field (Some fetch)) × IsFetch fetch) result }
{
    let Some((start, duration)) = cut(text, b'+') else {
        return None;
    };
    let Some(start) = number_of(start, MAX_MS) else {
        return None;
    };
    let Some(duration) = number_of(duration, MAX_MS) else {
        return None;
    };
    Some(Fetch { start, duration })
}

/// The fetch that a text spells, or that there was none.
pub fn fetch_of(text: &[u8]) -> Option<Option<Fetch>>
    ensures { Finds (λ fetch. (text.now ≡ fetch_field fetch) × IfSome fetch IsFetch) result }
{
    if text == b"-".as_slice() {
        return Some(None);
    }
    match times_of(text) {
        Some(fetch) => Some(Some(fetch)),
        None => None,
    }
}

/// The place of records that a text spells.
pub fn spot_of(text: &[u8]) -> Option<Spot>
    ensures { Finds (λ spot. (text.now ≡ spot_field spot) × IsSpot spot) result }
{
    let Some((file, rest)) = cut(text, b':') else {
        return None;
    };
    let Some((at, len)) = cut(rest, b':') else {
        return None;
    };
    let Some(file) = number_of(file, 4_294_967_295) else {
        return None;
    };
    let Some(at) = number_of(at, 4_294_967_295) else {
        return None;
    };
    let Some(len) = number_of(len, 4_294_967_295) else {
        return None;
    };
    let file = file as u32;
    Some(Spot { file, at, len })
}
