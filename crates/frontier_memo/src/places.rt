// What is known of keys, changed by adds and ends: whole, or not at all for want of memory.
ghost use Rattle.std.specs.Prelude.{◌≡◌, ◌+◌, ◌<◌, ◌^◌, ℕ, ℤ, List, map, length, OnOk, OnErr, IfOk, Option, Some, None, true, false, not, ◌&&◌, [], option_map, if◌then◌else◌};
ghost use Rattle.std.specs.List.{list_any};
ghost use Rattle.std.specs.Ordering.{int_eq};
ghost use Rattle.crawl_history.specs.Codes.{robots_needed};
ghost use Rattle.crawl_history.specs.Outcomes.{is_retry};
ghost use Rattle.crawl_history.specs.Places.{has_key};
ghost use Rattle.frontier_memo.specs.Keeping.{known_at, waits_by, code_by, added_by, after_adds, after_finish, are_free, tried};
ghost use Rattle.frontier_memo.specs.Undoing.{undone, undone_all};
ghost use Rattle.frontier_memo.specs.declared.known.Known as known_type;

use crate::classes::overwrite;
use crate::known::{Known, Waiting, code_at, waits};
use crawl_kinds::{Copied, End, Item, Key, NoMemory, Outcome};
use std::alloc::{AllocError, Global};
use std::collections::BTreeMap;

/// The code of an end that says that the robots file is needed first.
const ROBOTS_NEEDED: i32 = -50;

/// Puts one item among those that wait.
fn add(places: &mut BTreeMap<Key, Known>, item: &Item, ordinal: u64) -> Result<(), NoMemory>
    ensures ok { OnOk result ((key : List ℕ) → known_at places.new key
        ≡ (if has_key key item.now then Some (added_by (record { ordinal = ordinal; item = item.now })) else known_at places.old key)) }
    ensures err { OnErr result ((key : List ℕ) → known_at places.new key ≡ known_at places.old key) }
{
    let anew = Waiting {
        item: item.copy()?,
        ordinal,
        tries: 0,
    };
    places.insert(item.key.copy()?, Known::Waits(anew))?;
    Ok(())
}

/// Takes one add back: the key is done with this code again, or nothing is known of it.
fn undo(places: &mut BTreeMap<Key, Known>, item: &Item, code: Option<i32>)
    ensures { (key : List ℕ) → known_at places.new key ≡ undone item.now code key (known_at places.old key) }
{
    match code {
        None => {
            places.remove(&item.key);
        }
        Some(code) => {
            overwrite(places, &item.key, Known::Done(code));
        }
    }
}

/// Takes adds back. Each key is done again with the code of its item, or nothing is known of it.
fn undo_all(places: &mut BTreeMap<Key, Known>, items: &[Item], codes: &[Option<i32>])
    requires { length codes.now ≡ length items.now }
    ensures { (kept : List ℕ → Option known_type.Known) → codes.now ≡ map (λ i. code_by (kept i.key)) items.now
        → (key : List ℕ) → known_at places.new key ≡ undone_all items.now (code_by (kept key)) key (known_at places.old key) }
{
    for (at, item) in items.iter().enumerate() {
        let code = codes[at];
        undo(places, item, code);
    }
}

/// The code of each key that is done.
fn codes_at(
    alloc: Global,
    places: &BTreeMap<Key, Known>,
    items: &[Item],
) -> Result<Vec<Option<i32>>, AllocError>
    ensures { IfOk result (λ codes. codes.items ≡ map (λ i. code_by (known_at places.now i.key)) items.now) }
{
    items
        .iter()
        .map(|item| code_at(places, &item.key))
        .collect(alloc)
}

/// Puts items among those that wait, with the ordinals behind `ordinals`, unless the key of one of them waits when its
/// turn comes. For want of memory all is known as before.
pub fn add_each(
    alloc: Global,
    places: &mut BTreeMap<Key, Known>,
    items: &[Item],
    ordinals: u64,
) -> Result<bool, NoMemory>
    requires { ordinals + length items.now < 2 ^ 64 }
    ensures free { IfOk result (λ all. all ≡ are_free (λ key. waits_by (known_at places.old key)) [] items.now) }
    ensures added { IfOk result (λ all. all ≡ true → (key : List ℕ) → known_at places.new key
        ≡ after_adds ordinals items.now key (known_at places.old key)) }
    ensures err { OnErr result ((key : List ℕ) → known_at places.new key ≡ known_at places.old key) }
{
    let codes = codes_at(alloc, places, items)?;
    for (at, item) in items.iter().enumerate() {
        if waits(places, &item.key) {
            return Ok(false);
        }
        if let Err(stop) = add(places, item, ordinals + 1 + at as u64) {
            undo_all(places, &items[..at], &codes[..at]);
            return Err(stop);
        }
    }
    Ok(true)
}

/// Whether an item is to be tried again.
fn is_retry(outcome: Outcome) -> bool
    ensures { result ≡ is_retry outcome }
{
    match outcome {
        Outcome::Success => false,
        Outcome::Failure => false,
        Outcome::Disregard => false,
        Outcome::Retry => true,
    }
}

/// Counts a try of what waits, unless its robots file was needed first.
fn count_try(known: &mut Known, end: &End)
    ensures { known.new ≡ tried end.now known.old }
{
    if end.code == ROBOTS_NEEDED {
        return;
    }
    if let Known::Waits(own) = known {
        own.tries = own.tries.saturating_add(1);
    }
}

/// Counts a try of a key.
fn try_again(places: &mut BTreeMap<Key, Known>, item: &Item, end: &End)
    requires { is_retry end.now.outcome ≡ true }
    ensures { (key : List ℕ) → known_at places.new key ≡ after_finish item.now end.now key (known_at places.old key) }
{
    let Some(known) = places.get_mut(&item.key) else {
        return;
    };
    count_try(known, end);
}

/// Makes a key done, and then adds items; a key of which nothing is known is left alone.
fn done_and_add(
    alloc: Global,
    places: &mut BTreeMap<Key, Known>,
    item: &Item,
    end: &End,
    adds: &[Item],
    ordinals: u64,
) -> Result<bool, NoMemory>
    requires room { ordinals + length adds.now < 2 ^ 64 }
    requires last { is_retry end.now.outcome ≡ false }
    ensures free { IfOk result (λ all. all
        ≡ are_free (λ key. waits_by (after_finish item.now end.now key (known_at places.old key))) [] adds.now) }
    ensures added { IfOk result (λ all. all ≡ true → (key : List ℕ) → known_at places.new key
        ≡ after_adds ordinals adds.now key (after_finish item.now end.now key (known_at places.old key))) }
    ensures err { OnErr result ((key : List ℕ) → known_at places.new key ≡ known_at places.old key) }
{
    let before = overwrite(places, &item.key, Known::Done(end.code));
    match add_each(alloc, places, adds, ordinals) {
        Ok(free) => Ok(free),
        Err(stop) => {
            if let Some(known) = before {
                overwrite(places, &item.key, known);
            }
            Err(stop)
        }
    }
}

/// Adds items, and then counts a try of a key that waits.
fn add_and_try(
    alloc: Global,
    places: &mut BTreeMap<Key, Known>,
    item: &Item,
    end: &End,
    adds: &[Item],
    ordinals: u64,
) -> Result<bool, NoMemory>
    requires room { ordinals + length adds.now < 2 ^ 64 }
    requires waits { waits_by (known_at places.old item.now.key) ≡ true }
    requires again { is_retry end.now.outcome ≡ true }
    ensures free { IfOk result (λ all. all
        ≡ are_free (λ key. waits_by (after_finish item.now end.now key (known_at places.old key))) [] adds.now) }
    ensures added { IfOk result (λ all. all ≡ true → (key : List ℕ) → known_at places.new key
        ≡ after_adds ordinals adds.now key (after_finish item.now end.now key (known_at places.old key))) }
    ensures err { OnErr result ((key : List ℕ) → known_at places.new key ≡ known_at places.old key) }
{
    if !add_each(alloc, places, adds, ordinals)? {
        return Ok(false);
    }
    try_again(places, item, end);
    Ok(true)
}

/// Notes the end of an item whose key waits, and then adds items with the ordinals behind `ordinals`, unless the key of
/// one of them waits when its turn comes. For want of memory all is known as before.
pub fn end_and_add(
    alloc: Global,
    places: &mut BTreeMap<Key, Known>,
    item: &Item,
    end: &End,
    adds: &[Item],
    ordinals: u64,
) -> Result<bool, NoMemory>
    requires room { ordinals + length adds.now < 2 ^ 64 }
    requires waits { waits_by (known_at places.old item.now.key) ≡ true }
    ensures free { IfOk result (λ all. all
        ≡ are_free (λ key. waits_by (after_finish item.now end.now key (known_at places.old key))) [] adds.now) }
    ensures added { IfOk result (λ all. all ≡ true → (key : List ℕ) → known_at places.new key
        ≡ after_adds ordinals adds.now key (after_finish item.now end.now key (known_at places.old key))) }
    ensures err { OnErr result ((key : List ℕ) → known_at places.new key ≡ known_at places.old key) }
{
    if is_retry(end.outcome) {
        add_and_try(alloc, places, item, end, adds, ordinals)
    } else {
        done_and_add(alloc, places, item, end, adds, ordinals)
    }
}
