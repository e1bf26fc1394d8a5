// Candidates, and those of them that are added.
ghost use Rattle.std.specs.Prelude.{◌≡◌, ◌&&◌, ◌<◌, ◌≤◌, ◌++◌, ◌∷◌, [], ℕ, List, count_by, nat_le, length, map, IfOk, MatchBool, OnOk, All, if◌then◌else◌};
ghost use Rattle.std.specs.BTreeSet.{contains};
ghost use Rattle.std.specs.Cmp.Lexicographic.{slice_cmp};
ghost use Rattle.std.specs.List.{list_any};
ghost use Rattle.std.specs.Ordering.{nat_cmp};
ghost use Rattle.crawl_kinds.specs.Address.{IsUri};
ghost use Rattle.crawl_history.specs.Places as places_of;
ghost use Rattle.crawl_history.specs.Places.{has_key};
ghost use Rattle.crawl_history.specs.Scope.{most_letters};
ghost use Rattle.core_facts.specs.CoreFacts as core_facts;
ghost use Rattle.extract_spec.specs.Joining.{IsLink};
ghost use Rattle.crawl_history.specs.Outcomes as outcomes;
ghost use Rattle.frontier_adds.specs.Candidates.{is_taken, kept_place, link_item, link_items, seed_item, taken};

use crawl_kinds::{Copied, HopPath, Item, Items, Key, NoMemory, Place, Uri};
use extract_spec::Found;
use frontier_memo::{Known, place_at};
use item_form::{item_of, seed_item, with_letter};
use scope_rules::{Candidate, Decider, Decision, Scope};
use std::alloc::Global;
use std::collections::{BTreeMap, BTreeSet};
use uri_form::surt;

/// How many letters a path may have.
const MOST_LETTERS: usize = 250;

/// Whether a path is as long as a path may be.
pub fn is_longest(path: &HopPath) -> bool
    ensures { MatchBool result (most_letters ≤ length path.now) (length path.now < most_letters) }
{
    MOST_LETTERS <= path.as_bytes().len()
}

/// Whether an item is a robots file, or what one redirects to.
pub fn is_prerequisite(item: &Item) -> bool
    ensures { result ≡ outcomes.is_prerequisite item.now }
{
    item.key.as_bytes().starts_with(b"robots")
}

/// Whether nothing is known of a key.
pub fn is_absent(places: &BTreeMap<Key, Known>, key: &Key) -> bool
    ensures { result ≡ places_of.is_absent (kept_place places.now key.now) }
{
    match place_at(places, key) {
        Place::Absent => true,
        Place::Waiting => false,
        Place::Done(_) => false,
    }
}

/// How many of these items have a key of which nothing is known.
pub fn absent_keys(places: &BTreeMap<Key, Known>, items: &[Item]) -> u64
    ensures { result ≡ count_by (λ i. places_of.is_absent (kept_place places.now i.key)) items.now }
{
    items
        .iter()
        .filter(|item| is_absent(places, &item.key))
        .count() as u64
}

/// Whether a key waits.
pub fn waits(places: &BTreeMap<Key, Known>, key: &Key) -> bool
    ensures { result ≡ places_of.is_waiting (kept_place places.now key.now) }
{
    match place_at(places, key) {
        Place::Absent => false,
        Place::Waiting => true,
        Place::Done(_) => false,
    }
}

/// Whether a scope takes an item.
fn is_accepted(alloc: Global, decider: &mut Decider<'_>, item: &Item) -> Result<bool, NoMemory>
    requires { IsUri item.now.uri }
    ensures accepted { IfOk result (λ is_it. is_it
        ≡ (nat_le (length item.now.path) most_letters && core_facts.is_accepted decider.old item.now.uri item.now.path)) }
    ensures same { decider.new ≡ decider.old }
{
    if MOST_LETTERS < item.path.as_bytes().len() {
        return Ok(false);
    }
    let candidate = Candidate {
        uri: item.uri.copy()?,
        surt: surt(alloc, &item.uri)?,
        path: item.path.copy()?,
    };
    match decider.decide(&candidate) {
        Decision::Accept => Ok(true),
        Decision::Reject => Ok(false),
    }
}

/// Whether a scope takes an item whose key is nowhere. Most keys of a page are known, so that is asked first.
fn is_taken(
    alloc: Global,
    places: &BTreeMap<Key, Known>,
    decider: &mut Decider<'_>,
    item: &Item,
) -> Result<bool, NoMemory>
    requires { IsUri item.now.uri }
    ensures taken { IfOk result (λ is_it. is_it ≡ is_taken places.now decider.old item.now) }
    ensures same { decider.new ≡ decider.old }
{
    if !is_absent(places, &item.key) {
        return Ok(false);
    }
    is_accepted(alloc, decider, item)
}

/// Puts an item at the end of others, unless its key was seen among them.
fn keep(seen: &mut BTreeSet<Key>, items: &mut Items, item: &Item) -> Result<(), NoMemory>
    requires { (key : List ℕ) → contains (slice_cmp nat_cmp) seen.old key ≡ list_any (has_key key) items.old }
    ensures kept { OnOk result (items.new ≡ items.old ++ (if list_any (has_key item.now.key) items.old then [] else item.now ∷ [])) }
    ensures seen { OnOk result ((key : List ℕ) → contains (slice_cmp nat_cmp) seen.new key ≡ list_any (has_key key) items.new) }
{
    if !seen.insert(item.key.copy()?)? {
        return Ok(());
    }
    items.push(item.copy()?)
}

/// Of candidates those that the scope takes and whose key is nowhere, each key once.
pub fn taken(
    alloc: Global,
    places: &BTreeMap<Key, Known>,
    scope: &Scope,
    candidates: &[Item],
) -> Result<Items, NoMemory>
    requires { All (λ i. IsUri i.uri) candidates.now }
    ensures { IfOk result (λ items. items ≡ taken places.now scope.now candidates.now) }
{
    let mut decider = scope.decider(alloc)?;
    let mut seen: BTreeSet<Key> = BTreeSet::new(alloc);
    let mut items = Items::new(alloc);
    for item in candidates {
        if is_taken(alloc, places, &mut decider, item)? {
            keep(&mut seen, &mut items, item)?;
        }
    }
    Ok(items)
}

/// The items of seeds.
pub fn seed_items(alloc: Global, list: &[Uri]) -> Result<Items, NoMemory>
    requires { All IsUri list.now }
    ensures { IfOk result (λ items. items ≡ map seed_item list.now) }
{
    let mut items = Items::new(alloc);
    for uri in list {
        items.push(seed_item(alloc, uri)?)?;
    }
    Ok(items)
}

/// The item of a link of a page, whose path may have one letter more.
fn link_item(alloc: Global, page: &Item, found: &Found) -> Result<Item, NoMemory>
    requires link { IsLink found.now }
    requires short { length page.now.path < most_letters }
    ensures { IfOk result (λ item. item ≡ link_item page.now found.now) }
{
    let path = with_letter(alloc, &page.path, found.letter)?;
    let via = Some(page.uri.copy()?);
    item_of(alloc, &found.uri, path, via)
}

/// The items of the links of a page, whose path may have one letter more.
pub fn link_items(alloc: Global, page: &Item, links: &[Found]) -> Result<Items, NoMemory>
    requires links { All IsLink links.now }
    requires short { length page.now.path < most_letters }
    ensures { IfOk result (λ items. items ≡ link_items page.now links.now) }
{
    let mut items = Items::new(alloc);
    for found in links {
        items.push(link_item(alloc, page, found)?)?;
    }
    Ok(items)
}
