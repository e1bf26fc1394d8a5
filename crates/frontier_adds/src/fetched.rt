// What the ends of items add, by what is kept of keys.
ghost use Rattle.std.specs.Prelude.{◌≡◌, ◌==◌, IfOk, IfSome, All, find};
ghost use Rattle.std.specs.Option.{option_copied};
ghost use Rattle.crawl_kinds.specs.Address.{IsUri};
ghost use Rattle.crawl_history.specs.Codes.{redirect_letter};
ghost use Rattle.crawl_history.specs.Robots as robots_files;
ghost use Rattle.extract_spec.specs.Joining.{IsLink};
ghost use Rattle.frontier_adds.specs.Candidates.{found_redirect, link_items, robots_of, taken};
ghost use Rattle.frontier_adds.specs.KeptAdds as kept;

use crate::candidates::{is_longest, is_prerequisite, link_items, taken, waits};
use crawl_kinds::{Copied, End, Item, Items, Key, NoMemory, Outcome, Uri, Verdict};
use extract_spec::Found;
use frontier_memo::Known;
use item_form::{item_of, redirect_path, robots_path};
use scope_rules::Scope;
use std::alloc::Global;
use std::collections::BTreeMap;
use uri_form::{class_key, robots_uri};

/// How many redirects of a robots file are followed (RFC 9309 section 2.3.1.2).
const MOST_REDIRECTS: u8 = 5;

/// An item, unless its key waits.
fn unless_waiting(
    alloc: Global,
    places: &BTreeMap<Key, Known>,
    item: Item,
) -> Result<Items, NoMemory>
    ensures { IfOk result (λ adds. adds ≡ kept.unless_kept_waiting places.now item) }
{
    let mut adds = Items::new(alloc);
    if !waits(places, &item.key) {
        adds.push(item)?;
    }
    Ok(adds)
}

/// What a page adds: no link of one whose path can't grow.
fn page_adds(
    alloc: Global,
    places: &BTreeMap<Key, Known>,
    scope: &Scope,
    page: &Item,
    links: &[Found],
) -> Result<Items, NoMemory>
    requires { All IsLink links.now }
    ensures { IfOk result (λ adds. adds ≡ taken places.now scope.now (link_items page.now links.now)) }
{
    if is_longest(&page.path) {
        return Ok(Items::new(alloc));
    }
    let candidates = link_items(alloc, page, links)?;
    taken(alloc, places, scope, candidates.as_slice())
}

/// What an item adds that needs its robots file first.
fn robots_adds(alloc: Global, places: &BTreeMap<Key, Known>, item: &Item) -> Result<Items, NoMemory>
    requires { IsUri item.now.uri }
    ensures { IfOk result (λ adds. adds ≡ kept.unless_kept_waiting places.now (robots_of item.now)) }
{
    let uri = robots_uri(alloc, &item.uri)?;
    let path = robots_path(alloc, &item.path)?;
    let via = Some(item.uri.copy()?);
    let robots = item_of(alloc, &uri, path, via)?;
    unless_waiting(alloc, places, robots)
}

/// How many redirects led to a robots file: the digit behind `robots` in its key.
fn redirect_count(item: &Item) -> u8
    ensures { result ≡ robots_files.redirect_count item.now }
{
    match item.key.as_bytes().get(6) {
        Some(digit) => digit.saturating_sub(b'0'),
        None => 0,
    }
}

/// The first redirect among links.
fn first_redirect(links: &[Found]) -> Option<&Found>
    requires { All IsLink links.now }
    ensures first { option_copied result ≡ find (λ l. l.letter == redirect_letter) links.now }
    ensures link { IfSome (option_copied result) IsLink }
{
    for found in links {
        if found.letter == b'R' {
            return Some(found);
        }
    }
    None
}

/// The address that a robots file redirects to, where redirects are left and it stays in the class.
fn redirect(alloc: Global, item: &Item, links: &[Found]) -> Result<Option<Uri>, NoMemory>
    requires { All IsLink links.now }
    ensures redirect { IfOk result (λ to. to ≡ found_redirect item.now links.now) }
    ensures address { IfOk result (λ to. IfSome to IsUri) }
{
    if MOST_REDIRECTS <= redirect_count(item) {
        return Ok(None);
    }
    let Some(found) = first_redirect(links) else {
        return Ok(None);
    };
    if class_key(alloc, &found.uri)? != item.class {
        return Ok(None);
    }
    Ok(Some(found.uri.copy()?))
}

/// What a robots file adds that came with a redirect.
fn redirect_adds(
    alloc: Global,
    places: &BTreeMap<Key, Known>,
    item: &Item,
    links: &[Found],
) -> Result<Items, NoMemory>
    requires { All IsLink links.now }
    ensures { IfOk result (λ adds. adds ≡ kept.redirect_adds places.now item.now (found_redirect item.now links.now)) }
{
    let Some(uri) = redirect(alloc, item, links)? else {
        return Ok(Items::new(alloc));
    };
    let path = redirect_path(alloc, &item.path)?;
    let via = Some(item.uri.copy()?);
    let next = item_of(alloc, &uri, path, via)?;
    unless_waiting(alloc, places, next)
}

/// What an item adds that came.
fn came_adds(
    alloc: Global,
    places: &BTreeMap<Key, Known>,
    scope: &Scope,
    item: &Item,
    end: &End,
    links: &[Found],
) -> Result<Items, NoMemory>
    requires { All IsLink links.now }
    ensures { IfOk result (λ adds. adds ≡ kept.came_adds places.now scope.now item.now end.now links.now) }
{
    if !is_prerequisite(item) {
        return page_adds(alloc, places, scope, item, links);
    }
    if end.code.unsigned_abs() / 100 != 3 {
        return Ok(Items::new(alloc));
    }
    redirect_adds(alloc, places, item, links)
}

/// What an item adds that was to be fetched.
fn fetched_adds(
    alloc: Global,
    places: &BTreeMap<Key, Known>,
    scope: &Scope,
    item: &Item,
    end: &End,
    links: &[Found],
) -> Result<Items, NoMemory>
    requires { All IsLink links.now }
    ensures { IfOk result (λ adds. adds ≡ kept.fetched_adds places.now scope.now item.now end.now links.now end.now.outcome) }
{
    match end.outcome {
        Outcome::Success => came_adds(alloc, places, scope, item, end, links),
        Outcome::Failure => Ok(Items::new(alloc)),
        Outcome::Disregard => Ok(Items::new(alloc)),
        Outcome::Retry => Ok(Items::new(alloc)),
    }
}

/// What the end of an item adds, by the verdict on it.
pub fn kept_adds(
    alloc: Global,
    places: &BTreeMap<Key, Known>,
    scope: &Scope,
    item: &Item,
    verdict: Verdict,
    end: &End,
    links: &[Found],
) -> Result<Items, NoMemory>
    requires uri { IsUri item.now.uri }
    requires links { All IsLink links.now }
    ensures { IfOk result (λ adds. adds ≡ kept.kept_adds places.now scope.now item.now end.now links.now verdict) }
{
    match verdict {
        Verdict::Allowed => fetched_adds(alloc, places, scope, item, end, links),
        Verdict::Needed => robots_adds(alloc, places, item),
        Verdict::Precluded => Ok(Items::new(alloc)),
        Verdict::Unsupported => Ok(Items::new(alloc)),
        Verdict::Unreachable => Ok(Items::new(alloc)),
    }
}
