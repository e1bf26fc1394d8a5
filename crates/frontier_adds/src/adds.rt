// What seeds and the ends of items add.
ghost use Rattle.std.specs.Prelude.{◌≡◌, ◌≤◌, ◌+◌, ◌∷◌, [], true, IfOk, IsTrue, All, count_by, length};
ghost use Rattle.std.specs.List.{list_all, AllByRecursion};
ghost use Rattle.crawl_kinds.specs.Address.{IsUri};
ghost use Rattle.crawl_kinds.specs.Event.{Finishing};
ghost use Rattle.crawl_kinds.specs.declared.settings.Settings as settings_type;
ghost use Rattle.crawl_history.specs.Adds as history_adds;
ghost use Rattle.crawl_history.specs.Facts.{Archive};
ghost use Rattle.crawl_history.specs.History.{History};
ghost use Rattle.crawl_history.specs.Places.{place_of, is_absent};
ghost use Rattle.core_facts.specs.CoreFacts.{Pages, facts_with};
ghost use Rattle.core_facts.specs.ValidEvent.{is_add};
ghost use Rattle.extract_spec.specs.Joining.{IsLink};
ghost use Rattle.journal_valid.specs.Items.{IsAdd};
ghost use Rattle.frontier_adds.specs.Shown.{KeepsPlaces, ShowsLinks};
ghost use Rattle.frontier_memo.specs.Laws.{are_new};

use crate::candidates::{absent_keys, seed_items, taken};
use crate::fetched::kept_adds;
use core_facts::{items_are_valid, valid_is_computed};
use crawl_kinds::{End, Item, Items, Key, NoMemory, Uri, Work};
use extract_spec::Found;
use frontier_memo::Known;
use scope_rules::Scope;
use std::alloc::Global;
use std::collections::BTreeMap;

/// What seeds add: those that the scope takes and whose keys are nowhere, each key once. A journal can spell them. It fails
/// for want of memory alone.
pub fn seed_adds(
    alloc: Global,
    places: &BTreeMap<Key, Known>,
    scope: &Scope,
    list: &[Uri],
) -> Result<Items, NoMemory>
    requires { All IsUri list.now }
    ensures same { IfOk result (λ adds. (s : settings_type.Settings) (pages : Pages) (h : History) → KeepsPlaces h places.now
        → adds ≡ history_adds.new_items (facts_with s (scope.now ∷ []) pages) h (history_adds.seed_candidates (facts_with s (scope.now ∷ []) pages) list.now)) }
    ensures fresh { IfOk result (λ adds. (h : History) → KeepsPlaces h places.now → are_new h adds ≡ true) }
    ensures absent { IfOk result (λ adds. (h : History) → KeepsPlaces h places.now → AllByRecursion (λ i. is_absent (place_of h i.key) ≡ true) adds) }
    ensures valid { IfOk result (λ adds. (s : settings_type.Settings) (pages : Pages) (h : History) → KeepsPlaces h places.now → IsTrue (list_all is_add adds)) }
{
    items_are_valid();
    valid_is_computed();
    let candidates = seed_items(alloc, list)?;
    taken(alloc, places, scope, candidates.as_slice())
}

/// What the end of an item adds, by the verdict on it and with the links of its page: of a page that came those links that
/// the scope takes and whose keys are nowhere, each key once; of a robots file that came its redirect, and of an item that
/// needs its robots file that file, each unless it waits: no more than there are links, or one. Where a journal can spell
/// the item, it can spell these. It fails for want of memory alone.
pub fn finish_adds(
    alloc: Global,
    places: &BTreeMap<Key, Known>,
    scope: &Scope,
    work: &Work,
    end: &End,
    links: &[Found],
) -> Result<Items, NoMemory>
    requires uri { IsUri work.now.item.uri }
    requires links { All IsLink links.now }
    ensures same { IfOk result (λ adds. (s : settings_type.Settings) (pages : Pages) (a : Archive) (h : History) (c : Finishing) → KeepsPlaces h places.now
        → c.item ≡ work.now.item → c.end ≡ end.now → ShowsLinks (facts_with s (scope.now ∷ []) pages) a c links.now
        → adds ≡ history_adds.finish_adds (facts_with s (scope.now ∷ []) pages) a h c work.now.verdict) }
    ensures fresh { IfOk result (λ adds. (h : History) → KeepsPlaces h places.now → are_new h adds ≡ true) }
    ensures few { IfOk result (λ adds. length adds ≤ length links.now + 1) }
    ensures valid { IfOk result (λ adds. (s : settings_type.Settings) (h : History) → KeepsPlaces h places.now
        → IsTrue (is_add work.now.item) → AllByRecursion IsAdd adds) }
{
    items_are_valid();
    kept_adds(alloc, places, scope, &work.item, work.verdict, end, links)
}

/// How many of these items have a key that is nowhere.
pub fn new_keys(places: &BTreeMap<Key, Known>, items: &[Item]) -> u64
    ensures { (h : History) → KeepsPlaces h places.now → result ≡ count_by (λ i. is_absent (place_of h i.key)) items.now }
{
    absent_keys(places, items)
}
