// What is counted over the whole crawl. No count passes the end of 64 bits.
ghost use Rattle.std.specs.Prelude.{◌≡◌, ◌+◌, ◌&&◌, not, ℕ, List, [], true, OnOk, is_some, option_map, bytes_eq, if◌then◌else◌};
ghost use Rattle.crawl_kinds.specs.declared.item.Item as item_type;
ghost use Rattle.crawl_history.specs.Citations.{edge_after};
ghost use Rattle.crawl_history.specs.Counts as counts;
ghost use Rattle.crawl_history.specs.History.{History, history_of, with_event};
ghost use Rattle.crawl_history.specs.Outcomes as outcomes;
ghost use Rattle.frontier_memo.specs.Memory.{RemembersCounts};
ghost use Rattle.frontier_memo.specs.Sums.{class_at, spent_at, saturated, saturated_edge};

use crate::classes::{make_room, overwrite};
use crawl_kinds::{Body, ClassKey, Edge, End, Event, Item, Millis, NoMemory, Outcome};
use std::alloc::Global;
use std::collections::BTreeMap;

/// What was counted: what each class has spent of its budget, the pages and bytes that the limits of the job look at, and
/// the end of the last cited record.
#[derive(Drop)]
pub struct Counts {
    pub spent: BTreeMap<ClassKey, u64>,
    pub pages: u64,
    pub bytes: u64,
    pub end: Option<Edge>,
}

/// Whether an item is a robots file, or what one redirects to.
fn is_prerequisite(item: &Item) -> bool
    ensures { result ≡ outcomes.is_prerequisite item.now }
{
    item.key.as_bytes().starts_with(b"robots")
}

/// 1 at the end of a page that was fetched, else 0.
fn page_of(item: &Item, outcome: Outcome) -> u64
    ensures { result ≡ (if outcomes.is_success outcome && not (outcomes.is_prerequisite item.now) then 1 else 0) }
{
    match outcome {
        Outcome::Success if !is_prerequisite(item) => 1,
        _ => 0,
    }
}

/// What an end costs the budget of its class: 1 for a page that was fetched or failed, else 0.
fn cost_of(item: &Item, outcome: Outcome) -> u64
    ensures { result ≡ (if outcomes.is_success_or_failure outcome && not (outcomes.is_prerequisite item.now) then 1 else 0) }
{
    match outcome {
        Outcome::Success | Outcome::Failure if !is_prerequisite(item) => 1,
        _ => 0,
    }
}

/// The size of what was recorded.
fn size_of(body: &Option<Body>) -> u64
    ensures { result ≡ counts.size_of body.now }
{
    match body {
        None => 0,
        Some(body) => body.size,
    }
}

/// The end of the records of a success.
fn edge_after(body: &Option<Body>) -> Option<Edge>
    ensures { result ≡ option_map saturated_edge (edge_after body.now) }
{
    match body {
        None => None,
        Some(body) => Some(Edge {
            file: body.spot.file,
            end: body.spot.at.saturating_add(body.spot.len),
        }),
    }
}

/// Counts what a class spends. There is room for it.
fn spend(spent: &mut BTreeMap<ClassKey, u64>, class: &ClassKey, cost: u64)
    requires { is_some (class_at spent.old class.now) ≡ true }
    ensures { (q : List ℕ) → spent_at spent.new q ≡ (if bytes_eq class.now q then saturated (spent_at spent.old q + cost) else spent_at spent.old q) }
{
    let before = spent.get(class).copied().unwrap_or(0);
    overwrite(spent, class, before.saturating_add(cost));
}

impl Counts {
    /// What is counted before there is an event.
    pub fn new(alloc: Global) -> Counts
        ensures { RemembersCounts (history_of []) result }
    {
        Counts {
            spent: BTreeMap::new(alloc),
            pages: 0,
            bytes: 0,
            end: None,
        }
    }

    /// Makes room for a finish of a class. What is counted stays the same.
    pub fn make_room(&mut self, class: &ClassKey) -> Result<(), NoMemory>
        ensures room { OnOk result (is_some (class_at self.new.spent class.now) ≡ true) }
        ensures same { (h : History) → RemembersCounts h self.old → RemembersCounts h self.new }
    {
        make_room(&mut self.spent, class, 0)
    }

    /// Counts a finish. There is room for its class.
    pub fn count(&mut self, item: &Item, end: &End)
        requires { is_some (class_at self.old.spent item.now.class) ≡ true }
        ensures { (h : History) (time caller ticket : ℕ) (adds : List item_type.Item) → RemembersCounts h self.old
            → RemembersCounts (with_event h (Event.Finish time caller ticket item.now end.now adds)) self.new }
    {
        spend(&mut self.spent, &item.class, cost_of(item, end.outcome));
        self.pages = self.pages.saturating_add(page_of(item, end.outcome));
        self.bytes = self.bytes.saturating_add(size_of(&end.body));
        self.end = edge_after(&end.body).or(self.end);
    }
}
