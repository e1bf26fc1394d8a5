// What is kept of the session: when it began, what is out, and the last finish of each class.
ghost use Rattle.std.specs.Prelude.{◌≡◌, ◌+◌, ◌≤◌, ◌==◌, not, ℕ, List, [], true, OnOk, OnErr, filter, option_copied, is_some};
ghost use Rattle.std.specs.List.{list_any};
ghost use Rattle.crawl_kinds.specs.declared.item.Item as item_type;
ghost use Rattle.crawl_history.specs.History.{History, history_of, with_event, ticket_count};
ghost use Rattle.crawl_history.specs.Places.{has_key};
ghost use Rattle.frontier_memo.specs.Memory.{RemembersSession};
ghost use Rattle.frontier_memo.specs.Sums.{class_at};
ghost use Rattle.frontier_memo.specs.Taking.{item_under};

use crate::classes::{make_room, overwrite};
use crawl_kinds::{ClassKey, End, Event, Fetch, Item, Key, Millis, NoMemory, Outcome, Verdict};
use std::alloc::Global;
use std::collections::BTreeMap;

/// An emit that is out.
#[derive(Drop)]
pub struct Out {
    pub time: Millis,
    pub caller: u32,
    pub ticket: u64,
    pub verdict: Verdict,
    pub item: Item,
}

/// The last finish of a class in a session: when it came, how it ended, and its fetch.
#[derive(Clone, Copy, Debug, PartialEq, Eq)]
pub struct Last {
    pub time: Millis,
    pub outcome: Outcome,
    pub fetch: Option<Fetch>,
}

/// What is kept of the session: its time, how many tickets were given before it, the emits that are out, and the last
/// finish of each class.
#[derive(Drop)]
pub struct SessionMemo {
    pub start: Millis,
    pub earlier: u64,
    pub out: Vec<Out>,
    pub last: BTreeMap<ClassKey, Option<Last>>,
}

/// The item of a ticket that is out.
pub fn item_out(out: &[Out], ticket: u64) -> Option<&Item>
    ensures { option_copied result ≡ item_under ticket out.now }
{
    for one in out {
        if one.ticket == ticket {
            return Some(&one.item);
        }
    }
    None
}

/// Whether an item of a key is out.
pub fn is_key_out(out: &[Out], key: &Key) -> bool
    ensures { result ≡ list_any (λ o. has_key key.now o.item) out.now }
{
    out.iter().any(|one| one.item.key == *key)
}

/// Takes a ticket out of those that are out.
fn end_ticket(out: &mut Vec<Out>, ticket: u64)
    ensures { out.new.items ≡ filter (λ o. not (ticket == o.ticket)) out.old.items }
{
    out.retain(|one| ticket != one.ticket);
}

impl SessionMemo {
    /// What is kept where there was no session.
    pub fn new(alloc: Global) -> SessionMemo
        ensures { RemembersSession (history_of []) result }
    {
        SessionMemo {
            start: 0,
            earlier: 0,
            out: Vec::new(alloc),
            last: BTreeMap::new(alloc),
        }
    }

    /// Begins a session, before which so many tickets were given.
    pub fn begin(&mut self, time: Millis, tickets: u64)
        ensures { (h : History) (job : List ℕ) (format : ℕ) → RemembersSession h self.old → tickets ≡ ticket_count h
            → RemembersSession (with_event h (Event.Session time job format)) self.new }
    {
        self.start = time;
        self.earlier = tickets;
        self.out.clear();
        self.last.clear();
    }

    /// Puts the next ticket out.
    pub fn put_out(&mut self, one: Out) -> Result<(), NoMemory>
        ensures ok { OnOk result ((h : History) → RemembersSession h self.old → one.ticket ≡ ticket_count h + 1
            → RemembersSession (with_event h (Event.Emit one.time one.caller one.ticket one.verdict one.item)) self.new) }
        ensures err { OnErr result ((h : History) → RemembersSession h self.old → RemembersSession h self.new) }
    {
        self.out.push(one)?;
        Ok(())
    }

    /// Makes room for a finish of a class. What is kept says the same.
    pub fn make_room(&mut self, class: &ClassKey) -> Result<(), NoMemory>
        ensures room { OnOk result (is_some (class_at self.new.last class.now) ≡ true) }
        ensures out { self.new.out ≡ self.old.out }
        ensures same { (h : History) → RemembersSession h self.old → RemembersSession h self.new }
    {
        make_room(&mut self.last, class, None)
    }

    /// Ends a ticket that was given. There is room for its class.
    pub fn end(&mut self, time: Millis, ticket: u64, item: &Item, end: &End)
        requires { is_some (class_at self.old.last item.now.class) ≡ true }
        ensures { (h : History) (caller : ℕ) (adds : List item_type.Item) → RemembersSession h self.old → ticket ≤ ticket_count h
            → RemembersSession (with_event h (Event.Finish time caller ticket item.now end.now adds)) self.new }
    {
        end_ticket(&mut self.out, ticket);
        let last = Last {
            time,
            outcome: end.outcome,
            fetch: end.fetch,
        };
        overwrite(&mut self.last, &item.class, Some(last));
    }
}
