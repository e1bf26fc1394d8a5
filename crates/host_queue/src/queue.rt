// The items of one host that wait, and room for the one that is out.
ghost use Rattle.std.specs.Prelude.{◌≡◌, ◌≢◌, [], ◌∷◌, All, IfSome, IfNone, IfOk, OnOk, OnErr, Some, None, option_map, slice_get, length, ◌≤◌, ◌<◌, ◌+◌};
ghost use Rattle.std.specs.VecDeque.{deque_capacity, deque_len};
ghost use Rattle.std.specs.Option.{option_copied};
ghost use Rattle.std.specs.Ordering.{is_lt};
ghost use Rattle.std.specs.List.{insert};
ghost use Rattle.host_queue.specs.Queue.{compare, place, IsInOrder, IsPut};

use crawl_kinds::{Item, NoMemory};
use std::alloc::Global;
use std::collections::VecDeque;
use std::marker::Model;

/// The items of one host, each with the ordinal of its add: those of a lower rank first, and those of one
/// rank by ordinal. Contracts see the items that wait, and the rank and ordinal of the one last taken.
#[derive(Drop)]
pub struct HostQueue {
    waiting: VecDeque<(Item, u64)>,
    taken: Option<(u8, u64)>,
}

impl Model for HostQueue {
    ghost use Rattle.host_queue.specs.Queue.{Queue};
    ghost use Rattle.host_queue.specs.Inside.{IsSound};
    ghost use Rattle.std.specs.VecDeque.{deque_capacity};

    ghost Value = { Queue };

    ghost view = { λ a. record { waiting = a.waiting.items; taken = a.taken } };

    ghost invariant = { λ a. IsSound a.waiting.items (deque_capacity a.waiting) a.taken };
}

/// Whether an entry comes before another.
fn is_before(a: &(Item, u64), b: &(Item, u64)) -> bool
    ensures { result ≡ is_lt (compare (place a.now) (place b.now)) }
{
    (a.0.rank, a.1) < (b.0.rank, b.1)
}

/// Where an entry belongs.
fn place_in(waiting: &VecDeque<(Item, u64)>, entry: &(Item, u64)) -> usize
    requires ordered { IsInOrder waiting.now.items }
    requires apart { All (λ other. place other ≢ place entry.now) waiting.now.items }
    ensures bound { result ≤ length waiting.now.items }
    ensures put { IsPut entry.now waiting.now.items (insert waiting.now.items result entry.now) }
{
    waiting.partition_point(|other| is_before(other, entry))
}

/// Puts an entry where it belongs. There is room for it.
fn put(waiting: &mut VecDeque<(Item, u64)>, entry: (Item, u64))
    requires ordered { IsInOrder waiting.old.items }
    requires apart { All (λ other. place other ≢ place entry) waiting.old.items }
    requires room { deque_len waiting.old < deque_capacity waiting.old }
    ensures put { IsPut entry waiting.old.items waiting.new.items }
    ensures len { deque_len waiting.new ≡ deque_len waiting.old + 1 }
    ensures capacity { deque_capacity waiting.old ≤ deque_capacity waiting.new }
{
    let at = place_in(waiting, &entry);
    if let Err(_) = waiting.insert(at, entry) {
        unreachable!();
    }
}

impl HostQueue {
    /// The empty queue, which takes no memory.
    pub fn new(alloc: Global) -> HostQueue
        ensures empty { result ≡ record { waiting = []; taken = None } }
        ensures ordered { IsInOrder result.waiting }
    {
        HostQueue {
            waiting: VecDeque::new(alloc),
            taken: None,
        }
    }

    /// Puts an item at its place. No other item of the queue, nor the item that was last taken, has its
    /// ordinal. For want of memory the queue stays as it was.
    pub fn push(&mut self, item: Item, ordinal: u64) -> Result<(), NoMemory>
        requires fresh { All (λ entry. entry.1 ≢ ordinal) self.old.waiting }
        requires apart { IfSome self.old.taken (λ at. at.1 ≢ ordinal) }
        ensures ok { OnOk result (IsPut (item, ordinal) self.old.waiting self.new.waiting × (self.new.taken ≡ self.old.taken)) }
        ensures err { OnErr result (self.new ≡ self.old) }
    {
        // Room for this item, and for the one that is out or will be.
        self.waiting.reserve(2)?;
        put(&mut self.waiting, (item, ordinal));
        Ok(())
    }

    /// The item that `take_first` takes. It takes no memory.
    pub fn first(&self) -> Option<&Item>
        ensures first { option_copied result ≡ option_map (λ entry. entry.0) (slice_get self.now.waiting 0) }
        ensures ordered { IsInOrder self.now.waiting }
    {
        let (item, _) = self.waiting.front()?;
        Some(item)
    }

    /// Takes the first item, with its ordinal; None where no item waits. It takes no memory.
    pub fn take_first(&mut self) -> Option<(Item, u64)>
        ensures first { IfSome result (λ entry. (self.old.waiting ≡ entry ∷ self.new.waiting) × (self.new.taken ≡ Some (place entry))) }
        ensures none { IfNone result ((self.old.waiting ≡ []) × (self.new ≡ self.old)) }
        ensures ordered { IsInOrder self.old.waiting × IsInOrder self.new.waiting }
    {
        let entry = self.waiting.pop_front()?;
        self.taken = Some((entry.0.rank, entry.1));
        Some(entry)
    }

    /// Puts the item that was last taken back at its place, with its ordinal. It is not back yet. It takes no
    /// memory.
    pub fn put_back(&mut self, item: Item, ordinal: u64)
        requires { self.old.taken ≡ Some (item.rank, ordinal) }
        ensures put { IsPut (item, ordinal) self.old.waiting self.new.waiting }
        ensures back { self.new.taken ≡ None }
    {
        self.taken = None;
        put(&mut self.waiting, (item, ordinal));
    }
}
