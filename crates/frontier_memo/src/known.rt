// What is known of each key.
ghost use Rattle.std.specs.Prelude.{◌≡◌, ◌↔◌, IsTrue, Some, option_map};
ghost use Rattle.frontier_memo.specs.Keeping.{known_at, place_by, waiting_by, waits_by, code_by};

use crate::item::same_item;
use crawl_kinds::{Item, Key, Place};
use std::collections::BTreeMap;

/// An item that waits: the ordinal of its add, and how often it was tried in vain since.
#[derive(Drop)]
pub struct Waiting {
    pub item: Item,
    pub ordinal: u64,
    pub tries: u64,
}

/// What is known of a key: its item waits, or it is done with a code.
#[derive(Drop)]
pub enum Known {
    Waits(Waiting),
    Done(i32),
}

/// Where a key is.
pub fn place_at(places: &BTreeMap<Key, Known>, key: &Key) -> Place
    ensures { result ≡ place_by (known_at places.now key.now) }
{
    match places.get(key) {
        Some(Known::Waits(_)) => Place::Waiting,
        Some(Known::Done(code)) => Place::Done(*code),
        None => Place::Absent,
    }
}

/// Whether a key waits.
pub fn waits(places: &BTreeMap<Key, Known>, key: &Key) -> bool
    ensures { result ≡ waits_by (known_at places.now key.now) }
{
    match places.get(key) {
        Some(Known::Waits(_)) => true,
        _ => false,
    }
}

/// The code with which a key is done.
pub fn code_at(places: &BTreeMap<Key, Known>, key: &Key) -> Option<i32>
    ensures { result ≡ code_by (known_at places.now key.now) }
{
    match places.get(key) {
        Some(Known::Done(code)) => Some(*code),
        _ => None,
    }
}

/// Whether an item waits.
pub fn item_waits(places: &BTreeMap<Key, Known>, item: &Item) -> bool
    ensures { IsTrue result ↔ (option_map (λ w. w.item) (waiting_by (known_at places.now item.now.key)) ≡ Some item.now) }
{
    match places.get(&item.key) {
        Some(Known::Waits(own)) => same_item(&own.item, item),
        _ => false,
    }
}
