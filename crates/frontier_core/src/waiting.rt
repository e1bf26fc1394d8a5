// What waits, in the order in which it stands.
ghost use Rattle.std.specs.Prelude.{◌≡◌, IfOk, map};
ghost use Rattle.std.specs.BTreeMap.{IsOrdered};
ghost use Rattle.std.specs.Cmp.Lexicographic.{slice_cmp};
ghost use Rattle.std.specs.Ordering.{nat_cmp};
ghost use Rattle.frontier_core.specs.Kept.{kept_adds, turn_add, IsQueued};
ghost use Rattle.frontier_core.specs.Waiting.{queue_order};

use crawl_kinds::{Copied, Item, Items, Key, NoMemory};
use frontier_memo::Known;
use std::alloc::Global;
use std::cmp::Ordering;
use std::collections::BTreeMap;

/// An item that waits, with the ordinal of its add.
#[derive(Drop)]
pub struct Turn {
    item: Item,
    ordinal: u64,
}

/// Which of two stands first.
fn order(x: &Turn, y: &Turn) -> Ordering
    ensures { result ≡ queue_order (turn_add x.now) (turn_add y.now) }
{
    let rank = x.item.rank.cmp(&y.item.rank);
    let ordinal = x.ordinal.cmp(&y.ordinal);
    x.item.class.cmp(&y.item.class).then(rank.then(ordinal))
}

/// All that waits, by key.
fn turns_in(alloc: Global, places: &BTreeMap<Key, Known>) -> Result<Vec<Turn>, NoMemory>
    ensures turns { IfOk result (λ turns. map turn_add turns.items ≡ kept_adds places.now) }
    ensures ordered { IfOk result (λ _. IsOrdered (slice_cmp nat_cmp) places.now) }
{
    let mut turns = Vec::new(alloc);
    for known in places.values() {
        if let Known::Waits(own) = known {
            turns.push(Turn {
                item: own.item.copy()?,
                ordinal: own.ordinal,
            })?;
        }
    }
    Ok(turns)
}

/// The items of turns.
fn items_of(alloc: Global, turns: Vec<Turn>) -> Result<Items, NoMemory>
    ensures { IfOk result (λ items. items ≡ map (λ t. t.item) turns.items) }
{
    let mut items = Items::new(alloc);
    for turn in turns {
        items.push(turn.item)?;
    }
    Ok(items)
}

/// The items of all that waits, as they stand.
pub fn queued(alloc: Global, places: &BTreeMap<Key, Known>) -> Result<Items, NoMemory>
    ensures queued { IfOk result (IsQueued places.now) }
    ensures ordered { IfOk result (λ _. IsOrdered (slice_cmp nat_cmp) places.now) }
{
    let mut turns = turns_in(alloc, places)?;
    turns.sort_unstable_by(|x, y| order(x, y));
    items_of(alloc, turns)
}
