//! Callers that add to one tally, each in a thread of its own.
ghost use Rattle.std.specs.Prelude.{◌≡◌, ◌+◌, ◌*◌, ◌^◌, ◌<◌, ◌≤◌, ℕ, IfOk, All, length, slice_index_or};
ghost use Rattle.turn_lock.specs.Passes.{IsPassOf};
ghost use Rattle.turn_client.specs.declared.part.Part.{Part};
ghost use Rattle.turn_client.specs.Rows.{AreDealt, IsReady, HasAdded};

use crate::part::Part;
use crate::tally::{DEALT_ROOM, Tally};
use std::alloc::{AllocError, Global};
use std::sync::{Mutex, Wait};
use std::thread;
use std::thread::Threads;

// One caller's turns.
fn add_all<R: Wait>(rt: &R, tally: &Tally, part: &mut Part, turns: u64)
    requires { IsReady tally.now.lock.table.shared.table_id turns part.old }
    ensures { HasAdded tally.now.lock.table.shared.table_id turns part.old part.new }
{
    for _ in 0..turns {
        tally.add(rt, part);
    }
}

// All callers' turns.
fn all_add<R: Threads + Wait + Sync>(rt: &R, tally: &Tally, parts: &mut [Part], turns: u64)
    requires some { 0 < length parts.old }
    requires ready { All (IsReady tally.now.lock.table.shared.table_id turns) parts.old }
    ensures { (k : ℕ) (d : Part) → k < length parts.old
        → HasAdded tally.now.lock.table.shared.table_id turns (slice_index_or parts.old k d) (slice_index_or parts.new k d) }
{
    let threads = parts.len();
    thread::for_each_mut(
        rt,
        parts,
        threads,
        &|_, part: &mut Part|
            requires { IsReady tally.now.lock.table.shared.table_id turns part.old }
            ensures { HasAdded tally.entry.now.lock.table.shared.table_id turns part.old part.new }
        { add_all(rt, tally, part, turns) },
    );
}

// The first part, and as many more as there are other callers.
fn deal_all(
    tally: &Tally,
    alloc: Global,
    mut first: Part,
    callers: u32,
) -> Result<Vec<Part>, AllocError>
    requires own { IsPassOf tally.now.lock first.pass }
    requires all { (first.first ≡ 0) × (first.end ≡ 32) × (first.made ≡ 0) × (first.left ≡ u64.MAX) }
    requires some { (0 < callers) × (callers ≤ 32) }
    ensures { IfOk result (λ v. (length v.items ≡ callers)
        × AreDealt tally.now.lock.table.shared.table_id callers 0 DEALT_ROOM v.items) }
{
    let mut parts = Vec::new(alloc);
    for _ in 1..callers {
        parts.push(tally.deal(&mut first))?;
    }
    parts.push(first)?;
    Ok(parts)
}

// All parts, put together.
fn gather(tally: &Tally, mut parts: Vec<Part>, turns: u64) -> Part
    requires some { 0 < length parts.items }
    requires dealt { AreDealt tally.now.lock.table.shared.table_id (length parts.items) turns 0 parts.items }
    ensures own { IsPassOf tally.now.lock result.pass }
    ensures all { (result.first ≡ 0) × (result.end ≡ 32) }
    ensures made { result.made ≡ length parts.items * turns }
{
    let Some(mut all) = parts.pop() else {
        unreachable!()
    };
    while let Some(part) = parts.pop() {
        tally.join(&mut all, part);
    }
    all
}

/// `callers` threads take `turns` turns each at one lock, and the value shows every turn.
pub fn count_up<R: Threads + Wait + Sync>(
    rt: &R,
    alloc: Global,
    callers: u32,
    turns: u64,
) -> Result<u64, AllocError>
    requires callers { (0 < callers) × (callers ≤ 32) }
    requires turns { turns ≤ DEALT_ROOM }
    ensures { IfOk result (λ n. n ≡ callers * turns) }
{
    let (tally, first) = Tally::new(alloc, 0)?;
    let mut parts = deal_all(&tally, alloc, first, callers)?;
    all_add(rt, &tally, parts.as_mut_slice(), turns);
    let all = gather(&tally, parts, turns);
    Ok(tally.close(all))
}

// One caller's turns at a mutex.
fn add_under<R: Wait>(rt: &R, total: &Mutex<u64>, turns: u64) {
    for _ in 0..turns {
        let mut held = total.lock(rt);
        *held = held.wrapping_add(1);
    }
}

/// The same under a `Mutex` of std, to compare. No clause says what the value is.
pub fn count_under_mutex<R: Threads + Wait + Sync>(
    rt: &R,
    alloc: Global,
    callers: u32,
    turns: u64,
) -> Result<u64, AllocError>
    requires { 0 < callers }
{
    let total = Mutex::new(0u64);
    let lock = &total;
    let mut places = vec![in alloc; 0u8; callers as usize]?;
    thread::for_each_mut(
        rt,
        places.as_mut_slice(),
        callers as usize,
        &|_, _| { add_under(rt, lock, turns) },
    );
    Ok(total.into_inner())
}
