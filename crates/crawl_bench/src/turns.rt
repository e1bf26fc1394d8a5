//! `turn LOCK CALLERS TURNS`: callers in threads of their own take so many turns each at a turn lock (`turn`) or at a `Mutex` of
//! std (`mutex`). Counts all turns, by the value that they left.
ghost use Rattle.std.specs.Prelude.{◌<◌, ◌≤◌};

use crate::shared::{count, word};
use std::alloc::Global;
use std::sync::Wait;
use std::test::Fail;
use std::thread::Threads;
use turn_client::{count_under_mutex, count_up};

/// The value after all turns at a turn lock.
fn at_turn_lock<R: Threads + Wait + Sync>(
    rt: &R,
    alloc: Global,
    callers: u32,
    turns: u64,
) -> Result<u64, Fail>
    requires callers { (0 < callers) × (callers ≤ 32) }
    requires turns { turns ≤ 1000000000 }
{
    Ok(count_up(rt, alloc, callers, turns)?)
}

/// The value after all turns at a `Mutex`.
fn at_mutex<R: Threads + Wait + Sync>(
    rt: &R,
    alloc: Global,
    callers: u32,
    turns: u64,
) -> Result<u64, Fail>
    requires { 0 < callers }
{
    Ok(count_under_mutex(rt, alloc, callers, turns)?)
}

/// The value after all turns at the lock of this name.
fn value<R: Threads + Wait + Sync>(
    rt: &R,
    alloc: Global,
    lock: &str,
    callers: u32,
    turns: u64,
) -> Result<u64, Fail>
    requires callers { (0 < callers) × (callers ≤ 32) }
    requires turns { turns ≤ 1000000000 }
{
    match lock {
        "turn" => at_turn_lock(rt, alloc, callers, turns),
        "mutex" => at_mutex(rt, alloc, callers, turns),
        _ => Err(Fail::new("turn or mutex")),
    }
}

pub fn bench<R: Threads + Wait + Sync>(
    rt: &R,
    alloc: Global,
    words: &[String],
) -> Result<String, Fail> {
    let callers = count(words, 2)?;
    let turns = count(words, 3)?;
    if callers == 0 || callers > 32 || turns > 1_000_000_000 {
        return Err(Fail::new("from 1 to 32 callers, and at most 1000000000 turns"));
    }
    let value = value(rt, alloc, word(words, 1), callers as u32, turns)?;
    Ok(format!(in alloc; "{value}\n")?)
}
