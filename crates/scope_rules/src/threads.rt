// Scopes that are handed to threads.
ghost use Rattle.std.specs.Prelude.{◌≡◌, ◌<◌, ℕ, length, slice_index_or};
ghost use Rattle.scope_rules.specs.Asked.{told};

use crate::scope::Scope;
use std::thread;
use std::thread::Threads;

/// A scope, and whether it has patterns, once it was asked.
#[derive(Drop)]
pub struct Asked {
    pub scope: Scope,
    pub has_patterns: bool,
}

/// Asks each scope whether it has patterns, in at most so many threads at once. A scope may be handed to a thread.
pub fn ask_each<R: Threads + Sync>(rt: &R, threads: usize, asked: &mut [Asked])
    requires { 0 < threads }
    ensures { (i : ℕ) (d : Asked) → i < length asked.old → slice_index_or asked.new i d ≡ told (slice_index_or asked.old i d) }
{
    thread::for_each_mut(
        rt,
        asked,
        threads,
        &|_, it| { it.has_patterns = it.scope.has_patterns() },
    );
}
