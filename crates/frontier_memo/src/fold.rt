// Events taken in, one after another.
ghost use Rattle.std.specs.Prelude.{◌≡◌, ℕ, IfOk, Err};
ghost use Rattle.crawl_history.specs.History.{history_of};
ghost use Rattle.frontier_memo.specs.Fits.{AllFit, IsFirstUnfit};
ghost use Rattle.frontier_memo.specs.Memory.{Remembers};

use crate::memo::Memo;
use crawl_kinds::{Event, NoMemory};
use std::alloc::Global;

/// Why events make no core.
#[derive(Clone, Copy, Debug, PartialEq, Eq)]
pub enum FoldFault {
    /// The event at this place, counted from 0, is the first that can't stand after those before it.
    NotAStep { index: usize },
    NoMemory,
}

impl From<NoMemory> for FoldFault {
    ghost use Rattle.std.specs.Prelude.{◌≡◌};
    ghost use Rattle.frontier_memo.specs.declared.fold.FoldFault.TheVariants as fault;

    ghost from_gives = { λ _ own. own ≡ fault.NoMemory };

    fn from(_: NoMemory) -> Self {
        FoldFault::NoMemory
    }
}

/// What is to be kept beside these events.
pub fn remember(alloc: Global, events: &[Event]) -> Result<Memo, FoldFault>
    ensures ok { IfOk result (λ memo. Remembers (history_of events.now) memo) }
    ensures fit { IfOk result (λ _. AllFit events.now) }
    ensures not_a_step { (i : ℕ) → result ≡ Err (FoldFault.NotAStep i) → IsFirstUnfit events.now i }
{
    let mut memo = Memo::new(alloc);
    for (index, event) in events.iter().enumerate() {
        if !memo.take(event)? {
            return Err(FoldFault::NotAStep { index });
        }
    }
    Ok(memo)
}
