//! The value in place.
ghost use Rattle.std.specs.Prelude.{◌≡◌};
ghost use types.Logic.{sem};
ghost use Rattle.turn_lock.specs.Plays.{Has};
ghost use Rattle.turn_lock.specs.Passes.{IsPassOf};
ghost use Rattle.turn_lock.specs.Lending.{LendsValue};

use crate::{Pass, Protocol, TurnLock};

impl<S, V, P: Protocol<S, V>> TurnLock<S, V, P> {
    /// Lends the value to the pass that has the turn. The rule speaks of what is written from the next count on.
    pub fn value_mut<'a>(pass: &'a mut Pass<S, V>, lock: &'a TurnLock<S, V, P>) -> &'a mut S
        requires own { IsPassOf lock.now pass.old }
        requires held { (x : S) × (y : S) × Has pass.old.me x y }
        ensures* writes_back { sem 𝓛 (LendsValue S.row V.row pass.entry result) }
        ensures value { (x y : S) → Has pass.old.me x y → result.now ≡ y }
    {
        pass.slot_mut(&lock.table.shared, 0)
    }
}
