//! The value at the end.
ghost use Rattle.std.specs.Prelude.{◌≡◌};
ghost use Rattle.turn_lock.specs.Plays.{IsIdle};
ghost use Rattle.turn_lock.specs.Duties.{Alone, Ends};
ghost use Rattle.turn_lock.specs.Passes.{view, start, IsPassOf};

use crate::{Pass, Protocol, TurnLock};

impl<S, V, P: Protocol<S, V>> TurnLock<S, V, P> {
    /// The value comes back, with what the rule says of it and of all views. The pass is idle, and no other may draw a
    /// ticket any more, so none has the turn.
    pub fn close(self, pass: Pass<S, V>) -> S
        requires own { IsPassOf self pass }
        requires idle { IsIdle pass.me }
        requires alone { Alone (P.holds (start self)) P.may pass.id (view pass) }
        ensures { Ends (P.holds (start self)) pass.id (view pass) result }
    {
        let TurnLock { table } = self;
        let mut closed = table.close_with(pass);
        let value = closed.take(0);
        closed.free();
        value
    }
}
