//! How a pass takes the turn, counts, and serves the next.
ghost use Rattle.std.specs.Prelude.{◌≡◌, ℕ, ◌+◌, List, [], ◌∷◌, IfOk, IfErr};
ghost use mathlib.Core.Option.{none, some};
ghost use Rattle.atomic_table.specs.Table.{State};
ghost use Rattle.turn_lock.specs.Turn.{InTurn, OneHasTurn, SomeHasTurn, NoneHasTurn};
ghost use Rattle.turn_lock.specs.Plays.{IsIdle, Has};
ghost use Rattle.turn_lock.specs.Duties.{Advances, Forks, Merges, Tells, Shows, Few};
ghost use Rattle.turn_lock.specs.Passes.{view, start, IsPassOf, IsSamePass};

use crate::plays::{Count, Cut, Draw, Glue, Know, Learn, Look, Serve};
use crate::{Doing, Insight, Lesson, Outcome, Pass, Protocol, TurnLock};
use atomic_table::{Join, Split, Table};
use std::alloc::{AllocFailed, Global};
use std::snapshot::Snapshot;
use std::sync::Wait;
use std::thread::yield_now;

const COUNT: usize = 0;

const TICKET: usize = 1;

const SERVING: usize = 2;

// How often a caller looks for a lull before it draws its ticket all the same.
const PATIENCE: u32 = 1000;

impl<S, V, P: Protocol<S, V>> TurnLock<S, V, P> {
    /// A lock over `value`, and its first pass. `count` is what the rule counts of the value. Where memory runs out the
    /// value comes back.
    pub fn new(
        alloc: Global,
        value: S,
        count: u64,
    ) -> Result<(TurnLock<S, V, P>, Pass<S, V>), AllocFailed<S>>
        requires count { count ≡ P.count value }
        requires rule { P.holds value value (P.first value ∷ []) }
        ensures lock { IfOk result (λ made. start made.0 ≡ value) }
        ensures pass { IfOk result
            (λ made. IsPassOf made.0 made.1 × (made.1.id ≡ 0) × IsIdle made.1.me × (view made.1 ≡ P.first value)) }
        ensures err { IfErr result (λ refused. refused.value ≡ value) }
    {
        let about = Snapshot::of(&value);
        let mut slots = Vec::new(alloc);
        if let Err(failed) = slots.push(value) {
            slots.destroy_empty();
            return Err(failed);
        }
        let words = [count, 0, 0];
        match Table::new(alloc, &words, slots, &about) {
            Ok((table, pass)) => Ok((TurnLock { table }, pass)),
            Err(refused) => {
                let mut slots = refused.slots;
                let Some(value) = slots.pop() else {
                    unreachable!()
                };
                slots.destroy_empty();
                Err(AllocFailed { value })
            }
        }
    }

    /// Mutual exclusion, as a law: the call does nothing. In each state of which the rule holds, as it does between any
    /// two steps, no two passes have the turn, the slot is out while one has it, and else it is home with the value.
    pub fn exclude(&self)
        ensures one { (s : State S (Doing S V)) → InTurn P.count P.may (P.holds (start self.now)) s → OneHasTurn s.views }
        ensures out { (s : State S (Doing S V)) → InTurn P.count P.may (P.holds (start self.now)) s
            → SomeHasTurn s.views → s.homes ≡ none ∷ [] }
        ensures home { (s : State S (Doing S V)) (rule : InTurn P.count P.may (P.holds (start self.now)) s)
            → NoneHasTurn s.views → s.homes ≡ some rule.now ∷ [] }
    {}

    /// Waits until the pass has the turn, and yields the processor while it waits. The value is then out with the pass, as
    /// it was at the last count.
    pub fn take<R: Wait>(&self, rt: &R, pass: &mut Pass<S, V>)
        requires own { IsPassOf self.now pass.old }
        requires idle { IsIdle pass.old.me × P.may (view pass.old) }
        requires few { Few (P.holds (start self.now)) P.may P.name }
        ensures same { IsSamePass pass.old pass.new × (view pass.new ≡ view pass.old) }
        ensures held { (x : S) × Has pass.new.me x x }
    {
        self.await_lull();
        let turn = self.table.shared.fetch_add::<Draw>(pass, TICKET, 1);
        for _ in rt.forever() {
            if self.table.shared.load::<Look>(pass, SERVING) == turn {
                return;
            }
            yield_now();
        }
        unreachable!()
    }

    // Waits, but not for ever, until no ticket is out. Tickets are served in order, so where many threads have one, each
    // turn waits until a processor comes to the one thread whose turn it is.
    fn await_lull(&self) {
        for _ in 0..PATIENCE {
            if self.table.shared.peek(TICKET) == self.table.shared.peek(SERVING) {
                return;
            }
            yield_now();
        }
    }

    /// Counts `more`, with which the change of the value since the last count becomes part of the rule, as does the
    /// pass's new view. The pass keeps the turn.
    pub fn count<M: Outcome<S, V>>(&self, pass: &mut Pass<S, V>, more: u64)
        requires own { IsPassOf self.now pass.old }
        requires held { (x : S) × (y : S) × Has pass.old.me x y × (P.count y ≡ P.count x + more)
            × Advances (P.holds (start self.now)) P.may pass.old.id (view pass.old) x y M.then }
        ensures same { IsSamePass pass.old pass.new }
        ensures counted { (x y : S) → Has pass.old.me x y
            → Has pass.new.me y y × M.then (view pass.old) x y (view pass.new) }
    {
        self.table.shared.fetch_add::<Count<M>>(pass, COUNT, more);
    }

    /// Gives the turn to the next. The value is as it was at the last count: what was written since is to be counted first.
    pub fn serve(&self, pass: &mut Pass<S, V>)
        requires own { IsPassOf self.now pass.old }
        requires held { (x : S) × Has pass.old.me x x }
        ensures same { IsSamePass pass.old pass.new × (view pass.new ≡ view pass.old) }
        ensures idle { IsIdle pass.new.me }
    {
        self.table.shared.fetch_add::<Serve>(pass, SERVING, 1);
    }

    /// Tells what the rule says of the pass's view, at any time. It changes nothing, and waits for nothing.
    pub fn learn<M: Lesson<V>>(&self, pass: &mut Pass<S, V>)
        requires own { IsPassOf self.now pass.old }
        requires rule { Tells (P.holds (start self.now)) pass.old.id (view pass.old) M.fact }
        ensures same { IsSamePass pass.old pass.new × (pass.new.me ≡ pass.old.me) }
        ensures fact { M.fact (view pass.old) }
    {
        self.table.shared.load::<Learn<M>>(pass, COUNT);
    }

    /// Tells what the rule says of the pass's view and of the value at the last count, if the pass has the turn. It
    /// changes nothing.
    pub fn know<M: Insight<S, V>>(&self, pass: &mut Pass<S, V>)
        requires own { IsPassOf self.now pass.old }
        requires rule { Shows (P.holds (start self.now)) pass.old.id (view pass.old) M.told }
        ensures same { IsSamePass pass.old pass.new × (pass.new.me ≡ pass.old.me) }
        ensures told { (x y : S) → Has pass.old.me x y → M.told (view pass.old) x }
    {
        self.table.shared.load::<Know<M>>(pass, COUNT);
    }

    /// Cuts the view of an idle pass in two, and gives the second part to a new pass.
    pub fn split_pass<M: Split<V>>(&self, pass: &mut Pass<S, V>) -> Pass<S, V>
        requires own { IsPassOf self.now pass.old }
        requires idle { IsIdle pass.old.me }
        requires rule { Forks (P.holds (start self.now)) pass.old.id (view pass.old)
            (M.left (view pass.old)) (M.right (view pass.old)) }
        ensures kept { IsSamePass pass.old pass.new × IsIdle pass.new.me × (view pass.new ≡ M.left (view pass.old)) }
        ensures given { IsPassOf self.now result × IsIdle result.me × (view result ≡ M.right (view pass.old)) }
    {
        self.table.shared.split_seat::<Cut<M>>(pass)
    }

    /// Puts the view of another idle pass into that of this one. The other is used up.
    pub fn join_pass<M: Join<V>>(&self, pass: &mut Pass<S, V>, other: Pass<S, V>)
        requires own { IsPassOf self.now pass.old × IsPassOf self.now other }
        requires idle { IsIdle pass.old.me × IsIdle other.me }
        requires rule { Merges (P.holds (start self.now)) pass.old.id (view pass.old) other.id (view other)
            (M.both (view pass.old) (view other)) M.spent }
        ensures { IsSamePass pass.old pass.new × IsIdle pass.new.me × (view pass.new ≡ M.both (view pass.old) (view other)) }
    {
        self.table.shared.join_seat::<Glue<M>>(pass, other);
    }
}
