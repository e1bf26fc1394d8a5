//! A value that several callers use in turns, under a rule of their own: a ticket lock over one slot of a table.
//!
//! Each caller has a `Pass`, which has no bytes. `take` waits for the turn, and `value_mut` lends the value to the pass
//! that has it. `count` makes what was written part of the rule, and `serve` gives the turn to the next. What a pass
//! knows is its view, which proofs alone see, and the rule ties the views of all passes to the one value. `split_pass`
//! and `join_pass` cut views and put them together, `learn` and `know` tell what the rule says, and `close` gives the
//! value back. At most 32 passes may draw, each under a number of its own.
#![tactic(auto)]

ghost use Rattle.std.specs.Prelude.{ℕ, List, ◌≡◌, ◌∷◌, []};

mod close;
mod lend;
mod plays;
mod turn;

pub use atomic_table::{Join, Split};
use atomic_table::{Seat, Table, TableRule};
use std::alloc::Global;
use std::marker::PhantomData;
use std::snapshot::Snapshot;

/// The caller's rule, over the value and what each pass knows.
pub trait Protocol<S, V> {
    // What holds of the value at the start, the value at the last count, and the views of all passes.
    ghost holds: { S → S → List V → Type 0 };
    // The view of the first pass, by the value at the start.
    ghost first: { S → V };
    // How much was done to a value, as word 0 counts it.
    ghost count: { S → ℕ };
    // Which views may draw a ticket.
    ghost may: { V → Type 0 };
    // The number under which such a view draws.
    ghost name: { V → ℕ };
}

/// What a count tells: of the view before, the value at the last count and the value now, and the view after.
pub trait Outcome<S, V> {
    ghost then: { V → S → S → V → Type 0 };
}

/// What a look at the rule tells of a view.
pub trait Lesson<V> {
    ghost fact: { V → Type 0 };
}

/// What a look at the rule tells of a view and of the value, while the pass has the turn.
pub trait Insight<S, V> {
    ghost told: { V → S → Type 0 };
}

/// How far a pass is with a turn.
pub enum Stage<S> {
    /// It has no ticket.
    Idle,
    /// It has drawn this ticket.
    Waiting(u64),
    /// It has the turn by this ticket, and the value was this at the last count.
    Holding(u64, S),
}

/// The view of a seat at the table: the stage, and the caller's part. No value of it is made.
pub struct Doing<S, V> {
    pub stage: Stage<S>,
    pub client: V,
}

/// The table's rule, made of the caller's.
pub struct Turns<P> {
    protocol: PhantomData<P>,
}

impl<S, V, P: Protocol<S, V>> TableRule<S, Doing<S, V>, Snapshot<S>> for Turns<P> {
    ghost use Rattle.turn_lock.specs.Turn.{InTurn, idle};

    ghost holds = { λ key. InTurn P.count P.may (P.holds key.value) };

    ghost first = { λ key. idle (P.first key.value) };
}

/// A caller's right to take turns at one lock. It has no bytes.
pub type Pass<S, V> = Seat<S, Doing<S, V>>;

/// A turn lock over a value S, with views V and the rule P: a table with three words and one slot.
#[derive(Drop)]
pub struct TurnLock<S, V, P: Protocol<S, V>> {
    pub table: Table<S, Doing<S, V>, Snapshot<S>, Turns<P>, Global>,
    ghost sized: { (table.shared.table_id.words ≡ 3) × (table.shared.table_id.slots ≡ 1) },
}
