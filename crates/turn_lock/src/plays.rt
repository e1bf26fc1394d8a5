//! The steps on the lock's words, and what each tells the pass that takes it.
ghost use Rattle.turn_lock.specs.Turn.{doing, idle};
ghost use Rattle.turn_lock.specs.Plays.{Draws, Looks, Counts, Serves, Learns, Knows};

use crate::{Doing, Insight, Lesson, Outcome};
use atomic_table::{Join, Play, Split};
use std::marker::PhantomData;

// Draws a ticket, by an addition to word 1.
pub(crate) struct Draw;

impl<S, V> Play<S, Doing<S, V>> for Draw {
    ghost then = { λ _. Draws };
}

// Looks whether the ticket is served, and takes the slot if so, by a load of word 2.
pub(crate) struct Look;

impl<S, V> Play<S, Doing<S, V>> for Look {
    ghost then = { λ _. Looks };
}

// Counts what was done to the value, by an addition to word 0.
pub(crate) struct Count<M> {
    outcome: PhantomData<M>,
}

impl<S, V, M: Outcome<S, V>> Play<S, Doing<S, V>> for Count<M> {
    ghost then = { λ _. Counts M.then };
}

// Puts the slot back and serves the next ticket, by an addition to word 2.
pub(crate) struct Serve;

impl<S, V> Play<S, Doing<S, V>> for Serve {
    ghost then = { λ _. Serves };
}

// Learns a fact of the view, by a load of word 0.
pub(crate) struct Learn<M> {
    lesson: PhantomData<M>,
}

impl<S, V, M: Lesson<V>> Play<S, Doing<S, V>> for Learn<M> {
    ghost then = { λ _. Learns M.fact };
}

// Learns a fact of the view and the value, by a load of word 0.
pub(crate) struct Know<M> {
    insight: PhantomData<M>,
}

impl<S, V, M: Insight<S, V>> Play<S, Doing<S, V>> for Know<M> {
    ghost then = { λ _. Knows M.told };
}

// Cuts the caller's part of a view in two. The new pass is idle.
pub(crate) struct Cut<M> {
    split: PhantomData<M>,
}

impl<S, V, M: Split<V>> Split<Doing<S, V>> for Cut<M> {
    ghost left = { λ d. doing d.stage (M.left d.client) };

    ghost right = { λ d. idle (M.right d.client) };
}

// Puts the callers' parts of two views together. The spent pass is idle.
pub(crate) struct Glue<M> {
    join: PhantomData<M>,
}

impl<S, V, M: Join<V>> Join<Doing<S, V>> for Glue<M> {
    ghost both = { λ d e. doing d.stage (M.both d.client e.client) };

    ghost spent = { idle M.spent };
}
