//! A total that several parts add to, one at a time.
ghost use Rattle.std.specs.Prelude.{◌≡◌, ◌+◌, ◌<◌, ◌≤◌, ℕ, IfOk};
ghost use Rattle.turn_lock.specs.Plays.{Has};
ghost use Rattle.turn_lock.specs.Passes.{start, IsPassOf, IsSamePass};

use crate::part::Part;
use crate::share::{Added, Adds, Both, Deal, Room, Share, Sums};
use std::alloc::{AllocError, Global};
use std::sync::Wait;
use turn_lock::{Pass, TurnLock};

/// How much each new part may add.
pub const DEALT_ROOM: u64 = 1 << 40;

type Lock = TurnLock<u64, Share, Adds>;

#[derive(Drop)]
pub struct Tally {
    pub lock: Lock,
}

impl Tally {
    /// A tally that begins at `total`, and its first part, which has all 32 numbers.
    pub fn new(alloc: Global, total: u64) -> Result<(Tally, Part), AllocError>
        ensures lock { IfOk result (λ t. (start t.0.lock ≡ total) × IsPassOf t.0.lock t.1.pass) }
        ensures part { IfOk result
            (λ t. (t.1.first ≡ 0) × (t.1.end ≡ 32) × (t.1.made ≡ 0) × (t.1.left + total ≡ u64.MAX)) }
    {
        match Lock::new(alloc, total, total) {
            Ok((lock, pass)) => {
                let part = Part {
                    pass,
                    first: 0,
                    end: 32,
                    made: 0,
                    left: u64::MAX - total,
                };
                Ok((Tally { lock }, part))
            }
            Err(_) => Err(AllocError),
        }
    }

    /// Adds one, in turn.
    pub fn add<R: Wait>(&self, rt: &R, part: &mut Part)
        requires own { IsPassOf self.now.lock part.old.pass }
        requires may { part.old.first < part.old.end }
        requires room { 0 < part.old.left }
        ensures own { IsPassOf self.now.lock part.new.pass }
        ensures same { (part.new.first ≡ part.old.first) × (part.new.end ≡ part.old.end) }
        ensures more { (part.new.made ≡ part.old.made + 1) × (part.new.left + 1 ≡ part.old.left) }
    {
        self.lock.take(rt, &mut part.pass);
        self.lock.know::<Room>(&mut part.pass);
        self.raise(&mut part.pass);
        self.lock.count::<Added>(&mut part.pass, 1);
        self.lock.serve(&mut part.pass);
        part.made += 1;
        part.left -= 1;
    }

    // The total goes up by one.
    fn raise(&self, pass: &mut Pass<u64, Share>)
        requires own { IsPassOf self.now.lock pass.old }
        requires held { (x : ℕ) × Has pass.old.me x x × (x < u64.MAX) }
        ensures same { IsSamePass pass.old pass.new × (pass.new.me.0 ≡ pass.old.me.0) }
        ensures raised { (x : ℕ) → Has pass.old.me x x → Has pass.new.me x (x + 1) }
    {
        let total = TurnLock::value_mut(pass, &self.lock);
        *total += 1;
    }

    /// A new part, with the last number of this one and `DEALT_ROOM` of its room.
    pub fn deal(&self, part: &mut Part) -> Part
        requires own { IsPassOf self.now.lock part.old.pass }
        requires two { part.old.first + 1 < part.old.end }
        requires room { DEALT_ROOM ≤ part.old.left }
        ensures own { IsPassOf self.now.lock part.new.pass × IsPassOf self.now.lock result.pass }
        ensures kept { (part.new.first ≡ part.old.first) × (part.new.end + 1 ≡ part.old.end)
            × (part.new.made ≡ part.old.made) × (part.new.left + DEALT_ROOM ≡ part.old.left) }
        ensures dealt { (result.first ≡ part.new.end) × (result.end ≡ part.old.end)
            × (result.made ≡ 0) × (result.left ≡ DEALT_ROOM) }
    {
        let pass = self.lock.split_pass::<Deal>(&mut part.pass);
        let end = part.end;
        part.end -= 1;
        part.left -= DEALT_ROOM;
        Part {
            pass,
            first: end - 1,
            end,
            made: 0,
            left: DEALT_ROOM,
        }
    }

    /// Puts a part and the one with the next numbers together.
    pub fn join(&self, part: &mut Part, next: Part)
        requires own { IsPassOf self.now.lock part.old.pass × IsPassOf self.now.lock next.pass }
        requires both { (part.old.first < part.old.end) × (next.first < next.end) }
        requires adjacent { part.old.end ≡ next.first }
        ensures own { IsPassOf self.now.lock part.new.pass }
        ensures numbers { (part.new.first ≡ part.old.first) × (part.new.end ≡ next.end) }
        ensures sums { (part.new.made ≡ part.old.made + next.made) × (part.new.left ≡ part.old.left + next.left) }
    {
        let Part {
            pass,
            first: _,
            end,
            made,
            left,
        } = next;
        self.lock.join_pass::<Both>(&mut part.pass, pass);
        self.lock.learn::<Sums>(&mut part.pass);
        part.end = end;
        part.made += made;
        part.left += left;
    }

    /// The total: the start, and all that the parts added.
    pub fn close(self, part: Part) -> u64
        requires own { IsPassOf self.lock part.pass }
        requires all { (part.first ≡ 0) × (part.end ≡ 32) }
        ensures { result ≡ start self.lock + part.made }
    {
        let Tally { lock } = self;
        let Part {
            pass,
            first: _,
            end: _,
            made: _,
            left: _,
        } = part;
        lock.close(pass)
    }
}
