//! A part of a tally.
ghost use Rattle.std.specs.Prelude.{◌≡◌};
ghost use Rattle.turn_lock.specs.Plays.{IsIdle};
ghost use Rattle.turn_client.specs.Shares.{share};

use crate::share::Share;
use turn_lock::Pass;

/// The right to add to a tally, under the numbers from `first` to before `end`. `made` was added, and `left` may be.
#[derive(Drop)]
pub struct Part {
    pub pass: Pass<u64, Share>,
    pub first: u32,
    pub end: u32,
    pub made: u64,
    pub left: u64,
    ghost idle: { IsIdle pass.me },
    ghost knows: { pass.me.0.client ≡ share first end made left },
}
