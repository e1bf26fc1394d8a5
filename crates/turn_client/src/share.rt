//! What a part of a tally knows, and the rule that ties all parts to the total.
ghost use Rattle.std.specs.Prelude.{◌≡◌};

use turn_lock::{Insight, Join, Lesson, Outcome, Protocol, Split};

/// The numbers from `first` to before `end`, how much was added under them, and how much more may be. No value of it is made.
pub struct Share {
    pub first: u32,
    pub end: u32,
    pub made: u64,
    pub left: u64,
}

/// The rule.
pub struct Adds;

impl Protocol<u64, Share> for Adds {
    ghost use Rattle.turn_client.specs.Shares.{Balanced, MayDraw, whole};

    ghost holds = { Balanced };

    ghost first = { whole };

    ghost count = { λ n. n };

    ghost may = { MayDraw };

    ghost name = { λ v. v.first };
}

/// One was added.
pub struct Added;

impl Outcome<u64, Share> for Added {
    ghost use Rattle.turn_client.specs.Shares.{more};

    ghost then = { λ v _ _ w. w ≡ more v };
}

/// There is room for what may be added.
pub struct Room;

impl Insight<u64, Share> for Room {
    ghost use Rattle.turn_client.specs.Shares.{HasRoom};

    ghost told = { HasRoom };
}

/// What was added and what may be added fit together.
pub struct Sums;

impl Lesson<Share> for Sums {
    ghost use Rattle.turn_client.specs.Shares.{IsSmall};

    ghost fact = { IsSmall };
}

/// The last number goes to a new part.
pub struct Deal;

impl Split<Share> for Deal {
    ghost use Rattle.turn_client.specs.Shares.{kept, dealt};

    ghost left = { kept };

    ghost right = { dealt };
}

/// Two parts become one.
pub struct Both;

impl Join<Share> for Both {
    ghost use Rattle.turn_client.specs.Shares.{joined, nobody};

    ghost both = { joined };

    ghost spent = { nobody };
}
