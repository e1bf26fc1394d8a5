//! How long the lines of an event may be.
#![tactic(auto)]

ghost use Rattle.journal_sizes.specs.Sizes.{ValidIsShort};

/// The lines of a valid event have at most 10,000 bytes, and 5,000 more for each address and each item that it lists.
pub fn valid_is_short()
    ensures { ValidIsShort }
{}
