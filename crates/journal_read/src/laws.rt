// What holds of every text of lines.
ghost use Rattle.std.specs.Prelude.{◌≡◌, ℕ, List};
ghost use Rattle.crawl_kinds.specs.declared.event.Event.{Event};
ghost use Rattle.journal_valid.specs.Valid.{IsSpelled};
ghost use Rattle.journal_read.specs.Faults.{IsBadLine};

/// Two lists of valid events whose lines, joined, are one text are equal.
pub fn one_text_one_list()
    ensures { (events others : List Event) (text : List ℕ) → IsSpelled events text → IsSpelled others text → events ≡ others }
{}

/// A text with a bad line is that of no list of events, and it has one bad line.
pub fn one_bad_line()
    ensures none { (n : ℕ) (text : List ℕ) (events : List Event) → IsBadLine n text → IsSpelled events text → ⊥ }
    ensures one { (n m : ℕ) (text : List ℕ) → IsBadLine n text → IsBadLine m text → n ≡ m }
{}
