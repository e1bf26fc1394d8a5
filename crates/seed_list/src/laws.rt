// What follows from the definitions alone: the proofs of these empty functions are the laws.
ghost use Rattle.std.specs.Prelude.{◌≡◌, ℕ, List};
ghost use Rattle.seed_list.specs.Bad.{AreGood, IsBadLine, IsRefused, IsRefusedSeed};
ghost use Rattle.seed_list.specs.Worked.{AreWorked};

/// The first bad line of a text has one number.
pub fn a_bad_line_has_one_number()
    ensures listed { (all : List (List ℕ)) (n m : ℕ) → IsBadLine IsRefused all n → IsBadLine IsRefused all m → n ≡ m }
    ensures added { (all : List (List ℕ)) (n m : ℕ) → IsBadLine IsRefusedSeed all n → IsBadLine IsRefusedSeed all m → n ≡ m }
{}

/// A text with a bad line is not read: no line of a text that is read is bad.
pub fn a_text_with_a_bad_line_is_not_read()
    ensures listed { (all : List (List ℕ)) (n : ℕ) → AreGood IsRefused all → IsBadLine IsRefused all n → ⊥ }
    ensures added { (all : List (List ℕ)) (n : ℕ) → AreGood IsRefusedSeed all → IsBadLine IsRefusedSeed all n → ⊥ }
{}

/// What the definitions give for lines whose answers are known.
pub fn worked_examples()
    ensures { AreWorked }
{}
