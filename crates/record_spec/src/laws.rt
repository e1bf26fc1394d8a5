// Laws of the definitions.
ghost use Rattle.std.specs.Prelude.{◌≡◌, ℕ, List};
ghost use Rattle.record_spec.specs.Date.{IsDateOf};
ghost use Rattle.record_spec.specs.Worked.{AreWorked};

/// What the definitions give where the answer is known. It does nothing.
pub fn worked_examples()
    ensures { AreWorked }
{}

/// A moment is written as one date alone. It does nothing.
pub fn a_moment_has_one_date()
    ensures { (moment : ℕ) → (one other : List ℕ) → IsDateOf moment one → IsDateOf moment other → one ≡ other }
{}
