// Worked examples of the spelling, as a law of the definitions.
ghost use Rattle.std.specs.Prelude.{◌≡◌, flat_map, length};
ghost use Rattle.journal_spec.specs.Journal.{spelling};
ghost use Rattle.journal_lines.specs.Examples.{opening, opening_lines, handed_out, handed_out_lines};
ghost use Rattle.journal_lines.specs.FinishExamples.{lacking_robots, lacking_robots_lines, robots_missing, robots_missing_lines, broken_off, broken_off_lines};

/// The examples are spelled as they were written by hand: a session and two seeds, an item that is emitted,
/// one that waits for its robots file, a robots file that isn't there, and a last failure. It does nothing.
pub fn examples_are_spelled()
    ensures opening { flat_map spelling opening ≡ opening_lines }
    ensures opening_length { length opening_lines ≡ 123 }
    ensures handed_out { spelling handed_out ≡ handed_out_lines }
    ensures lacking_robots { spelling lacking_robots ≡ lacking_robots_lines }
    ensures robots_missing { spelling robots_missing ≡ robots_missing_lines }
    ensures broken_off { spelling broken_off ≡ broken_off_lines }
{}
