// What holds of every file, and of every journal at rest.
ghost use Rattle.std.specs.Prelude.{◌≡◌, ◌≤◌, ℕ, List, [], length};
ghost use Rattle.std.specs.List.{AllByRecursion};
ghost use Rattle.crawl_kinds.specs.declared.event.Event.{Event};
ghost use Rattle.crawl_traits.specs.Images.{Only};
ghost use Rattle.crawl_traits.specs.Runs.{IsSettled};
ghost use Rattle.journal_valid.specs.Valid.{IsEvent};
ghost use Rattle.recover_journal.specs.Holds.{journal_file, Holds, HoldsEvents};
ghost use Rattle.recover_journal.specs.Faults.{IsJournalDamage};
ghost use Rattle.recover_journal.specs.Rest.{Rests};
ghost use Rattle.recover_journal.specs.declared.journal.Journal.{Journal};

use crawl_traits::Volume;
use gate_log::one_reading;
use journal_read::one_text_one_list;

/// A file holds one list of events with one list of gates, the events are valid, and each has a gate. A damaged file
/// holds none, and is damaged at one gate. A file of at most one byte holds no events.
pub fn one_journal()
    ensures one { (events others : List Event) (gates places : List ℕ) (file : List ℕ) → Holds events gates file → Holds others places file → (events ≡ others) × (gates ≡ places) }
    ensures valid { (events : List Event) (gates : List ℕ) (file : List ℕ) → Holds events gates file → AllByRecursion IsEvent events × (length gates ≡ length events) }
    ensures damaged { (at : ℕ) (events : List Event) (gates : List ℕ) (file : List ℕ) → IsJournalDamage at file → Holds events gates file → ⊥ }
    ensures place { (at other : ℕ) (file : List ℕ) → IsJournalDamage at file → IsJournalDamage other file → at ≡ other }
    ensures empty { (file : List ℕ) → length file ≤ 1 → Holds [] [] file }
{
    one_reading();
    one_text_one_list();
}

/// A journal at rest: a read gives its events, each image that a crash may leave holds them, and it rests still where
/// its file is as it was and on the disk.
pub fn a_journal_at_rest<V: Volume>()
    ensures read { (journal : Journal) (volume : V) (events : List Event) → Rests V.Volume journal volume events → HoldsEvents events (V.contents volume journal_file) }
    ensures settled { (journal : Journal) (volume : V) (events : List Event) → Rests V.Volume journal volume events
        → IsSettled V.Volume volume (λ image. HoldsEvents events (image journal_file)) }
    ensures lasts { (journal : Journal) (before after : V) (events : List Event) → Rests V.Volume journal before events → V.tells after ≡ V.tells before
        → V.contents after journal_file ≡ V.contents before journal_file → Only journal_file (V.contents after journal_file) (V.may_leave after) → Rests V.Volume journal after events }
{}
