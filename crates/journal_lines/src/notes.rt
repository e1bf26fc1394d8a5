// The remarks on an end, with a space before the first and a comma before each other.
ghost use Rattle.std.specs.Prelude.{◌≡◌, Some, ◌∷◌, ◌++◌, [], OnOk, OnErr, length, take};
ghost use Rattle.journal_spec.specs.Fields.{cut_notes, tries_notes, cause_notes, joined_notes, notes_field};
ghost use Rattle.journal_lines.specs.Written.{marked, spaced};

use crate::write::{write_code, write_field, write_number, write_text};
use crawl_kinds::{Cut, NoMemory, Notes};

/// The note on a cut.
fn note_of(cut: Cut) -> &'static [u8]
    ensures { cut_notes (Some cut) ≡ result.now ∷ [] }
{
    match cut {
        Cut::Length => b"trunc:length",
        Cut::Disconnect => b"trunc:disconnect",
    }
}

/// Writes a mark and the try number, from the second try on.
fn write_tries(tries: u32, mark: u8, into: &mut Vec<u8>) -> Result<(), NoMemory>
    ensures ok { OnOk result (into.new.items ≡ into.old.items ++ marked mark (tries_notes tries)) }
    ensures err { OnErr result (take (length into.old.items) into.new.items ≡ into.old.items) }
{
    if tries < 2 {
        return Ok(());
    }
    write_text(&[mark], into)?;
    write_text(b"tries:", into)?;
    write_number(u64::from(tries), into)
}

/// Writes a mark and the code of the cause, where there is one.
fn write_cause(cause: i32, mark: u8, into: &mut Vec<u8>) -> Result<(), NoMemory>
    ensures ok { OnOk result (into.new.items ≡ into.old.items ++ marked mark (cause_notes cause)) }
    ensures err { OnErr result (take (length into.old.items) into.new.items ≡ into.old.items) }
{
    if cause == 0 {
        return Ok(());
    }
    write_text(&[mark], into)?;
    write_text(b"cause:", into)?;
    write_code(cause, into)
}

/// Writes the notes on an end without a cut, or `-` where there is none.
fn write_uncut_notes(tries: u32, cause: i32, into: &mut Vec<u8>) -> Result<(), NoMemory>
    ensures ok { OnOk result (into.new.items ≡ into.old.items ++ spaced (joined_notes (tries_notes tries ++ cause_notes cause) ∷ [])) }
    ensures err { OnErr result (take (length into.old.items) into.new.items ≡ into.old.items) }
{
    if 2 <= tries {
        write_tries(tries, b' ', into)?;
        return write_cause(cause, b',', into);
    }
    if cause != 0 {
        return write_cause(cause, b' ', into);
    }
    write_field(b"-", into)
}

/// Writes the notes on an end, or `-` where there is none.
pub fn write_notes(notes: Notes, into: &mut Vec<u8>) -> Result<(), NoMemory>
    ensures ok { OnOk result (into.new.items ≡ into.old.items ++ spaced (notes_field notes ∷ [])) }
    ensures err { OnErr result (take (length into.old.items) into.new.items ≡ into.old.items) }
{
    let Some(cut) = notes.cut else {
        return write_uncut_notes(notes.tries, notes.cause, into);
    };
    write_field(note_of(cut), into)?;
    write_tries(notes.tries, b',', into)?;
    write_cause(notes.cause, b',', into)
}
