// Texts and numbers at the end of a journal. After a failure the journal still begins with what it held.
ghost use Rattle.std.specs.Prelude.{◌≡◌, ◌∷◌, ◌++◌, OnOk, OnErr, length, take};
ghost use Rattle.std.specs.Fmt.{decimal, signed_decimal};
ghost use Rattle.journal_spec.specs.Journal.{space};

use crawl_kinds::NoMemory;
use itoa::Buffer;

/// Writes bytes.
pub fn write_text(text: &[u8], into: &mut Vec<u8>) -> Result<(), NoMemory>
    ensures ok { OnOk result (into.new.items ≡ into.old.items ++ text.now) }
    ensures err { OnErr result (take (length into.old.items) into.new.items ≡ into.old.items) }
{
    into.extend_from_slice(text)?;
    Ok(())
}

/// Writes a number in decimal.
pub fn write_number(number: u64, into: &mut Vec<u8>) -> Result<(), NoMemory>
    ensures ok { OnOk result (into.new.items ≡ into.old.items ++ decimal number) }
    ensures err { OnErr result (take (length into.old.items) into.new.items ≡ into.old.items) }
{
    let mut digits = Buffer::new();
    write_text(digits.format(number).as_bytes(), into)
}

/// Writes a signed number in decimal.
pub fn write_code(code: i32, into: &mut Vec<u8>) -> Result<(), NoMemory>
    ensures ok { OnOk result (into.new.items ≡ into.old.items ++ signed_decimal code) }
    ensures err { OnErr result (take (length into.old.items) into.new.items ≡ into.old.items) }
{
    let mut digits = Buffer::new();
    write_text(digits.format(code).as_bytes(), into)
}

/// Writes a space and a text.
pub fn write_field(field: &[u8], into: &mut Vec<u8>) -> Result<(), NoMemory>
    ensures ok { OnOk result (into.new.items ≡ into.old.items ++ space ∷ field.now) }
    ensures err { OnErr result (take (length into.old.items) into.new.items ≡ into.old.items) }
{
    write_text(b" ", into)?;
    write_text(field, into)
}

/// Writes a space and a number.
pub fn write_number_field(number: u64, into: &mut Vec<u8>) -> Result<(), NoMemory>
    ensures ok { OnOk result (into.new.items ≡ into.old.items ++ space ∷ decimal number) }
    ensures err { OnErr result (take (length into.old.items) into.new.items ≡ into.old.items) }
{
    write_text(b" ", into)?;
    write_number(number, into)
}
