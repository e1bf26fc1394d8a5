// Numbers in decimal digits.
ghost use Rattle.std.specs.Prelude.{◌≡◌, ◌<◌, ◌≤◌, ◌^◌, ℤ, decimal, IsTrue};
ghost use Rattle.std.specs.Fmt.{signed_decimal};
ghost use Rattle.journal_read.specs.Reading.{Finds};
ghost use Rattle.journal_read.specs.Lines.{is_code, IsPlainCode, IsMinusCode};

use std::str;

/// The number that a text spells, with no leading zero and no sign, of at most `most`.
pub fn number_of(text: &[u8], most: u64) -> Option<u64>
    ensures { Finds (λ n. (text.now ≡ decimal n) × (n ≤ most)) result }
{
    if text.len() == 0 {
        return None;
    }
    let first = text[0];
    if first == b'+' {
        return None;
    }
    if first == b'0' && text.len() > 1 {
        return None;
    }
    let Ok(digits) = str::from_utf8(text) else {
        return None;
    };
    let Ok(number) = digits.parse::<u64>() else {
        return None;
    };
    if most < number {
        return None;
    }
    Some(number)
}

/// The code that a text without a minus spells, up to 999.
fn plain_code(text: &[u8]) -> Option<i32>
    ensures { Finds (λ code. IsPlainCode text.now code) result }
{
    match number_of(text, 999) {
        Some(number) => Some(number as i32),
        None => None,
    }
}

/// The code that a text spells behind a minus, from -9,998.
fn minus_code(text: &[u8]) -> Option<i32>
    ensures { Finds (λ code. IsMinusCode text.now code) result }
{
    match number_of(text, 9998) {
        Some(0) => None,
        Some(number) => Some(-1 - (number - 1) as i32),
        None => None,
    }
}

/// The code that a text spells, from -9,998 to 999.
pub fn code_of(text: &[u8]) -> Option<i32>
    ensures { Finds (λ code. (text.now ≡ signed_decimal code) × IsTrue (is_code code)) result }
{
    if text.is_empty() {
        return None;
    }
    if text[0] != b'-' {
        return plain_code(text);
    }
    minus_code(&text[1..])
}
