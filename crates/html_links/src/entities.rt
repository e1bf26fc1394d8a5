// Character references in values of attributes.
ghost use Rattle.std.specs.Prelude.{◌≡◌, ◌+◌, ◌<◌, ◌≤◌, length, take, drop, min, IfOk, IfSome, OnOk, ◌++◌, option_map, encode_utf8};
ghost use Rattle.std.specs.List.{prefix_len};
ghost use Rattle.std.specs.Char.{digit_value, is_digit};
ghost use Rattle.link_spec.specs.Cut.{moved};
ghost use Rattle.link_spec.specs.Entities.{character_named, decoded, entity, number, numbered, numbered_by};
ghost use Rattle.html_links.specs.Reading.{past_last, entity_piece};

use crawl_kinds::NoMemory;
use link_spec::scan::{from, up_to};
use std::alloc::Global;

/// One more than the number of the last character.
const PAST_LAST: u32 = 0x110000;

/// A character that is referred to, and how many bytes that takes.
#[derive(Clone, Copy)]
struct Symbol {
    size: usize,
    character: char,
}

/// The value of a digit or a letter, and 36 for any other byte.
fn digit_value(byte: u8) -> u32
    ensures { result ≡ digit_value byte }
{
    match byte {
        b'0'..=b'9' => u32::from(byte - b'0'),
        b'A'..=b'Z' => u32::from(byte - b'A') + 10,
        b'a'..=b'z' => u32::from(byte - b'a') + 10,
        _ => 36,
    }
}

fn is_decimal(byte: u8) -> bool
    ensures { result ≡ is_digit byte 10 }
{
    digit_value(byte) < 10
}

fn is_hexadecimal(byte: u8) -> bool
    ensures { result ≡ is_digit byte 16 }
{
    digit_value(byte) < 16
}

fn decimal_len(bytes: &[u8]) -> usize
    ensures count { result ≡ prefix_len (λ b. is_digit b 10) bytes.now }
    ensures within { result ≤ length bytes.now }
{
    bytes
        .iter()
        .position(|b| !is_decimal(*b))
        .unwrap_or(bytes.len())
}

fn hexadecimal_len(bytes: &[u8]) -> usize
    ensures count { result ≡ prefix_len (λ b. is_digit b 16) bytes.now }
    ensures within { result ≤ length bytes.now }
{
    bytes
        .iter()
        .position(|b| !is_hexadecimal(*b))
        .unwrap_or(bytes.len())
}

/// The number that digits write, at most one past the last character's.
fn decimal_number(digits: &[u8]) -> u32
    ensures { result ≡ min past_last (number 10 digits.now) }
{
    let mut number: u32 = 0;
    for digit in digits {
        number = (10 * number + digit_value(*digit)).min(PAST_LAST);
    }
    number
}

fn hexadecimal_number(digits: &[u8]) -> u32
    ensures { result ≡ min past_last (number 16 digits.now) }
{
    let mut number: u32 = 0;
    for digit in digits {
        number = (16 * number + digit_value(*digit)).min(PAST_LAST);
    }
    number
}

/// The character of a number, where digits are ended by `;`.
fn numbered(code: u32, digits: usize, text: &[u8]) -> Option<Symbol>
    requires { digits ≤ length text.now }
    ensures found { option_map entity_piece result ≡ numbered code digits text.now }
    ensures within { IfSome result (λ found. found.size ≤ length text.now) }
{
    if digits > 0 && from(text, digits).starts_with(b";") {
        let character = char::from_u32(code)?;
        return Some(Symbol {
            size: digits + 1,
            character,
        });
    }
    None
}

fn decimal(text: &[u8]) -> Option<Symbol>
    ensures found { option_map entity_piece result ≡ numbered_by 10 text.now }
    ensures within { IfSome result (λ found. found.size ≤ length text.now) }
{
    let digits = decimal_len(text);
    numbered(decimal_number(up_to(text, digits)), digits, text)
}

fn hexadecimal(text: &[u8]) -> Option<Symbol>
    ensures found { option_map entity_piece result ≡ numbered_by 16 text.now }
    ensures within { IfSome result (λ found. found.size ≤ length text.now) }
{
    let digits = hexadecimal_len(text);
    numbered(hexadecimal_number(up_to(text, digits)), digits, text)
}

fn by_hexadecimal(text: &[u8]) -> Option<Symbol>
    ensures found { option_map entity_piece result ≡ option_map (moved 2) (numbered_by 16 (drop 2 text.now)) }
    ensures within { IfSome result (λ found. found.size ≤ length text.now + 2) }
{
    let found = hexadecimal(from(text, 2))?;
    Some(Symbol {
        size: 2 + found.size,
        character: found.character,
    })
}

fn by_decimal(text: &[u8]) -> Option<Symbol>
    ensures found { option_map entity_piece result ≡ option_map (moved 1) (numbered_by 10 (drop 1 text.now)) }
    ensures within { IfSome result (λ found. found.size ≤ length text.now + 2) }
{
    let found = decimal(from(text, 1))?;
    Some(Symbol {
        size: 1 + found.size,
        character: found.character,
    })
}

/// The character that is named behind `&`.
fn character_named(text: &[u8]) -> Option<Symbol>
    ensures found { option_map entity_piece result ≡ character_named text.now }
    ensures within { IfSome result (λ found. found.size ≤ length text.now + 5) }
{
    if text.starts_with(b"amp;") {
        Some(Symbol {
            size: 4,
            character: '&',
        })
    } else if text.starts_with(b"lt;") {
        Some(Symbol {
            size: 3,
            character: '<',
        })
    } else if text.starts_with(b"gt;") {
        Some(Symbol {
            size: 3,
            character: '>',
        })
    } else if text.starts_with(b"quot;") {
        Some(Symbol {
            size: 5,
            character: '"',
        })
    } else if text.starts_with(b"#x") {
        by_hexadecimal(text)
    } else if text.starts_with(b"#") {
        by_decimal(text)
    } else {
        None
    }
}

/// The reference at the front.
#[tactic(auto, unfolding(link_spec::specs::Entities::entity))]
fn entity(text: &[u8]) -> Option<Symbol>
    ensures found { option_map entity_piece result ≡ entity text.now }
    ensures some { IfSome result (λ found. 0 < found.size) }
{
    if !text.starts_with(b"&") {
        return None;
    }
    let found = character_named(from(text, 1))?;
    Some(Symbol {
        size: 1 + found.size,
        character: found.character,
    })
}

/// Puts a character at the end, in UTF-8.
fn push_character(own: &mut Vec<u8>, character: char) -> Result<(), NoMemory>
    ensures { OnOk result (own.new.items ≡ own.old.items ++ encode_utf8 character) }
{
    let mut room = [0u8; 4];
    own.extend_from_slice(character.encode_utf8(&mut room).as_bytes())?;
    Ok(())
}

/// The value with each reference replaced, once, from the left.
pub fn decoded(alloc: Global, value: &[u8]) -> Result<Vec<u8>, NoMemory>
    ensures { IfOk result (λ own. own.items ≡ decoded value.now) }
{
    let mut own = Vec::with_capacity(alloc, value.len())?;
    let mut rest = value;
    while !rest.is_empty() {
        match entity(rest) {
            Some(found) => {
                push_character(&mut own, found.character)?;
                rest = from(rest, found.size);
            }
            None => {
                own.push(rest[0])?;
                rest = from(rest, 1);
            }
        }
    }
    Ok(own)
}
