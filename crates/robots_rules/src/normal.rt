// The one form in which octets are compared (RFC 9309 §2.2.2).
ghost use Rattle.std.specs.Prelude.{◌≡◌, IfOk, OnOk, ◌++◌};
ghost use Rattle.std.specs.Char.{is_digit, digit_value};
ghost use Rattle.robots_spec.specs.Patterns.{normal, is_unreserved, octet_or_triple, escaped_past_ascii};
ghost use Rattle.robots_rules.specs.Reading.{hex_value, escape_at};

use crate::line::from;
use crawl_kinds::NoMemory;
use percent_encoding::{AsciiSet, percent_encode_byte};
use std::alloc::Global;

fn is_unreserved(byte: u8) -> bool
    ensures { result ≡ is_unreserved byte }
{
    byte.is_ascii_alphanumeric() || byte == b'-' || byte == b'.' || byte == b'_' || byte == b'~'
}

/// The value of a hexadecimal digit.
fn hex_value(byte: u8) -> Option<u8>
    ensures { result ≡ hex_value byte }
{
    match byte {
        b'0'..=b'9' => Some(byte - b'0'),
        b'A'..=b'F' => Some(byte - b'A' + 10),
        b'a'..=b'f' => Some(byte - b'a' + 10),
        _ => None,
    }
}

/// The octet of a triple at the front, if one stands there.
fn escape_at(bytes: &[u8]) -> Option<u8>
    ensures { result ≡ escape_at bytes.now }
{
    match bytes {
        [b'%', high, low, ..] => {
            let high = hex_value(*high)?;
            let low = hex_value(*low)?;
            Some(16 * high + low)
        }
        _ => None,
    }
}

/// Puts the octet of a triple at the end: itself where it is unreserved, else its triple.
fn push_escaped(own: &mut Vec<u8>, octet: u8) -> Result<(), NoMemory>
    ensures { OnOk result (own.new.items ≡ own.old.items ++ octet_or_triple octet) }
{
    if is_unreserved(octet) {
        own.push(octet)?;
    } else {
        own.extend_from_slice(percent_encode_byte(octet).as_bytes())?;
    }
    Ok(())
}

/// Puts an octet at the end: its triple where it is past ASCII, else itself.
fn push_octet(own: &mut Vec<u8>, octet: u8) -> Result<(), NoMemory>
    ensures { OnOk result (own.new.items ≡ own.old.items ++ escaped_past_ascii octet) }
{
    if AsciiSet::EMPTY.should_percent_encode(octet) {
        own.extend_from_slice(percent_encode_byte(octet).as_bytes())?;
    } else {
        own.push(octet)?;
    }
    Ok(())
}

/// The bytes in the form in which they are compared.
///
/// `percent_decode` does not serve here, since it also decodes the triples of reserved octets.
pub fn normal(alloc: Global, bytes: &[u8]) -> Result<Vec<u8>, NoMemory>
    ensures { IfOk result (λ own. own.items ≡ normal bytes.now) }
{
    let mut own = Vec::with_capacity(alloc, bytes.len())?;
    let mut rest = bytes;
    while !rest.is_empty() {
        match escape_at(rest) {
            Some(octet) => {
                push_escaped(&mut own, octet)?;
                rest = from(rest, 3);
            }
            None => {
                push_octet(&mut own, rest[0])?;
                rest = from(rest, 1);
            }
        }
    }
    Ok(own)
}
