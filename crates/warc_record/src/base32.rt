// Base32 (RFC 4648 §6) of whole groups of five bytes.
ghost use Rattle.std.specs.Prelude.{◌≡◌, ◌≤◌, ◌++◌, OnOk, length, drop};
ghost use Rattle.record_spec.specs.Base32.{letter, group_text, base32};

use crawl_kinds::NoMemory;

/// The letters that stand for 0 to 31.
const ALPHABET: &[u8; 32] = b"ABCDEFGHIJKLMNOPQRSTUVWXYZ234567";

/// The letter of the lowest five bits.
fn letter(number: u64) -> u8
    ensures { result ≡ letter number }
{
    ALPHABET[(number % 32) as usize]
}

/// The letters of forty bits.
fn group_text(number: u64) -> [u8; 8]
    ensures { result ≡ group_text number }
{
    [
        letter(number >> 35),
        letter(number >> 30),
        letter(number >> 25),
        letter(number >> 20),
        letter(number >> 15),
        letter(number >> 10),
        letter(number >> 5),
        letter(number),
    ]
}

/// The number of the first five bytes.
fn group_number(bytes: &[u8]) -> u64
    requires { 5 ≤ length bytes.now }
    ensures { base32 bytes.now ≡ group_text result ++ base32 (drop 5 bytes.now) }
{
    u64::from_be_bytes([0, 0, 0, bytes[0], bytes[1], bytes[2], bytes[3], bytes[4]])
}

/// Writes eight letters for each five bytes. Fewer than five at the end are not written.
pub fn push_base32(bytes: &[u8], into: &mut Vec<u8>) -> Result<(), NoMemory>
    ensures { OnOk result (into.new.items ≡ into.old.items ++ base32 bytes.now) }
{
    let mut left = bytes;
    while left.len() >= 5 {
        into.extend_from_slice(&group_text(group_number(left)))?;
        left = &left[5..];
    }
    Ok(())
}
