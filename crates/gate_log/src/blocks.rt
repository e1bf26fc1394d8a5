// The blocks of a whole file.
ghost use Rattle.std.specs.Prelude.{◌≡◌, ◌≢◌, ◌+◌, ◌<◌, ◌≤◌, ◌^◌, [], ◌∷◌, ◌++◌, List, ℕ, length, take, drop, IfOk, IfErr, MatchOption};
ghost use Rattle.gate_log.specs.Blocks.{blocks, framed, hex_digit, hex_digits, IsBody};
ghost use Rattle.gate_log.specs.Reading.{AreBlocksOf, bodies_of, IsReadFault};
ghost use Rattle.gate_log.specs.declared.blocks.ReadFault.TheVariants.{Starved as NoRoom};

use crate::block::{Block, Blocks, Bytes};
use crate::frame::MOST_BODY;
use crawl_kinds::NoMemory;
use std::alloc::{AllocError, Global};

/// Why bytes were not read as a log: for want of memory, or since they are damaged at this gate.
#[derive(Clone, Copy, Debug, PartialEq, Eq)]
pub enum ReadFault {
    Starved,
    DamagedAt(usize),
}

impl From<AllocError> for ReadFault {
    ghost from_gives = { λ _ fault. fault ≡ NoRoom };

    fn from(_: AllocError) -> Self {
        ReadFault::Starved
    }
}

impl From<NoMemory> for ReadFault {
    ghost from_gives = { λ _ fault. fault ≡ NoRoom };

    fn from(_: NoMemory) -> Self {
        ReadFault::Starved
    }
}

/// The value of a digit, 0 to 9 or a to f.
fn digit_value(digit: u8) -> Option<u8>
    ensures { MatchOption result ((d : ℕ) → d < 16 → digit ≢ hex_digit d) (λ d. (d < 16) × (digit ≡ hex_digit d)) }
{
    match digit {
        b'0'..=b'9' => Some(digit - b'0'),
        b'a'..=b'f' => Some(digit - b'a' + 10),
        _ => None,
    }
}

/// The number that digits spell.
fn digits_value(digits: &[u8]) -> Option<u64>
    requires { length digits.now ≤ 8 }
    ensures { MatchOption result ((n : ℕ) → digits.now ≢ hex_digits (length digits.now) n) (λ n. (n < 16 ^ length digits.now) × (digits.now ≡ hex_digits (length digits.now) n)) }
{
    let mut value = 0u64;
    for digit in digits {
        let Some(digit) = digit_value(*digit) else {
            return None;
        };
        value = value * 16 + digit as u64;
    }
    Some(value)
}

/// The length of the body that stands behind an open gate, where it stands there whole and the next gate behind it.
fn body_len(rest: &[u8]) -> Option<usize>
    ensures { MatchOption result ((body : List ℕ) (gate : ℕ) (behind : List ℕ) → IsBody body → rest.now ≢ framed body ++ gate ∷ behind)
        (λ n. IsBody (take n (drop 9 rest.now)) × (9 + n < length rest.now) × (rest.now ≡ framed (take n (drop 9 rest.now)) ++ drop (9 + n) rest.now)) }
{
    if rest.len() < 11 {
        return None;
    }
    if rest[8] != b'\n' {
        return None;
    }
    let Some(len) = digits_value(&rest[..8]) else {
        return None;
    };
    let len = len as usize;
    if len < 1 {
        return None;
    }
    if len > MOST_BODY {
        return None;
    }
    if rest.len() - 9 <= len {
        return None;
    }
    Some(len)
}

/// A block of a body.
fn block_of(alloc: Global, gate: usize, body: &[u8]) -> Result<Block, AllocError>
    ensures { IfOk result (λ block. block ≡ record { gate = gate; body = body.now }) }
{
    Ok(Block {
        gate: gate as u64,
        body: Bytes::from(body.to_vec(alloc)?),
    })
}

/// The blocks that the bytes of a file count, and the place of the gate that ends them.
pub fn read_blocks(alloc: Global, bytes: &[u8]) -> Result<(usize, Blocks), ReadFault>
    ensures blocks { IfOk result (λ r. AreBlocksOf r.1 bytes.now) }
    ensures gate { IfOk result (λ r. r.0 ≡ length (blocks (bodies_of r.1))) }
    ensures within { IfOk result (λ r. r.0 ≤ length bytes.now) }
    ensures fault { IfErr result (IsReadFault bytes.now) }
{
    let mut list = Blocks::new(alloc);
    if bytes.len() <= 1 {
        return Ok((0, list));
    }
    let mut at = 0;
    while bytes[at] == b'+' {
        let Some(len) = body_len(&bytes[at + 1..]) else {
            return Err(ReadFault::DamagedAt(at));
        };
        list.push(block_of(alloc, at, &bytes[at + 10..at + 10 + len])?)?;
        at += 10 + len;
    }
    Ok((at, list))
}
