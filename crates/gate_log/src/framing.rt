// A frame's bytes.
ghost use Rattle.std.specs.Prelude.{◌≡◌, ◌<◌, [], ◌∷◌, ◌++◌, OnOk, IfOk};
ghost use Rattle.gate_log.specs.Blocks.{hex_digit, hex_digits, framed, closed_gate};

use std::alloc::{AllocError, Global};

fn hex_of(digit: u8) -> u8
    requires { digit < 16 }
    ensures { result ≡ hex_digit digit }
{
    if digit < 10 {
        digit + b'0'
    } else {
        digit - 10 + b'a'
    }
}

/// Adds the last digits of a number, so many of them.
fn push_digits(bytes: &mut Vec<u8>, count: u8, number: u64) -> Result<(), AllocError>
    ensures { OnOk result (bytes.new.items ≡ bytes.old.items ++ hex_digits count number) }
{
    if count == 0 {
        return Ok(());
    }
    push_digits(bytes, count - 1, number / 16)?;
    bytes.push(hex_of((number % 16) as u8))?;
    Ok(())
}

/// Digits, LF, a body and a closed gate.
pub fn framed_bytes(alloc: Global, body: &[u8]) -> Result<Vec<u8>, AllocError>
    ensures { IfOk result (λ bytes. bytes.items ≡ framed body.now ++ closed_gate ∷ []) }
{
    let mut bytes = Vec::new(alloc);
    push_digits(&mut bytes, 8, body.len() as u64)?;
    bytes.push(b'\n')?;
    bytes.extend_from_slice(body)?;
    bytes.push(b'-')?;
    Ok(bytes)
}
