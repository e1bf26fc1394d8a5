// Bytes that are written over.
ghost use Rattle.std.specs.Prelude.{◌≡◌, ◌+◌, ◌-◌, ◌<◌, ◌^◌, ◌≤◌, ◌++◌, length, take, drop, replicate, OnOk, OnErr};
ghost use Rattle.crawl_traits.specs.Images.{written};

use std::alloc::AllocError;

/// Makes bytes at least so long, by zeros at their end.
fn reach(bytes: &mut Vec<u8>, end: usize) -> Result<(), AllocError>
    ensures ok { OnOk result (bytes.new.items ≡ bytes.old.items ++ replicate (end - length bytes.old.items) 0) }
    ensures err { OnErr result (bytes.new.items ≡ bytes.old.items) }
{
    if bytes.len() >= end {
        return Ok(());
    }
    bytes.resize(end, 0)
}

/// Puts a piece in the place of as many bytes.
fn put(bytes: &mut [u8], at: usize, from: &[u8])
    requires { at + length from.now ≤ length bytes.old }
    ensures { bytes.new ≡ take at bytes.old ++ from.now ++ drop (at + length from.now) bytes.old }
{
    bytes[at..at + from.len()].copy_from_slice(from);
}

/// Writes a piece over bytes from a place on, with zeros between where they end before it. For want of memory they
/// stay as they were.
pub fn write_over(bytes: &mut Vec<u8>, at: usize, from: &[u8]) -> Result<(), AllocError>
    requires bytes { length bytes.old.items < 2 ^ 63 }
    requires piece { at + length from.now < 2 ^ 63 }
    ensures ok { OnOk result (bytes.new.items ≡ written at from.now bytes.old.items) }
    ensures err { OnErr result (bytes.new.items ≡ bytes.old.items) }
    ensures in_range { length bytes.new.items < 2 ^ 63 }
{
    let end = at + from.len();
    reach(bytes, end)?;
    put(bytes, at, from);
    Ok(())
}
