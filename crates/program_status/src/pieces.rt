// A line in pieces, each written as it stands.
ghost use Rattle.std.specs.Prelude.{◌≡◌};
ghost use Rattle.std.specs.List.{flat_map};
ghost use Rattle.program_status.specs.Gains.{Says};
ghost use Rattle.program_status.specs.Status.{printed, printed_byte};

use crawl_traits::{Failed, Sink, write_whole};

/// Writes pieces one after another. After a failure a front of them was written.
pub(crate) fn write_pieces<W: Sink>(out: &mut W, pieces: &[&[u8]]) -> Result<(), Failed>
    ensures { Says W.Sink out.old out.new (flat_map (λ p. p.now) pieces.now) result }
{
    for piece in pieces {
        match write_whole(out, piece) {
            Ok(()) => {}
            Err(Failed) => return Err(Failed),
        }
    }
    Ok(())
}

/// A byte as it is printed.
fn printed_byte(byte: u8) -> u8
    ensures { result ≡ printed_byte byte }
{
    if (b'!'..=b'~').contains(&byte) {
        byte
    } else {
        b'?'
    }
}

/// Writes a name, each byte that can't be seen as `?`.
pub(crate) fn write_name<W: Sink>(out: &mut W, name: &[u8]) -> Result<(), Failed>
    ensures { Says W.Sink out.old out.new (printed name.now) result }
{
    for byte in name {
        match write_whole(out, &[printed_byte(*byte)]) {
            Ok(()) => {}
            Err(Failed) => return Err(Failed),
        }
    }
    Ok(())
}
