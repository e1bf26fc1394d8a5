// A block as it is written behind its gate.
use crate::framing::framed_bytes;
use crawl_kinds::NoMemory;
use std::alloc::Global;
use std::marker::Model;

/// The most bytes that a block's body has.
pub const MOST_BODY: usize = 2_000_000_000;

/// The digits, LF, a body and the next closed gate, ready to be written. Contracts see the body.
#[derive(Drop)]
pub struct Frame {
    pub(crate) bytes: Vec<u8>,
}

impl Model for Frame {
    ghost use Rattle.std.specs.Prelude.{ℕ, List};
    ghost use Rattle.gate_log.specs.Frame.{body_of, IsFrame};

    ghost Value = { List ℕ };

    ghost view = { λ a. body_of a.bytes.items };

    ghost invariant = { λ a. IsFrame a.bytes.items };
}

impl Frame {
    ghost use Rattle.std.specs.Prelude.{◌≡◌, IfOk};
    ghost use Rattle.gate_log.specs.Blocks.{IsBody};

    /// The frame of a body of 1 to 2,000,000,000 bytes. It fails for want of memory alone.
    pub fn of(alloc: Global, body: &[u8]) -> Result<Frame, NoMemory>
        requires { IsBody body.now }
        ensures { IfOk result (λ frame. frame ≡ body.now) }
    {
        let bytes = framed_bytes(alloc, body)?;
        Ok(Frame { bytes })
    }
}
