// A log's file as a whole.
ghost use Rattle.std.specs.Prelude.{◌≡◌, ◌+◌, ◌<◌, ◌≤◌, ◌^◌, List, ℕ, length, IsTrue, IfOk, IfErr};
ghost use Rattle.crawl_traits.specs.Causes.{HasStoreCause};
ghost use Rattle.crawl_traits.specs.Images.{Fewer};
ghost use Rattle.crawl_traits.specs.Runs.{LeavesOnly};
ghost use Rattle.gate_log.specs.Blocks.{blocks};
ghost use Rattle.gate_log.specs.Reading.{AreBlocksOf, bodies_of, IsDamage};

use crate::block::Blocks;
use crate::blocks::{ReadFault, read_blocks};
use crawl_traits::{FileId, StoreFault, Volume};
use std::alloc::Global;

/// A file that was read: its bytes, its blocks, and the place of the gate behind them.
#[derive(Drop)]
pub struct Whole {
    pub bytes: Vec<u8>,
    pub gate: usize,
    pub blocks: Blocks,
}

/// Reads a file to its end.
fn read_bytes<V: Volume>(alloc: Global, volume: &mut V, file: FileId) -> Result<Vec<u8>, StoreFault>
    ensures bytes { IsTrue (V.tells volume.old) → IfOk result (λ bytes. bytes.items ≡ V.contents volume.old file) }
    ensures in_range { IfOk result (λ bytes. length bytes.items < 2 ^ 63) }
    ensures contents { V.contents volume.new ≡ V.contents volume.old }
    ensures tells { V.tells volume.new ≡ V.tells volume.old }
    ensures crash { Fewer (V.may_leave volume.old) (V.may_leave volume.new) }
    ensures any_moment { LeavesOnly V.Volume volume.old volume.new (V.may_leave volume.old) }
    ensures read { IsTrue (V.tells volume.old) → V.bytes_read volume.new ≤ V.bytes_read volume.old + length (V.contents volume.old file) }
    ensures undamaged { (bytes : List ℕ) → IfErr result (IsDamage file bytes) }
    ensures cause { HasStoreCause (V.faults volume.old) (V.faults volume.new) result }
{
    let size = volume.size(file)?;
    let mut bytes = vec![in alloc; 0; size as usize]?;
    let count = volume.read_at(file, 0, &mut bytes)?;
    bytes.truncate(count);
    Ok(bytes)
}

/// The blocks of these bytes of a file.
fn blocks_of(alloc: Global, file: FileId, bytes: &[u8]) -> Result<(usize, Blocks), StoreFault>
    ensures blocks { IfOk result (λ r. AreBlocksOf r.1 bytes.now) }
    ensures gate { IfOk result (λ r. r.0 ≡ length (blocks (bodies_of r.1))) }
    ensures within { IfOk result (λ r. r.0 ≤ length bytes.now) }
    ensures damaged { IfErr result (IsDamage file bytes.now) }
    ensures no_fault { IfErr result (λ fault. fault ≡ StoreFault.Volume → ⊥) }
{
    match read_blocks(alloc, bytes) {
        Ok(read) => Ok(read),
        Err(ReadFault::Starved) => Err(StoreFault::NoMemory),
        Err(ReadFault::DamagedAt(at)) => Err(StoreFault::Damaged {
            file,
            at: at as u64,
        }),
    }
}

/// Reads a log whole.
pub fn read_whole<V: Volume>(
    alloc: Global,
    volume: &mut V,
    file: FileId,
) -> Result<Whole, StoreFault>
    ensures bytes { IsTrue (V.tells volume.old) → IfOk result (λ whole. whole.bytes.items ≡ V.contents volume.old file) }
    ensures blocks { IfOk result (λ whole. AreBlocksOf whole.blocks whole.bytes.items) }
    ensures gate { IfOk result (λ whole. whole.gate ≡ length (blocks (bodies_of whole.blocks))) }
    ensures in_range { IfOk result (λ whole. whole.gate < 2 ^ 63) }
    ensures damaged { IsTrue (V.tells volume.old) → IfErr result (IsDamage file (V.contents volume.old file)) }
    ensures contents { V.contents volume.new ≡ V.contents volume.old }
    ensures tells { V.tells volume.new ≡ V.tells volume.old }
    ensures crash { Fewer (V.may_leave volume.old) (V.may_leave volume.new) }
    ensures any_moment { LeavesOnly V.Volume volume.old volume.new (V.may_leave volume.old) }
    ensures read { IsTrue (V.tells volume.old) → V.bytes_read volume.new ≤ V.bytes_read volume.old + length (V.contents volume.old file) }
    ensures cause { HasStoreCause (V.faults volume.old) (V.faults volume.new) result }
{
    let bytes = read_bytes(alloc, volume, file)?;
    let (gate, blocks) = blocks_of(alloc, file, &bytes)?;
    Ok(Whole {
        bytes,
        gate,
        blocks,
    })
}

/// Reads the blocks of a log, and changes nothing. Damaged names the gate of the first bad block.
pub fn read_log<V: Volume>(
    alloc: Global,
    volume: &mut V,
    file: FileId,
) -> Result<Blocks, StoreFault>
    ensures ok { IsTrue (V.tells volume.old) → IfOk result (λ list. AreBlocksOf list (V.contents volume.old file)) }
    ensures damaged { IsTrue (V.tells volume.old) → IfErr result (IsDamage file (V.contents volume.old file)) }
    ensures contents { V.contents volume.new ≡ V.contents volume.old }
    ensures tells { V.tells volume.new ≡ V.tells volume.old }
    ensures any_moment { LeavesOnly V.Volume volume.old volume.new (V.may_leave volume.old) }
    ensures read { IsTrue (V.tells volume.old) → V.bytes_read volume.new ≤ V.bytes_read volume.old + length (V.contents volume.old file) }
    ensures cause { HasStoreCause (V.faults volume.old) (V.faults volume.new) result }
{
    let whole = read_whole(alloc, volume, file)?;
    Ok(whole.blocks)
}
