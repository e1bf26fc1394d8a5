// The job that a volume keeps.
ghost use Rattle.std.specs.Prelude.{◌≡◌, ◌≢◌, ◌≤◌, [], ◌∷◌, List, ℕ, All, length, IsTrue, OnOk, IfOk, IfErr, Some, None};
ghost use Rattle.crawl_kinds.specs.Address.{IsUri};
ghost use Rattle.crawl_traits.specs.Causes.{Rose, HasStoreCause};
ghost use Rattle.crawl_traits.specs.Images.{After, Image};
ghost use Rattle.crawl_traits.specs.Runs.{LeavesOnly, IsSettled};
ghost use Rattle.crawl_traits.specs.declared.file.FileId.{FileId as File};
ghost use Rattle.gate_log.specs.Blocks.{Counts, IsBody};
ghost use Rattle.gate_log.specs.Rest.{CountsOneMore};
ghost use Rattle.open_crawl.specs.Faults.{IsDamageOf, IsLoadFault, refusal};
ghost use Rattle.open_crawl.specs.JobFile.{HoldsText, IsTextDamage, IsTextOfJob};

use crate::fault::LoadFault;
use crawl_traits::{FileId, StoreFault, Volume};
use gate_log::{Bytes, Frame, GateLog, read_log};
use job_order::{Job, JobFault};
use std::alloc::Global;

/// The text that the job file counts, or none. It only reads. `Damaged` names the gate at which the file is no log of at most
/// one block.
pub fn read_job_text<V: Volume>(alloc: Global, volume: &mut V) -> Result<Option<Bytes>, StoreFault>
    ensures ok { IsTrue (V.tells volume.old) → IfOk result (λ text. HoldsText text (V.contents volume.old File.Job)) }
    ensures damaged { IsTrue (V.tells volume.old) → IfErr result (IsDamageOf File.Job (λ at. IsTextDamage at (V.contents volume.old File.Job))) }
    ensures contents { V.contents volume.new ≡ V.contents volume.old }
    ensures tells { V.tells volume.new ≡ V.tells volume.old }
    ensures any_moment { LeavesOnly V.Volume volume.old volume.new (V.may_leave volume.old) }
    ensures cause { HasStoreCause (V.faults volume.old) (V.faults volume.new) result }
{
    let mut blocks = read_log(alloc, volume, FileId::Job)?.into_vec();
    if blocks.len() > 1 {
        return Err(StoreFault::Damaged {
            file: FileId::Job,
            at: blocks[1].gate,
        });
    }
    match blocks.pop() {
        Some(block) => Ok(Some(block.body)),
        None => Ok(None),
    }
}

/// What it says of a volume that its job file's text is refused.
fn refusal(fault: &JobFault) -> StoreFault
    ensures { result ≡ refusal fault.now }
{
    match fault {
        JobFault::NoMemory => StoreFault::NoMemory,
        _ => StoreFault::Damaged {
            file: FileId::Job,
            at: 0,
        },
    }
}

/// The job that the job file keeps. It only reads. `NoJob` comes exactly where the file counts no block; `Damaged` where it is no
/// log of one block, at the first bad gate, or its text is that of no job, at 0.
pub fn read_job<V: Volume>(alloc: Global, volume: &mut V) -> Result<Job, LoadFault>
    ensures ok { IsTrue (V.tells volume.old) → IfOk result (λ job. (text : List ℕ) × Counts (text ∷ []) (V.contents volume.old File.Job) × IsTextOfJob text job) }
    ensures is { IfOk result (λ job. (text : List ℕ) × IsTextOfJob text job) }
    ensures addresses { IfOk result (λ job. All IsUri job.seeds × IsUri job.settings.contact) }
    ensures fault { IsTrue (V.tells volume.old) → IfErr result (IsLoadFault (V.contents volume.old File.Job)) }
    ensures contents { V.contents volume.new ≡ V.contents volume.old }
    ensures tells { V.tells volume.new ≡ V.tells volume.old }
    ensures any_moment { LeavesOnly V.Volume volume.old volume.new (V.may_leave volume.old) }
    ensures later { V.faults volume.old ≤ V.faults volume.new }
    ensures cause { result ≡ Err (LoadFault.Store StoreFault.Volume) → Rose (V.faults volume.old) (V.faults volume.new) }
{
    let text = match read_job_text(alloc, volume) {
        Ok(Some(text)) => text,
        Ok(None) => return Err(LoadFault::NoJob),
        Err(fault) => return Err(LoadFault::Store(fault)),
    };
    match Job::read(alloc, text.as_slice()) {
        Ok(job) => Ok(job),
        Err(fault) => Err(LoadFault::Store(refusal(&fault))),
    }
}

/// Makes a text of 1 to 2,000,000,000 bytes the one block of the job file, whatever stood there. At `Ok` it is in every later
/// image; a crash at any moment of the call leaves a file of at most one byte without a block, or with the whole text. For want
/// of memory nothing was changed.
pub fn write_job<V: Volume>(alloc: Global, volume: &mut V, text: &[u8]) -> Result<(), StoreFault>
    requires { IsBody text.now }
    ensures ok { IsTrue (V.tells volume.old) → OnOk result (Counts (text.now ∷ []) (V.contents volume.new File.Job)) }
    ensures durable { IsTrue (V.tells volume.old) → OnOk result ((i : Image) → V.may_leave volume.new i → Counts (text.now ∷ []) (i File.Job)) }
    ensures others { IsTrue (V.tells volume.old) → (f : File) → f ≢ File.Job → V.contents volume.new f ≡ V.contents volume.old f }
    ensures kept { result ≡ Err StoreFault.NoMemory → V.contents volume.new ≡ V.contents volume.old }
    ensures undamaged { IfErr result (λ fault. IsDamageOf File.Job (λ at. ⊥) fault) }
    ensures tells { V.tells volume.new ≡ V.tells volume.old }
    ensures any_moment { IsSettled V.Volume volume.old (λ i. length (i File.Job) ≤ 1)
        → LeavesOnly V.Volume volume.old volume.new (After File.Job (CountsOneMore [] text.now) (V.may_leave volume.old)) }
    ensures cause { HasStoreCause (V.faults volume.old) (V.faults volume.new) result }
{
    let frame = Frame::of(alloc, text)?;
    let mut log = match GateLog::fresh(volume, FileId::Job) {
        Ok(log) => log,
        Err(fault) => return Err(fault),
    };
    match log.append(volume, &frame) {
        Ok(()) => Ok(()),
        Err(fault) => Err(fault),
    }
}
