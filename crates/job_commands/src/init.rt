// `init`: the job of a text is kept, and its crawl is opened.
ghost use Rattle.std.specs.Prelude.{◌≡◌, ◌≤◌, [], ◌∷◌, List, ℕ, All, length, IsTrue, OnOk, IfOk, IfErr};
ghost use Rattle.crawl_kinds.specs.Address.{IsUri};
ghost use Rattle.crawl_kinds.specs.declared.event.Event.{Event};
ghost use Rattle.crawl_traits.specs.Causes.{Rose};
ghost use Rattle.crawl_traits.specs.Runs.{LeavesOnly, IsSettled};
ghost use Rattle.crawl_traits.specs.declared.file.FileId.{FileId as File};
ghost use Rattle.gate_log.specs.Blocks.{Counts};
ghost use Rattle.open_crawl.specs.JobFile.{IsTextOfJob};
ghost use Rattle.recover_journal.specs.Holds.{journal_file, HoldsEvents};
ghost use Rattle.job_commands.specs.Causes.{IsCaused, source_causes, volume_causes};
ghost use Rattle.job_commands.specs.Init.{Begun, HoldsInitiated, Initiated, IsJobThere, IsNamedRefusal, init_causes};
ghost use Rattle.job_commands.specs.Opened.{IsDamagedAnew};
ghost use Rattle.job_commands.specs.Statuses.{IsRefusal};

use crate::stop::status_of;
use crate::stream::read_text;
use crawl_traits::{Clock, Source, Volume};
use job_order::{Job, JobFault};
use job_ranges::job_is_in_range;
use open_crawl::{OpenCrawl, read_job_text, write_job};
use program_status::Status;
use recover_journal::{a_journal_at_rest, one_journal};
use std::alloc::Global;

/// A job and its text.
#[derive(Drop)]
struct ReadJob {
    text: Vec<u8>,
    job: Job,
}

/// Finds that the volume keeps no job. It only reads.
fn check_no_job<V: Volume>(alloc: Global, volume: &mut V) -> Result<(), Status>
    ensures ok { IsTrue (V.tells volume.old) → OnOk result (Counts [] (V.contents volume.old File.Job)) }
    ensures fault { IfErr result (IsCaused (volume_causes (Rose (V.faults volume.old) (V.faults volume.new)) (IsTrue (V.tells volume.old) → IsJobThere (V.contents volume.old)) ⊥
        (λ f at. IsTrue (V.tells volume.old) → IsDamagedAnew (V.contents volume.old) f at) (λ known adds. ⊥))) }
    ensures contents { V.contents volume.new ≡ V.contents volume.old }
    ensures tells { V.tells volume.new ≡ V.tells volume.old }
    ensures any_moment { LeavesOnly V.Volume volume.old volume.new (V.may_leave volume.old) }
    ensures later { V.faults volume.old ≤ V.faults volume.new }
{
    match read_job_text(alloc, volume) {
        Ok(None) => Ok(()),
        Ok(Some(_)) => Err(Status::JobThere),
        Err(fault) => Err(status_of(fault)),
    }
}

/// Reads the source to its end as the text of a job.
fn take_job<S: Source>(alloc: Global, source: &mut S) -> Result<ReadJob, Status>
    ensures job { IfOk result (λ own. IsTextOfJob own.text.items own.job) }
    ensures text { IsTrue (S.tells source.old) → IfOk result (λ own. own.text.items ≡ S.left source.old) }
    ensures addresses { IfOk result (λ own. All IsUri own.job.seeds) }
    ensures left { IsTrue (S.tells source.old) → OnOk result (S.left source.new ≡ []) }
    ensures tells { S.tells source.new ≡ S.tells source.old }
    ensures later { S.faults source.old ≤ S.faults source.new }
    ensures fault { IfErr result (IsCaused (source_causes (Rose (S.faults source.old) (S.faults source.new)) (λ f. IsTrue (S.tells source.old) → IsNamedRefusal (S.left source.old) f))) }
{
    let text = match read_text(alloc, source) {
        Ok(text) => text,
        Err(status) => return Err(status),
    };
    match Job::read(alloc, &text) {
        Ok(job) => Ok(ReadJob { text, job }),
        Err(JobFault::NoMemory) => Err(Status::NoMemory),
        Err(fault) => Err(Status::JobRefused(fault)),
    }
}

/// Keeps a job, and opens its crawl at a moment of the clock.
fn begin<V: Volume, C: Clock>(
    alloc: Global,
    own: ReadJob,
    volume: &mut V,
    clock: &C,
) -> Result<(), Status>
    requires job { IsTextOfJob own.text.items own.job }
    requires forms { All IsUri own.job.seeds }
    ensures ok { IsTrue (V.tells volume.old) → OnOk result (Begun (C.gives clock.now) own.text.items (V.contents volume.old) (V.contents volume.new)) }
    ensures fault { IfErr result (IsCaused (volume_causes (Rose (V.faults volume.old) (V.faults volume.new)) ⊥ ⊥
        (λ f at. IsTrue (V.tells volume.old) → IsDamagedAnew (V.contents volume.old) f at) (λ known adds. ⊥))) }
    ensures any_moment { (events : List Event) → IsSettled V.Volume volume.old (λ i. (length (i File.Job) ≤ 1) × HoldsEvents events (i journal_file))
        → LeavesOnly V.Volume volume.old volume.new (HoldsInitiated (λ text. text ≡ own.text.items) (C.gives clock.now) events (V.may_leave volume.old)) }
    ensures later { V.faults volume.old ≤ V.faults volume.new }
{
    job_is_in_range();
    one_journal();
    a_journal_at_rest::<V>();
    let ReadJob { text, job } = own;
    match write_job(alloc, volume, &text) {
        Ok(()) => {}
        Err(fault) => return Err(status_of(fault)),
    }
    match OpenCrawl::open(alloc, volume, job, clock.now()) {
        Ok(_) => Ok(()),
        Err(fault) => Err(status_of(fault)),
    }
}

/// Keeps the job whose text the source has left, where the volume keeps none, and opens its crawl.
pub fn init<V: Volume, S: Source, C: Clock>(
    alloc: Global,
    source: &mut S,
    volume: &mut V,
    clock: &C,
) -> Result<(), Status>
    ensures done { IsTrue (S.tells source.old) → IsTrue (V.tells volume.old) → OnOk result (Initiated (C.gives clock.now) (S.left source.old) (V.contents volume.old) (V.contents volume.new)) }
    ensures left { IsTrue (S.tells source.old) → OnOk result (S.left source.new ≡ []) }
    ensures caused { IfErr result (IsCaused (init_causes (Rose (V.faults volume.old) (V.faults volume.new)) (Rose (S.faults source.old) (S.faults source.new))
        (V.tells volume.old) (S.tells source.old) (V.contents volume.old) (S.left source.old))) }
    ensures kept { IfErr result (λ s. IsRefusal s → V.contents volume.new ≡ V.contents volume.old) }
    ensures any_moment { (events : List Event) → IsSettled V.Volume volume.old (λ i. (length (i File.Job) ≤ 1) × HoldsEvents events (i journal_file))
        → LeavesOnly V.Volume volume.old volume.new (HoldsInitiated (λ text. IsTrue (S.tells source.old) → text ≡ S.left source.old) (C.gives clock.now) events (V.may_leave volume.old)) }
    ensures later { (V.faults volume.old ≤ V.faults volume.new) × (S.faults source.old ≤ S.faults source.new) }
{
    match check_no_job(alloc, volume) {
        Ok(()) => {}
        Err(status) => return Err(status),
    }
    let own = match take_job(alloc, source) {
        Ok(own) => own,
        Err(status) => return Err(status),
    };
    match begin(alloc, own, volume, clock) {
        Ok(()) => Ok(()),
        Err(status) => Err(status),
    }
}
