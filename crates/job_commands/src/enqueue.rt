// `enqueue`: the crawl that a volume keeps is opened, and seeds are added to it.
ghost use Rattle.std.specs.Prelude.{◌≡◌, ◌≢◌, ◌≤◌, [], ◌++◌, List, ℕ, All, length, IsTrue, OnOk, OnErr, IfOk, IfErr, Err};
ghost use Rattle.crawl_kinds.specs.Address.{IsUri};
ghost use Rattle.crawl_kinds.specs.declared.event.Event.{Event};
ghost use Rattle.crawl_traits.specs.Causes.{Rose};
ghost use Rattle.crawl_traits.specs.Images.{After};
ghost use Rattle.crawl_traits.specs.Runs.{LeavesOnly, IsSettled};
ghost use Rattle.open_crawl.specs.JobFile.{IsTextOfJob};
ghost use Rattle.recover_journal.specs.Holds.{journal_file, HoldsEvents};
ghost use Rattle.program_status.specs.Gains.{GainsFront};
ghost use Rattle.job_commands.specs.Causes.{IsCaused, volume_causes};
ghost use Rattle.job_commands.specs.Enqueue.{AreSeedsIn, Enqueued, Filled, HoldsEnqueued, Shows, enqueue_causes};
ghost use Rattle.job_commands.specs.Opened.{IsDamaged, KeepsJob};
ghost use Rattle.job_commands.specs.Statuses.{IsRefusal};

use crate::queue::shown;
use crate::seeds::take_seeds;
use crate::stop::{status_of, status_of_load, status_of_stop};
use crawl_kinds::Uris;
use crawl_traits::{Clock, Failed, Sink, Source, Volume, write_whole};
use job_order::Job;
use open_crawl::{OpenCrawl, read_job};
use program_status::Status;
use recover_journal::{a_journal_at_rest, one_journal};
use std::alloc::Global;

/// Opens the crawl of a job, adds seeds to it at the same moment, and gives the text of its queue.
fn add<V: Volume, C: Clock>(
    alloc: Global,
    job: Job,
    seeds: &Uris,
    volume: &mut V,
    clock: &C,
) -> Result<Vec<u8>, Status>
    requires job { (text : List ℕ) × IsTextOfJob text job }
    requires forms { All IsUri job.seeds × All IsUri seeds.now }
    requires few { length seeds.now ≤ 200000 }
    ensures ok { IsTrue (V.tells volume.old) → KeepsJob (V.contents volume.old) job → IfOk result (λ shown. Shows (C.gives clock.now) seeds.now (V.contents volume.old) (V.contents volume.new) shown.items) }
    ensures fault { IfErr result (IsCaused (volume_causes (Rose (V.faults volume.old) (V.faults volume.new)) ⊥ ⊥
        (λ f at. IsTrue (V.tells volume.old) → IsDamaged (V.contents volume.old) f at)
        (λ known adds. IsTrue (V.tells volume.old) → KeepsJob (V.contents volume.old) job → Filled (C.gives clock.now) seeds.now (V.contents volume.old) (V.contents volume.new) known adds))) }
    ensures any_moment { (events : List Event) → KeepsJob (V.contents volume.old) job → IsSettled V.Volume volume.old (λ i. HoldsEvents events (i journal_file))
        → LeavesOnly V.Volume volume.old volume.new (After journal_file (HoldsEnqueued (λ l. l ≡ seeds.now) (C.gives clock.now) (V.contents volume.old) events) (V.may_leave volume.old)) }
    ensures later { V.faults volume.old ≤ V.faults volume.new }
{
    one_journal();
    a_journal_at_rest::<V>();
    let now = clock.now();
    let mut crawl = match OpenCrawl::open(alloc, volume, job, now) {
        Ok(crawl) => crawl,
        Err(fault) => return Err(status_of(fault)),
    };
    match crawl.add_seeds(alloc, volume, seeds, now) {
        Ok(()) => {}
        Err(stop) => return Err(status_of_stop(stop)),
    }
    match shown(alloc, &crawl) {
        Ok(text) => Ok(text),
        Err(_) => Err(Status::NoMemory),
    }
}

/// Adds the seeds whose lines the source has left to the crawl that the volume keeps, and prints its queue.
pub fn enqueue<V: Volume, S: Source, W: Sink, C: Clock>(
    alloc: Global,
    source: &mut S,
    volume: &mut V,
    out: &mut W,
    clock: &C,
) -> Result<(), Status>
    ensures done { IsTrue (S.tells source.old) → IsTrue (V.tells volume.old) → IsTrue (W.tells out.old) → OnOk result ((shown : List ℕ)
        × Enqueued (C.gives clock.now) (S.left source.old) (V.contents volume.old) (V.contents volume.new) shown × (W.written out.new ≡ W.written out.old ++ shown)) }
    ensures unshown { IsTrue (S.tells source.old) → IsTrue (V.tells volume.old) → IsTrue (W.tells out.old) → result ≡ Err Status.SinkFault → (shown : List ℕ)
        × Enqueued (C.gives clock.now) (S.left source.old) (V.contents volume.old) (V.contents volume.new) shown × GainsFront (W.written out.old) (W.written out.new) shown }
    ensures left { IsTrue (S.tells source.old) → OnOk result (S.left source.new ≡ []) }
    ensures caused { IfErr result (IsCaused (enqueue_causes (C.gives clock.now) (Rose (V.faults volume.old) (V.faults volume.new)) (Rose (W.faults out.old) (W.faults out.new)) (Rose (S.faults source.old) (S.faults source.new))
        (V.tells volume.old) (S.tells source.old) (V.contents volume.old) (V.contents volume.new) (S.left source.old))) }
    ensures kept { IfErr result (λ s. IsRefusal s → V.contents volume.new ≡ V.contents volume.old) }
    ensures silent { IfErr result (λ s. s ≢ Status.SinkFault → W.written out.new ≡ W.written out.old) }
    ensures tells { W.tells out.new ≡ W.tells out.old }
    ensures any_moment { (events : List Event) → IsSettled V.Volume volume.old (λ i. HoldsEvents events (i journal_file))
        → LeavesOnly V.Volume volume.old volume.new (After journal_file (HoldsEnqueued (λ seeds. IsTrue (S.tells source.old) → AreSeedsIn (S.left source.old) seeds) (C.gives clock.now) (V.contents volume.old) events) (V.may_leave volume.old)) }
    ensures later { (V.faults volume.old ≤ V.faults volume.new) × (W.faults out.old ≤ W.faults out.new) × (S.faults source.old ≤ S.faults source.new) }
{
    let job = match read_job(alloc, volume) {
        Ok(job) => job,
        Err(fault) => return Err(status_of_load(fault)),
    };
    let seeds = match take_seeds(alloc, source) {
        Ok(seeds) => seeds,
        Err(status) => return Err(status),
    };
    let shown = match add(alloc, job, &seeds, volume, clock) {
        Ok(shown) => shown,
        Err(status) => return Err(status),
    };
    match write_whole(out, &shown) {
        Ok(()) => Ok(()),
        Err(Failed) => Err(Status::SinkFault),
    }
}
