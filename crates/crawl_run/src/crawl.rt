// `crawl`: the crawl that a volume keeps is opened, and goes on politely until it is over.
ghost use Rattle.std.specs.Prelude.{◌≡◌, ◌≢◌, ◌≤◌, ◌++◌, [], ℕ, List, All, map, IsTrue, OnOk, OnErr, IfErr};
ghost use Rattle.std.specs.String.{string_bytes};
ghost use Rattle.crawl_kinds.specs.Address.{IsUri};
ghost use Rattle.crawl_traits.specs.Causes.{Rose};
ghost use Rattle.crawl_traits.specs.declared.link.LinkFault.{LinkFault as Fault};
ghost use Rattle.open_crawl.specs.JobFile.{IsTextOfJob};
ghost use Rattle.process_chains.specs.Ends.{world};
ghost use Rattle.job_commands.specs.Causes.{IsCaused};
ghost use Rattle.job_commands.specs.Opened.{KeepsJob};
ghost use Rattle.job_commands.specs.Statuses.{IsRefusal};
ghost use Rattle.crawl_run.specs.Crawl.{IsDone, IsFull, IsReached, crawl_causes, stop_status};
ghost use Rattle.crawl_run.specs.Run.{Crawls};

use crawl_laws::{opening_goes_on, visits_are_held};
use crawl_traits::{Clock, Link, Sink, Volume};
use history_laws::{legal_is_complete, legal_is_polite};
use job_commands::{status_of, status_of_load};
use job_order::Job;
use job_ranges::job_is_in_range;
use open_crawl::{OpenCrawl, read_job};
use polite_crawl::{Ended, Why, crawl};
use program_status::{Status, say};
use recover_journal::{a_journal_at_rest, one_journal};
use std::alloc::Global;
use std::sync::Wait;

/// Waits for ever: what is said of its answer is said of nothing.
fn wait_for_ever<R: Wait>(rt: &R) -> Status
    ensures { ⊥ }
{
    for _ in rt.forever() {}
    unreachable!()
}

/// Why a crawl stopped, as a status.
fn status_of_stop(why: Why) -> Status
    ensures { result ≡ stop_status why }
{
    match why {
        Why::Volume => Status::VolumeFault,
        Why::Sink => Status::SinkFault,
        Why::NoMemory => Status::NoMemory,
        Why::Full { known, adds } => Status::Full { known, adds },
    }
}

/// Opens the crawl of a job, and goes on with it until it is over. The number of its turns has no end that a run reaches.
fn go_on<R: Wait, V: Volume, W: Sink, L: Link, C: Clock>(
    rt: &R,
    alloc: Global,
    job: Job,
    volume: &mut V,
    out: &mut W,
    link: &mut L,
    clock: &C,
) -> Result<(), Status>
    requires job { (text : List ℕ) × IsTextOfJob text job }
    requires forms { All IsUri job.seeds }
    ensures done { IsTrue (V.tells volume.old) → IsTrue (W.tells out.old) → KeepsJob (V.contents volume.old) job → IsReached (V.contents volume.old) → OnOk result
        (IsDone (λ settings. world L.Link (C.gives clock.now) settings link.old link.new) (C.gives clock.now)
        (V.contents volume.old) (V.contents volume.new) (W.written out.old) (W.written out.new) (L.exchanges link.old) (L.exchanges link.new)) }
    ensures caused { IfErr result (λ s. IsRefusal s → ⊥) × IfErr result (IsCaused (crawl_causes (Rose (V.faults volume.old) (V.faults volume.new)) (Rose (W.faults out.old) (W.faults out.new))
        (λ known adds. IsTrue (V.tells volume.old) → IsTrue (W.tells out.old) → KeepsJob (V.contents volume.old) job → IsReached (V.contents volume.old)
        → IsFull (λ settings. world L.Link (C.gives clock.now) settings link.old link.new) (C.gives clock.now)
        (V.contents volume.old) (V.contents volume.new) (W.written out.old) (W.written out.new) (L.exchanges link.old) (L.exchanges link.new) known adds)
        (V.tells volume.old) (V.contents volume.old))) }
    ensures grown { IsTrue (W.tells out.old) → (lines : List ℕ) × (W.written out.new ≡ W.written out.old ++ lines) }
    ensures tells { (V.tells volume.new ≡ V.tells volume.old) × (W.tells out.new ≡ W.tells out.old) × (L.tells link.new ≡ L.tells link.old) }
    ensures later { (V.faults volume.old ≤ V.faults volume.new) × (W.faults out.old ≤ W.faults out.new) }
    ensures later_link { (fault : Fault) → L.faults link.old fault ≤ L.faults link.new fault }
{
    job_is_in_range();
    one_journal();
    a_journal_at_rest::<V>();
    legal_is_complete();
    legal_is_polite();
    opening_goes_on();
    visits_are_held::<L, C>();
    let mut own = match OpenCrawl::open(alloc, volume, job, clock.now()) {
        Ok(own) => own,
        Err(fault) => return Err(status_of(fault)),
    };
    match crawl(alloc, &mut own, volume, out, link, clock, u64::MAX) {
        Ok(Ended::Over) => Ok(()),
        Ok(Ended::Spent) => Err(wait_for_ever(rt)),
        Err(why) => Err(status_of_stop(why)),
    }
}

/// Goes on with the crawl that the volume keeps.
fn crawl_job<R: Wait, V: Volume, W: Sink, L: Link, C: Clock>(
    rt: &R,
    alloc: Global,
    volume: &mut V,
    out: &mut W,
    link: &mut L,
    clock: &C,
) -> Result<(), Status>
    ensures done { IsTrue (V.tells volume.old) → IsTrue (W.tells out.old) → IsReached (V.contents volume.old) → OnOk result
        (IsDone (λ settings. world L.Link (C.gives clock.now) settings link.old link.new) (C.gives clock.now)
        (V.contents volume.old) (V.contents volume.new) (W.written out.old) (W.written out.new) (L.exchanges link.old) (L.exchanges link.new)) }
    ensures caused { IfErr result (IsCaused (crawl_causes (Rose (V.faults volume.old) (V.faults volume.new)) (Rose (W.faults out.old) (W.faults out.new))
        (λ known adds. IsTrue (V.tells volume.old) → IsTrue (W.tells out.old) → IsReached (V.contents volume.old)
        → IsFull (λ settings. world L.Link (C.gives clock.now) settings link.old link.new) (C.gives clock.now)
        (V.contents volume.old) (V.contents volume.new) (W.written out.old) (W.written out.new) (L.exchanges link.old) (L.exchanges link.new) known adds)
        (V.tells volume.old) (V.contents volume.old))) }
    ensures kept { IfErr result (λ s. IsRefusal s → V.contents volume.new ≡ V.contents volume.old) }
    ensures silent { IfErr result (λ s. IsRefusal s → W.written out.new ≡ W.written out.old) }
    ensures grown { IsTrue (W.tells out.old) → (lines : List ℕ) × (W.written out.new ≡ W.written out.old ++ lines) }
    ensures tells { (W.tells out.new ≡ W.tells out.old) × (L.tells link.new ≡ L.tells link.old) }
    ensures later { (V.faults volume.old ≤ V.faults volume.new) × (W.faults out.old ≤ W.faults out.new) }
    ensures later_link { (fault : Fault) → L.faults link.old fault ≤ L.faults link.new fault }
{
    match read_job(alloc, volume) {
        Ok(job) => match go_on(rt, alloc, job, volume, out, link, clock) {
            Ok(()) => Ok(()),
            Err(status) => Err(status),
        },
        Err(fault) => Err(status_of_load(fault)),
    }
}

/// Does `crawl` with the words behind it.
pub fn crawl_command<R: Wait, V: Volume, W: Sink, L: Link, C: Clock>(
    rt: &R,
    alloc: Global,
    more: &[String],
    volume: &mut V,
    out: &mut W,
    link: &mut L,
    clock: &C,
) -> Status
    ensures { Crawls V.Volume W.Sink L.Link (C.gives clock.now) (map string_bytes more.now) volume.old volume.new out.old out.new link.old link.new result }
{
    if !more.is_empty() {
        let status = Status::Usage(1);
        say(out, &status);
        return status;
    }
    match crawl_job(rt, alloc, volume, out, link, clock) {
        Ok(()) => Status::Done,
        Err(status) => {
            say(out, &status);
            status
        }
    }
}
