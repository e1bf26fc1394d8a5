// The seeds that a source gives.
ghost use Rattle.std.specs.Prelude.{◌≡◌, ◌≤◌, ◌<◌, [], length, All, IsTrue, IfOk, IfErr, OnOk};
ghost use Rattle.crawl_kinds.specs.Address.{IsUri};
ghost use Rattle.crawl_traits.specs.Causes.{Rose};
ghost use Rattle.job_commands.specs.Causes.{IsCaused, source_causes};
ghost use Rattle.job_commands.specs.Enqueue.{AreSeedsIn, IsSeedsRefusal};

use crate::stream::read_text;
use crawl_kinds::Uris;
use crawl_traits::Source;
use job_order::JobFault;
use program_status::Status;
use seed_list::{SeedFault, read_seeds};
use std::alloc::Global;

/// Reads the source to its end as lines of seeds.
pub fn take_seeds<S: Source>(alloc: Global, source: &mut S) -> Result<Uris, Status>
    ensures seeds { IsTrue (S.tells source.old) → IfOk result (AreSeedsIn (S.left source.old)) }
    ensures addresses { IfOk result (All IsUri) }
    ensures few { IfOk result (λ seeds. length seeds ≤ 200000) }
    ensures left { IsTrue (S.tells source.old) → OnOk result (S.left source.new ≡ []) }
    ensures tells { S.tells source.new ≡ S.tells source.old }
    ensures later { S.faults source.old ≤ S.faults source.new }
    ensures fault { IfErr result (IsCaused (source_causes (Rose (S.faults source.old) (S.faults source.new)) (λ f. IsTrue (S.tells source.old) → IsSeedsRefusal (S.left source.old) f))) }
{
    let text = match read_text(alloc, source) {
        Ok(text) => text,
        Err(status) => return Err(status),
    };
    match read_seeds(alloc, &text) {
        Ok(seeds) => Ok(seeds),
        Err(SeedFault::TooLong) => Err(Status::JobRefused(JobFault::TooLong)),
        Err(SeedFault::BadSeed { line }) => Err(Status::JobRefused(JobFault::BadSeed { line })),
        Err(SeedFault::NoMemory) => Err(Status::NoMemory),
    }
}
