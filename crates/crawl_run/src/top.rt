// The call that the program makes.
ghost use Rattle.std.specs.Prelude.{◌≡◌, ◌≤◌, ◌∷◌, List, length, map, true, false, codes};
ghost use Rattle.std.specs.Str.{bytes_eq};
ghost use Rattle.std.specs.String.{string_bytes};
ghost use Rattle.job_commands.specs.Tends.{Tends};
ghost use Rattle.crawl_run.specs.Run.{Crawls, is_crawl, words_after};

use crate::crawl::crawl_command;
use crawl_traits::{Clock, Link, Sink, Source, Volume};
use job_commands::tend;
use program_status::Status;
use std::alloc::Global;
use std::sync::Wait;

/// What a call leaves: how it ended, and the volume, the output and the links that were handed in.
#[derive(Drop)]
pub struct Ran<V, W, L> {
    pub status: Status,
    pub volume: V,
    pub out: W,
    pub links: Vec<L>,
}

fn is_crawl(word: &String) -> bool
    ensures { result ≡ bytes_eq (string_bytes word.now) (codes "crawl") }
{
    word.as_str() == "crawl"
}

/// Does what the words say. `crawl` opens the crawl of the job that the volume keeps, and goes on with it over the first link
/// until it is over: it hands out one item after another, no host before its time, fetches what robots files allow, records a
/// whole response in the WARC file and the item's events in the journal, and writes `CODE URI` to the output. While nothing may
/// go it rests by the clock, for ever where that stands still. It reads no source. All other words are handed to `tend`. It
/// takes 1 to 32 links, and gives them back in order.
pub fn run<R: Wait, V: Volume, S: Source, W: Sink, L: Link, C: Clock>(
    rt: &R,
    alloc: Global,
    words: &[String],
    job: &mut S,
    mut volume: V,
    mut out: W,
    mut links: Vec<L>,
    clock: &C,
) -> Ran<V, W, L>
    requires links { (1 ≤ length links.items) × (length links.items ≤ 32) }
    ensures crawls { is_crawl (map string_bytes words.now) ≡ true → (first : L) (more : List L) → links.items ≡ first ∷ more
        → (link : L) × (result.links.items ≡ link ∷ more) × (job.new ≡ job.old)
        × Crawls V.Volume W.Sink L.Link (C.gives clock.now) (words_after (map string_bytes words.now)) volume result.volume out result.out first link result.status }
    ensures others { is_crawl (map string_bytes words.now) ≡ false → (result.links.items ≡ links.items)
        × Tends V.Volume S.Source W.Sink (C.gives clock.now) job.old job.new volume result.volume out result.out result.status (map string_bytes words.now) }
{
    if let [word, more @ ..] = words {
        if is_crawl(word) {
            let link = &mut links[0];
            let status = crawl_command(rt, alloc, more, &mut volume, &mut out, link, clock);
            return Ran {
                status,
                volume,
                out,
                links,
            };
        }
    }
    let tended = tend(alloc, words, job, volume, out, clock);
    Ran {
        status: tended.status,
        volume: tended.volume,
        out: tended.out,
        links,
    }
}
