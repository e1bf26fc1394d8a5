// The call for the commands that need no link.
ghost use Rattle.std.specs.Prelude.{◌≡◌, map};
ghost use Rattle.std.specs.String.{string_bytes};
ghost use Rattle.job_commands.specs.Tends.{Ends, Enqueues, Inits, Tends};

use crate::enqueue::enqueue;
use crate::init::init;
use crate::words::{Command, read_words};
use crawl_traits::{Clock, Sink, Source, Volume};
use program_status::{Status, say};
use std::alloc::Global;

/// What a call leaves: how it ended, and the volume and the output that were handed in.
#[derive(Drop)]
pub struct Tended<V, W> {
    pub status: Status,
    pub volume: V,
    pub out: W,
}

/// Does `init`.
fn init_command<V: Volume, S: Source, W: Sink, C: Clock>(
    alloc: Global,
    job: &mut S,
    volume: &mut V,
    out: &mut W,
    clock: &C,
) -> Status
    ensures ends { Ends V.Volume S.Source W.Sink (C.gives clock.now) job.old job.new volume.old volume.new out.old out.new result }
    ensures inits { Inits V.Volume S.Source W.Sink (C.gives clock.now) job.old job.new volume.old volume.new out.old out.new result }
{
    match init(alloc, job, volume, clock) {
        Ok(()) => Status::Done,
        Err(status) => {
            say(out, &status);
            status
        }
    }
}

/// Does `enqueue`.
fn enqueue_command<V: Volume, S: Source, W: Sink, C: Clock>(
    alloc: Global,
    job: &mut S,
    volume: &mut V,
    out: &mut W,
    clock: &C,
) -> Status
    ensures ends { Ends V.Volume S.Source W.Sink (C.gives clock.now) job.old job.new volume.old volume.new out.old out.new result }
    ensures enqueues { Enqueues V.Volume S.Source W.Sink (C.gives clock.now) job.old job.new volume.old volume.new out.old out.new result }
{
    match enqueue(alloc, job, volume, out, clock) {
        Ok(()) => Status::Done,
        Err(status) => {
            say(out, &status);
            status
        }
    }
}

/// Does what the words say. `init` keeps the job whose text the source has left, and opens its crawl; it prints nothing.
/// `enqueue` opens the crawl that the volume keeps, adds the seeds whose lines the source has left, and prints a line
/// `CLASS URI` for each item that waits. It waits for nobody and always returns.
pub fn tend<V: Volume, S: Source, W: Sink, C: Clock>(
    alloc: Global,
    words: &[String],
    job: &mut S,
    mut volume: V,
    mut out: W,
    clock: &C,
) -> Tended<V, W>
    ensures { Tends V.Volume S.Source W.Sink (C.gives clock.now) job.old job.new volume result.volume out result.out result.status (map string_bytes words.now) }
{
    match read_words(words) {
        Ok(Command::Init) => {
            let status = init_command(alloc, job, &mut volume, &mut out, clock);
            Tended {
                status,
                volume,
                out,
            }
        }
        Ok(Command::Enqueue) => {
            let status = enqueue_command(alloc, job, &mut volume, &mut out, clock);
            Tended {
                status,
                volume,
                out,
            }
        }
        Err(word) => {
            let status = Status::Usage(word);
            say(&mut out, &status);
            Tended {
                status,
                volume,
                out,
            }
        }
    }
}
