// The text that a source has left.
ghost use Rattle.std.specs.Prelude.{◌≡◌, ◌≤◌, ◌<◌, ◌++◌, [], length, IsTrue, IfOk, IfErr};
ghost use Rattle.seed_list.specs.Bad.{most_text};
ghost use Rattle.crawl_traits.specs.Causes.{Rose};
ghost use Rattle.job_commands.specs.Causes.{IsCaused, IsTooLong, source_causes};

use crawl_traits::{Failed, Source};
use job_order::JobFault;
use program_status::Status;
use std::alloc::Global;

/// The most bytes that a source's text has.
const MOST_TEXT: usize = 1_048_576;

/// Reads to the end of input, or to the first byte too much.
pub fn read_text<S: Source>(alloc: Global, source: &mut S) -> Result<Vec<u8>, Status>
    ensures text { IsTrue (S.tells source.old) → IfOk result (λ text. (text.items ≡ S.left source.old) × (S.left source.new ≡ [])) }
    ensures most { IfOk result (λ text. length text.items ≤ most_text) }
    ensures tells { S.tells source.new ≡ S.tells source.old }
    ensures later { S.faults source.old ≤ S.faults source.new }
    ensures fault { IfErr result (IsCaused (source_causes (Rose (S.faults source.old) (S.faults source.new)) (IsTooLong (IsTrue (S.tells source.old) → most_text < length (S.left source.old))))) }
{
    let mut text = Vec::new(alloc);
    let mut piece = [0u8; 4096];
    while text.len() <= MOST_TEXT {
        let room = (MOST_TEXT + 1 - text.len()).min(piece.len());
        match source.read(&mut piece[..room]) {
            Ok(n) => {
                if n == 0 {
                    return Ok(text);
                }
                if text.extend_from_slice(&piece[..n]).is_err() {
                    return Err(Status::NoMemory);
                }
            }
            Err(Failed) => return Err(Status::SourceFault),
        }
    }
    Err(Status::JobRefused(JobFault::TooLong))
}
