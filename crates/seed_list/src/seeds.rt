// Seeds that are added to a job.
ghost use Rattle.std.specs.Prelude.{◌≡◌, ◌⊎◌, ◌≤◌, ◌<◌, ◌∷◌, ◌++◌, [], ℕ, List, true, Err, length, count_by, IfOk, OnOk};
ghost use Rattle.seed_list.specs.Bad.{IsBadLine, IsRefusedSeed, most_seeds, most_text};
ghost use Rattle.seed_list.specs.Lines.{is_seed_line, lines};
ghost use Rattle.seed_list.specs.Listing.{AreSeedsOf};

use crate::fault::{LineFault, SeedFault};
use crate::line::{is_passed, is_prefix_line, is_seed_line, trimmed};
use crate::seed::read_seed;
use crawl_kinds::Uris;
use std::alloc::Global;
use std::str;

/// The most bytes of a text that is read.
const MOST_TEXT: usize = 1_048_576;

/// The most seeds of a text.
const MOST_SEEDS: usize = 200_000;

/// How many lines of `text` are seed lines, whether or not they can be read. It takes no memory.
pub fn count_seeds(text: &[u8]) -> usize
    ensures { result ≡ count_by is_seed_line (lines text.now) }
{
    text.split(|b| *b == b'\n')
        .filter(|line| is_seed_line(trimmed(line)))
        .count()
}

/// Puts the seed of a seed line at the end of the list.
fn push_seed(alloc: Global, seeds: &mut Uris, line: &str) -> Result<(), LineFault>
    requires { is_seed_line line.now ≡ true }
    ensures ok { OnOk result ((before : List (List ℕ)) → AreSeedsOf seeds.old before → AreSeedsOf seeds.new (before ++ line.now ∷ [])) }
    ensures refused { result ≡ Err LineFault.Refused → IsRefusedSeed line.now ⊎ (most_seeds ≤ length seeds.old) }
{
    if seeds.as_slice().len() >= MOST_SEEDS {
        return Err(LineFault::Refused);
    }
    seeds.push(read_seed(alloc, line)?)?;
    Ok(())
}

/// Takes in a line of seeds that are added.
fn add_seed(alloc: Global, seeds: &mut Uris, line: &[u8]) -> Result<(), LineFault>
    ensures ok { OnOk result ((before : List (List ℕ)) → AreSeedsOf seeds.old before → AreSeedsOf seeds.new (before ++ line.now ∷ [])) }
    ensures refused { result ≡ Err LineFault.Refused → IsRefusedSeed line.now ⊎ ((is_seed_line line.now ≡ true) × (most_seeds ≤ length seeds.old)) }
{
    let Ok(text) = str::from_utf8(line) else {
        return Err(LineFault::Refused);
    };
    if is_passed(line) {
        return Ok(());
    }
    if is_prefix_line(line) {
        return Err(LineFault::Refused);
    }
    push_seed(alloc, seeds, text)
}

/// Reads lines of seeds that are added to a job: the addresses of its seed lines, in order. The lines are those of a job's
/// text, but a `+` line is refused.
///
/// `TooLong` says that `text` has more than 1,048,576 bytes. `BadSeed` names the first line, counted from 1, that is no
/// UTF-8 (a comment too), or is a `+` line, or no seed, or the seed behind 200,000 others.
pub fn read_seeds(alloc: Global, text: &[u8]) -> Result<Uris, SeedFault>
    ensures ok { IfOk result (λ seeds. AreSeedsOf seeds (lines text.now) × (length text.now ≤ most_text)) }
    ensures long { result ≡ Err SeedFault.TooLong → most_text < length text.now }
    ensures too_long { most_text < length text.now → result ≡ Err SeedFault.TooLong }
    ensures bad { (n : ℕ) → result ≡ Err (SeedFault.BadSeed n) → (length text.now ≤ most_text) × IsBadLine IsRefusedSeed (lines text.now) n }
{
    if text.len() > MOST_TEXT {
        return Err(SeedFault::TooLong);
    }
    let mut seeds = Uris::new(alloc);
    for (count, piece) in text.split(|b| *b == b'\n').enumerate() {
        if let Err(fault) = add_seed(alloc, &mut seeds, trimmed(piece)) {
            return Err(fault.behind(count));
        }
    }
    Ok(seeds)
}
