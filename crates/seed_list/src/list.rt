// The seeds and prefixes of a job's text.
ghost use Rattle.std.specs.Prelude.{◌≡◌, ◌≢◌, ◌≤◌, ◌∷◌, ◌++◌, [], ℕ, List, true, Err, length, count_by, IfOk, OnOk};
ghost use Rattle.seed_list.specs.Bad.{IsBadLine, IsRefused};
ghost use Rattle.seed_list.specs.Lines.{is_seed_line, lines, plus_sign};
ghost use Rattle.seed_list.specs.Listing.{IsListOf};

use crate::fault::{LineFault, SeedFault};
use crate::line::{is_passed, trimmed_text};
use crate::seed::{read_prefix, read_seed, read_seed_prefix};
use crawl_kinds::{Listed, Uris};
use std::alloc::Global;
use uri_form::Surt;

/// The seeds of a text and the prefixes that its lines make.
#[derive(Drop)]
pub struct SeedList {
    pub seeds: Uris,
    pub prefixes: Listed<Surt>,
}

/// Takes in a seed line: puts its seed, and the prefix that it makes, at the end of the list.
fn add_seed(alloc: Global, list: &mut SeedList, line: &str) -> Result<(), LineFault>
    requires { is_seed_line line.now ≡ true }
    ensures ok { OnOk result ((before : List (List ℕ)) → IsListOf list.old before → IsListOf list.new (before ++ line.now ∷ [])) }
    ensures refused { result ≡ Err LineFault.Refused → IsRefused line.now }
{
    let seed = read_seed(alloc, line)?;
    let prefix = read_seed_prefix(alloc, line)?;
    list.seeds.push(seed)?;
    list.prefixes.push(prefix)?;
    Ok(())
}

/// Takes in the line of `+` and this text: puts its prefix at the end of the list.
fn add_prefix(alloc: Global, list: &mut SeedList, rest: &str) -> Result<(), LineFault>
    ensures ok { OnOk result ((before : List (List ℕ)) → IsListOf list.old before → IsListOf list.new (before ++ (plus_sign ∷ rest.now) ∷ [])) }
    ensures refused { result ≡ Err LineFault.Refused → IsRefused (plus_sign ∷ rest.now) }
{
    let prefix = read_prefix(alloc, rest)?;
    list.prefixes.push(prefix)?;
    Ok(())
}

/// Takes in a line of a job's text.
fn add_line(alloc: Global, list: &mut SeedList, line: &str) -> Result<(), LineFault>
    ensures ok { OnOk result ((before : List (List ℕ)) → IsListOf list.old before → IsListOf list.new (before ++ line.now ∷ [])) }
    ensures refused { result ≡ Err LineFault.Refused → IsRefused line.now }
{
    if is_passed(line.as_bytes()) {
        return Ok(());
    }
    match line.strip_prefix('+') {
        Some(rest) => add_prefix(alloc, list, rest),
        None => add_seed(alloc, list, line),
    }
}

/// Reads the seed lines of a job's text: the addresses of its seed lines, and the prefixes that seed lines and `+` lines
/// make, in order. Lines end at LF, and spaces, tabs and CRs at both ends of a line are dropped. An empty line and one that
/// begins with `#` are passed over. What follows `+` is a prefix as it stands where it begins with `http://(`, and else
/// makes one as a seed. `text` has at most 1,048,576 bytes and 200,000 seed lines, which `count_seeds` counts.
///
/// `BadSeed` names the first line, counted from 1, that is to give a seed or a prefix and gives none. `TooLong` is no
/// answer of this function.
pub fn read_seed_list(alloc: Global, text: &str) -> Result<SeedList, SeedFault>
    requires length { length text.now ≤ 1048576 }
    requires seeds { count_by is_seed_line (lines text.now) ≤ 200000 }
    ensures ok { IfOk result (λ list. IsListOf list (lines text.now)) }
    ensures bad { (n : ℕ) → result ≡ Err (SeedFault.BadSeed n) → IsBadLine IsRefused (lines text.now) n }
    ensures never { result ≢ Err SeedFault.TooLong }
{
    let mut list = SeedList {
        seeds: Uris::new(alloc),
        prefixes: Listed::new(alloc),
    };
    for (count, piece) in text.split('\n').enumerate() {
        if let Err(fault) = add_line(alloc, &mut list, trimmed_text(piece)) {
            return Err(fault.behind(count));
        }
    }
    Ok(list)
}
