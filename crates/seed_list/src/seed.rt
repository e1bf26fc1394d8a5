// The seed and the prefix of one line.
ghost use Rattle.std.specs.Prelude.{◌≡◌, IfOk};
ghost use Rattle.crawl_kinds.specs.Address.{IsUri};
ghost use Rattle.seed_list.specs.Reading.{Answers};
ghost use Rattle.seed_list.specs.Seeds.{prefix_behind, prefix_of_seed, seed_of, surt_of};

use crate::fault::LineFault;
use crawl_kinds::Uri;
use std::alloc::Global;
use uri_form::{Surt, seed_prefix, seed_uri};

/// The address that a seed line is.
pub(crate) fn read_seed(alloc: Global, line: &str) -> Result<Uri, LineFault>
    ensures answer { Answers result (seed_of line.now) }
    ensures address { IfOk result IsUri }
{
    Ok(seed_uri(alloc, line)?)
}

/// The prefix that a text makes as a seed.
pub(crate) fn read_seed_prefix(alloc: Global, text: &str) -> Result<Surt, LineFault>
    ensures { Answers result (prefix_of_seed text.now) }
{
    Ok(seed_prefix(alloc, text)?)
}

/// A text as it stands, as a prefix.
fn read_surt(alloc: Global, text: &str) -> Result<Surt, LineFault>
    ensures { Answers result (surt_of text.now) }
{
    Ok(Surt::new(alloc, text)?)
}

/// The prefix of what follows `+`: the text as it stands where it begins as SURT forms do, and else what it makes as a
/// seed.
pub(crate) fn read_prefix(alloc: Global, rest: &str) -> Result<Surt, LineFault>
    ensures { Answers result (prefix_behind rest.now) }
{
    if rest.as_bytes().starts_with(b"http://(") {
        return read_surt(alloc, rest);
    }
    read_seed_prefix(alloc, rest)
}
