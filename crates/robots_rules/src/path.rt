// What an address asks of the rules.
ghost use Rattle.std.specs.Prelude.{◌≡◌, IfOk};
ghost use Rattle.robots_spec.specs.Patterns.{path_of, robots_path_of};

use crate::line::{first_of, from};
use crate::normal::normal;
use crawl_kinds::{NoMemory, Uri};
use std::alloc::Global;

/// Path and query, from the first `/` behind the authority on.
fn path_of(text: &[u8]) -> &[u8]
    ensures { result.now ≡ path_of text.now }
{
    let behind = from(from(text, first_of(text, b':')), 3);
    from(behind, first_of(behind, b'/'))
}

/// Path and query of an address, in the form in which `Robots::allows` asks for them (RFC 9309 §2.2.2).
///
/// The only error is want of memory.
pub fn robots_path(alloc: Global, uri: &Uri) -> Result<Vec<u8>, NoMemory>
    ensures { IfOk result (λ path. path.items ≡ robots_path_of uri.now) }
{
    normal(alloc, path_of(uri.as_bytes()))
}
