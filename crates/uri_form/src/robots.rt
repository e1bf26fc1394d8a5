// The addresses of robots files.
ghost use Rattle.std.specs.Prelude.{◌≡◌, IfOk};
ghost use Rattle.crawl_kinds.specs.Address.{IsUri};
ghost use Rattle.uri_spec.specs.Surt.{robots_text};

use crate::reading::{keep, url_of};
use crawl_kinds::{NoMemory, Uri};
use std::alloc::Global;
use url::Position;

/// The address of the robots file that speaks for an address (RFC 9309 section 2.3): `/robots.txt` behind what stands
/// before its path.
pub fn robots_uri(alloc: Global, uri: &Uri) -> Result<Uri, NoMemory>
    requires { IsUri uri.now }
    ensures same { IfOk result (λ own. own ≡ robots_text uri.now) }
    ensures address { IfOk result IsUri }
{
    let url = url_of(alloc, uri)?;
    let mut text = String::from_str(
        alloc,
        url.slice(Position::BeforeScheme, Position::BeforePath),
    )?;
    text.push_str("/robots.txt")?;
    let own = keep(alloc, text.as_str())?;
    Ok(own)
}
