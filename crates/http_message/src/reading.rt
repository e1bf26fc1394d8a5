// The URLs of addresses, and texts that are known to be in form.
ghost use Rattle.std.specs.Prelude.{◌≡◌, None, IfOk};
ghost use Rattle.crawl_kinds.specs.Address.{IsUri, IsUriOf};
ghost use Rattle.crawl_kinds.specs.Text.{text_fault};

use crawl_kinds::{NoMemory, Text, TextFault, TextForm, Uri};
use std::alloc::Global;
use url::{ParseError, Url};

/// The URL of an address.
pub(crate) fn url_of(alloc: Global, uri: &Uri) -> Result<Url, NoMemory>
    requires { IsUri uri.now }
    ensures { IfOk result (IsUriOf uri.now) }
{
    match Url::parse(alloc, uri.as_str()) {
        Ok(url) => Ok(url),
        Err(ParseError::OutOfMemory) => Err(NoMemory),
        Err(ParseError::Overflow) => Err(NoMemory),
        Err(_) => unreachable!(),
    }
}

/// The text of these bytes, which are one.
pub(crate) fn keep<F: TextForm>(alloc: Global, text: &str) -> Result<Text<F>, NoMemory>
    requires { text_fault F.allowed F.most text.now ≡ None }
    ensures { IfOk result (λ own. own ≡ text.now) }
{
    match Text::new(alloc, text) {
        Ok(own) => Ok(own),
        Err(TextFault::NoMemory) => Err(NoMemory),
        Err(_) => unreachable!(),
    }
}
