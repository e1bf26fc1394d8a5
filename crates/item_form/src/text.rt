// Texts that are known to be in form.
ghost use Rattle.std.specs.Prelude.{◌≡◌, None, IfOk};
ghost use Rattle.crawl_kinds.specs.Text.{text_fault};

use crawl_kinds::{NoMemory, Text, TextFault, TextForm};
use std::alloc::Global;

/// The text of these bytes, which are one.
pub fn keep<F: TextForm>(alloc: Global, text: &str) -> Result<Text<F>, NoMemory>
    requires { text_fault F.allowed F.most text.now ≡ None }
    ensures { IfOk result (λ own. own ≡ text.now) }
{
    match Text::new(alloc, text) {
        Ok(own) => Ok(own),
        Err(TextFault::NoMemory) => Err(NoMemory),
        Err(_) => unreachable!(),
    }
}
