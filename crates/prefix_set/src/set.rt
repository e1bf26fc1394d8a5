// Prefixes of texts.
ghost use Rattle.std.specs.Prelude.{◌≡◌, ℕ, List, IfOk};
ghost use Rattle.prefix_set.specs.Prefixes.{covers, AreApart};

use crawl_kinds::{Copied, NoMemory, Text, TextForm};
use std::alloc::Global;
use std::marker::Model;

/// A set of prefixes. Contracts see those that it keeps.
#[derive(Drop)]
pub struct PrefixSet<F: TextForm> {
    kept: Vec<Text<F>>,
}

impl<F: TextForm> Model for PrefixSet<F> {
    ghost Value = { List (List ℕ) };

    ghost view = { λ a. a.kept.items };

    ghost invariant = { λ a. AreApart a.kept.items };
}

impl<F: TextForm> PrefixSet<F> {
    /// A set that covers the same texts as these prefixes. It fails for want of memory alone.
    pub fn of(alloc: Global, prefixes: &[Text<F>]) -> Result<PrefixSet<F>, NoMemory>
        ensures { IfOk result (λ set. (text : List ℕ) → covers set text ≡ covers prefixes.now text) }
    {
        let mut kept = Vec::new(alloc);
        for prefix in prefixes {
            kept.push(prefix.copy()?)?;
        }
        kept.sort_unstable();
        // In byte order all that begins with a text comes right after it.
        kept.dedup_by(|next, last| next.as_bytes().starts_with(last.as_bytes()));
        Ok(PrefixSet { kept })
    }

    /// Whether one of the prefixes is a beginning of the text. It takes no memory.
    pub fn covers(&self, text: &[u8]) -> bool
        ensures { result ≡ covers self.now text.now }
    {
        // None begins another, so of those not above the text the greatest alone can be a beginning of it.
        let kept = self.kept.as_slice();
        let not_above = kept.partition_point(|prefix| prefix.as_bytes().cmp(&text).is_le());
        match kept[..not_above].last() {
            Some(prefix) => text.starts_with(prefix.as_bytes()),
            None => false,
        }
    }
}
