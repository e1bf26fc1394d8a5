// Links of a page.
ghost use Rattle.std.specs.Prelude.{◌≡◌, ◌≤◌, ◌<◌, ◌++◌, ◌∷◌, [], length, nat_le, OnOk, OnErr};
ghost use Rattle.extract_spec.specs.Links.{most_links};

use crawl_kinds::NoMemory;
use extract_spec::Found;
use std::alloc::Global;
use std::marker::Model;

/// The most links of a page.
const MOST_LINKS: usize = 6000;

/// Links, in order, at most 6,000. Contracts see the list.
#[derive(Drop)]
pub struct Links {
    list: Vec<Found>,
}

impl Model for Links {
    ghost use Rattle.std.specs.Prelude.{◌≤◌, List, length};
    ghost use Rattle.extract_spec.specs.declared.found.Found.{Found};
    ghost use Rattle.extract_spec.specs.Links.{most_links};

    ghost Value = { List Found };

    ghost view = { λ a. a.list.items };

    ghost invariant = { λ a. length a.list.items ≤ most_links };
}

impl Links {
    /// No links, which take no memory.
    pub fn new(alloc: Global) -> Self
        ensures { result ≡ [] }
    {
        Links {
            list: Vec::new(alloc),
        }
    }

    pub fn as_slice(&self) -> &[Found]
        ensures same { result.now ≡ self.now }
        ensures few { length self.now ≤ most_links }
    {
        self.list.as_slice()
    }

    /// Whether there are 6,000 links.
    pub fn is_full(&self) -> bool
        ensures full { result ≡ nat_le most_links (length self.now) }
        ensures few { length self.now ≤ most_links }
    {
        MOST_LINKS <= self.list.len()
    }

    /// Puts a link at the end, where there are fewer than 6,000. For want of memory the links stay as they were.
    pub fn push(&mut self, found: Found) -> Result<(), NoMemory>
        requires { length self.old < most_links }
        ensures ok { OnOk result (self.new ≡ self.old ++ found ∷ []) }
        ensures err { OnErr result (self.new ≡ self.old) }
    {
        self.list.push(found)?;
        Ok(())
    }
}
