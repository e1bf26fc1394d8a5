// The set of keys that were seen. Contracts see it as a finite set of their bytes.
ghost use Rattle.std.specs.Prelude.{◌≡◌, ◌≤◌, false, not, IfOk, OnOk, OnErr};
ghost use Rattle.std.specs.FinSet as set;

use crawl_kinds::{Key, NoMemory};
use std::alloc::Global;
use std::collections::BTreeSet;
use std::marker::Model;

/// Keys, each once. Contracts see the set.
#[derive(Drop)]
pub struct SeenSet {
    keys: BTreeSet<Key>,
}

impl Model for SeenSet {
    ghost use Rattle.std.specs.FinSet as set;
    ghost use Rattle.std.specs.Cmp.Lexicographic.{slice_cmp};
    ghost use Rattle.std.specs.Ordering.{nat_cmp};
    ghost use Rattle.std.specs.Coded.{coded_ℕ, coded_list};

    ghost Value = { set.FinSet (slice_cmp nat_cmp) };

    ghost coded = { set.code (coded_list coded_ℕ) };

    ghost view = { λ a. set.from_list a.keys.keys };
}

impl SeenSet {
    /// The empty set, which takes no memory. `bits` is how many bits of a key's fingerprint a set may keep in
    /// place of the key, 0 where it keeps the key: it is a wish for less memory, and this set keeps every key.
    pub fn new(alloc: Global, bits: u32) -> SeenSet
        requires { bits ≤ 64 }
        ensures { result ≡ set.empty }
    {
        let _ = bits;
        SeenSet {
            keys: BTreeSet::new(alloc),
        }
    }

    /// Puts a key into the set and says whether it is new. For want of memory the set stays as it was; a key
    /// that is there takes none.
    pub fn insert(&mut self, key: Key) -> Result<bool, NoMemory>
        ensures new { IfOk result (λ new. new ≡ not (set.contains self.old key)) }
        ensures ok { OnOk result (self.new ≡ set.insert self.old key) }
        ensures err { OnErr result (self.new ≡ self.old) }
        ensures absent { OnErr result (set.contains self.old key ≡ false) }
    {
        Ok(self.keys.insert(key)?)
    }

    /// Whether the key is in the set. It takes no memory.
    pub fn contains(&self, key: &Key) -> bool
        ensures { result ≡ set.contains self.now key.now }
    {
        self.keys.contains(key)
    }

    /// How many keys the set has.
    pub fn len(&self) -> u64
        ensures { result ≡ set.len self.now }
    {
        self.keys.len() as u64
    }
}
