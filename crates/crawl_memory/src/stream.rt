// A source and a sink in memory.
ghost use Rattle.std.specs.Prelude.{◌≡◌, ◌≤◌, ◌<◌, ◌++◌, [], take, drop, length, true, vec_len, OnErr, IfOk};

use crate::fails::Fails;
use crawl_traits::{Failed, Sink, Source};
use std::alloc::Global;

/// A source that gives the bytes of a list, and tells what it has left.
#[derive(Drop)]
pub struct MemSource {
    bytes: Vec<u8>,
    at: usize,
    fails: Fails,
    ghost in_range: { at ≤ vec_len bytes },
}

impl MemSource {
    /// A source of these bytes, whose calls of these numbers fail.
    pub fn new(bytes: Vec<u8>, faults: Vec<u64>) -> Self
        ensures bytes { drop result.at result.bytes.items ≡ bytes.items }
        ensures listed { result.fails.listed.items ≡ faults.items }
        ensures calls { result.fails.calls ≡ 0 }
    {
        MemSource {
            bytes,
            at: 0,
            fails: Fails::new(faults),
        }
    }

    /// How many calls found no memory: none, since a read takes none.
    pub fn starved(&self) -> u64
        ensures { result ≡ self.now.fails.starved }
    {
        self.fails.starved()
    }
}

impl Source for MemSource {
    ghost use Rattle.crawl_memory.specs.Fails.{FailsExactly};

    ghost tells = { λ s. true };

    ghost left = { λ s. drop s.at s.bytes.items };

    ghost faults = { λ s. s.fails.faults };

    /// Gives as much as the buffer takes. A call that is to fail gives nothing.
    fn read(&mut self, into: &mut [u8]) -> Result<usize, Failed>
        ensures within { IfOk result (λ n. n ≤ length into.new) }
        ensures bytes { IfOk result (λ n. drop self.old.at self.old.bytes.items ≡ take n into.new ++ drop self.new.at self.new.bytes.items) }
        ensures end { IfOk result (λ n. n ≡ 0 → 0 < length into.new → drop self.new.at self.new.bytes.items ≡ []) }
        ensures err { OnErr result (drop self.new.at self.new.bytes.items ≡ drop self.old.at self.old.bytes.items) }
        ensures exact { FailsExactly self.old.fails self.new.fails result }
    {
        if self.fails.next() {
            return Err(Failed);
        }
        let rest = &self.bytes[self.at..];
        let n = rest.len().min(into.len());
        into[..n].copy_from_slice(&rest[..n]);
        self.at += n;
        Ok(n)
    }
}

/// A sink that keeps what is written, and tells it.
#[derive(Drop)]
pub struct MemSink {
    bytes: Vec<u8>,
    fails: Fails,
}

impl MemSink {
    /// A sink of no bytes, whose calls of these numbers fail.
    pub fn new(alloc: Global, faults: Vec<u64>) -> Self
        ensures bytes { result.bytes.items ≡ [] }
        ensures listed { result.fails.listed.items ≡ faults.items }
        ensures calls { result.fails.calls ≡ 0 }
    {
        MemSink {
            bytes: Vec::new(alloc),
            fails: Fails::new(faults),
        }
    }

    /// What was written.
    pub fn bytes(&self) -> &[u8]
        ensures { result.now ≡ self.now.bytes.items }
    {
        &self.bytes
    }

    /// How many calls found no memory.
    pub fn starved(&self) -> u64
        ensures { result ≡ self.now.fails.starved }
    {
        self.fails.starved()
    }
}

impl Sink for MemSink {
    ghost use Rattle.crawl_memory.specs.Fails.{FailsExactly};

    ghost tells = { λ s. true };

    ghost written = { λ s. s.bytes.items };

    ghost faults = { λ s. s.fails.faults };

    /// Takes the whole piece. A call that fails takes nothing.
    fn write(&mut self, from: &[u8]) -> Result<usize, Failed>
        ensures all { IfOk result (λ n. n ≡ length from.now) }
        ensures bytes { IfOk result (λ n. self.new.bytes.items ≡ self.old.bytes.items ++ from.now) }
        ensures err { OnErr result (self.new.bytes.items ≡ self.old.bytes.items) }
        ensures exact { FailsExactly self.old.fails self.new.fails result }
    {
        if self.fails.next() {
            return Err(Failed);
        }
        match self.bytes.extend_from_slice(from) {
            Ok(()) => Ok(from.len()),
            Err(_) => {
                self.fails.starve();
                Err(Failed)
            }
        }
    }
}
