// Standard input and output, by what the crawler asks of a source and a sink. They tell nothing, so that no clause
// speaks of their bytes; each counts its errors.
ghost use Rattle.std.specs.Prelude.{◌≡◌, [], false};

use crawl_traits::{Failed, Sink, Source};
use std::io::{Read, Write};

/// A reader as a source.
#[derive(Drop)]
pub struct StdSource<R> {
    inner: R,
    faults: u64,
}

impl<R> StdSource<R> {
    pub fn new(inner: R) -> Self
        ensures { result.faults ≡ 0 }
    {
        StdSource { inner, faults: 0 }
    }
}

impl<R: Read> Source for StdSource<R> {
    ghost tells = { λ s. false };

    ghost left = { λ s. [] };

    ghost faults = { λ s. s.faults };

    fn read(&mut self, into: &mut [u8]) -> Result<usize, Failed> {
        let before = self.faults;
        match self.inner.read(into) {
            Ok(n) => Ok(n),
            Err(_) => {
                self.faults = before.saturating_add(1);
                Err(Failed)
            }
        }
    }
}

/// A writer as a sink.
#[derive(Drop)]
pub struct StdSink<W> {
    inner: W,
    faults: u64,
}

impl<W> StdSink<W> {
    pub fn new(inner: W) -> Self
        ensures { result.faults ≡ 0 }
    {
        StdSink { inner, faults: 0 }
    }
}

impl<W: Write> Sink for StdSink<W> {
    ghost tells = { λ s. false };

    ghost written = { λ s. [] };

    ghost faults = { λ s. s.faults };

    fn write(&mut self, from: &[u8]) -> Result<usize, Failed> {
        let before = self.faults;
        match self.inner.write(from) {
            Ok(n) => {
                if n == 0 {
                    self.faults = before.saturating_add(1);
                }
                Ok(n)
            }
            Err(_) => {
                self.faults = before.saturating_add(1);
                Err(Failed)
            }
        }
    }
}
