//! The standard streams, over any reader and any writer that keeps nothing back.
ghost use Rattle.std.specs.Prelude.{◌≡◌, None};

use crate::traits::count_failure;
use crate::{Failed, Sink, Source};
use std::io::{Read, Write};

/// Any reader, with a count of its failures.
#[derive(Drop)]
pub struct StdSource<R: Read + Drop> {
    inner: R,
    faults: u64,
}

impl<R: Read + Drop> StdSource<R> {
    pub fn new(inner: R) -> StdSource<R>
        ensures left { ⟦<StdSource<R> as Source>⟧.left result ≡ None }
        ensures faults { ⟦<StdSource<R> as Source>⟧.faults result ≡ 0 }
    {
        StdSource { inner, faults: 0 }
    }
}

impl<R: Read + Drop> Source for StdSource<R> {
    ghost left = { λ s. None };

    ghost faults = { λ s. s.faults };

    fn read(&mut self, room: &mut [u8]) -> Result<usize, Failed> {
        match self.inner.read(room) {
            Ok(count) => Ok(count),
            Err(_) => Err(count_failure(&mut self.faults)),
        }
    }
}

/// Any writer, with a count of its failures and of the writes that took nothing.
#[derive(Drop)]
pub struct StdSink<W: Write + Drop> {
    inner: W,
    faults: u64,
}

impl<W: Write + Drop> StdSink<W> {
    pub fn new(inner: W) -> StdSink<W>
        ensures held { ⟦<StdSink<W> as Sink>⟧.held result ≡ None }
        ensures faults { ⟦<StdSink<W> as Sink>⟧.faults result ≡ 0 }
    {
        StdSink { inner, faults: 0 }
    }
}

impl<W: Write + Drop> Sink for StdSink<W> {
    ghost held = { λ s. None };

    ghost faults = { λ s. s.faults };

    fn write(&mut self, piece: &[u8]) -> Result<usize, Failed> {
        match self.inner.write(piece) {
            Ok(0) if !piece.is_empty() => {
                count_failure(&mut self.faults);
                Ok(0)
            }
            Ok(count) => Ok(count),
            Err(_) => Err(count_failure(&mut self.faults)),
        }
    }
}
