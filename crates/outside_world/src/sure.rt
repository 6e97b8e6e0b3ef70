//! A source and a sink that never fail.
ghost use Rattle.std.specs.Prelude.{◌≡◌, ◌≤◌, Some, None, length, drop};

use crate::next_bytes::give;
use crate::{Failed, Sink, Source};

/// Gives its bytes.
#[derive(Drop)]
pub struct SureSource {
    bytes: Vec<u8>,
    given: usize,
    ghost within: { given ≤ length bytes.items },
}

impl SureSource {
    pub fn new(bytes: Vec<u8>) -> SureSource
        ensures left { ⟦<SureSource as Source>⟧.left result ≡ Some bytes.items }
        ensures faults { ⟦<SureSource as Source>⟧.faults result ≡ 0 }
    {
        SureSource { bytes, given: 0 }
    }
}

impl Source for SureSource {
    ghost left = { λ s. Some (drop s.given s.bytes.items) };

    ghost faults = { λ s. 0 };

    fn read(&mut self, room: &mut [u8]) -> Result<usize, Failed> {
        let count = give(&self.bytes, self.given, room);
        self.given += count;
        Ok(count)
    }
}

/// Takes everything, and keeps nothing.
#[derive(Drop)]
pub struct SureSink;

impl SureSink {
    pub fn new() -> SureSink
        ensures held { ⟦<SureSink as Sink>⟧.held result ≡ None }
        ensures faults { ⟦<SureSink as Sink>⟧.faults result ≡ 0 }
    {
        SureSink
    }
}

impl Sink for SureSink {
    ghost held = { λ s. None };

    ghost faults = { λ s. 0 };

    fn write(&mut self, piece: &[u8]) -> Result<usize, Failed> {
        Ok(piece.len())
    }
}

/// The counts of these two are always 0.
pub fn sure_streams_never_fail()
    ensures source { (s : SureSource) → ⟦<SureSource as Source>⟧.faults s ≡ 0 }
    ensures sink { (s : SureSink) → ⟦<SureSink as Sink>⟧.faults s ≡ 0 }
{}
