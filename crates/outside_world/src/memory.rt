//! A source and a sink in memory, some of whose calls fail.
ghost use Rattle.std.specs.Prelude.{◌≡◌, ◌≤◌, ◌-◌, ◌↔◌, true, [], Some, length, drop, IfOk, IsErr, MatchBool, vec_len, vec_capacity};
ghost use Rattle.std.specs.Io.{ReadsAtMost, WritesAtMost};
ghost use Rattle.outside_world.specs.Causes.{HasCause, WriteHasCause};
ghost use Rattle.outside_world.specs.Numbered.{next_call, fails_at};
ghost use Rattle.outside_world.specs.Told.{ReadTakes, WriteAdds, TakesWhatFits};

use crate::next_bytes::give;
use crate::traits::count_failure;
use crate::{Failed, Sink, Source};
use mvcc_keys::Memory;
use std::alloc::Global;

/// Gives its bytes, and fails at the calls of these numbers, from 1.
#[derive(Drop)]
pub struct MemorySource {
    bytes: Vec<u8>,
    fails: Vec<u64>,
    given: usize,
    calls: u64,
    faults: u64,
    ghost within: { given ≤ length bytes.items },
}

impl MemorySource {
    pub fn new(bytes: Vec<u8>, fails: Vec<u64>) -> MemorySource
        ensures left { ⟦<MemorySource as Source>⟧.left result ≡ Some bytes.items }
        ensures faults { ⟦<MemorySource as Source>⟧.faults result ≡ 0 }
        ensures fails { result.fails.items ≡ fails.items }
        ensures calls { result.calls ≡ 0 }
    {
        MemorySource {
            bytes,
            fails,
            given: 0,
            calls: 0,
            faults: 0,
        }
    }
}

impl Source for MemorySource {
    ghost left = { λ s. Some (drop s.given s.bytes.items) };

    ghost faults = { λ s. s.faults };

    fn read(&mut self, room: &mut [u8]) -> Result<usize, Failed>
        ensures bound { ReadsAtMost result room.new }
        ensures taken { ReadTakes (⟦<MemorySource as Source>⟧.left self.old) (⟦<MemorySource as Source>⟧.left self.new) result room.new }
        ensures cause { HasCause self.old.faults self.new.faults result }
        ensures fails { self.new.fails.items ≡ self.old.fails.items }
        ensures calls { self.new.calls ≡ next_call self.old.calls }
        ensures failing { IsErr result ↔ (fails_at self.old.fails.items self.new.calls ≡ true) }
    {
        self.calls = self.calls.saturating_add(1);
        if self.fails.contains(&self.calls) {
            return Err(count_failure(&mut self.faults));
        }
        let count = give(&self.bytes, self.given, room);
        self.given += count;
        Ok(count)
    }
}

/// Keeps what fits in its room, and fails at the calls of these numbers, from 1.
#[derive(Drop)]
pub struct MemorySink {
    bytes: Vec<u8>,
    room: usize,
    fails: Vec<u64>,
    calls: u64,
    faults: u64,
    ghost fits: { vec_len bytes ≤ room },
    ghost reserved: { room ≤ vec_capacity bytes },
}

impl MemorySink {
    pub fn new(alloc: Global, room: usize, fails: Vec<u64>) -> Result<MemorySink, Memory>
        ensures held { IfOk result (λ s. ⟦<MemorySink as Sink>⟧.held s ≡ Some []) }
        ensures faults { IfOk result (λ s. ⟦<MemorySink as Sink>⟧.faults s ≡ 0) }
        ensures made { IfOk result (λ s. (s.room ≡ room) × (s.fails.items ≡ fails.items) × (s.calls ≡ 0)) }
    {
        Ok(MemorySink {
            bytes: Vec::with_capacity(alloc, room)?,
            room,
            fails,
            calls: 0,
            faults: 0,
        })
    }

    pub fn held(&self) -> &[u8]
        ensures { ⟦<MemorySink as Sink>⟧.held self.now ≡ Some result.now }
    {
        self.bytes.as_slice()
    }
}

impl Sink for MemorySink {
    ghost held = { λ s. Some s.bytes.items };

    ghost faults = { λ s. s.faults };

    fn write(&mut self, piece: &[u8]) -> Result<usize, Failed>
        ensures bound { WritesAtMost result piece.now }
        ensures added { WriteAdds (⟦<MemorySink as Sink>⟧.held self.old) (⟦<MemorySink as Sink>⟧.held self.new) result piece.now }
        ensures cause { WriteHasCause self.old.faults self.new.faults result (length piece.now) }
        ensures room { self.new.room ≡ self.old.room }
        ensures fails { self.new.fails.items ≡ self.old.fails.items }
        ensures calls { self.new.calls ≡ next_call self.old.calls }
        ensures answer { MatchBool (fails_at self.old.fails.items self.new.calls) (IsErr result)
            (TakesWhatFits (self.old.room - vec_len self.old.bytes) (length piece.now) result) }
    {
        self.calls = self.calls.saturating_add(1);
        if self.fails.contains(&self.calls) {
            return Err(count_failure(&mut self.faults));
        }
        let count = piece.len().min(self.room - self.bytes.len());
        if count == 0 && !piece.is_empty() {
            return Err(count_failure(&mut self.faults));
        }
        self.bytes.extend_from_slice(&piece[..count]).unwrap();
        Ok(count)
    }
}
