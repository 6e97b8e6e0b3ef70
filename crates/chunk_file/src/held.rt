//! A chunk that owns its bytes, for a caller who holds it while it walks the entries.
ghost use Rattle.std.specs.Prelude.{◌≡◌, ◌↔◌, ◌<◌, ◌≤◌, IfOk, IfSome, IsNone, MatchOption, [], ◌∷◌, length};
ghost use Rattle.chunk_file.specs.Entries.{seen};
ghost use Rattle.chunk_file.specs.Chunks.{IsSpelled, answered, chunk_bytes, head_code, read_chunk};
ghost use Rattle.chunk_file.specs.Held.{IsEntryStart, left_at};

use crate::checks::check_chunk;
use crate::reading::take_entry;
use crate::{EntryView, Kind, Malformed};
use std::marker::Model;

/// The bytes of a chunk, tested once. Contracts see the list of its entries, whose one spelling
/// the bytes are.
#[derive(Drop)]
pub struct HeldChunk {
    bytes: Vec<u8>,
    first: usize,
}

impl Model for HeldChunk {
    ghost use Rattle.std.specs.Prelude.{List, drop, length};
    ghost use Rattle.mvcc_keys.specs.declared.entries.Entry.{Entry};
    ghost use Rattle.chunk_file.specs.Entries.{listed};
    ghost use Rattle.chunk_file.specs.Held.{IsHeld};

    ghost Value = { List Entry };

    ghost view = { λ h. listed (length h.bytes.items) (drop h.first h.bytes.items) };

    ghost invariant = { λ h. IsHeld h.bytes.items h.first (listed (length h.bytes.items) (drop h.first h.bytes.items)) };
}

impl HeldChunk {
    /// Takes the bytes of a chunk of a table with key columns of these kinds.
    pub fn new(bytes: Vec<u8>, table: u32, kinds: &[Kind]) -> Result<HeldChunk, Malformed>
        ensures read { answered (λ entries. entries) result ≡ read_chunk table kinds.now bytes.items }
        ensures spelled { IfOk result (λ entries. IsSpelled table kinds.now bytes.items entries) }
    {
        match check_chunk(bytes.as_slice(), table, kinds) {
            Ok(head) => Ok(HeldChunk {
                bytes,
                first: head.first,
            }),
            Err(fault) => Err(fault),
        }
    }

    /// The offset of the first entry.
    pub fn first(&self) -> usize
        ensures place { result ≡ length (head_code self.now) }
        ensures start { IsEntryStart self.now result }
        ensures all { left_at self.now result ≡ self.now }
    {
        self.first
    }

    /// The entry that begins at an offset, and the offset after it; None at the end of the bytes. A
    /// walk from `first` by the offsets that come out gives the entries of the chunk in order.
    pub fn entry_at(&self, offset: usize) -> Option<(EntryView<'_>, usize)>
        requires { IsEntryStart self.now offset }
        ensures entry { MatchOption result (left_at self.now offset ≡ []) (λ p. left_at self.now offset ≡ seen p.0 ∷ left_at self.now p.1) }
        ensures next { IfSome result (λ p. IsEntryStart self.now p.1 × (offset < p.1) × (p.1 ≤ length (chunk_bytes self.now))) }
        ensures ends { IsNone result ↔ (offset ≡ length (chunk_bytes self.now)) }
    {
        let bytes = self.bytes.as_slice();
        match take_entry(bytes.split_at(offset).1) {
            Some((entry, rest)) => Some((entry, bytes.len() - rest.len())),
            None => None,
        }
    }
}
