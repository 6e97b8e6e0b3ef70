//! A chunk in the bytes that it is read from.
ghost use Rattle.std.specs.Prelude.{◌≡◌, IfOk, length};
ghost use Rattle.std.specs.Iterator.{YieldsFirstBy, item_count};
ghost use Rattle.chunk_file.specs.Chunks.{IsSpelled, answered, read_chunk};

use crate::checks::check_chunk;
use crate::reading::take_entry;
use crate::{EntryView, Kind, Malformed};
use std::marker::Model;

/// The entries of a chunk, borrowed from its bytes. Contracts see the list of the entries.
#[derive(Drop)]
pub struct ChunkView<'a> {
    count: usize,
    entries: &'a [u8],
}

impl<'a> Model for ChunkView<'a> {
    ghost use Rattle.std.specs.Prelude.{◌≡◌, List, length};
    ghost use Rattle.mvcc_keys.specs.declared.entries.Entry.{Entry};
    ghost use Rattle.chunk_file.specs.Entries.{listed};

    ghost Value = { List Entry };

    ghost view = { λ c. listed c.count c.entries.now };

    ghost invariant = { λ c. length (listed c.count c.entries.now) ≡ c.count };
}

impl<'a> ChunkView<'a> {
    /// Reads a chunk of a table with key columns of these kinds.
    pub fn new(b: &'a [u8], table: u32, kinds: &[Kind]) -> Result<ChunkView<'a>, Malformed>
        ensures read { answered (λ entries. entries) result ≡ read_chunk table kinds.now b.now }
        ensures spelled { IfOk result (λ entries. IsSpelled table kinds.now b.now entries) }
    {
        match check_chunk(b, table, kinds) {
            Ok(head) => Ok(ChunkView {
                count: head.count,
                entries: b.split_at(head.first).1,
            }),
            Err(fault) => Err(fault),
        }
    }

    pub fn len(&self) -> usize
        ensures { result ≡ length self.now }
    {
        self.count
    }

    /// The entries in the order of the chunk.
    pub fn entries(&self) -> ChunkIter<'a>
        ensures { result ≡ self.now }
    {
        ChunkIter {
            left: self.count,
            bytes: self.entries,
        }
    }
}

/// The entries of a chunk that are left to give. Contracts see their list.
#[derive(Drop)]
pub struct ChunkIter<'a> {
    left: usize,
    bytes: &'a [u8],
}

impl<'a> Model for ChunkIter<'a> {
    ghost use Rattle.std.specs.Prelude.{List};
    ghost use Rattle.mvcc_keys.specs.declared.entries.Entry.{Entry};
    ghost use Rattle.chunk_file.specs.Entries.{listed};

    ghost Value = { List Entry };

    ghost view = { λ it. listed it.left it.bytes.now };
}

impl<'a> Iterator for ChunkIter<'a> {
    ghost use Rattle.chunk_file.specs.Entries.{seen};

    type Item = EntryView<'a>;

    ghost next_gives = { YieldsFirstBy seen (λ entries. entries) };

    ghost remaining = { item_count (λ entries. entries) };

    fn next(&mut self) -> Option<EntryView<'a>> {
        if self.left == 0 {
            return None;
        }
        let Some((entry, rest)) = take_entry(self.bytes) else {
            return None;
        };
        self.left -= 1;
        self.bytes = rest;
        Some(entry)
    }
}
