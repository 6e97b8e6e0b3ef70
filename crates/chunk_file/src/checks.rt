//! The one test of a chunk's bytes, which takes no memory.
ghost use Rattle.std.specs.Prelude.{◌≡◌, None};
ghost use Rattle.std.specs.Option.{option_map};
ghost use Rattle.chunk_file.specs.Chunks.{fault_of, read_chunk, read_count, read_entries, read_mark};
ghost use Rattle.chunk_file.specs.Held.{Checks};

use crate::Malformed;
use crate::reading::take_next;
use row_codec::{CHUNK_ENTRIES_MAX, Kind};

/// What follows the four bytes that a chunk begins with.
fn take_mark(b: &[u8]) -> Option<&[u8]>
    ensures { option_map (λ rest. rest.now) result ≡ read_mark b.now }
{
    b.strip_prefix(b"CHK1".as_slice())
}

/// The number of entries, from 1 to 256, and what follows.
#[tactic(auto, unfolding(crate::specs::Chunks::read_count))]
fn take_count(b: &[u8]) -> Option<(usize, &[u8])>
    ensures { option_map (λ p. (p.0, p.1.now)) result ≡ read_count b.now }
{
    match key_encoding::take_uvarint(b) {
        Ok((count, rest)) if 1 <= count && count <= CHUNK_ENTRIES_MAX => Some((
            count as usize,
            rest,
        )),
        _ => None,
    }
}

/// The place of the first fault of so many entries at the end of an input of `len` bytes.
fn first_fault(b: &[u8], len: usize, count: usize, table: u32, kinds: &[Kind]) -> Option<usize>
    ensures { result ≡ fault_of (read_entries table kinds.now len count None b.now) }
{
    let mut expected = count;
    let mut last = None;
    let mut left = b;
    'entries: while expected > 0 {
        let Some((entry, rest)) = take_next(table, kinds, &last, left) else {
            return Some(len.saturating_sub(left.len()));
        };
        expected -= 1;
        last = Some(entry);
        left = rest;
    }
    if left.is_empty() {
        return None;
    }
    Some(len.saturating_sub(left.len()))
}

/// The number of a chunk's entries, and where the first begins.
#[derive(Clone, Copy)]
pub struct Head {
    pub count: usize,
    pub first: usize,
}

/// Tests that bytes are a chunk of the table.
#[tactic(auto, unfolding(crate::specs::Chunks::read_chunk))]
pub(crate) fn check_chunk(b: &[u8], table: u32, kinds: &[Kind]) -> Result<Head, Malformed>
    ensures { Checks table kinds.now b.now result }
{
    let Some(rest) = take_mark(b) else {
        return Err(Malformed { offset: 0 });
    };
    let Some((count, entries)) = take_count(rest) else {
        return Err(Malformed { offset: 4 });
    };
    match first_fault(entries, b.len(), count, table, kinds) {
        Some(offset) => Err(Malformed { offset }),
        None => Ok(Head {
            count,
            first: b.len().saturating_sub(entries.len()),
        }),
    }
}
