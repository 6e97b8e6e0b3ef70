//! Chunks, read in their own bytes and held.
use crate::words::{first_word, id_of, kinds_of, put_again, put_bytes};
use chunk_file::{
    ChunkView, Entry, EntryView, HeldChunk, Malformed, comes_before, write_chunk_bytes,
};
use mvcc_keys::{Blob, Hlc, Memory};
use row_codec::Kind;
use std::alloc::Global;

fn put_dated(word: &str, key: &[u8], at: Hlc, out: &mut String) -> Result<(), Memory> {
    write!(out, "\n  {word} {at}")?;
    put_bytes(key, out)
}

/// Appends what an entry says.
fn put_entry(entry: &Entry, out: &mut String) -> Result<(), Memory> {
    match entry {
        Entry::Put { at, value, .. } => {
            put_dated("put", entry.key(), *at, out)?;
            put_bytes(value.as_slice(), out)
        }
        Entry::Del { at, .. } => put_dated("deletion", entry.end(), *at, out),
        Entry::Range { at, .. } => {
            put_dated("range", entry.key(), *at, out)?;
            put_bytes(entry.end(), out)
        }
    }
}

fn owned_put(alloc: Global, key: &[u8], at: Hlc, value: &[u8]) -> Result<Entry, Memory> {
    let key = Blob::copy_of(alloc, key)?;
    let value = Blob::copy_of(alloc, value)?;
    Ok(Entry::Put { key, at, value })
}

fn owned_range(alloc: Global, lo: &[u8], hi: &[u8], at: Hlc) -> Result<Entry, Memory> {
    let lo = Blob::copy_of(alloc, lo)?;
    let hi = Blob::copy_of(alloc, hi)?;
    Ok(Entry::Range { lo, hi, at })
}

fn owned(alloc: Global, entry: &EntryView<'_>) -> Result<Entry, Memory> {
    match entry {
        EntryView::Put { key, at, value } => owned_put(alloc, key, *at, value),
        EntryView::Del { key, at } => Ok(Entry::Del {
            key: Blob::copy_of(alloc, key)?,
            at: *at,
        }),
        EntryView::Range { lo, hi, at } => owned_range(alloc, lo, hi, *at),
    }
}

/// The entries of a chunk that stands in its bytes.
fn entries_of(alloc: Global, view: &ChunkView<'_>) -> Result<Vec<Entry>, Memory> {
    let mut entries = Vec::new(alloc);
    for entry in view.entries() {
        entries.push(owned(alloc, &entry)?)?;
    }
    Ok(entries)
}

/// How many entries of a chunk that is held stand before the one after them.
fn ordered_count(held: &HeldChunk) -> usize {
    let mut count: usize = 0;
    let mut last = None;
    let mut offset = held.first();
    for _ in 0..256 {
        let Some((entry, next)) = held.entry_at(offset) else {
            return count;
        };
        if follows(&last, &entry) {
            count = count.saturating_add(1);
        }
        last = Some(entry);
        offset = next;
    }
    count
}

/// Whether an entry stands after another one, and not before it.
fn follows(last: &Option<EntryView<'_>>, entry: &EntryView<'_>) -> bool {
    match last {
        Some(last) => comes_before(last, entry) && !comes_before(entry, last),
        None => true,
    }
}

fn put_entries(entries: &[Entry], out: &mut String) -> Result<(), Memory> {
    for entry in entries {
        put_entry(entry, out)?;
    }
    Ok(())
}

/// Appends the entries, and whether they are written as the bytes that they were read from.
fn put_read_chunk(
    alloc: Global,
    view: &ChunkView<'_>,
    bytes: &[u8],
    out: &mut String,
) -> Result<(), Memory> {
    let count = view.len();
    write!(out, "entries {count}")?;
    let entries = entries_of(alloc, view)?;
    let mut again = Vec::new(alloc);
    write_chunk_bytes(&entries, &mut again)?;
    put_again(&again, bytes, out)?;
    put_entries(&entries, out)
}

fn put_fault(fault: Malformed, out: &mut String) -> Result<(), Memory> {
    let offset = fault.offset;
    Ok(write!(out, "malformed {offset}")?)
}

fn put_viewed(
    alloc: Global,
    bytes: &[u8],
    table: u32,
    kinds: &[Kind],
    out: &mut String,
) -> Result<(), Memory> {
    match ChunkView::new(bytes, table, kinds) {
        Ok(view) => put_read_chunk(alloc, &view, bytes, out),
        Err(fault) => put_fault(fault, out),
    }
}

/// Appends how many entries a held chunk has in order, or its fault.
fn put_held(bytes: Vec<u8>, table: u32, kinds: &[Kind], out: &mut String) -> Result<(), Memory> {
    match HeldChunk::new(bytes, table, kinds) {
        Ok(held) => Ok(write!(out, "\nheld {}", ordered_count(&held))?),
        Err(fault) => Ok(write!(out, ", held {}", fault.offset)?),
    }
}

/// Reads a chunk of a table with key columns of the kinds.
pub fn put_chunk(
    alloc: Global,
    parameters: &str,
    bytes: &[u8],
    out: &mut String,
) -> Result<(), Memory> {
    let (table, kinds) = first_word(parameters);
    let kinds = kinds_of(alloc, kinds)?;
    put_viewed(alloc, bytes, id_of(table), &kinds, out)?;
    put_held(Vec::from_slice(alloc, bytes)?, id_of(table), &kinds, out)
}
