//! The test of a chunk's bytes by what the manifest tells of them.
ghost use Rattle.std.specs.Prelude.{◌≡◌, List, ℕ, Ok, Err};
ghost use Rattle.chunk_file.specs.Entries.{seen};
ghost use Rattle.mvcc_keys.specs.Entries.{end_of, key_of};
ghost use Rattle.stored_chunks.specs.Told.{are_bounds, begins_at, ends_at, is_told, none_above, none_below, read_told};
ghost use Rattle.stored_chunks.specs.Loads.{Reads};

use chunk_file::ChunkView;
use layer_manifest::ChunkInfo;
use mvcc_keys::{Blob, EntryView};
use row_codec::Kind;

fn key_of<'a>(entry: &EntryView<'a>) -> &'a [u8]
    ensures { result.now ≡ key_of (seen entry.now) }
{
    match entry {
        EntryView::Put { key, .. } => key,
        EntryView::Del { key, .. } => key,
        EntryView::Range { lo, .. } => lo,
    }
}

fn end_of<'a>(entry: &EntryView<'a>) -> &'a [u8]
    ensures { result.now ≡ end_of (seen entry.now) }
{
    match entry {
        EntryView::Put { key, .. } => key,
        EntryView::Del { key, .. } => key,
        EntryView::Range { hi, .. } => hi,
    }
}

fn none_below(key: &[u8], chunk: &ChunkView<'_>) -> bool
    ensures { result ≡ none_below key.now chunk.now }
{
    for entry in chunk.entries() {
        if !key.cmp(key_of(&entry)).is_le() {
            return false;
        }
    }
    true
}

fn begins_at(key: &[u8], chunk: &ChunkView<'_>) -> bool
    ensures { result ≡ begins_at key.now chunk.now }
{
    for entry in chunk.entries() {
        if key_of(&entry).cmp(key).is_eq() {
            return true;
        }
    }
    false
}

fn none_above(key: &[u8], chunk: &ChunkView<'_>) -> bool
    ensures { result ≡ none_above key.now chunk.now }
{
    for entry in chunk.entries() {
        if !end_of(&entry).cmp(key).is_le() {
            return false;
        }
    }
    true
}

fn ends_at(key: &[u8], chunk: &ChunkView<'_>) -> bool
    ensures { result ≡ ends_at key.now chunk.now }
{
    for entry in chunk.entries() {
        if end_of(&entry).cmp(key).is_eq() {
            return true;
        }
    }
    false
}

fn are_bounds(bounds: &Option<(Blob, Blob)>, chunk: &ChunkView<'_>) -> bool
    ensures { result ≡ are_bounds bounds.now chunk.now }
{
    match bounds {
        Some((least, greatest)) => {
            let (least, greatest) = (least.as_slice(), greatest.as_slice());
            (none_below(least, chunk) && begins_at(least, chunk))
                && (none_above(greatest, chunk) && ends_at(greatest, chunk))
        }
        None => true,
    }
}

fn is_told(info: &ChunkInfo, len: usize, chunk: &ChunkView<'_>) -> bool
    ensures { result ≡ is_told info.now len chunk.now }
{
    chunk.len() == info.entries as usize
        && len as u64 == info.length
        && are_bounds(&info.bounds, chunk)
}

/// The place where bytes are malformed as a chunk of the table of which the manifest tells this.
#[tactic(auto, unfolding(crate::specs::Told::read_told))]
pub(crate) fn told_fault(
    bytes: &[u8],
    table: u32,
    kinds: &[Kind],
    info: &ChunkInfo,
) -> Option<usize>
    ensures { Reads table kinds.now info.now bytes.now result }
{
    let chunk = match ChunkView::new(bytes, table, kinds) {
        Ok(chunk) => chunk,
        Err(fault) => return Some(fault.offset),
    };
    if is_told(info, bytes.len(), &chunk) {
        None
    } else {
        Some(4)
    }
}
