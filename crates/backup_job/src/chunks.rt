//! A chunk's bytes, and what its manifest tells of it.
ghost use Rattle.std.specs.Prelude.{◌≡◌, ◌≤◌, ◌++◌, ◌∷◌, [], length, IfOk, OnOk, OnErr};
ghost use Rattle.sha2.specs.Sha256.{sha256};
ghost use Rattle.chunk_file.specs.Chunks.{chunk_bytes};
ghost use Rattle.mvcc_keys.specs.Entries.{key_of, end_of};
ghost use Rattle.layer_objects.specs.Contents.{bounds_of, chunk_size, greater, greatest_key, info_of, least_key, lesser};

use chunk_file::write_chunk_bytes;
use layer_manifest::ChunkInfo;
use mvcc_keys::{Blob, Entry, Memory};
use sha2::{Digest, Sha256};
use std::alloc::Global;

/// How many entries a chunk has at most.
#[tactic(auto, unfolding(layer_objects::specs::Contents::chunk_size))]
pub fn chunk_size() -> usize
    ensures size { result ≡ chunk_size }
    ensures few { result ≡ 256 }
{
    256
}

fn lesser<'a>(a: &'a [u8], b: &'a [u8]) -> &'a [u8]
    ensures { result.now ≡ lesser a.now b.now }
{
    if b.cmp(a).is_lt() { b } else { a }
}

fn greater<'a>(a: &'a [u8], b: &'a [u8]) -> &'a [u8]
    ensures { result.now ≡ greater a.now b.now }
{
    if a.cmp(b).is_lt() { b } else { a }
}

/// The least of a key and the keys of entries.
fn least_key<'a>(key: &'a [u8], entries: &'a [Entry]) -> &'a [u8]
    ensures { result.now ≡ least_key key.now entries.now }
{
    let mut least = key;
    for entry in entries {
        least = lesser(least, entry.key());
    }
    least
}

/// The greatest of a key and the keys and ends of entries.
fn greatest_key<'a>(key: &'a [u8], entries: &'a [Entry]) -> &'a [u8]
    ensures { result.now ≡ greatest_key key.now entries.now }
{
    let mut greatest = key;
    for entry in entries {
        greatest = greater(greatest, entry.end());
    }
    greatest
}

fn copy_keys(alloc: Global, least: &[u8], greatest: &[u8]) -> Result<(Blob, Blob), Memory>
    ensures { IfOk result (λ keys. keys ≡ (least.now, greatest.now)) }
{
    let least = Blob::copy_of(alloc, least)?;
    Ok((least, Blob::copy_of(alloc, greatest)?))
}

fn bounds_of(alloc: Global, entries: &[Entry]) -> Result<Option<(Blob, Blob)>, Memory>
    ensures { IfOk result (λ bounds. bounds ≡ bounds_of entries.now) }
{
    let Some((first, others)) = entries.split_first() else {
        return Ok(None);
    };
    let least = least_key(first.key(), others);
    let greatest = greatest_key(first.end(), others);
    let keys = copy_keys(alloc, least, greatest)?;
    Ok(Some(keys))
}

/// What the manifest tells of a chunk.
#[tactic(auto, unfolding(layer_objects::specs::Contents::info_of))]
fn info_of(alloc: Global, entries: &[Entry], bytes: &[u8]) -> Result<ChunkInfo, Memory>
    requires few { length entries.now ≤ 256 }
    requires spelled { bytes.now ≡ chunk_bytes entries.now }
    ensures { IfOk result (λ info. info ≡ info_of entries.now) }
{
    let bounds = bounds_of(alloc, entries)?;
    Ok(ChunkInfo {
        entries: entries.len() as u32,
        length: bytes.len() as u64,
        digest: Sha256::digest(bytes),
        bounds,
    })
}

/// A chunk's bytes, and what the manifest tells of it.
pub fn chunk_of(alloc: Global, entries: &[Entry]) -> Result<(Vec<u8>, ChunkInfo), Memory>
    requires few { length entries.now ≤ 256 }
    ensures bytes { IfOk result (λ chunk. chunk.0.items ≡ chunk_bytes entries.now) }
    ensures info { IfOk result (λ chunk. chunk.1 ≡ info_of entries.now) }
{
    let mut bytes = Vec::new(alloc);
    write_chunk_bytes(entries, &mut bytes)?;
    let info = info_of(alloc, entries, bytes.as_slice())?;
    Ok((bytes, info))
}
