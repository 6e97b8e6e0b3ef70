//! Calls on the layer of a plan.
use crate::plan::Plan;
use crate::spelling::{put_bytes, put_hex, put_name, short, word};
use collection_dir::{
    DirFault, finish_layer, forget_layer, read_chunk, read_manifest, write_chunk,
};
use layer_manifest::{ChunkInfo, Manifest, read_manifest_bytes};
use layer_model::LayerName;
use mvcc_keys::{Memory, Text};
use outside_world::Disk;
use sha2::{Digest, Sha256};
use std::alloc::Global;

/// The first number that no chunk has.
const CHUNKS_MAX: u32 = 1_000_000;

fn put_found(found: &Option<[u8; 32]>, out: &mut String) -> Result<(), Memory> {
    match found {
        Some(digest) => put_hex(digest, out),
        None => Ok(out.push_str("none")?),
    }
}

fn put_digests(
    object: &Text,
    wanted: &[u8],
    found: &Option<[u8; 32]>,
    front: &str,
    out: &mut String,
) -> Result<(), Memory> {
    put_name(object.as_str(), front, out)?;
    out.push_str(" wanted=")?;
    put_hex(wanted, out)?;
    out.push_str(" found=")?;
    put_found(found, out)
}

fn put_malformed(
    object: &Text,
    offset: usize,
    front: &str,
    out: &mut String,
) -> Result<(), Memory> {
    out.push_str("malformed ")?;
    put_name(object.as_str(), front, out)?;
    Ok(write!(out, " at {offset}")?)
}

fn put_fault(fault: &DirFault, front: &str, out: &mut String) -> Result<(), Memory> {
    match fault {
        DirFault::Failed => Ok(out.push_str("failed")?),
        DirFault::Memory => Err(Memory),
        DirFault::Malformed { object, offset } => put_malformed(object, *offset, front, out),
        DirFault::Damaged {
            object,
            wanted,
            found,
        } => {
            out.push_str("damaged ")?;
            put_digests(object, wanted, found, front, out)
        }
        DirFault::LayerDiffers {
            object,
            wanted,
            found,
        } => {
            out.push_str("differs ")?;
            put_digests(object, wanted, found, front, out)
        }
    }
}

fn put_done(done: &Result<(), DirFault>, front: &str, out: &mut String) -> Result<(), Memory> {
    match done {
        Ok(()) => Ok(out.push_str("ok")?),
        Err(fault) => put_fault(fault, front, out),
    }
}

fn put_written(
    written: &Result<bool, DirFault>,
    front: &str,
    out: &mut String,
) -> Result<(), Memory> {
    match written {
        Ok(true) => Ok(out.push_str("wrote")?),
        Ok(false) => Ok(out.push_str("vouched")?),
        Err(fault) => put_fault(fault, front, out),
    }
}

fn put_chunk(
    chunk: &Result<Vec<u8>, DirFault>,
    front: &str,
    out: &mut String,
) -> Result<(), Memory> {
    match chunk {
        Ok(bytes) => put_bytes(bytes, out),
        Err(fault) => put_fault(fault, front, out),
    }
}

fn put_read_manifest(
    manifest: &Result<Manifest, DirFault>,
    front: &str,
    out: &mut String,
) -> Result<(), Memory> {
    match manifest {
        Ok(m) => {
            let (version, job) = (m.version, m.job);
            Ok(write!(out, "version {version} of job {job}")?)
        }
        Err(fault) => put_fault(fault, front, out),
    }
}

/// What a manifest tells of a chunk with these bytes.
fn info_of(bytes: &[u8]) -> ChunkInfo {
    ChunkInfo {
        entries: 1,
        length: bytes.len() as u64,
        digest: Sha256::digest(bytes),
        bounds: None,
    }
}

/// Writes or reads the chunk of a number.
fn put_chunk_call<D: Disk>(
    alloc: Global,
    disk: &mut D,
    layer: &LayerName,
    line: &str,
    front: &str,
    out: &mut String,
) -> Result<(), Memory> {
    let number = short(word(line, 1));
    let bytes = word(line, 2).as_bytes();
    if number >= CHUNKS_MAX {
        return Ok(out.push_str("no number")?);
    }
    if word(line, 0) == "write" {
        return put_written(&write_chunk(alloc, disk, layer, number, bytes), front, out);
    }
    put_chunk(
        &read_chunk(alloc, disk, layer, number, &info_of(bytes)),
        front,
        out,
    )
}

/// Finishes the layer by the plan's manifest.
fn put_finished<D: Disk>(
    alloc: Global,
    disk: &mut D,
    layer: &LayerName,
    plan: &Plan,
    out: &mut String,
) -> Result<(), Memory> {
    match read_manifest_bytes(alloc, &plan.manifest) {
        Ok(m) if m.version == 2 => {
            put_done(
                &finish_layer(alloc, disk, layer, &m),
                plan.front.as_str(),
                out,
            )
        }
        _ => Ok(out.push_str("no manifest")?),
    }
}

fn put_forgotten<D: Disk>(
    alloc: Global,
    disk: &mut D,
    layer: &LayerName,
    chunks: u32,
    front: &str,
    out: &mut String,
) -> Result<(), Memory> {
    if chunks > CHUNKS_MAX {
        return Ok(out.push_str("no number")?);
    }
    put_done(&forget_layer(alloc, disk, layer, chunks), front, out)
}

/// Makes the call of a line: `write number text`, `read number text`, which wants the digest of the
/// text, `manifest`, `finish`, or `forget chunks`.
pub fn put_layer_call<D: Disk>(
    alloc: Global,
    disk: &mut D,
    plan: &Plan,
    line: &str,
    out: &mut String,
) -> Result<(), Memory> {
    let layer = plan.layer(alloc)?;
    let front = plan.front.as_str();
    match word(line, 0) {
        "write" | "read" => put_chunk_call(alloc, disk, &layer, line, front, out),
        "manifest" => put_read_manifest(&read_manifest(alloc, disk, &layer), front, out),
        "finish" => put_finished(alloc, disk, &layer, plan, out),
        "forget" => put_forgotten(alloc, disk, &layer, short(word(line, 1)), front, out),
        _ => Err(Memory),
    }
}
