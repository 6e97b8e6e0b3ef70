//! The bytes of manifests, and of the same without bounds, as version 1 has them.
ghost use Rattle.std.specs.Prelude.{◌≡◌, map, IfOk};
ghost use Rattle.layer_manifest.specs.ManifestFiles.{manifest_code};
ghost use Rattle.layer_manifest.specs.Manifests.{IsProperManifest};
ghost use Rattle.collection_dir.specs.Versions.{first_chunk, first_table, first_version};

use layer_manifest::{
    ChunkInfo, Manifest, ManifestFault, TablePart, manifests_are_exact, read_manifest_bytes,
    write_manifest,
};
use mvcc_keys::{Items, Memory};
use std::alloc::Global;
use std::mem;

pub(crate) fn manifest_bytes(alloc: Global, m: &Manifest) -> Result<Vec<u8>, Memory>
    requires { IsProperManifest m.now }
    ensures { IfOk result (λ b. b.items ≡ manifest_code m.now) }
{
    let mut out = Vec::new(alloc);
    write_manifest(m, &mut out)?;
    Ok(out)
}

fn drop_bounds(chunk: &mut ChunkInfo)
    ensures { chunk.new ≡ first_chunk chunk.old }
{
    chunk.bounds = None;
}

fn drop_chunk_bounds(chunks: &mut [ChunkInfo])
    ensures { chunks.new ≡ map first_chunk chunks.old }
{
    for chunk in chunks.iter_mut() {
        drop_bounds(chunk);
    }
}

fn drop_table_bounds(alloc: Global, table: &mut TablePart)
    ensures { table.new ≡ first_table table.old }
{
    let mut chunks = mem::replace(&mut table.chunks, Items::from_vec(Vec::new(alloc))).into_vec();
    drop_chunk_bounds(&mut chunks);
    table.chunks = Items::from_vec(chunks);
}

fn drop_all_bounds(alloc: Global, tables: &mut [TablePart])
    ensures { tables.new ≡ map first_table tables.old }
{
    for table in tables.iter_mut() {
        drop_table_bounds(alloc, table);
    }
}

#[tactic(auto, unfolding(crate::specs::Versions::first_version))]
fn first_version(alloc: Global, m: Manifest) -> Manifest
    ensures { result ≡ first_version m }
{
    let mut tables = m.tables.into_vec();
    drop_all_bounds(alloc, &mut tables);
    Manifest {
        cluster: m.cluster,
        job: m.job,
        full: m.full,
        start: m.start,
        end: m.end,
        floor: m.floor,
        history: m.history,
        scope: m.scope,
        tables: Items::from_vec(tables),
        version: 1,
    }
}

/// A copy of the manifest whose bytes these are.
fn copy_manifest(alloc: Global, m: &Manifest, bytes: &[u8]) -> Result<Manifest, Memory>
    requires proper { IsProperManifest m.now }
    requires spelled { bytes.now ≡ manifest_code m.now }
    ensures { IfOk result (λ copy. copy ≡ m.now) }
{
    manifests_are_exact();
    match read_manifest_bytes(alloc, bytes) {
        Ok(copy) => Ok(copy),
        Err(ManifestFault::Memory) => Err(Memory),
        Err(ManifestFault::Malformed { .. }) => unreachable!(),
    }
}

/// The bytes of version 1 of the manifest whose bytes these are.
pub(crate) fn first_bytes(alloc: Global, m: &Manifest, bytes: &[u8]) -> Result<Vec<u8>, Memory>
    requires proper { IsProperManifest m.now }
    requires spelled { bytes.now ≡ manifest_code m.now }
    ensures { IfOk result (λ b. b.items ≡ manifest_code (first_version m.now)) }
{
    let first = first_version(alloc, copy_manifest(alloc, m, bytes)?);
    manifest_bytes(alloc, &first)
}
