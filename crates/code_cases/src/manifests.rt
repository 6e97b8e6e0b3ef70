//! Manifests of both versions.
ghost use Rattle.layer_manifest.specs.Manifests.{IsProperManifest};

use crate::descriptors::put_fields;
use crate::words::{put_again, put_bytes, put_id_list};
use layer_manifest::{
    ChunkInfo, Manifest, ManifestFault, TablePart, read_manifest_bytes, write_manifest,
};
use mvcc_keys::{Blob, Memory};
use std::alloc::Global;
use table_descriptors::{Descriptor, Scope};

fn put_bounds(bounds: &Option<(Blob, Blob)>, out: &mut String) -> Result<(), Memory> {
    let Some((least, greatest)) = bounds else {
        return Ok(());
    };
    put_bytes(least.as_slice(), out)?;
    put_bytes(greatest.as_slice(), out)
}

fn put_chunk(chunk: &ChunkInfo, out: &mut String) -> Result<(), Memory> {
    write!(
        out,
        "\n    chunk entries {} length {}",
        chunk.entries, chunk.length
    )?;
    put_bytes(&chunk.digest, out)?;
    put_bounds(&chunk.bounds, out)
}

fn put_chunks(chunks: &[ChunkInfo], out: &mut String) -> Result<(), Memory> {
    for chunk in chunks {
        put_chunk(chunk, out)?;
    }
    Ok(())
}

fn put_descriptors(
    alloc: Global,
    descriptors: &[Descriptor],
    out: &mut String,
) -> Result<(), Memory> {
    for descriptor in descriptors {
        out.push_str("\n    ")?;
        put_fields(alloc, descriptor, out)?;
    }
    Ok(())
}

fn put_table(alloc: Global, table: &TablePart, out: &mut String) -> Result<(), Memory> {
    let introduced = if table.introduced { " introduced" } else { "" };
    write!(out, "\n  table {}{introduced}", table.id)?;
    put_descriptors(alloc, table.descriptors.as_slice(), out)?;
    put_chunks(table.chunks.as_slice(), out)
}

fn put_tables(alloc: Global, tables: &[TablePart], out: &mut String) -> Result<(), Memory> {
    for table in tables {
        put_table(alloc, table, out)?;
    }
    Ok(())
}

fn put_scope(scope: &Scope, out: &mut String) -> Result<(), Memory> {
    match scope {
        Scope::Database(name) => Ok(write!(out, " database {name}")?),
        Scope::Tables(ids) => {
            out.push_str(" tables")?;
            put_id_list(ids.as_slice(), out)
        }
    }
}

fn put_times(manifest: &Manifest, out: &mut String) -> Result<(), Memory> {
    let full = manifest.full;
    let start = manifest.start;
    let end = manifest.end;
    let floor = manifest.floor;
    let history = if manifest.history { " history" } else { "" };
    Ok(write!(
        out,
        " full {full} start {start} end {end} floor {floor}{history}"
    )?)
}

fn put_counts(manifest: &Manifest, out: &mut String) -> Result<(), Memory>
    requires { IsProperManifest manifest.now }
{
    let chunks = manifest.chunk_count();
    let entries = manifest.entry_count();
    Ok(write!(out, " chunks {chunks} entries {entries}")?)
}

/// Appends what a manifest says.
fn put_fields_of(alloc: Global, manifest: &Manifest, out: &mut String) -> Result<(), Memory>
    requires { IsProperManifest manifest.now }
{
    let version = manifest.version;
    write!(
        out,
        "version {version} cluster {} job {}",
        manifest.cluster, manifest.job
    )?;
    put_times(manifest, out)?;
    put_scope(&manifest.scope, out)?;
    put_counts(manifest, out)?;
    put_tables(alloc, manifest.tables.as_slice(), out)
}

/// Appends whether a manifest is written as the bytes that it was read from.
fn put_written(
    alloc: Global,
    manifest: &Manifest,
    bytes: &[u8],
    out: &mut String,
) -> Result<(), Memory>
    requires { IsProperManifest manifest.now }
{
    let mut again = Vec::new(alloc);
    write_manifest(manifest, &mut again)?;
    out.push_str("\n  written")?;
    put_again(&again, bytes, out)
}

fn put_read(
    alloc: Global,
    manifest: &Manifest,
    bytes: &[u8],
    out: &mut String,
) -> Result<(), Memory>
    requires { IsProperManifest manifest.now }
{
    put_fields_of(alloc, manifest, out)?;
    let copy = manifest.copy(alloc)?;
    put_written(alloc, &copy, bytes, out)
}

/// Reads a manifest.
pub fn put_manifest(alloc: Global, bytes: &[u8], out: &mut String) -> Result<(), Memory> {
    match read_manifest_bytes(alloc, bytes) {
        Ok(manifest) => put_read(alloc, &manifest, bytes, out),
        Err(ManifestFault::Malformed { offset }) => Ok(write!(out, "malformed {offset}")?),
        Err(ManifestFault::Memory) => Err(Memory),
    }
}
