//! Copies of manifests, for whoever is to own one.
ghost use Rattle.std.specs.Prelude.{◌≡◌, IfOk};

use crate::manifest::{ChunkInfo, Manifest, TablePart};
use mvcc_keys::{Blob, Items, Memory};
use std::alloc::Global;
use table_descriptors::{Descriptor, Scope};

fn copy_bounds(alloc: Global, bounds: &Option<(Blob, Blob)>) -> Result<Option<(Blob, Blob)>, Memory>
    ensures { IfOk result (λ b. b ≡ bounds.now) }
{
    match bounds {
        Some((least, greatest)) => Ok(Some((least.copy(alloc)?, greatest.copy(alloc)?))),
        None => Ok(None),
    }
}

fn copy_chunk(alloc: Global, chunk: &ChunkInfo) -> Result<ChunkInfo, Memory>
    ensures { IfOk result (λ c. c ≡ chunk.now) }
{
    Ok(ChunkInfo {
        entries: chunk.entries,
        length: chunk.length,
        digest: chunk.digest,
        bounds: copy_bounds(alloc, &chunk.bounds)?,
    })
}

fn copy_chunks(alloc: Global, chunks: &[ChunkInfo]) -> Result<Vec<ChunkInfo>, Memory>
    ensures { IfOk result (λ v. v.items ≡ chunks.now) }
{
    let mut copies = Vec::new(alloc);
    for chunk in chunks {
        copies.push(copy_chunk(alloc, chunk)?)?;
    }
    Ok(copies)
}

fn copy_descriptors(alloc: Global, descriptors: &[Descriptor]) -> Result<Vec<Descriptor>, Memory>
    ensures { IfOk result (λ v. v.items ≡ descriptors.now) }
{
    let mut copies = Vec::new(alloc);
    for descriptor in descriptors {
        copies.push(descriptor.copy(alloc)?)?;
    }
    Ok(copies)
}

fn copy_table(alloc: Global, table: &TablePart) -> Result<TablePart, Memory>
    ensures { IfOk result (λ t. t ≡ table.now) }
{
    Ok(TablePart {
        id: table.id,
        introduced: table.introduced,
        descriptors: Items::from_vec(copy_descriptors(alloc, table.descriptors.as_slice())?),
        chunks: Items::from_vec(copy_chunks(alloc, table.chunks.as_slice())?),
    })
}

fn copy_tables(alloc: Global, tables: &[TablePart]) -> Result<Vec<TablePart>, Memory>
    ensures { IfOk result (λ v. v.items ≡ tables.now) }
{
    let mut copies = Vec::new(alloc);
    for table in tables {
        copies.push(copy_table(alloc, table)?)?;
    }
    Ok(copies)
}

fn copy_scope(alloc: Global, scope: &Scope) -> Result<Scope, Memory>
    ensures { IfOk result (λ s. s ≡ scope.now) }
{
    match scope {
        Scope::Database(name) => Ok(Scope::Database(name.copy(alloc)?)),
        Scope::Tables(ids) => {
            let ids = Vec::from_slice(alloc, ids.as_slice())?;
            Ok(Scope::Tables(Items::from_vec(ids)))
        }
    }
}

impl Manifest {
    /// The same manifest.
    pub fn copy(&self, alloc: Global) -> Result<Manifest, Memory>
        ensures { IfOk result (λ m. m ≡ self.now) }
    {
        Ok(Manifest {
            cluster: self.cluster.copy(alloc)?,
            job: self.job,
            full: self.full,
            start: self.start,
            end: self.end,
            floor: self.floor,
            history: self.history,
            scope: copy_scope(alloc, &self.scope)?,
            tables: Items::from_vec(copy_tables(alloc, self.tables.as_slice())?),
            version: self.version,
        })
    }
}
