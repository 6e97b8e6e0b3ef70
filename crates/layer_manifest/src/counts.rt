//! How much a layer holds, by its manifest.
ghost use Rattle.std.specs.Prelude.{◌≡◌, ◌≤◌, ◌*◌, length, sum_by};
ghost use Rattle.table_descriptors.specs.declared.limits.TheConstants.{CHUNKS_MAX};
ghost use Rattle.layer_manifest.specs.Manifests.{IsProperManifest, chunk_count, chunk_entries, entry_count};

use crate::manifest::{ChunkInfo, Manifest, TablePart};

/// How many chunks tables have.
pub fn chunk_count(tables: &[TablePart]) -> u32
    requires { chunk_count tables.now ≤ CHUNKS_MAX }
    ensures { result ≡ chunk_count tables.now }
{
    let mut count = 0u32;
    for table in tables {
        count += table.chunks.len() as u32;
    }
    count
}

/// How many entries chunks have.
fn count_entries(chunks: &[ChunkInfo]) -> u64
    requires { length chunks.now ≤ CHUNKS_MAX }
    ensures sum { result ≡ sum_by chunk_entries chunks.now }
    ensures few { result ≤ length chunks.now * 4294967295 }
{
    let mut count = 0u64;
    for chunk in chunks {
        count += u64::from(chunk.entries);
    }
    count
}

/// How many entries tables have.
pub fn entry_count(tables: &[TablePart]) -> u64
    requires { chunk_count tables.now ≤ CHUNKS_MAX }
    ensures { result ≡ entry_count tables.now }
{
    let mut count = 0u64;
    for table in tables {
        count += count_entries(table.chunks.as_slice());
    }
    count
}

impl Manifest {
    /// How many chunks a layer has.
    #[tactic(auto, using(crate::proofs::FewChunks::few_chunks))]
    pub fn chunk_count(&self) -> u32
        requires { IsProperManifest self.now }
        ensures { result ≡ chunk_count self.now.tables }
    {
        chunk_count(self.tables.as_slice())
    }

    /// How many entries a layer has.
    #[tactic(auto, using(crate::proofs::FewChunks::few_chunks))]
    pub fn entry_count(&self) -> u64
        requires { IsProperManifest self.now }
        ensures { result ≡ entry_count self.now.tables }
    {
        entry_count(self.tables.as_slice())
    }
}
