//! What a unit of a job does: one chunk written, or the layer finished.
ghost use Rattle.std.specs.Prelude.{◌≡◌, ◌≤◌, ◌<◌, ◌++◌, ◌∷◌, [], Some, length, slice_get, IfErr, IfOk, OnOk, OnErr};
ghost use Rattle.outside_world.specs.Moments.{ChangesOnly, NoName};
ghost use Rattle.chunk_file.specs.Chunks.{chunk_bytes};
ghost use Rattle.layer_manifest.specs.ManifestFiles.{manifest_code};
ghost use Rattle.layer_manifest.specs.Manifests.{IsProperManifest};
ghost use Rattle.layer_model.specs.Layers.{LayerObjects};
ghost use Rattle.collection_dir.specs.Faults.{DirHasCause, IsDiskFault};
ghost use Rattle.collection_dir.specs.Finishing.{IsFinishFault};
ghost use Rattle.backup_job.specs.declared.job.Progress.TheVariants.{Done, Running};
ghost use Rattle.layer_objects.specs.Contents.{info_of};
ghost use Rattle.backup_job.specs.Jobs.{written};
ghost use Rattle.backup_job.specs.Units.{AtLayer, Finishes, WritesChunk, with_chunk, with_info};

use crate::chunks::chunk_of;
use crate::pieces::Piece;
use crate::{BackupJob, Progress};
use collection_dir::{DirFault, finish_layer, write_chunk};
use layer_manifest::{ChunkInfo, TablePart, chunk_count};
use mvcc_keys::{Items, Memory};
use outside_world::Disk;
use std::alloc::Global;
use std::mem;

fn push_info(alloc: Global, chunks: &mut Items<ChunkInfo>, info: ChunkInfo) -> Result<(), Memory>
    ensures ok { OnOk result (chunks.new ≡ chunks.old ++ info ∷ []) }
    ensures err { OnErr result (chunks.new ≡ chunks.old) }
{
    let mut infos = mem::replace(chunks, Items::from_vec(Vec::new(alloc))).into_vec();
    let refused = infos.push(info).is_err();
    *chunks = Items::from_vec(infos);
    if refused { Err(Memory) } else { Ok(()) }
}

/// Adds a chunk to the table at a place.
fn add_info(
    alloc: Global,
    tables: &mut Items<TablePart>,
    place: usize,
    info: ChunkInfo,
) -> Result<(), Memory>
    requires { place < length tables.old }
    ensures ok { OnOk result (tables.new ≡ with_info place info tables.old) }
    ensures err { OnErr result (tables.new ≡ tables.old) }
{
    let mut parts = mem::replace(tables, Items::from_vec(Vec::new(alloc))).into_vec();
    let done = push_info(alloc, &mut parts[place].chunks, info);
    *tables = Items::from_vec(parts);
    done
}

impl BackupJob {
    /// Writes a piece as the next chunk.
    pub(crate) fn write<D: Disk>(
        &mut self,
        disk: &mut D,
        piece: Piece,
    ) -> Result<Progress, DirFault>
        requires few { length piece.entries.items ≤ 256 }
        requires within { piece.place < length self.old.plans }
        requires number { written self.old < 1000000 }
        ensures running { IfOk result (λ p. p ≡ Running) }
        ensures ok { OnOk result (self.new ≡ with_chunk self.old piece.place piece.cursor (info_of piece.entries.items)) }
        ensures stays { OnErr result (self.new ≡ self.old) }
        ensures disk { (w : LayerObjects) → w.name ≡ self.old.name → written self.old < length w.chunks → slice_get w.chunks (written self.old) ≡ Some (chunk_bytes piece.entries.items)
            → WritesChunk w (written self.old) result (D.view disk.old) (D.view disk.new) }
        ensures changes { ChangesOnly (AtLayer self.old.name) NoName (D.view disk.old) (D.view disk.new) }
        ensures fault { IfErr result IsDiskFault }
        ensures cause { DirHasCause (D.view disk.old).faults (D.view disk.new).faults result }
    {
        let Piece {
            place,
            entries,
            cursor,
        } = piece;
        let (bytes, info) = chunk_of(self.alloc, entries.as_slice())?;
        let number = chunk_count(self.manifest.tables.as_slice());
        write_chunk(self.alloc, disk, &self.name, number, bytes.as_slice())?;
        add_info(self.alloc, &mut self.manifest.tables, place, info)?;
        self.place = place;
        self.cursor = cursor;
        Ok(Progress::Running)
    }

    /// Finishes the layer.
    pub(crate) fn finish<D: Disk>(&mut self, disk: &mut D) -> Result<Progress, DirFault>
        requires proper { IsProperManifest self.old.manifest }
        requires version { self.old.manifest.version ≡ 2 }
        ensures done { IfOk result (λ p. p ≡ Done) }
        ensures stays { self.new ≡ self.old }
        ensures disk { (w : LayerObjects) → w.name ≡ self.old.name → w.manifest ≡ manifest_code self.old.manifest
            → Finishes w self.old.manifest result (D.view disk.old) (D.view disk.new) }
        ensures changes { ChangesOnly (AtLayer self.old.name) NoName (D.view disk.old) (D.view disk.new) }
        ensures fault { IfErr result (IsFinishFault self.old.name self.old.manifest) }
        ensures cause { DirHasCause (D.view disk.old).faults (D.view disk.new).faults result }
    {
        finish_layer(self.alloc, disk, &self.name, &self.manifest)?;
        Ok(Progress::Done)
    }
}
