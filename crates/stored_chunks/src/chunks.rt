//! The chunks of a table, loaded from a disk.
ghost use Rattle.std.specs.Prelude.{◌≡◌, ◌<◌, ℕ, Result, List, None, true, IfOk};
ghost use Rattle.outside_world.specs.Disk.{OnlyReads, Tells};
ghost use Rattle.collection_dir.specs.Faults.{DirHasCause};
ghost use Rattle.collection_dir.specs.declared.fault.DirFault.{DirFault};
ghost use Rattle.collection_dir.specs.declared.fault.DirFault.TheVariants.{Malformed};
ghost use Rattle.layer_model.specs.declared.names.Part.TheVariants as part;
ghost use Rattle.layer_model.specs.Names.{object_name};
ghost use Rattle.layer_merge.specs.Loads.{bytes_of};
ghost use Rattle.std.proofs.Common.{refl, ◌∙◌};
ghost use Rattle.stored_chunks.specs.LoadLaws.{came-after, came-later, kept-chain, kept-same};
ghost use Rattle.stored_chunks.specs.Places.{part_at};
ghost use Rattle.stored_chunks.specs.Loads.{Answers, Came, IsKept, failed_in};

use crate::laws::are_bytes;
use crate::parts::StoredPart;
use crate::told::told_fault;
use collection_dir::{DirFault, read_chunk};
use layer_manifest::ChunkInfo;
use layer_merge::Chunks;
use layer_model::{LayerName, Part, part_name};
use mvcc_keys::Memory;
use outside_world::Disk;
use row_codec::Kind;
use std::alloc::Global;

/// The fault of a chunk that is malformed.
pub fn malformed(
    alloc: Global,
    layer: &LayerName,
    number: u32,
    offset: usize,
) -> Result<DirFault, Memory>
    requires { number < 1000000 }
    ensures { IfOk result (λ e. e ≡ Malformed (object_name layer.now (part.Chunk number)) offset) }
{
    Ok(DirFault::Malformed {
        object: part_name(alloc, layer, Part::Chunk(number))?,
        offset,
    })
}

/// The bytes of a chunk of a layer's table, tested by their digest and by what the manifest tells of
/// the chunk.
pub fn load_chunk<D: Disk>(
    alloc: Global,
    disk: &mut D,
    layer: &LayerName,
    number: u32,
    table: u32,
    kinds: &[Kind],
    info: &ChunkInfo,
) -> Result<Vec<u8>, DirFault>
    requires { number < 1000000 }
    ensures answers { Answers layer.now number table kinds.now info.now (D.view disk.old) true (bytes_of result) }
    ensures reads { OnlyReads (D.view disk.old) (D.view disk.new) }
    ensures cause { DirHasCause (D.view disk.old).faults (D.view disk.new).faults result }
{
    let bytes = match read_chunk(alloc, disk, layer, number, info) {
        Ok(bytes) => bytes,
        // by cases and not by `?`, which would make the fault anew
        Err(fault) => return Err(fault),
    };
    are_bytes(&bytes);
    match told_fault(&bytes, table, kinds, info) {
        None => Ok(bytes),
        Some(offset) => Err(malformed(alloc, layer, number, offset)?),
    }
}

/// The part at a place, or one that stands for places without a part.
fn part_at<'a>(
    parts: &'a [StoredPart<'a>],
    other: &'a StoredPart<'a>,
    layer: usize,
) -> &'a StoredPart<'a>
    ensures { result.now ≡ part_at parts.now other.now layer }
{
    parts.get(layer).unwrap_or(other)
}

/// Whether the disk failed.
fn is_failure(loaded: &Result<Vec<u8>, DirFault>) -> bool
    ensures { result ≡ failed_in loaded.now }
{
    matches!(loaded, Err(DirFault::Failed))
}

/// The chunks of a table's parts on a disk, by the place of a part and a number in it. Each is
/// tested by its digest and by what its manifest tells of it.
#[derive(Drop)]
pub struct StoredChunks<'a, 'd, D: Disk> {
    pub alloc: Global,
    pub disk: &'d mut D,
    pub parts: &'a [StoredPart<'a>],
    /// Stands for places without a part, so that each place has one; a merge asks for none.
    pub other: &'a StoredPart<'a>,
    pub kinds: &'a [Kind],
    /// Whether the disk failed in a load.
    pub failed: bool,
}

impl<'a, 'd, D: Disk> Chunks for StoredChunks<'a, 'd, D> {
    type Fault = DirFault;

    ghost kept = { λ a b. (b.disk.ghost_name ≡ a.disk.ghost_name) × (b.parts.now ≡ a.parts.now) × (b.other.now ≡ a.other.now) × (b.kinds.now ≡ a.kinds.now) × IsKept (D.view a.disk.now) (D.view b.disk.now) a.failed b.failed };

    ghost came = { λ a b layer table chunk r. Came (part_at a.parts.now a.other.now layer) chunk table a.kinds.now (D.view a.disk.now) b.failed r };

    ghost loads = { λ _. None };

    ghost kept_same = { λ a. (refl, refl, refl, refl, kept-same (D.view a.disk.now) a.failed) };

    ghost kept_chain = { λ a b c p q. (q.0 ∙ p.0, q.1 ∙ p.1, q.2 ∙ p.2, q.3 ∙ p.3, kept-chain (D.view a.disk.now) (D.view b.disk.now) (D.view c.disk.now) a.failed b.failed c.failed p.4 q.4) };

    ghost came_later = { λ a b c layer table chunk r k h. came-later a.parts.now b.parts.now a.other.now b.other.now a.kinds.now b.kinds.now layer chunk table (D.view a.disk.now) (D.view b.disk.now) c.failed r k.1 k.2 k.3 k.4.reads h };

    ghost came_earlier = { λ a b c layer table chunk r h k. came-after (part_at a.parts.now a.other.now layer) chunk table a.kinds.now (D.view a.disk.now) b.failed c.failed r k.4.stays h };

    fn load(&mut self, layer: usize, table: u32, chunk: u32) -> Result<Vec<u8>, DirFault> {
        let part = part_at(self.parts, self.other, layer);
        let result = load_chunk(
            self.alloc,
            self.disk,
            part.layer(),
            part.number_of(chunk),
            table,
            self.kinds,
            part.info_of(chunk),
        );
        self.failed = self.failed || is_failure(&result);
        result
    }
}
