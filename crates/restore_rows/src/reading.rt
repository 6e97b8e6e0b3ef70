//! The rows of a table as of a time, read out of the layers of a chain.
ghost use Rattle.std.specs.Prelude.{◌≡◌, true, Ok, List, length, map, IfErr, IfOk};
ghost use Rattle.std.specs.List.{AllByRecursion};
ghost use Rattle.mvcc_keys.specs.declared.entries.Entry.{Entry};
ghost use Rattle.table_descriptors.specs.declared.scopes.Scope.{Scope};
ghost use Rattle.table_descriptors.specs.Descriptors.{Schema, key_kinds};
ghost use Rattle.history_model.specs.Histories.{Table};
ghost use Rattle.history_model.specs.Layers.{LayerRecord};
ghost use Rattle.chunk_file.specs.Entries.{IsStored, is_entry};
ghost use Rattle.outside_world.specs.Disk.{OnlyReads, Tells};
ghost use Rattle.collection_dir.specs.Faults.{DirHasCause, IsDiskFault};
ghost use Rattle.stored_chunks.specs.Parts.{AreProperLayers};
ghost use Rattle.stored_chunks.specs.Places.{counted_parts};
ghost use Rattle.layer_chains.specs.Chains.{AreMergeable, AreOfScope, IsChainTo, IsShown, rows_at, stored_put};
ghost use Rattle.layer_chains.specs.Standing.{AreStandingLayers};
ghost use Rattle.restore_rows.specs.Checks.{Finds, check_parts};
ghost use Rattle.restore_rows.specs.Reading.{IsFaultIn, IsNamed, IsReadOf, Merges, Names, world_of};

use crate::checking::check_chunks_of;
use crate::merging::merged_rows;
use collection_dir::DirFault;
use layer_manifest::Manifest;
use layer_merge::MergeFault;
use layer_model::LayerName;
use mvcc_keys::{Entry, Hlc, Memory};
use outside_world::Disk;
use row_codec::Kind;
use std::alloc::Global;
use stored_chunks::{StoredChunks, StoredPart, malformed, merge_parts, stored_parts};

/// What a merge of parts ended with, said of the objects of their layers.
fn named_fault(alloc: Global, parts: &[StoredPart<'_>], fault: MergeFault<DirFault>) -> DirFault
    requires { IsNamed (length parts.now) fault }
    ensures { Names parts.now fault result }
{
    match fault {
        MergeFault::Chunk(fault) => fault,
        MergeFault::Malformed {
            layer,
            chunk,
            offset,
        } => {
            let part = &parts[layer];
            match malformed(alloc, part.layer(), part.number_of(chunk), offset) {
                Ok(fault) => fault,
                Err(Memory) => DirFault::Memory,
            }
        }
        MergeFault::Memory => DirFault::Memory,
    }
}

/// The rows of parts as of a time.
fn rows_of_parts<D: Disk>(
    alloc: Global,
    disk: &mut D,
    parts: &[StoredPart<'_>],
    table: u32,
    kinds: &[Kind],
    t: Hlc,
) -> Result<Vec<Entry>, DirFault>
    ensures rows { (rows : List Entry) → Tells (D.view disk.old) → Merges (world_of table kinds.now (D.view disk.old).objects parts.now) parts.now t rows → IfOk result (λ v. v.items ≡ rows) }
    ensures sound { Tells (D.view disk.old) → check_parts table kinds.now (D.view disk.old).objects parts.now ≡ Ok tt → IfErr result IsDiskFault }
    ensures typed { IfOk result (λ v. AllByRecursion (λ (e : Entry). (is_entry table kinds.now e ≡ true) × IsStored e) v.items) }
    ensures given { IfOk result (λ v. AllByRecursion (IsReadOf table kinds.now parts.now (D.view disk.old)) v.items) }
    ensures told { IfErr result (IsFaultIn table kinds.now parts.now) }
    ensures reads { OnlyReads (D.view disk.old) (D.view disk.new) }
    ensures cause { DirHasCause (D.view disk.old).faults (D.view disk.new).faults result }
{
    let Some((other, _)) = parts.split_first() else {
        return Ok(Vec::new(alloc));
    };
    let merge = match merge_parts(alloc, parts) {
        Ok(merge) => merge,
        Err(Memory) => return Err(DirFault::Memory),
    };
    let mut chunks = StoredChunks {
        alloc,
        disk,
        parts,
        other,
        kinds,
        failed: false,
    };
    let rows = merged_rows(alloc, &mut chunks, table, kinds, &merge, t);
    if chunks.failed {
        return Err(DirFault::Failed);
    }
    match rows {
        Ok(rows) => Ok(rows),
        Err(fault) => Err(named_fault(alloc, parts, fault)),
    }
}

/// The rows of a table as of a time, as stored puts by key, out of the layers of a chain to that
/// time. All chunks that count are tested before the first row is merged, so that the first fault
/// of a chunk is named, by layer and number.
pub fn read_rows<D: Disk>(
    alloc: Global,
    disk: &mut D,
    layers: &[(LayerName, Manifest)],
    table: u32,
    kinds: &[Kind],
    t: Hlc,
) -> Result<Vec<Entry>, DirFault>
    requires { AreProperLayers layers.now }
    ensures rows { (tables : List Table) (rs : List LayerRecord) (scope : Scope) (d : Schema) → Tells (D.view disk.old) → AreStandingLayers tables (D.view disk.old).objects rs layers.now → AreOfScope scope rs → IsChainTo t rs → AreMergeable tables
        → IsShown tables scope t d → table ≡ d.id → kinds.now ≡ key_kinds d → IfOk result (λ v. v.items ≡ map (stored_put d.id (key_kinds d)) (rows_at tables t d)) × IfErr result IsDiskFault }
    ensures found { Tells (D.view disk.old) → Finds (λ v. tt) result (check_parts table kinds.now (D.view disk.old).objects (counted_parts table layers.now)) }
    ensures typed { IfOk result (λ v. AllByRecursion (λ (e : Entry). (is_entry table kinds.now e ≡ true) × IsStored e) v.items) }
    ensures given { IfOk result (λ v. AllByRecursion (IsReadOf table kinds.now (counted_parts table layers.now) (D.view disk.old)) v.items) }
    ensures told { IfErr result (IsFaultIn table kinds.now (counted_parts table layers.now)) }
    ensures reads { OnlyReads (D.view disk.old) (D.view disk.new) }
    ensures cause { DirHasCause (D.view disk.old).faults (D.view disk.new).faults result }
{
    let parts = match stored_parts(alloc, layers, table) {
        Ok(parts) => parts,
        Err(Memory) => return Err(DirFault::Memory),
    };
    match check_chunks_of(alloc, disk, &parts, table, kinds) {
        Ok(()) => {}
        Err(fault) => return Err(fault),
    }
    rows_of_parts(alloc, disk, &parts, table, kinds, t)
}
