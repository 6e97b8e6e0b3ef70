//! The first reading of a restore: each chunk that counts is tested, and none is kept.
ghost use Rattle.std.specs.Prelude.{◌≡◌, ◌<◌, ◌+◌, None, Some, length, option_map, slice_get, IfErr, IfOk};
ghost use Rattle.chunk_file.specs.Entries.{seen};
ghost use Rattle.collection_dir.specs.Faults.{DirHasCause};
ghost use Rattle.layer_merge.specs.Stands.{first_of, goes_on};
ghost use Rattle.outside_world.specs.Disk.{OnlyReads, Tells};
ghost use Rattle.layer_manifest.specs.declared.manifest.ChunkInfo.{ChunkInfo};
ghost use Rattle.restore_rows.specs.Checks.{Finds, check_chunk, check_part, check_parts, last_after, last_in};
ghost use Rattle.restore_rows.specs.Reading.{IsFaultIn, IsFaultOf, IsNextFault, IsOfDigest};

use chunk_file::{EntryView, HeldChunk, comes_before};
use collection_dir::DirFault;
use outside_world::Disk;
use row_codec::Kind;
use std::alloc::Global;
use stored_chunks::{StoredPart, load_chunk, malformed};

/// The last entry of a chunk.
fn last_of(chunk: &HeldChunk) -> Option<EntryView<'_>>
    ensures { option_map seen result ≡ last_after None chunk.now }
{
    let mut last = None;
    let mut offset = chunk.first();
    while let Some((entry, next)) = chunk.entry_at(offset) {
        last = Some(entry);
        offset = next;
    }
    last
}

fn first_of(chunk: &HeldChunk) -> Option<EntryView<'_>>
    ensures { option_map seen result ≡ first_of chunk.now }
{
    match chunk.entry_at(chunk.first()) {
        Some((entry, _)) => Some(entry),
        None => None,
    }
}

/// Whether a chunk goes on where one before it ended.
fn goes_on(before: &HeldChunk, after: &HeldChunk) -> bool
    ensures { result ≡ goes_on (last_after None before.now) (first_of after.now) }
{
    match last_of(before) {
        None => true,
        Some(d) => match first_of(after) {
            None => true,
            Some(e) => comes_before(&d, &e),
        },
    }
}

fn may_follow(last: &Option<HeldChunk>, chunk: &HeldChunk) -> bool
    ensures { result ≡ goes_on (last_in last.now) (first_of chunk.now) }
{
    match last {
        Some(last) => goes_on(last, chunk),
        None => true,
    }
}

/// The chunk of a number, which comes after another, or its fault. An error names the chunk
/// whatever the disk tells.
fn read_next<D: Disk>(
    alloc: Global,
    disk: &mut D,
    part: &StoredPart<'_>,
    chunk: u32,
    table: u32,
    kinds: &[Kind],
    last: &Option<HeldChunk>,
) -> Result<HeldChunk, DirFault>
    requires { chunk < length part.now.chunks }
    ensures held { IfOk result (IsOfDigest part.now table kinds.now chunk) }
    ensures told { IfErr result (IsNextFault part.now table kinds.now chunk (last_in last.now)) }
    ensures found { (info : ChunkInfo) → Tells (D.view disk.old) → slice_get part.now.chunks chunk ≡ Some info → Finds (λ entries. entries) result (check_chunk part.now table kinds.now (D.view disk.old).objects chunk (last_in last.now) info) }
    ensures reads { OnlyReads (D.view disk.old) (D.view disk.new) }
    ensures cause { DirHasCause (D.view disk.old).faults (D.view disk.new).faults result }
{
    let number = part.number_of(chunk);
    let bytes = match load_chunk(
        alloc,
        disk,
        part.layer(),
        number,
        table,
        kinds,
        part.info_of(chunk),
    ) {
        Ok(bytes) => bytes,
        // by cases and not by `?`, which would make the fault anew
        Err(fault) => return Err(fault),
    };
    let next = match HeldChunk::new(bytes, table, kinds) {
        Ok(next) => next,
        Err(fault) => return Err(malformed(alloc, part.layer(), number, fault.offset)?),
    };
    if !may_follow(last, &next) {
        return Err(malformed(alloc, part.layer(), number, next.first())?);
    }
    Ok(next)
}

/// Tests the chunks of a part by number.
fn check_chunks<D: Disk>(
    alloc: Global,
    disk: &mut D,
    part: &StoredPart<'_>,
    table: u32,
    kinds: &[Kind],
) -> Result<(), DirFault>
    ensures told { IfErr result (IsFaultOf table kinds.now part.now) }
    ensures found { Tells (D.view disk.old) → Finds (λ u. u) result (check_part table kinds.now (D.view disk.old).objects part.now) }
    ensures reads { OnlyReads (D.view disk.old) (D.view disk.new) }
    ensures cause { DirHasCause (D.view disk.old).faults (D.view disk.new).faults result }
{
    let mut last = None;
    for chunk in 0..part.len() {
        match read_next(alloc, disk, part, chunk, table, kinds, &last) {
            Ok(next) => last = Some(next),
            Err(fault) => return Err(fault),
        }
    }
    Ok(())
}

/// Tests the chunks of all parts, in their order and by number, and names the first fault.
pub fn check_chunks_of<D: Disk>(
    alloc: Global,
    disk: &mut D,
    parts: &[StoredPart<'_>],
    table: u32,
    kinds: &[Kind],
) -> Result<(), DirFault>
    ensures told { IfErr result (IsFaultIn table kinds.now parts.now) }
    ensures found { Tells (D.view disk.old) → Finds (λ u. u) result (check_parts table kinds.now (D.view disk.old).objects parts.now) }
    ensures reads { OnlyReads (D.view disk.old) (D.view disk.new) }
    ensures cause { DirHasCause (D.view disk.old).faults (D.view disk.new).faults result }
{
    for part in parts {
        match check_chunks(alloc, disk, part, table, kinds) {
            Ok(()) => {}
            Err(fault) => return Err(fault),
        }
    }
    Ok(())
}
