//! The tables of a manifest, read item by item.
ghost use Rattle.std.specs.Prelude.{◌≡◌, ◌+◌, ◌≤◌, ◌∷◌, ◌++◌, [], length, IfOk, OnOk};
ghost use Rattle.std.specs.Option.{option_copied};
ghost use Rattle.table_descriptors.specs.Fields.{Reads, read_items, read_exactly};
ghost use Rattle.layer_manifest.specs.Manifests.{same_kind, same_kinds, same_key, has_key_of, is_dated_after, is_next_descriptor, kinds_of, are_bounds, comes_after, part_id, chunk_count};
ghost use Rattle.layer_manifest.specs.ManifestFiles.{inside, read_next_descriptor, read_descriptors, read_bounds, read_chunk_fields, read_chunk, read_chunks, read_table, read_tables};
ghost use Rattle.table_descriptors.specs.DescriptorFiles.{read_descriptor};
ghost use Rattle.table_descriptors.specs.declared.limits.TheConstants.{CHUNKS_MAX};

use crate::manifest::{ChunkInfo, TablePart};
use mvcc_keys::{Blob, Items, Memory};
use row_codec::{CHUNK_ENTRIES_MAX, Kind, RowFault, check_row_key};
use std::alloc::Global;
use table_descriptors::{
    CHUNKS_MAX, Descriptor, FieldFault, broken, read_descriptor, take_exactly, take_flag, take_id,
    take_number, take_sized,
};

fn keep<T: Drop>(items: &mut Vec<T>, item: T) -> Result<(), Memory>
    ensures { OnOk result (items.new.items ≡ items.old.items ++ item ∷ []) }
{
    items.push(item).map_err(|_| Memory)
}

// ---- descriptors

fn same_kind(a: Kind, b: Kind) -> bool
    ensures { result ≡ same_kind a b }
{
    a == b
}

fn same_kinds(a: &[Kind], b: &[Kind]) -> bool
    ensures { result ≡ same_kinds a.now b.now }
{
    let mut others = b;
    for kind in a {
        let Some((other, rest)) = others.split_first() else {
            return false;
        };
        if !same_kind(*kind, *other) {
            return false;
        }
        others = rest;
    }
    others.is_empty()
}

/// Whether two descriptors have the same key columns, of the same kinds and directions.
fn same_key(alloc: Global, first: &Descriptor, second: &Descriptor) -> Result<bool, Memory>
    ensures { IfOk result (λ same. same ≡ same_key first.now second.now) }
{
    let ids = first.key_columns() == second.key_columns();
    let kinds = first.key_kinds(alloc)?;
    let others = second.key_kinds(alloc)?;
    Ok(ids && same_kinds(kinds.as_slice(), others.as_slice()))
}

fn is_dated_after(last: Option<&Descriptor>, descriptor: &Descriptor) -> bool
    ensures { result ≡ is_dated_after (option_copied last.entry) descriptor.now }
{
    match last {
        Some(last) => last.modified() < descriptor.modified(),
        None => true,
    }
}

/// Whether a descriptor may come after others in a table.
fn is_next(
    alloc: Global,
    id: u32,
    before: &[Descriptor],
    descriptor: &Descriptor,
) -> Result<bool, Memory>
    ensures { IfOk result (λ is. is ≡ is_next_descriptor id before.now descriptor.now) }
{
    if descriptor.id() != id || !is_dated_after(before.last(), descriptor) {
        return Ok(false);
    }
    match before.first() {
        Some(first) => same_key(alloc, first, descriptor),
        None => Ok(true),
    }
}

fn take_inside(alloc: Global, b: &[u8]) -> Result<(Descriptor, &[u8]), FieldFault>
    ensures { Reads (λ p. (p.0, p.1.now)) result (inside read_descriptor b.now) }
{
    let (bytes, rest) = take_sized(b)?;
    match read_descriptor(alloc, bytes) {
        Ok(d) => Ok((d, rest)),
        Err(RowFault::At { .. }) => Err(broken(b)),
        Err(RowFault::Memory) => Err(FieldFault::Memory),
    }
}

/// A descriptor of a table after others.
#[tactic(auto, unfolding(crate::specs::ManifestFiles::read_next_descriptor))]
fn take_descriptor<'a>(
    alloc: Global,
    id: u32,
    before: &[Descriptor],
    b: &'a [u8],
) -> Result<(Descriptor, &'a [u8]), FieldFault>
    ensures { Reads (λ p. (p.0, p.1.now)) result (read_next_descriptor id before.now b.now) }
{
    let (d, rest) = take_inside(alloc, b)?;
    if !is_next(alloc, id, before, &d)? {
        return Err(broken(b));
    }
    Ok((d, rest))
}

fn take_each_descriptor(
    alloc: Global,
    id: u32,
    count: u64,
    b: &[u8],
) -> Result<(Vec<Descriptor>, &[u8]), FieldFault>
    ensures { Reads (λ p. (p.0.items, p.1.now)) result (read_items (read_next_descriptor id) count [] b.now) }
{
    let mut descriptors = Vec::new(alloc);
    let mut left = b;
    let mut wanted = count;
    'descriptors: while wanted > 0 {
        let (d, rest) = take_descriptor(alloc, id, descriptors.as_slice(), left)?;
        keep(&mut descriptors, d)?;
        left = rest;
        wanted -= 1;
    }
    Ok((descriptors, left))
}

fn take_descriptors(
    alloc: Global,
    id: u32,
    b: &[u8],
) -> Result<(Vec<Descriptor>, &[u8]), FieldFault>
    ensures { Reads (λ p. (p.0.items, p.1.now)) result (read_descriptors id b.now) }
{
    let (count, rest) = take_number(b)?;
    if count < 1 {
        return Err(broken(b));
    }
    take_each_descriptor(alloc, id, count, rest)
}

/// The kinds of a table's keys.
fn kinds_of(alloc: Global, descriptors: &[Descriptor]) -> Result<Vec<Kind>, Memory>
    ensures { IfOk result (λ v. v.items ≡ kinds_of descriptors.now) }
{
    match descriptors.first() {
        Some(first) => first.key_kinds(alloc),
        None => Ok(Vec::new(alloc)),
    }
}

// ---- chunks

fn are_bounds(table: u32, kinds: &[Kind], least: &[u8], greatest: &[u8]) -> bool
    ensures { result ≡ are_bounds table kinds.now (least.now, greatest.now) }
{
    check_row_key(least, table, kinds)
        && check_row_key(greatest, table, kinds)
        && least.cmp(greatest).is_le()
}

/// The least and the greatest key, which stand exactly in version 2.
fn take_bounds<'a>(
    alloc: Global,
    version: u8,
    table: u32,
    kinds: &[Kind],
    b: &'a [u8],
) -> Result<(Option<(Blob, Blob)>, &'a [u8]), FieldFault>
    ensures { Reads (λ p. (p.0, p.1.now)) result (read_bounds version table kinds.now b.now) }
{
    if version == 1 {
        return Ok((None, b));
    }
    let (least, rest) = take_sized(b)?;
    let (greatest, rest) = take_sized(rest)?;
    if !are_bounds(table, kinds, least, greatest) {
        return Err(broken(b));
    }
    let least = Blob::copy_of(alloc, least)?;
    let greatest = Blob::copy_of(alloc, greatest)?;
    Ok((Some((least, greatest)), rest))
}

fn take_digest(b: &[u8]) -> Result<([u8; 32], &[u8]), FieldFault>
    ensures { Reads (λ p. (p.0, p.1.now)) result (read_exactly 32 b.now) }
{
    match b.split_first_chunk::<32>() {
        Some((digest, rest)) => Ok((*digest, rest)),
        None => Err(broken(b)),
    }
}

fn take_chunk_fields<'a>(
    alloc: Global,
    version: u8,
    table: u32,
    kinds: &[Kind],
    b: &'a [u8],
) -> Result<(ChunkInfo, &'a [u8]), FieldFault>
    ensures { Reads (λ p. (p.0, p.1.now)) result (read_chunk_fields version table kinds.now b.now) }
{
    let (entries, rest) = take_number(b)?;
    if entries < 1 || entries > CHUNK_ENTRIES_MAX {
        return Err(broken(b));
    }
    let (length, rest) = take_number(rest)?;
    let (digest, rest) = take_digest(rest)?;
    let (bounds, rest) = take_bounds(alloc, version, table, kinds, rest)?;
    let chunk = ChunkInfo {
        entries: entries as u32,
        length,
        digest,
        bounds,
    };
    Ok((chunk, rest))
}

/// A chunk, as one item.
#[tactic(auto, unfolding(crate::specs::ManifestFiles::read_chunk))]
fn take_chunk<'a>(
    alloc: Global,
    version: u8,
    table: u32,
    kinds: &[Kind],
    b: &'a [u8],
) -> Result<(ChunkInfo, &'a [u8]), FieldFault>
    ensures { Reads (λ p. (p.0, p.1.now)) result (read_chunk version table kinds.now b.now) }
{
    match take_chunk_fields(alloc, version, table, kinds, b) {
        Ok(read) => Ok(read),
        Err(FieldFault::Broken { .. }) => Err(broken(b)),
        Err(FieldFault::Memory) => Err(FieldFault::Memory),
    }
}

fn take_each_chunk<'a>(
    alloc: Global,
    version: u8,
    table: u32,
    kinds: &[Kind],
    count: u64,
    b: &'a [u8],
) -> Result<(Vec<ChunkInfo>, &'a [u8]), FieldFault>
    ensures read { Reads (λ p. (p.0.items, p.1.now)) result (read_items (λ before. read_chunk version table kinds.now) count [] b.now) }
    ensures all { IfOk result (λ p. length p.0.items ≡ count) }
{
    let mut chunks = Vec::new(alloc);
    let mut left = b;
    let mut wanted = count;
    'chunks: while wanted > 0 {
        let (chunk, rest) = take_chunk(alloc, version, table, kinds, left)?;
        keep(&mut chunks, chunk)?;
        left = rest;
        wanted -= 1;
    }
    Ok((chunks, left))
}

/// The chunks of a table after `so_far` chunks of others.
fn take_chunks<'a>(
    alloc: Global,
    version: u8,
    table: u32,
    kinds: &[Kind],
    so_far: u64,
    b: &'a [u8],
) -> Result<(Vec<ChunkInfo>, &'a [u8]), FieldFault>
    requires { so_far ≤ CHUNKS_MAX }
    ensures read { Reads (λ p. (p.0.items, p.1.now)) result (read_chunks version table kinds.now so_far b.now) }
    ensures few { IfOk result (λ p. so_far + length p.0.items ≤ CHUNKS_MAX) }
{
    let (count, rest) = take_number(b)?;
    if count > u64::from(CHUNKS_MAX) - so_far {
        return Err(broken(b));
    }
    take_each_chunk(alloc, version, table, kinds, count, rest)
}

// ---- tables

fn comes_after(before: &[TablePart], id: u32) -> bool
    ensures { result ≡ comes_after part_id before.now id }
{
    match before.last() {
        Some(last) => last.id < id,
        None => true,
    }
}

/// A table after others, which have `so_far` chunks.
#[tactic(auto, unfolding(crate::specs::ManifestFiles::read_table))]
fn take_table<'a>(
    alloc: Global,
    version: u8,
    before: &[TablePart],
    so_far: u64,
    b: &'a [u8],
) -> Result<(TablePart, &'a [u8]), FieldFault>
    requires counted { so_far ≡ chunk_count before.now }
    requires few { so_far ≤ CHUNKS_MAX }
    ensures read { Reads (λ p. (p.0, p.1.now)) result (read_table version before.now b.now) }
    ensures few { IfOk result (λ p. so_far + length p.0.chunks ≤ CHUNKS_MAX) }
{
    let (id, rest) = take_id(b)?;
    if !comes_after(before, id) {
        return Err(broken(b));
    }
    let (introduced, rest) = take_flag(rest)?;
    let (descriptors, rest) = take_descriptors(alloc, id, rest)?;
    let kinds = kinds_of(alloc, descriptors.as_slice())?;
    let (chunks, rest) = take_chunks(alloc, version, id, kinds.as_slice(), so_far, rest)?;
    let table = TablePart {
        id,
        introduced,
        descriptors: Items::from_vec(descriptors),
        chunks: Items::from_vec(chunks),
    };
    Ok((table, rest))
}

fn take_each_table(
    alloc: Global,
    version: u8,
    count: u64,
    b: &[u8],
) -> Result<(Vec<TablePart>, &[u8]), FieldFault>
    ensures { Reads (λ p. (p.0.items, p.1.now)) result (read_items (read_table version) count [] b.now) }
{
    let mut tables = Vec::new(alloc);
    let mut so_far = 0;
    let mut left = b;
    let mut wanted = count;
    'tables: while wanted > 0 {
        let (table, rest) = take_table(alloc, version, tables.as_slice(), so_far, left)?;
        so_far += table.chunks.as_slice().len() as u64;
        keep(&mut tables, table)?;
        left = rest;
        wanted -= 1;
    }
    Ok((tables, left))
}

/// The tables of a manifest of a version.
pub(crate) fn take_tables(
    alloc: Global,
    version: u8,
    b: &[u8],
) -> Result<(Vec<TablePart>, &[u8]), FieldFault>
    ensures { Reads (λ p. (p.0.items, p.1.now)) result (read_tables version b.now) }
{
    let (count, rest) = take_number(b)?;
    take_each_table(alloc, version, count, rest)
}
