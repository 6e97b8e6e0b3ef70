//! What the layers of a chain store of one table.
ghost use Rattle.std.specs.Prelude.{◌≡◌, ◌<◌, ◌&&◌, ◌++◌, ◌==◌, Some, length, map, option_to_list, position, slice_get, IfOk, OnOk};
ghost use Rattle.std.specs.List.{AllByRecursion, list_any};
ghost use Rattle.layer_manifest.specs.Manifests.{IsProperManifest};
ghost use Rattle.layer_manifest.specs.declared.manifest.ChunkInfo.{ChunkInfo};
ghost use Rattle.layer_manifest.specs.declared.manifest.TablePart.{TablePart};
ghost use Rattle.stored_chunks.specs.Parts.{AreProperLayers};
ghost use Rattle.stored_chunks.specs.Places.{AreParts, IsPartOf, counted_layers, counted_parts, index_of, introduces, number_of, part_of};

use layer_manifest::{ChunkInfo, Manifest, TablePart, chunk_count};
use layer_merge::Part;
use layer_model::LayerName;
use mvcc_keys::{Blob, Memory};
use std::alloc::Global;
use std::marker::Model;

/// The chunks of a table in a layer, of which there is one at least.
#[derive(Drop)]
pub struct StoredPart<'a> {
    layer: &'a LayerName,
    introduced: bool,
    first: u32,
    chunks: &'a [ChunkInfo],
}

impl<'a> Model for StoredPart<'a> {
    ghost use Rattle.stored_chunks.specs.Places.{IsStoredPart, Stored, stored};

    ghost Value = { Stored };

    ghost view = { λ p. stored p.layer.now p.introduced p.first p.chunks.now };

    ghost invariant = { λ p. IsStoredPart (stored p.layer.now p.introduced p.first p.chunks.now) };
}

impl<'a> StoredPart<'a> {
    pub fn layer(&self) -> &'a LayerName
        ensures { result.now ≡ self.now.layer }
    {
        self.layer
    }

    /// How many chunks it has.
    pub fn len(&self) -> u32
        ensures { result ≡ length self.now.chunks }
    {
        self.chunks.len() as u32
    }

    /// The index among its chunks of one of a number; a number past the last chunk stands for the
    /// last.
    fn index_of(&self, chunk: u32) -> usize
        ensures index { result ≡ index_of self.now chunk }
        ensures within { result < length self.now.chunks }
    {
        (chunk as usize).min(self.chunks.len() - 1)
    }

    /// The number of a chunk in its layer.
    pub fn number_of(&self, chunk: u32) -> u32
        ensures number { result ≡ number_of self.now chunk }
        ensures few { result < 1000000 }
    {
        self.first + self.index_of(chunk) as u32
    }

    /// What the manifest tells of a chunk.
    pub fn info_of(&self, chunk: u32) -> &'a ChunkInfo
        ensures { slice_get self.now.chunks (index_of self.now chunk) ≡ Some result.now }
    {
        &self.chunks[self.index_of(chunk)]
    }
}

// ---- the layers that count

fn introduces(m: &Manifest, table: u32) -> bool
    ensures { result ≡ list_any (λ (t : TablePart). (t.id == table) && t.introduced) m.now.tables }
{
    m.tables
        .as_slice()
        .iter()
        .any(|t| t.id == table && t.introduced)
}

fn any_introduces(layers: &[(LayerName, Manifest)], table: u32) -> bool
    ensures { result ≡ list_any (introduces table) layers.now }
{
    layers.iter().any(|entry| introduces(&entry.1, table))
}

/// The layers that count for a table: from the last one on that introduces it, or all.
fn counted_layers(layers: &[(LayerName, Manifest)], table: u32) -> &[(LayerName, Manifest)]
    requires { AreProperLayers layers.now }
    ensures counted { result.now ≡ counted_layers table layers.now }
    ensures proper { AreProperLayers result.now }
{
    let mut rest = layers;
    while let Some((_, others)) = rest.split_first() {
        if !any_introduces(others, table) {
            return rest;
        }
        rest = others;
    }
    rest
}

// ---- their parts

fn place_of(tables: &[TablePart], table: u32) -> Option<usize>
    ensures { result ≡ position (λ (t : TablePart). t.id == table) tables.now }
{
    tables.iter().position(|t| t.id == table)
}

/// What a layer stores of a table, if it has a chunk of it.
fn part_of<'a>(layer: &'a LayerName, m: &'a Manifest, table: u32) -> Option<StoredPart<'a>>
    requires { IsProperManifest m.now }
    ensures { result ≡ part_of table (layer.now, m.now) }
{
    let tables = m.tables.as_slice();
    let Some(place) = place_of(tables, table) else {
        return None;
    };
    let part = &tables[place];
    let chunks = part.chunks.as_slice();
    if chunks.is_empty() {
        return None;
    }
    Some(StoredPart {
        layer,
        introduced: part.introduced,
        first: chunk_count(tables.split_at(place).0),
        chunks,
    })
}

fn add_part<'a>(parts: &mut Vec<StoredPart<'a>>, part: Option<StoredPart<'a>>) -> Result<(), Memory>
    ensures { OnOk result (parts.new.items ≡ parts.old.items ++ option_to_list part.entry) }
{
    match part {
        Some(part) => parts.push(part).map_err(|_| Memory),
        None => Ok(()),
    }
}

/// What the layers of a chain that count for a table store of it, in the order of the chain.
#[tactic(auto, unfolding(crate::specs::Places::counted_parts))]
pub fn stored_parts<'a>(
    alloc: Global,
    layers: &'a [(LayerName, Manifest)],
    table: u32,
) -> Result<Vec<StoredPart<'a>>, Memory>
    requires { AreProperLayers layers.now }
    ensures { IfOk result (λ v. v.items ≡ counted_parts table layers.now) }
{
    let counted = counted_layers(layers, table);
    let mut parts = Vec::new(alloc);
    for entry in counted {
        add_part(&mut parts, part_of(&entry.0, &entry.1, table))?;
    }
    Ok(parts)
}

// ---- the parts of a merge

fn copy_bounds(alloc: Global, bounds: &Option<(Blob, Blob)>) -> Result<Option<(Blob, Blob)>, Memory>
    ensures { IfOk result (λ b. b ≡ bounds.now) }
{
    match bounds {
        Some((least, greatest)) => {
            let least = Blob::copy_of(alloc, least.as_slice())?;
            let greatest = Blob::copy_of(alloc, greatest.as_slice())?;
            Ok(Some((least, greatest)))
        }
        None => Ok(None),
    }
}

/// The bounds of chunks, copied.
fn bounds_of(alloc: Global, chunks: &[ChunkInfo]) -> Result<Vec<Option<(Blob, Blob)>>, Memory>
    ensures { IfOk result (λ v. v.items ≡ map (λ (info : ChunkInfo). info.bounds) chunks.now) }
{
    let mut all = Vec::new(alloc);
    for info in chunks {
        all.push(copy_bounds(alloc, &info.bounds)?)?;
    }
    Ok(all)
}

/// The part of a merge at a place of its chain.
fn merge_part(alloc: Global, place: usize, part: &StoredPart<'_>) -> Result<Part, Memory>
    ensures { IfOk result (IsPartOf place part.now) }
{
    Ok(Part {
        layer: place,
        introduced: part.introduced,
        chunks: part.len(),
        bounds: bounds_of(alloc, part.chunks)?,
    })
}

/// Parts as those of a merge, which asks for their chunks by their places.
pub fn merge_parts(alloc: Global, parts: &[StoredPart<'_>]) -> Result<Vec<Part>, Memory>
    ensures { IfOk result (λ v. AreParts parts.now v.items) }
{
    let mut all = Vec::new(alloc);
    for place in 0..parts.len() {
        let part = merge_part(alloc, place, &parts[place])?;
        all.push(part)?;
    }
    Ok(all)
}
