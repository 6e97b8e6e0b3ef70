//! The chain of layers by which a time of a source is read, and the rows that it holds.
ghost use Rattle.std.specs.Prelude.{◌≡◌, ◌++◌, ◌∷◌, ◌&&◌, true, None, [], List, map, filter_map, slice_get, option_map, option_to_list, unwrap_or, IfOk, IfErr, OnOk};
ghost use Rattle.std.specs.List.{AllByRecursion};
ghost use Rattle.std.specs.Option.{option_copied};
ghost use Rattle.std.specs.Str.{bytes_eq};
ghost use Rattle.key_encoding.specs.Reading.{read_uvarint};
ghost use Rattle.mvcc_keys.specs.Entries.{key_of};
ghost use Rattle.list_laws.specs.Members.{Has};
ghost use Rattle.mvcc_keys.specs.Times.{time_le, latest, or_zero};
ghost use Rattle.history_model.specs.Histories.{Table, in_force};
ghost use Rattle.history_model.specs.Layers as records;
ghost use Rattle.outside_world.specs.Disk.{OnlyReads, Tells};
ghost use Rattle.collection_dir.specs.Faults.{DirHasCause, IsDiskFault};
ghost use Rattle.table_descriptors.specs.declared.scopes.Scope.{Scope};
ghost use Rattle.stored_chunks.specs.Parts.{AreProperLayers};
ghost use Rattle.layer_chains.specs.Chains.{IsShown};
ghost use Rattle.introduced_spans.specs.Publicity.{is_public};
ghost use Rattle.chain_resolver.specs.Ways.{AreOrdered};
ghost use Rattle.chain_resolver.specs.Cover.{ends_of};
ghost use Rattle.machine_model.specs.Machine.{Machine};
ghost use Rattle.machine_model.specs.Restores.{chosen_by, link_of, links_of, time_of};
ghost use Rattle.cluster_core.specs.ClusterView.{record_of};
ghost use Rattle.cluster_core.specs.Standing.{StandsFor};
ghost use Rattle.cluster_core.specs.Chains.{AreTypedRows, IsChain, IsChainFault, IsChainOf, IsEntryOf, IsStandingChain, HasBytes, IsUncovered, are_rows, entries_in, halt_of_cover, is_above, is_row, is_short, stored_rows};

use crate::cluster::Cluster;
use crate::halts::Halt;
use chain_resolver::{CoverFault, Layer, resolve};
use collection_dir::DirFault;
use key_encoding::take_uvarint;
use layer_manifest::{Manifest, TablePart};
use layer_model::LayerName;
use mvcc_keys::{Entry, Hlc, Memory, latest, time_or_zero};
use outside_world::Disk;
use reply_texts::Refusal;
use restore_rows::read_rows;
use script_grammar::Src;
use std::alloc::Global;
use stored_chunks::are_bytes;
use table_descriptors::{Descriptor, Name, State};

/// The layers by which a time is read, in order.
#[derive(Drop)]
pub(crate) struct Chain {
    pub(crate) time: Hlc,
    pub(crate) layers: Vec<(LayerName, Manifest)>,
}

// ---- the time

fn ends_of(alloc: Global, links: &[Layer]) -> Result<Vec<Hlc>, Memory>
    ensures { IfOk result (λ v. v.items ≡ ends_of links.now) }
{
    Ok(links.iter().map(|link| link.end).collect(alloc)?)
}

/// The time that is given, or the greatest end.
fn time_over(alloc: Global, links: &[Layer], at: Option<Hlc>) -> Result<Hlc, Memory>
    ensures { IfOk result (λ t. t ≡ unwrap_or at (or_zero (latest (ends_of links.now)))) }
{
    match at {
        Some(time) => Ok(time),
        None => Ok(time_or_zero(latest(&ends_of(alloc, links)?))),
    }
}

// ---- the layers

fn link_of(entry: &(LayerName, Manifest)) -> Layer
    ensures { result ≡ link_of (record_of entry.now) }
{
    Layer {
        start: entry.0.start,
        end: entry.0.end,
        floor: entry.1.floor,
        history: entry.1.history,
    }
}

/// What a chain is found by.
fn links_of(alloc: Global, layers: &[(LayerName, Manifest)]) -> Result<Vec<Layer>, Memory>
    ensures { IfOk result (λ v. v.items ≡ links_of (map record_of layers.now)) }
{
    let mut links = Vec::new(alloc);
    for entry in layers {
        links.push(link_of(entry))?;
    }
    Ok(links)
}

/// Adds a copy of the layer at a place, if there is one.
fn add_layer(
    alloc: Global,
    list: &mut Vec<(LayerName, Manifest)>,
    layers: &[(LayerName, Manifest)],
    place: usize,
) -> Result<(), Memory>
    ensures { OnOk result (list.new.items ≡ list.old.items ++ option_to_list (slice_get layers.now place)) }
{
    match layers.get(place) {
        Some((layer, m)) => Ok(list.push((layer.copy(alloc)?, m.copy(alloc)?))?),
        None => Ok(()),
    }
}

/// Copies of the layers at some places.
fn layers_at(
    alloc: Global,
    layers: &[(LayerName, Manifest)],
    places: &[usize],
) -> Result<Vec<(LayerName, Manifest)>, Memory>
    ensures { IfOk result (λ v. v.items ≡ filter_map (slice_get layers.now) places.now) }
{
    let mut list = Vec::new(alloc);
    for place in places {
        add_layer(alloc, &mut list, layers, *place)?;
    }
    Ok(list)
}

// ---- the chain

fn halt_of_cover(fault: CoverFault) -> Halt
    ensures { result ≡ halt_of_cover fault }
{
    match fault {
        CoverFault::NotCovered { first, last } => {
            Halt::Refused(Refusal::NotCovered { first, last })
        }
        CoverFault::HistoryCollected { floor } => {
            Halt::Refused(Refusal::HistoryCollected { floor })
        }
        CoverFault::NeedsHistory { below, above } => {
            Halt::Refused(Refusal::NeedsHistory { below, above })
        }
        CoverFault::Gap { reached, wants } => Halt::Refused(Refusal::Gap { reached, wants }),
        CoverFault::Memory => Halt::Memory,
    }
}

/// The best chain of some layers.
fn chain_over(
    alloc: Global,
    layers: &[(LayerName, Manifest)],
    at: Option<Hlc>,
) -> Result<Chain, Halt>
    requires { AreOrdered (links_of (map record_of layers.now)) }
    ensures chain { IfOk result (λ x. IsChainOf layers.now at x) }
    ensures fault { IfErr result (λ e. IsUncovered layers.now at e) }
{
    let links = links_of(alloc, layers)?;
    let time = time_over(alloc, &links, at)?;
    match resolve(alloc, &links, time) {
        Ok(places) => Ok(Chain {
            time,
            layers: layers_at(alloc, layers, &places)?,
        }),
        Err(fault) => Err(halt_of_cover(fault)),
    }
}

impl Cluster {
    /// The chain of a source's own layers to a time, or to their greatest end.
    pub(crate) fn chain_of(
        &self,
        source: &Src,
        collection: &Name,
        at: Option<Hlc>,
    ) -> Result<Chain, Halt>
        requires stands { (m : Machine) × StandsFor self.now m }
        ensures chain { IfOk result (λ x. IsChain self.now.book source.now collection.now at x) }
        ensures fault { IfErr result (λ e. IsChainFault self.now.book source.now collection.now at e) }
    {
        let layers = self.layers_from(source, collection)?;
        chain_over(self.alloc, &layers, at)
    }
}

// ---- the chosen tables

fn is_upto(d: &Descriptor, t: Hlc) -> bool
    ensures { result ≡ time_le d.now.modified t }
{
    d.modified() <= t
}

/// The descriptor in force at a time.
fn in_force(mut descriptors: Vec<Descriptor>, t: Hlc) -> Option<Descriptor>
    ensures { result ≡ in_force descriptors.items t }
{
    while let Some(d) = descriptors.pop() {
        if is_upto(&d, t) {
            return Some(d);
        }
    }
    None
}

fn is_chosen(d: &Descriptor, database: &Name) -> bool
    ensures { result ≡ (is_public d.now && bytes_eq d.now.database database.now) }
{
    match d.state() {
        State::Public => d.database().is_same(database),
        State::Offline | State::Dropped => false,
    }
}

/// What a table's descriptors choose of it.
fn chosen_by(part: TablePart, database: &Name, t: Hlc) -> Option<Descriptor>
    ensures { result ≡ chosen_by database.now t part.descriptors }
{
    let d = in_force(part.descriptors.into_vec(), t)?;
    if is_chosen(&d, database) {
        Some(d)
    } else {
        None
    }
}

fn add_chosen(list: &mut Vec<Descriptor>, chosen: Option<Descriptor>) -> Result<(), Memory>
    ensures { OnOk result (list.new.items ≡ list.old.items ++ option_to_list chosen) }
{
    match chosen {
        Some(d) => Ok(list.push(d)?),
        None => Ok(()),
    }
}

/// The tables of a database that a manifest shows public, by their descriptors.
pub(crate) fn chosen_of(
    alloc: Global,
    m: Manifest,
    database: &Name,
    t: Hlc,
) -> Result<Vec<Descriptor>, Memory>
    ensures { IfOk result (λ v. v.items ≡ filter_map (λ part. chosen_by database.now t part.descriptors) m.tables) }
{
    let mut list = Vec::new(alloc);
    for part in m.tables.into_vec() {
        add_chosen(&mut list, chosen_by(part, database, t))?;
    }
    Ok(list)
}

// ---- the rows

/// The rows of a chosen table, out of the layers of a chain.
fn read_chosen<D: Disk>(
    alloc: Global,
    disk: &mut D,
    chain: &Chain,
    d: &Descriptor,
) -> Result<Vec<Entry>, DirFault>
    requires { AreProperLayers chain.now.layers.items }
    ensures rows { (tables : List Table) (scope : Scope) (rs : List records.LayerRecord) → Tells (D.view disk.old) → IsStandingChain tables scope rs chain.now.layers.items chain.now.time (D.view disk.old).objects → IsShown tables scope chain.now.time d.now
        → IfOk result (λ v. v.items ≡ stored_rows tables chain.now.time d.now) × IfErr result IsDiskFault }
    ensures typed { IfOk result (λ v. AllByRecursion (IsEntryOf d.now) v.items) }
    ensures reads { OnlyReads (D.view disk.old) (D.view disk.new) }
    ensures cause { DirHasCause (D.view disk.old).faults (D.view disk.new).faults result }
{
    let kinds = d.key_kinds(alloc)?;
    read_rows(alloc, disk, &chain.layers, d.id(), &kinds, chain.time)
}

fn add_entries(rows: &mut Vec<Vec<Entry>>, entries: Vec<Entry>) -> Result<(), Memory>
    ensures { OnOk result (rows.new.items ≡ rows.old.items ++ entries ∷ []) }
{
    rows.push(entries).map_err(|_| Memory)
}

/// The rows of each chosen table.
pub(crate) fn read_tables<D: Disk>(
    alloc: Global,
    disk: &mut D,
    chain: &Chain,
    chosen: &[Descriptor],
) -> Result<Vec<Vec<Entry>>, DirFault>
    requires { AreProperLayers chain.now.layers.items }
    ensures rows { (tables : List Table) (scope : Scope) (rs : List records.LayerRecord) → Tells (D.view disk.old) → IsStandingChain tables scope rs chain.now.layers.items chain.now.time (D.view disk.old).objects → AllByRecursion (IsShown tables scope chain.now.time) chosen.now
        → IfOk result (λ v. map entries_in v.items ≡ map (stored_rows tables chain.now.time) chosen.now) × IfErr result IsDiskFault }
    ensures typed { IfOk result (λ v. AreTypedRows chosen.now v.items) }
    ensures reads { OnlyReads (D.view disk.old) (D.view disk.new) }
    ensures cause { DirHasCause (D.view disk.old).faults (D.view disk.new).faults result }
{
    let mut rows = Vec::new(alloc);
    for d in chosen {
        match read_chosen(alloc, disk, chain, d) {
            Ok(entries) => match add_entries(&mut rows, entries) {
                Ok(()) => {}
                Err(Memory) => return Err(DirFault::Memory),
            },
            // by cases and not by `?`, which would make the fault anew
            Err(fault) => return Err(fault),
        }
    }
    Ok(rows)
}

// ---- rows that may be put anew

fn is_short(key: &[u8]) -> bool
    ensures { result ≡ is_short (read_uvarint key.now) }
{
    match take_uvarint(key) {
        Ok((_, columns)) => columns.len() <= 4098,
        Err(_) => false,
    }
}

/// Whether an entry is a put whose key columns and value aren't too large.
fn is_row(entry: &Entry) -> bool
    ensures test { result ≡ is_row entry.now }
    ensures bytes { HasBytes entry.now }
{
    match entry {
        Entry::Put { key, value, .. } => {
            are_bytes(key.as_slice());
            are_bytes(value.as_slice());
            is_short(key.as_slice()) && value.as_slice().len() <= 32768
        }
        Entry::Del { .. } | Entry::Range { .. } => false,
    }
}

fn is_above(last: Option<&Entry>, entry: &Entry) -> bool
    ensures { result ≡ is_above (option_map key_of (option_copied last.entry)) (key_of entry.now) }
{
    match last {
        Some(last) => last.key().cmp(entry.key()).is_lt(),
        None => true,
    }
}

/// Whether entries are puts that aren't too large, with ascending keys.
pub(crate) fn are_rows(entries: &[Entry]) -> bool
    ensures test { result ≡ are_rows None entries.now }
    ensures bytes { result ≡ true → AllByRecursion HasBytes entries.now }
{
    let mut last = None;
    for entry in entries {
        if !(is_row(entry) && is_above(last, entry)) {
            return false;
        }
        last = Some(entry);
    }
    true
}
