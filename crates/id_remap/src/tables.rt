//! What tests and new descriptors take of the chosen tables.
ghost use Rattle.std.specs.Prelude.{◌≡◌, ◌&&◌, ◌||◌, not, false, map, is_some, nat_le, IfOk, OnOk};
ghost use Rattle.std.specs.List.{find, list_all, list_any};
ghost use Rattle.std.specs.Option.{option_copied};
ghost use Rattle.schema_catalog.specs.Catalogs.{is_same_name};
ghost use Rattle.table_descriptors.specs.Descriptors.{has_id, repeats_id};
ghost use Rattle.id_remap.specs.Remapping.{ids_of, database_for, target_name, refers_outside, is_least_outside, least_outside, gets_before, is_astray, is_least, is_taken, new_id, new_references, remapped_schema};

use crate::targets::Target;
use key_rewriter::IdMap;
use mvcc_keys::{Hlc, Memory};
use schema_catalog::Catalog;
use std::alloc::Global;
use table_descriptors::{Descriptor, Name};

/// The ids of the chosen tables.
pub(crate) fn ids_of(alloc: Global, chosen: &[Descriptor]) -> Result<Vec<u32>, Memory>
    ensures { IfOk result (λ v. v.items ≡ ids_of chosen.now) }
{
    Ok(chosen.iter().map(|d| d.id()).collect(alloc)?)
}

fn has_id(id: u32, ids: &[u32]) -> bool
    ensures { result ≡ has_id id ids.now }
{
    ids.contains(&id)
}

/// Whether a table references one that isn't chosen.
pub(crate) fn refers_outside(ids: &[u32], d: &Descriptor) -> bool
    ensures { result ≡ refers_outside ids.now d.now }
{
    d.references().iter().any(|id| !has_id(*id, ids))
}

/// Whether an id isn't greater than another one that isn't chosen.
fn is_least(ids: &[u32], references: &[u32], id: u32) -> bool
    ensures { result ≡ is_least ids.now references.now id }
{
    references
        .iter()
        .all(|other| id <= *other || has_id(*other, ids))
}

fn is_least_outside(ids: &[u32], references: &[u32], id: u32) -> bool
    ensures { result ≡ is_least_outside ids.now references.now id }
{
    !has_id(id, ids) && is_least(ids, references, id)
}

fn first_outside<'a>(ids: &[u32], references: &'a [u32]) -> Option<&'a u32>
    ensures { option_copied result ≡ find (is_least_outside ids.now references.now) references.now }
{
    references
        .iter()
        .find(|id| is_least_outside(ids, references, **id))
}

/// The least id that isn't chosen.
pub(crate) fn least_outside(ids: &[u32], references: &[u32]) -> u32
    ensures { result ≡ least_outside ids.now references.now }
{
    match first_outside(ids, references) {
        Some(id) => *id,
        None => 0,
    }
}

/// The first table that references one that isn't chosen.
pub(crate) fn first_referring<'a>(ids: &[u32], chosen: &'a [Descriptor]) -> Option<&'a Descriptor>
    ensures { option_copied result ≡ find (refers_outside ids.now) chosen.now }
{
    chosen.iter().find(|d| refers_outside(ids, *d))
}

/// The database into which a table goes.
pub(crate) fn database_for<'a>(target: &'a Target, d: &'a Descriptor) -> &'a Name
    ensures { result.now ≡ database_for target.now d.now }
{
    match target {
        Target::Tables { into: Some(name) } => name,
        Target::Tables { into: None } => d.database(),
        Target::Database { name } => name,
    }
}

/// The name that a table gets.
pub(crate) fn target_name(
    alloc: Global,
    target: &Target,
    d: &Descriptor,
) -> Result<(Name, Name), Memory>
    ensures { IfOk result (λ n. n ≡ target_name target.now d.now) }
{
    Ok((database_for(target, d).copy(alloc)?, d.name().copy(alloc)?))
}

/// Whether another table has a lower id and gets the same name.
fn gets_before(target: &Target, d: &Descriptor, other: &Descriptor) -> bool
    ensures { result ≡ gets_before target.now d.now other.now }
{
    if other.id() >= d.id() {
        return false;
    }
    database_for(target, other).is_same(database_for(target, d)) && other.name().is_same(d.name())
}

/// The first table that goes into a database that isn't there.
pub(crate) fn first_astray<'a>(
    catalog: &Catalog,
    target: &Target,
    chosen: &'a [Descriptor],
) -> Option<&'a Descriptor>
    ensures { option_copied result ≡ find (is_astray catalog.now target.now) chosen.now }
{
    chosen
        .iter()
        .find(|d| !catalog.has_database(database_for(target, *d)))
}

/// Whether the name that a table gets is that of a chosen table of lower id.
fn is_given(target: &Target, chosen: &[Descriptor], d: &Descriptor) -> bool
    ensures { result ≡ list_any (gets_before target.now d.now) chosen.now }
{
    chosen.iter().any(|other| gets_before(target, d, other))
}

/// Whether the name that a table gets belongs to a table at t, or to a chosen one of lower id.
pub(crate) fn is_taken(
    catalog: &Catalog,
    target: &Target,
    t: Hlc,
    chosen: &[Descriptor],
    d: &Descriptor,
) -> bool
    ensures { result ≡ is_taken catalog.now target.now t chosen.now d.now }
{
    let owner = catalog.named(database_for(target, d), d.name(), t);
    owner.is_some() || is_given(target, chosen, d)
}

/// References to chosen tables, under their new ids.
fn new_references(alloc: Global, ids: &IdMap, references: &[u32]) -> Result<Vec<u32>, Memory>
    ensures { IfOk result (λ v. v.items ≡ new_references ids.now references.now) }
{
    let new = references.iter().filter_map(|old| ids.get(*old));
    Ok(new.collect(alloc)?)
}

/// The new id of a chosen table.
fn new_id(ids: &IdMap, old: u32) -> u32
    ensures { result ≡ new_id ids.now old }
{
    match ids.get(old) {
        Some(id) => id,
        None => 0,
    }
}

/// What a chosen table becomes.
#[tactic(auto, using(crate::proofs::Once::new_once))]
fn remapped_table(
    alloc: Global,
    d: &Descriptor,
    ids: &IdMap,
    target: &Target,
    at: Hlc,
) -> Result<Descriptor, Memory>
    ensures { IfOk result (λ e. e ≡ remapped_schema ids.now target.now at d.now) }
{
    d.proper();
    let _pairs = ids.pairs();
    let references = new_references(alloc, ids, d.references())?;
    let database = database_for(target, d);
    d.restored(alloc, new_id(ids, d.id()), database, &references, at)
}

/// What the chosen tables become.
pub(crate) fn remapped_tables(
    alloc: Global,
    chosen: &[Descriptor],
    ids: &IdMap,
    target: &Target,
    at: Hlc,
) -> Result<Vec<Descriptor>, Memory>
    ensures { IfOk result (λ v. v.items ≡ map (remapped_schema ids.now target.now at) chosen.now) }
{
    let mut made = Vec::new(alloc);
    for d in chosen {
        made.push(remapped_table(alloc, d, ids, target, at)?)?;
    }
    Ok(made)
}
