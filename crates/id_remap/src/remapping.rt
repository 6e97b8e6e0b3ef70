//! New ids for the tables of a restore.
ghost use Rattle.std.specs.Prelude.{◌≡◌, ◌≤◌, ◌+◌, true, None, length, map, option_map, IfOk, IfErr, OnOk};
ghost use Rattle.std.specs.List.{range_with_len};
ghost use Rattle.key_rewriter.specs.Ids.{are_ascending, numbered};
ghost use Rattle.schema_catalog.specs.Catalogs.{next_id};
ghost use Rattle.id_remap.specs.Remapping.{FaultIs, absent_database, ids_of, missing_reference, new_ids, present_database, remap_fault, remapped_schema, taken_name};

use crate::faults::RemapFault;
use crate::tables::{
    database_for, first_astray, first_referring, ids_of, is_taken, least_outside, remapped_tables,
    target_name,
};
use crate::targets::Target;
use key_rewriter::IdMap;
use mvcc_keys::{Hlc, Memory};
use schema_catalog::{Catalog, FIRST_TABLE_ID};
use std::alloc::Global;
use table_descriptors::Descriptor;

/// The first table that references one that isn't chosen.
fn missing_reference(ids: &[u32], skip: bool, chosen: &[Descriptor]) -> Option<RemapFault>
    ensures { result ≡ missing_reference ids.now skip chosen.now }
{
    if skip {
        return None;
    }
    match first_referring(ids, chosen) {
        Some(d) => Some(RemapFault::MissingReference {
            table: d.id(),
            referenced: least_outside(ids, d.references()),
        }),
        None => None,
    }
}

/// The database of the first table that goes into one that isn't there.
fn absent_database(
    alloc: Global,
    catalog: &Catalog,
    target: &Target,
    chosen: &[Descriptor],
) -> Result<Option<RemapFault>, Memory>
    ensures { IfOk result (λ r. r ≡ absent_database catalog.now target.now chosen.now) }
{
    if let Target::Database { .. } = target {
        return Ok(None);
    }
    match first_astray(catalog, target, chosen) {
        Some(d) => Ok(Some(RemapFault::NoSuchDatabase {
            database: database_for(target, d).copy(alloc)?,
        })),
        None => Ok(None),
    }
}

/// The database that is to be created, if it is there.
fn present_database(
    alloc: Global,
    catalog: &Catalog,
    target: &Target,
) -> Result<Option<RemapFault>, Memory>
    ensures { IfOk result (λ r. r ≡ present_database catalog.now target.now) }
{
    match target {
        Target::Database { name } if catalog.has_database(name) => {
            Ok(Some(RemapFault::DatabaseExists {
                database: name.copy(alloc)?,
            }))
        }
        _ => Ok(None),
    }
}

/// The first name that is taken.
fn taken_name(
    alloc: Global,
    catalog: &Catalog,
    target: &Target,
    t: Hlc,
    chosen: &[Descriptor],
) -> Result<Option<RemapFault>, Memory>
    ensures { IfOk result (λ r. r ≡ taken_name catalog.now target.now t chosen.now) }
{
    match chosen
        .iter()
        .find(|d| is_taken(catalog, target, t, chosen, *d))
    {
        Some(d) => Ok(Some(RemapFault::NameTaken {
            table: target_name(alloc, target, d)?,
        })),
        None => Ok(None),
    }
}

/// The first test that refuses the chosen tables.
#[tactic(auto, unfolding(crate::specs::Remapping::remap_fault))]
fn remap_fault(
    alloc: Global,
    ids: &[u32],
    chosen: &[Descriptor],
    catalog: &Catalog,
    target: &Target,
    skip: bool,
    t: Hlc,
) -> Result<Option<RemapFault>, Memory>
    requires { ids.now ≡ ids_of chosen.now }
    ensures { IfOk result (λ r. r ≡ remap_fault catalog.now chosen.now target.now skip t) }
{
    if let Some(fault) = missing_reference(ids, skip, chosen) {
        return Ok(Some(fault));
    }
    if let Some(fault) = absent_database(alloc, catalog, target, chosen)? {
        return Ok(Some(fault));
    }
    if let Some(fault) = present_database(alloc, catalog, target)? {
        return Ok(Some(fault));
    }
    if let Some(fault) = taken_name(alloc, catalog, target, t, chosen)? {
        return Ok(Some(fault));
    }
    let given = u64::from(catalog.next_id() - FIRST_TABLE_ID) + chosen.len() as u64;
    if given > u64::from(catalog.table_limit()) {
        return Ok(Some(RemapFault::TooManyTables));
    }
    Ok(None)
}

/// Refuses the chosen tables by the first test that holds; what passes fits into the catalog.
#[tactic(auto, using(crate::proofs::Room::room))]
fn check_tables(
    alloc: Global,
    ids: &[u32],
    chosen: &[Descriptor],
    catalog: &Catalog,
    target: &Target,
    skip: bool,
    t: Hlc,
) -> Result<(), RemapFault>
    requires { ids.now ≡ ids_of chosen.now }
    ensures fault { IfErr result (λ e. FaultIs e (remap_fault catalog.now chosen.now target.now skip t)) }
    ensures passed { OnOk result (remap_fault catalog.now chosen.now target.now skip t ≡ None) }
    ensures fits { OnOk result (length catalog.now.tables + length chosen.now ≤ catalog.now.limit) }
{
    match remap_fault(alloc, ids, chosen, catalog, target, skip, t)? {
        Some(fault) => Err(fault),
        None => Ok(()),
    }
}

/// Old ids with the ids from a number on. A catalog's limit leaves room for these; where it didn't,
/// the answer would be want of memory.
fn number_ids(alloc: Global, old: &[u32], first: u32) -> Result<IdMap, Memory>
    requires { are_ascending old.now ≡ true }
    ensures { IfOk result (λ ids. ids ≡ numbered first old.now) }
{
    if u64::from(first) + old.len() as u64 > 1 << 32 {
        return Err(Memory);
    }
    IdMap::new(alloc, old, first).map_err(|_| Memory)
}

/// New ids for the chosen tables, the next ones of the catalog, and their descriptors of the date
/// `at`, which the catalog can install; a database is created by the caller. Names are looked up as
/// of that date. With `skip`, references to tables that aren't chosen are dropped.
pub fn remap(
    alloc: Global,
    chosen: &[Descriptor],
    catalog: &Catalog,
    target: &Target,
    skip: bool,
    at: Hlc,
) -> Result<(IdMap, Vec<Descriptor>), RemapFault>
    requires { are_ascending (ids_of chosen.now) ≡ true }
    ensures ids { IfOk result (λ r. r.0 ≡ new_ids catalog.now chosen.now) }
    ensures tables { IfOk result (λ r. r.1.items ≡ map (remapped_schema (new_ids catalog.now chosen.now) target.now at) chosen.now) }
    ensures in_order { IfOk result (λ r. ids_of r.1.items ≡ range_with_len (next_id catalog.now) (length chosen.now)) }
    ensures fits { IfOk result (λ r. length catalog.now.tables + length r.1.items ≤ catalog.now.limit) }
    ensures passed { OnOk result (remap_fault catalog.now chosen.now target.now skip at ≡ None) }
    ensures fault { IfErr result (λ e. FaultIs e (remap_fault catalog.now chosen.now target.now skip at)) }
{
    let old = ids_of(alloc, chosen)?;
    check_tables(alloc, &old, chosen, catalog, target, skip, at)?;
    let ids = number_ids(alloc, &old, catalog.next_id())?;
    let made = remapped_tables(alloc, chosen, &ids, target, at)?;
    Ok((ids, made))
}
