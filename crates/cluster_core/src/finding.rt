//! The first tests of commands: the clock, and the table of a name.
ghost use Rattle.std.specs.Prelude.{◌≡◌, None, Some, true, false, option_map, IfOk, IfErr, OnOk, ◌+◌, ◌≤◌, ◌^◌, length};
ghost use Rattle.mvcc_keys.specs.Times.{IsTime, next, time_lt};
ghost use Rattle.table_descriptors.specs.Descriptors.{IsProperSchema};
ghost use Rattle.reply_texts.specs.declared.refusals.Refusal.TheVariants.{ClockFull};
ghost use Rattle.reply_texts.specs.declared.refusals.Refusal.TheVariants.{Future};
ghost use Rattle.history_model.specs.Histories.{has_name};
ghost use Rattle.schema_catalog.specs.Catalogs.{missing_fault, offline_fault};
ghost use Rattle.introduced_spans.specs.Spans.{descriptors_of};
ghost use Rattle.machine_model.specs.Machine.{offline_refusal, refusal_if};
ghost use Rattle.machine_model.specs.Refusals.{catalog_refusal};
ghost use Rattle.machine_model.specs.Backups.{absent_refusal, has_one_of, ids_named};
ghost use Rattle.cluster_core.specs.Finding.{found_in, found_of, IsMissing};
ghost use Rattle.cluster_core.specs.Standing.{RefusedBy};

use crate::halts::Halt;
use mvcc_keys::{Hlc, Memory};
use reply_texts::Refusal;
use schema_catalog::{Catalog, CatalogFault};
use std::alloc::Global;
use table_descriptors::{Descriptor, Name, State};

fn copy_name(alloc: Global, name: &(Name, Name)) -> Result<(Name, Name), Memory>
    ensures { IfOk result (λ n. n ≡ name.now) }
{
    Ok((name.0.copy(alloc)?, name.1.copy(alloc)?))
}

/// Each time is in its range.
pub fn is_time(t: Hlc)
    ensures { IsTime t }
{
    let _ = t.wall();
    let _ = t.logical();
}

/// The time that a command draws: the clock's next.
pub fn draw_time(clock: Hlc) -> Result<Hlc, Halt>
    ensures drawn { IfOk result (λ t. next clock ≡ Some t) }
    ensures time { IfOk result IsTime }
    ensures full { IfErr result (λ e. (e ≡ Halt.Refused ClockFull) × (next clock ≡ None)) }
{
    match clock.next() {
        Some(at) => {
            is_time(at);
            Ok(at)
        }
        None => Err(Halt::Refused(Refusal::ClockFull)),
    }
}

/// The table to which a name belongs at t: its id, and its descriptor in force at t.
fn lookup<'a>(catalog: &'a Catalog, name: &(Name, Name), t: Hlc) -> Option<(u32, &'a Descriptor)>
    ensures { option_map found_of result ≡ found_in catalog.now name.now t }
{
    let Some(id) = catalog.named(&name.0, &name.1, t) else {
        return None;
    };
    match catalog.at(id, t) {
        Some(d) => Some((id, d)),
        None => None,
    }
}

/// The same, or the refusal of a name that belongs to no table.
pub fn find_table<'a>(
    alloc: Global,
    catalog: &'a Catalog,
    name: &(Name, Name),
    t: Hlc,
) -> Result<(u32, &'a Descriptor), Halt>
    ensures found { IfOk result (λ x. found_in catalog.now name.now t ≡ Some (x.0, x.1.now)) }
    ensures proper { IfOk result (λ x. IsProperSchema x.1.now) }
    ensures missing { IfErr result (λ e. IsMissing name.now (found_in catalog.now name.now t) e) }
{
    match lookup(catalog, name, t) {
        Some((id, d)) => {
            d.proper();
            Ok((id, d))
        }
        None => {
            let table = copy_name(alloc, name)?;
            Err(Halt::Refused(Refusal::NoSuchTable { table }))
        }
    }
}

/// Refuses a table that is Offline.
pub fn check_public(alloc: Global, name: &(Name, Name), d: &Descriptor) -> Result<(), Halt>
    ensures passed { OnOk result (offline_refusal name.now d.now ≡ None) }
    ensures refused { IfErr result (λ e. RefusedBy e (offline_refusal name.now d.now)) }
{
    if d.state() == State::Offline {
        let table = copy_name(alloc, name)?;
        return Err(Halt::Refused(Refusal::NotPublic { table }));
    }
    Ok(())
}

/// Refuses a time after the clock.
pub fn check_past(clock: Hlc, t: Hlc) -> Result<(), Halt>
    ensures passed { OnOk result (refusal_if (time_lt clock t) (Future clock) ≡ None) }
    ensures refused { IfErr result (λ e. RefusedBy e (refusal_if (time_lt clock t) (Future clock))) }
{
    if clock < t {
        return Err(Halt::Refused(Refusal::Future { now: clock }));
    }
    Ok(())
}

/// Refuses a database that isn't there.
pub fn check_database(alloc: Global, catalog: &Catalog, database: &Name) -> Result<(), Halt>
    ensures passed { OnOk result (absent_refusal catalog.now database.now ≡ None) }
    ensures refused { IfErr result (λ e. RefusedBy e (absent_refusal catalog.now database.now)) }
{
    if catalog.has_database(database) {
        return Ok(());
    }
    let database = database.copy(alloc)?;
    Err(Halt::Refused(Refusal::NoSuchDatabase { database }))
}

// ---- lists of names

/// Refuses a command by the fault of a catalog, if there is one.
fn check_fault(fault: Option<CatalogFault>) -> Result<(), Halt>
    ensures passed { OnOk result (catalog_refusal fault ≡ None) }
    ensures refused { IfErr result (λ e. RefusedBy e (catalog_refusal fault)) }
{
    match fault {
        Some(fault) => Err(Halt::from(fault)),
        None => Ok(()),
    }
}

/// Refuses the first name that belongs to no table at t.
pub fn check_names(catalog: &Catalog, names: &[(Name, Name)], t: Hlc) -> Result<(), Halt>
    ensures passed { OnOk result (catalog_refusal (missing_fault catalog.now t names.now) ≡ None) }
    ensures refused { IfErr result (λ e. RefusedBy e (catalog_refusal (missing_fault catalog.now t names.now))) }
{
    check_fault(catalog.missing(names, t)?)
}

/// Refuses the first name whose table is Offline at t.
pub fn check_states(catalog: &Catalog, names: &[(Name, Name)], t: Hlc) -> Result<(), Halt>
    ensures passed { OnOk result (catalog_refusal (offline_fault catalog.now t names.now) ≡ None) }
    ensures refused { IfErr result (λ e. RefusedBy e (catalog_refusal (offline_fault catalog.now t names.now))) }
{
    check_fault(catalog.offline(names, t)?)
}

fn has_name(name: &(Name, Name), d: &Descriptor) -> bool
    ensures { result ≡ has_name name.now d.now }
{
    d.database().is_same(&name.0) && d.name().is_same(&name.1) && d.state() != State::Dropped
}

/// Whether one of the names belongs to a table at t.
fn has_one_of(catalog: &Catalog, names: &[(Name, Name)], t: Hlc, id: u32) -> bool
    ensures { result ≡ has_one_of names.now t (descriptors_of catalog.now.tables id) }
{
    match catalog.at(id, t) {
        Some(d) => names.iter().any(|name| has_name(name, d)),
        None => false,
    }
}

/// The ids of the tables to which names belong at t, ascending.
#[tactic(auto, unfolding(machine_model::specs::Backups::ids_named))]
pub fn ids_named(
    alloc: Global,
    catalog: &Catalog,
    names: &[(Name, Name)],
    t: Hlc,
) -> Result<Vec<u32>, Memory>
    ensures ids { IfOk result (λ ids. ids.items ≡ ids_named catalog.now.tables names.now t) }
    ensures fits { OnOk result (100 + length catalog.now.tables ≤ 2 ^ 32) }
{
    let ids = 100..catalog.next_id();
    Ok(
        ids.filter(|id| has_one_of(catalog, names, t, *id))
            .collect(alloc)?,
    )
}
