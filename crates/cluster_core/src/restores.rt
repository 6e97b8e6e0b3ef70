//! The command that restores a database.
ghost use Rattle.std.specs.Prelude.{◌≡◌, ◌∷◌, ◌++◌, ◌<◌, ◌≤◌, ◌+◌, ◌^◌, [], true, None, Some, List, length, map, unwrap_or, IfErr, IfOk, OnOk};
ghost use Rattle.std.specs.List.{AllByRecursion, range_with_len};
ghost use Rattle.mvcc_keys.specs.Times.{IsTime, next};
ghost use Rattle.table_descriptors.specs.declared.scopes.Scope.{Scope};
ghost use Rattle.table_descriptors.specs.Descriptors.{Schema};
ghost use Rattle.history_model.specs.Histories.{Table};
ghost use Rattle.history_model.specs.Layers as records;
ghost use Rattle.outside_world.specs.Disk.{OnlyReads, Tells};
ghost use Rattle.outside_world.specs.Moments.{ChangesOnly};
ghost use Rattle.machine_model.specs.Machine.{Machine};
ghost use Rattle.layer_manifest.specs.Manifests.{IsProperManifest};
ghost use Rattle.layer_chains.specs.Chains.{IsShown};
ghost use Rattle.stored_chunks.specs.Parts.{AreProperLayers};
ghost use Rattle.history_model.specs.Rows.{RowItem};
ghost use Rattle.schema_catalog.specs.Catalogs.{database_fault, next_id};
ghost use Rattle.id_remap.specs.declared.targets.Target.TheVariants as target;
ghost use Rattle.key_rewriter.specs.Ids.{are_ascending};
ghost use Rattle.id_remap.specs.Remapping.{ids_of, new_id, remapped_schema};
ghost use Rattle.reply_texts.specs.declared.answers.Answer.TheVariants.{RestoreDone};
ghost use Rattle.machine_model.specs.Restores.{count_to_restore, last_of, nothing_refusal, restore_chain, restore_database, restored_as, span_of};
ghost use Rattle.cluster_core.specs.declared.halts.Halt.TheVariants.{Memory as no_memory};
ghost use Rattle.cluster_core.specs.ClusterView.{record_of};
ghost use Rattle.layer_model.specs.Names.{IsOwnName};
ghost use Rattle.cluster_core.specs.Standing.{HaltHasCause, Keeps, MayStep, RefusedBy, Runs, StandsFor};
ghost use Rattle.cluster_core.specs.Backing.{StandsStill};
ghost use Rattle.cluster_core.specs.Chains.{AreTypedRows, IsOwnChain, IsStandingChain, entries_in, stored_rows};
ghost use Rattle.cluster_core.specs.Restoring.{AreRowsOfEach, HasRoomFor, count_rows, entries_of, made_tables};
ghost use Rattle.cluster_core.specs.Restores.{AreTested, EndsBy, IsFullTwice, IsHard, IsPlanned, IsTested, refusal_of_chosen, restored_by, room_test, shown_tables, with_restore};

use crate::chains::{Chain, are_rows, chosen_of, read_tables};
use crate::cluster::Cluster;
use crate::finding::{draw_time, is_time};
use crate::halts::Halt;
use crate::jobs::{Job, push_job};
use crate::rows::check_room;
use id_remap::{Target, remap};
use key_rewriter::IdMap;
use layer_manifest::Manifest;
use layer_model::LayerName;
use mvcc_keys::{Entry, Hlc, Items, Memory};
use outside_world::Disk;
use reply_texts::{Answer, Refusal, RestoredTable};
use schema_catalog::Catalog;
use script_grammar::Src;
use std::alloc::Global;
use table_descriptors::{Descriptor, Name};

/// What becomes of chosen tables.
#[derive(Drop)]
pub(crate) struct Plan {
    pub(crate) chosen: Vec<Descriptor>,
    pub(crate) ids: IdMap,
    pub(crate) tables: Vec<Descriptor>,
}

/// The same with the rows that were read, and how many there are.
#[derive(Drop)]
struct Prepared {
    plan: Plan,
    rows: Vec<Vec<Entry>>,
    count: usize,
}

/// The time of the tables and rows, and the one after it, at which they are public.
fn draw_two_times(clock: Hlc) -> Result<(Hlc, Hlc), Halt>
    ensures made { IfOk result (λ x. next clock ≡ Some x.0) }
    ensures published { IfOk result (λ x. next x.0 ≡ Some x.1) }
    ensures time { IfOk result (λ x. IsTime x.0) }
    ensures full { IfErr result (IsFullTwice clock) }
{
    let made = draw_time(clock)?;
    let published = draw_time(made)?;
    Ok((made, published))
}

/// The name that is given, or another.
fn name_or<'a>(name: &'a Option<Name>, other: &'a Name) -> &'a Name
    ensures { result.now ≡ unwrap_or name.now other.now }
{
    match name {
        Some(name) => name,
        None => other,
    }
}

/// A fact for whoever holds a catalog: ids have 32 bits, so its tables aren't too many.
fn few_tables(catalog: &Catalog)
    ensures { 100 + length catalog.now.tables ≤ 2 ^ 32 }
{
    let _ = catalog.next_id();
}

/// Whether entries may be put anew, under the id of a table.
fn is_tested(d: &Descriptor, entries: &[Entry]) -> bool
    ensures { result ≡ true → IsTested d.now entries.now }
{
    d.proper();
    are_rows(entries)
}

/// Whether the entries of each table may.
fn are_tested(chosen: &[Descriptor], rows: &[Vec<Entry>]) -> bool
    ensures { result ≡ true → AreTested chosen.now rows.now }
{
    let mut rest = rows;
    for d in chosen {
        let Some((entries, others)) = rest.split_first() else {
            return false;
        };
        if !is_tested(d, entries.as_slice()) {
            return false;
        }
        rest = others;
    }
    rest.is_empty()
}

/// How many entries there are of all tables.
fn count_of(rows: &[Vec<Entry>]) -> Result<usize, Memory>
    ensures { IfOk result (λ n. n ≡ count_rows (entries_of rows.now)) }
{
    let mut count: usize = 0;
    for entries in rows {
        let Some(more) = count.checked_add(entries.len()) else {
            return Err(Memory);
        };
        count = more;
    }
    Ok(count)
}

// ---- the answer

fn spans_of(alloc: Global, layers: &[(LayerName, Manifest)]) -> Result<Vec<(Hlc, Hlc)>, Memory>
    ensures { IfOk result (λ v. v.items ≡ map span_of (map record_of layers.now)) }
{
    let mut spans = Vec::new(alloc);
    for entry in layers {
        spans.push((entry.0.start, entry.0.end))?;
    }
    Ok(spans)
}

fn new_id(ids: &IdMap, old: u32) -> u32
    ensures { result ≡ new_id ids.now old }
{
    match ids.get(old) {
        Some(id) => id,
        None => 0,
    }
}

fn answer_table(
    alloc: Global,
    ids: &IdMap,
    database: &Name,
    d: &Descriptor,
) -> Result<RestoredTable, Memory>
    ensures { IfOk result (λ t. t ≡ restored_as ids.now (target.Database database.now) d.now) }
{
    Ok(RestoredTable {
        old: d.id(),
        new: new_id(ids, d.id()),
        table: (database.copy(alloc)?, d.name().copy(alloc)?),
    })
}

fn answer_tables(
    alloc: Global,
    ids: &IdMap,
    database: &Name,
    chosen: &[Descriptor],
) -> Result<Vec<RestoredTable>, Memory>
    ensures { IfOk result (λ v. v.items ≡ map (restored_as ids.now (target.Database database.now)) chosen.now) }
{
    let mut tables = Vec::new(alloc);
    for d in chosen {
        tables.push(answer_table(alloc, ids, database, d)?)?;
    }
    Ok(tables)
}

fn restore_done(
    alloc: Global,
    job: u32,
    chain: &Chain,
    made: Hlc,
    rows: usize,
    tables: Vec<RestoredTable>,
) -> Result<Answer, Memory>
    ensures { IfOk result (λ a. a ≡ RestoreDone job chain.now.time made rows (map span_of (map record_of chain.now.layers.items)) tables.items) }
{
    Ok(Answer::RestoreDone {
        job,
        time: chain.time,
        at: made,
        rows: rows as u64,
        chain: Items::from_vec(spans_of(alloc, &chain.layers)?),
        tables: Items::from_vec(tables),
    })
}

// ---- before anything is changed

fn check_some(chosen: &[Descriptor]) -> Result<(), Halt>
    ensures passed { OnOk result (nothing_refusal chosen.now ≡ None) }
    ensures refused { IfErr result (λ e. RefusedBy e (nothing_refusal chosen.now)) }
{
    if chosen.is_empty() {
        return Err(Halt::Refused(Refusal::NothingToRestore));
    }
    Ok(())
}

/// Chosen tables under new ids, in a new database. Their ids ascend in each manifest.
fn plan_tables(
    alloc: Global,
    chosen: Vec<Descriptor>,
    catalog: &Catalog,
    new: &Name,
    made: Hlc,
) -> Result<Plan, Halt>
    requires { are_ascending (ids_of chosen.items) ≡ true }
    ensures planned { IfOk result (IsPlanned catalog.now new.now made chosen.items) }
    ensures refused { IfErr result (λ e. RefusedBy e (refusal_of_chosen catalog.now new.now made chosen.items [])) }
{
    check_some(&chosen)?;
    let target = Target::Database {
        name: new.copy(alloc)?,
    };
    match remap(alloc, &chosen, catalog, &target, false, made) {
        Ok((ids, tables)) => Ok(Plan {
            chosen,
            ids,
            tables,
        }),
        Err(fault) => Err(Halt::from(fault)),
    }
}

/// The rows of chosen tables. A disk that stands has such as may be put anew; where they aren't,
/// the answer is want of memory.
fn read_tested<D: Disk>(
    alloc: Global,
    disk: &mut D,
    chain: &Chain,
    chosen: &[Descriptor],
) -> Result<Vec<Vec<Entry>>, Halt>
    requires { AreProperLayers chain.now.layers.items }
    ensures rows { (tables : List Table) (scope : Scope) (rs : List records.LayerRecord) → Tells (D.view disk.old) → IsStandingChain tables scope rs chain.now.layers.items chain.now.time (D.view disk.old).objects → AllByRecursion (IsShown tables scope chain.now.time) chosen.now
        → IfOk result (λ v. map entries_in v.items ≡ map (stored_rows tables chain.now.time) chosen.now) × IfErr result IsHard }
    ensures typed { IfOk result (λ v. AreTypedRows chosen.now v.items) }
    ensures tested { IfOk result (λ v. AreTested chosen.now v.items) }
    ensures reads { OnlyReads (D.view disk.old) (D.view disk.new) }
    ensures cause { HaltHasCause (D.view disk.old).faults (D.view disk.new).faults result }
{
    match read_tables(alloc, disk, chain, chosen) {
        Ok(rows) => {
            if are_tested(chosen, &rows) {
                Ok(rows)
            } else {
                Err(Halt::Memory)
            }
        }
        Err(fault) => Err(Halt::from(fault)),
    }
}

impl Cluster {
    /// What becomes of the tables of a database that a manifest shows public.
    fn plan_restore(
        &self,
        m: &Manifest,
        time: Hlc,
        database: &Name,
        new: &Name,
        made: Hlc,
    ) -> Result<Plan, Halt>
        requires { IsProperManifest m.now }
        ensures planned { IfOk result (IsPlanned self.now.schemas new.now made (shown_tables database.now time m.now)) }
        ensures refused { IfErr result (λ e. RefusedBy e (refusal_of_chosen self.now.schemas new.now made (shown_tables database.now time m.now) [])) }
    {
        let chosen = chosen_of(self.alloc, m.copy(self.alloc)?, database, time)?;
        plan_tables(self.alloc, chosen, &self.catalog, new, made)
    }

    /// Counts rows, and refuses more facts than may be accepted.
    fn count_within(&self, rows: &[Vec<Entry>]) -> Result<usize, Halt>
        ensures count { IfOk result (λ n. n ≡ count_rows (entries_of rows.now)) }
        ensures fits { IfOk result (λ n. self.now.events + n ≤ self.now.most_events) }
        ensures passed { OnOk result (room_test self.now (count_rows (entries_of rows.now)) ≡ None) }
        ensures refused { IfErr result (λ e. RefusedBy e (room_test self.now (count_rows (entries_of rows.now)))) }
    {
        let count = count_of(rows)?;
        check_room(self.most_events, self.events, count)?;
        Ok(count)
    }

    /// Adds what a restore makes, and its job.
    fn keep_restored(
        &mut self,
        database: &Name,
        made: Hlc,
        published: Hlc,
        plan: Plan,
        rows: &[Vec<Entry>],
    ) -> Result<(), Halt>
        requires absent { database_fault self.old.schemas database.now ≡ None }
        requires made { next self.old.clock ≡ Some made }
        requires published { next made ≡ Some published }
        requires room { HasRoomFor self.old made plan.tables.items (entries_of rows.now) }
        requires jobs { length self.old.jobs < self.old.steps }
        ensures kept { (old : List Table) (chosen : List Schema) (items : List (List RowItem)) → Keeps self.old old
            → plan.tables.items ≡ map (remapped_schema plan.ids (target.Database database.now) made) chosen → ids_of plan.tables.items ≡ range_with_len (next_id self.old.schemas) (length chosen) → AreRowsOfEach made chosen (entries_of rows.now) items
            → OnOk result (Keeps self.new (old ++ made_tables made published plan.tables.items items)) }
        ensures rest { OnOk result (self.new ≡ with_restore self.old database.now published (count_rows (entries_of rows.now)) self.new.schemas.tables self.new.store) }
        ensures steps { self.new.steps ≡ self.old.steps }
        ensures fault { IfErr result (λ e. e ≡ no_memory) }
    {
        let ids = plan.ids;
        match self.add_restored(database, made, published, &ids, plan.tables, rows) {
            Ok(()) => Ok(push_job(&mut self.jobs, Job::Restore)?),
            // by cases and not by `?`, which would make the halt anew
            Err(halt) => Err(halt),
        }
    }

    /// What a restore adds, by a chain and the manifest of its last layer. It only reads the disk.
    fn read_restore<D: Disk>(
        &self,
        disk: &mut D,
        chain: &Chain,
        m: &Manifest,
        database: &Name,
        new: &Name,
        made: Hlc,
    ) -> Result<Prepared, Halt>
        requires proper { IsProperManifest m.now }
        requires layers { AreProperLayers chain.now.layers.items }
        ensures planned { IfOk result (λ p. IsPlanned self.now.schemas new.now made (shown_tables database.now chain.now.time m.now) p.plan) }
        ensures typed { IfOk result (λ p. AreTypedRows (shown_tables database.now chain.now.time m.now) p.rows.items) }
        ensures tested { IfOk result (λ p. AreTested (shown_tables database.now chain.now.time m.now) p.rows.items) }
        ensures count { IfOk result (λ p. p.count ≡ count_rows (entries_of p.rows.items)) }
        ensures fits { IfOk result (λ p. self.now.events + count_rows (entries_of p.rows.items) ≤ self.now.most_events) }
        ensures passed { IfOk result (λ p. room_test self.now (count_rows (entries_of p.rows.items)) ≡ None) }
        ensures rows { (tables : List Table) (scope : Scope) (rs : List records.LayerRecord) → Tells (D.view disk.old) → IsStandingChain tables scope rs chain.now.layers.items chain.now.time (D.view disk.old).objects → AllByRecursion (IsShown tables scope chain.now.time) (shown_tables database.now chain.now.time m.now)
            → IfOk result (λ p. map entries_in p.rows.items ≡ map (stored_rows tables chain.now.time) (shown_tables database.now chain.now.time m.now))
            × IfErr result (λ e. EndsBy e (refusal_of_chosen self.now.schemas new.now made (shown_tables database.now chain.now.time m.now) (room_test self.now (count_to_restore tables chain.now.time (shown_tables database.now chain.now.time m.now)) ∷ []))) }
        ensures reads { OnlyReads (D.view disk.old) (D.view disk.new) }
        ensures cause { HaltHasCause (D.view disk.old).faults (D.view disk.new).faults result }
    {
        let plan = self.plan_restore(m, chain.time, database, new, made)?;
        let rows = read_tested(self.alloc, disk, chain, &plan.chosen)?;
        let count = self.count_within(&rows)?;
        Ok(Prepared { plan, rows, count })
    }

    /// Adds what a restore makes, and answers it.
    fn finish_restore(
        &mut self,
        chain: &Chain,
        new: &Name,
        made: Hlc,
        published: Hlc,
        p: Prepared,
    ) -> Result<Answer, Halt>
        requires absent { database_fault self.old.schemas new.now ≡ None }
        requires made { next self.old.clock ≡ Some made }
        requires published { next made ≡ Some published }
        requires room { HasRoomFor self.old made p.plan.tables.items (entries_of p.rows.items) }
        requires jobs { length self.old.jobs < self.old.steps }
        ensures kept { (old : List Table) (chosen : List Schema) (items : List (List RowItem)) → Keeps self.old old
            → p.plan.tables.items ≡ map (remapped_schema p.plan.ids (target.Database new.now) made) chosen → ids_of p.plan.tables.items ≡ range_with_len (next_id self.old.schemas) (length chosen) → AreRowsOfEach made chosen (entries_of p.rows.items) items
            → OnOk result (Keeps self.new (old ++ made_tables made published p.plan.tables.items items)) }
        ensures rest { OnOk result (self.new ≡ with_restore self.old new.now published (count_rows (entries_of p.rows.items)) self.new.schemas.tables self.new.store) }
        ensures answer { IfOk result (λ a. a ≡ restored_by self.old new.now p.plan.ids chain.now.time made p.count chain.now.layers.items p.plan.chosen.items) }
        ensures steps { self.new.steps ≡ self.old.steps }
        ensures fault { IfErr result (λ e. e ≡ no_memory) }
    {
        let plan = p.plan;
        let rows = p.rows;
        let tables = answer_tables(self.alloc, &plan.ids, new, &plan.chosen)?;
        let job = self.jobs.len() as u32 + 1;
        let answer = restore_done(self.alloc, job, chain, made, p.count, tables)?;
        match self.keep_restored(new, made, published, plan, &rows) {
            Ok(()) => Ok(answer),
            // by cases and not by `?`, which would make the halt anew
            Err(halt) => Err(halt),
        }
    }

    /// Restores a database from the last layer of a chain.
    fn restore_from<D: Disk>(
        &mut self,
        disk: &mut D,
        chain: &Chain,
        layer: &(LayerName, Manifest),
        database: &Name,
        new: &Name,
        times: (Hlc, Hlc),
    ) -> Result<Answer, Halt>
        requires made { next self.old.clock ≡ Some times.0 }
        requires published { next times.0 ≡ Some times.1 }
        requires time { IsTime times.0 }
        requires room { length self.old.jobs < self.old.steps }
        requires own { IsOwnChain self.old.book chain.now }
        requires last { last_of chain.now.layers.items ≡ Some layer.now }
        requires stands { (m : Machine) × StandsFor self.old m }
        ensures step { (m to : Machine) → MayStep self.old m (restore_chain m database.now new.now chain.now.time times.0 times.1 (map record_of chain.now.layers.items)) to (D.view disk.old)
            → Runs self.new (restore_chain m database.now new.now chain.now.time times.0 times.1 (map record_of chain.now.layers.items)) to result (D.view disk.old) (D.view disk.new) }
        ensures stays { StandsStill result self.new }
        ensures changes { ChangesOnly (IsOwnName self.old.name) (IsOwnName self.old.name) (D.view disk.old) (D.view disk.new) }
        ensures steps { self.new.steps ≡ self.old.steps }
        ensures cause { HaltHasCause (D.view disk.old).faults (D.view disk.new).faults result }
    {
        let (made, published) = times;
        few_tables(&self.catalog);
        is_time(chain.time);
        match self.read_restore(disk, chain, &layer.1, database, new, made) {
            Ok(p) => self.finish_restore(chain, new, made, published, p),
            // by cases and not by `?`, which would make the halt anew
            Err(halt) => Err(halt),
        }
    }

    pub(crate) fn restore_database<D: Disk>(
        &mut self,
        disk: &mut D,
        database: &Name,
        source: &Src,
        collection: &Name,
        at: Option<Hlc>,
        new_name: &Option<Name>,
    ) -> Result<Answer, Halt>
        requires room { length self.old.jobs < self.old.steps }
        requires stands { (m : Machine) × StandsFor self.old m }
        ensures step { (m to : Machine) → MayStep self.old m (restore_database m database.now source.now collection.now at new_name.now) to (D.view disk.old)
            → Runs self.new (restore_database m database.now source.now collection.now at new_name.now) to result (D.view disk.old) (D.view disk.new) }
        ensures stays { StandsStill result self.new }
        ensures changes { ChangesOnly (IsOwnName self.old.name) (IsOwnName self.old.name) (D.view disk.old) (D.view disk.new) }
        ensures steps { self.new.steps ≡ self.old.steps }
        ensures cause { HaltHasCause (D.view disk.old).faults (D.view disk.new).faults result }
    {
        let times = draw_two_times(self.clock)?;
        let chain = self.chain_of(source, collection, at)?;
        match chain.layers.last() {
            Some(layer) => {
                self.restore_from(
                    disk,
                    &chain,
                    layer,
                    database,
                    name_or(new_name, database),
                    times,
                )
            }
            None => Err(Halt::Refused(Refusal::NothingToRestore)),
        }
    }
}
