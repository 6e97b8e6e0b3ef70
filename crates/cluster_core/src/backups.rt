//! The commands on backups.
ghost use Rattle.std.specs.Prelude.{◌≡◌, ◌≤◌, ℕ, ◌<◌, ◌+◌, ◌^◌, true, None, [], List, length, map, IfOk, IfErr, OnOk};
ghost use Rattle.std.specs.List.{AllByRecursion, find};
ghost use Rattle.std.specs.Option.{option_copied};
ghost use Rattle.mvcc_keys.specs.Times.{IsTime, time_le, time_lt, zero_time};
ghost use Rattle.history_model.specs.Histories.{Table, schemas_of};
ghost use Rattle.outside_world.specs.Moments.{ChangesOnly};
ghost use Rattle.collection_dir.specs.Faults.{CountsAs, IsDiskFault};
ghost use Rattle.introduced_spans.specs.Spans.{plan_fault, threshold_of};
ghost use Rattle.layer_manifest.specs.declared.manifest.TablePart.{TablePart};
ghost use Rattle.layer_manifest.specs.Manifests.{IsProperScope, chunk_count};
ghost use Rattle.layer_objects.specs.Objects.{by_id, name_of_record, plan_of, table_threshold};
ghost use Rattle.machine_model.specs.Machine.{Machine};
ghost use Rattle.machine_model.specs.Backups.{backup, backup_database, backup_latest, backup_tables, end_refusal, forget, full_backup, increment_in, is_between_times, is_subdirectory, layer_record, show_backups, source_among};
ghost use Rattle.cluster_core.specs.ClusterView.{record_of};
ghost use Rattle.layer_model.specs.Names.{IsLayerName, IsOwnName};
ghost use Rattle.cluster_core.specs.Standing.{Does, HaltCounts, HaltHasCause, Keeps, MayStep, RefusedBy, Runs, StandsFor, machine_of};
ghost use Rattle.cluster_core.specs.Backing.{AreLayersFrom, IsBackupJob, IsEnding, IsEndingFault, IsNext, IsOfScopeOf, IsSourceFault, StandsStill, done_of, layer_refusal, with_backup, with_job};
ghost use Rattle.cluster_core.specs.Halting.{halt_of_dir};
ghost use Rattle.reply_texts.specs.declared.refusals.Refusal.{Refusal};

use crate::cluster::Cluster;
use crate::finding::{
    check_database, check_names, check_past, check_states, draw_time, ids_named, is_time,
};
use crate::halts::Halt;
use crate::jobs::{Job, push_job};
use backup_job::BackupJob;
use collection_dir::{DirFault, forget_layer};
use introduced_spans::{LayerPlan, Threshold, plan_layer};
use layer_manifest::{Manifest, TablePart, chunk_count, entry_count};
use layer_model::LayerName;
use machine_model::Extent;
use mvcc_keys::{Hlc, Items, Memory};
use outside_world::Disk;
use reply_texts::{Answer, Refusal};
use script_grammar::Src;
use std::alloc::Global;
use table_descriptors::{Name, Scope};
use version_store::Versions;

/// The end of a backup, which is given or drawn, and the clock after it.
fn end_of(clock: Hlc, at: Option<Hlc>) -> Result<(Hlc, Hlc), Halt>
    ensures ending { IfOk result (IsEnding clock at) }
    ensures within { IfOk result (λ x. (time_le x.0 x.1 ≡ true) × (time_le clock x.1 ≡ true)) }
    ensures fault { IfErr result (IsEndingFault clock at) }
{
    match at {
        Some(end) => {
            check_past(clock, end)?;
            Ok((end, clock))
        }
        None => {
            let end = draw_time(clock)?;
            Ok((end, end))
        }
    }
}

/// Refuses an end that isn't after the last one.
fn check_end(end: Hlc, last: Hlc) -> Result<(), Halt>
    ensures passed { OnOk result (end_refusal end last ≡ None) }
    ensures refused { IfErr result (λ e. RefusedBy e (end_refusal end last)) }
{
    if end <= last {
        return Err(Halt::Refused(Refusal::EndNotAfter { end, last }));
    }
    Ok(())
}

/// The answer of a backup that is done.
fn backup_done(alloc: Global, layer: &LayerName, m: &Manifest) -> Result<Answer, Memory>
    requires { chunk_count m.now.tables ≤ 1000000 }
    ensures { IfOk result (λ a. a ≡ done_of layer.now m.now) }
{
    Ok(Answer::BackupDone {
        job: layer.job,
        cluster: layer.cluster.copy(alloc)?,
        full: layer.full,
        start: layer.start,
        end: layer.end,
        entries: entry_count(m.tables.as_slice()),
        chunks: chunk_count(m.tables.as_slice()),
    })
}

/// The name and the manifest of a job's layer.
fn copy_layer(alloc: Global, job: &BackupJob) -> Result<(LayerName, Manifest), Memory>
    ensures name { IfOk result (λ x. x.0 ≡ job.now.name) }
    ensures manifest { IfOk result (λ x. x.1 ≡ job.now.manifest) }
{
    let layer = job.layer().copy(alloc)?;
    Ok((layer, job.manifest().copy(alloc)?))
}

/// The number of a table's descriptors is that of a list in memory.
fn is_counted(part: &TablePart)
    ensures { length part.now.descriptors < 2 ^ 64 }
{
    let _ = part.descriptors.len();
}

/// The same of each table of a manifest. It is called for the proof alone, which has to know that
/// the manifest can be spelled.
fn are_counted(parts: &[TablePart])
    ensures { AllByRecursion (λ (part : TablePart). length part.descriptors < 2 ^ 64) parts.now }
{
    for part in parts {
        is_counted(part);
    }
}

// ---- layers of a source

fn is_subdirectory(subdirectory: &(Name, Hlc), cluster: &Name, full: Hlc) -> bool
    ensures { result ≡ is_subdirectory cluster.now full subdirectory.now }
{
    subdirectory.0.is_same(cluster) && subdirectory.1 == full
}

fn subdirectory_among<'a>(
    subdirectories: &'a [(Name, Hlc)],
    cluster: &Name,
    full: Hlc,
) -> Option<&'a (Name, Hlc)>
    ensures { option_copied result ≡ find (is_subdirectory cluster.now full) subdirectories.now }
{
    subdirectories
        .iter()
        .find(|s| is_subdirectory(*s, cluster, full))
}

/// The one of some subdirectories that is meant.
fn source_among<'a>(source: &Src, subdirectories: &'a [(Name, Hlc)]) -> Option<&'a (Name, Hlc)>
    ensures { option_copied result ≡ source_among source.now subdirectories.now }
{
    match source {
        Src::Latest => subdirectories.last(),
        Src::Named { cluster, full } => subdirectory_among(subdirectories, cluster, *full),
    }
}

fn is_between(entry: &(LayerName, Manifest), start: Hlc, end: Hlc) -> bool
    ensures { result ≡ is_between_times start end (record_of entry.now) }
{
    entry.0.start == start && entry.0.end == end
}

/// The first of some layers from a start to an end.
fn layer_between<'a>(
    layers: &'a [(LayerName, Manifest)],
    start: Hlc,
    end: Hlc,
) -> Option<&'a (LayerName, Manifest)>
    ensures { option_copied result ≡ find (λ p. is_between_times start end (record_of p)) layers.now }
{
    layers.iter().find(|entry| is_between(*entry, start, end))
}

impl Cluster {
    /// The thresholds of all tables.
    fn thresholds(&self) -> Result<Vec<Threshold>, Memory>
        ensures thresholds { IfOk result (λ v. (tables : List Table) → Keeps self.now tables → threshold_of v.items ≡ by_id zero_time table_threshold tables) }
        ensures few { OnOk result (100 + length self.now.schemas.tables ≤ 2 ^ 32) }
    {
        let mut thresholds = Vec::new(self.alloc);
        for table in 100..self.catalog.next_id() {
            let at = self.rows.store().threshold(table);
            thresholds.push(Threshold { table, at })?;
        }
        Ok(thresholds)
    }

    /// The plan of a layer, where its end is after the last one and nothing of it was collected.
    fn layer_plan(&self, extent: &Extent, last: Hlc) -> Result<LayerPlan, Halt>
        ensures plan { IfOk result (λ plan. (tables : List Table) → Keeps self.now tables → plan ≡ plan_of tables (layer_record (machine_of self.now tables) extent.now)) }
        ensures floor { IfOk result (λ plan. IsTime plan.floor) }
        ensures few { OnOk result (100 + length self.now.schemas.tables ≤ 2 ^ 32) }
        ensures allowed { OnOk result ((tables : List Table) → Keeps self.now tables → plan_fault (schemas_of tables) extent.now.scope extent.now.start extent.now.end extent.now.history (by_id zero_time table_threshold tables) ≡ None) }
        ensures passed { OnOk result ((tables : List Table) → Keeps self.now tables → layer_refusal (machine_of self.now tables) extent.now last ≡ None) }
        ensures refused { IfErr result (λ e. (tables : List Table) → Keeps self.now tables → RefusedBy e (layer_refusal (machine_of self.now tables) extent.now last)) }
    {
        check_end(extent.end, last)?;
        let thresholds = self.thresholds()?;
        let plan = plan_layer(
            self.alloc,
            &self.catalog,
            &extent.scope,
            extent.start,
            extent.end,
            extent.history,
            &thresholds,
        )?;
        is_time(plan.floor);
        Ok(plan)
    }

    /// The name of the layer that the next job makes.
    fn layer_name(&self, extent: &Extent) -> Result<LayerName, Memory>
        requires room { length self.now.jobs < 4294967295 }
        ensures name { IfOk result (λ n. (tables : List Table) → n ≡ name_of_record (layer_record (machine_of self.now tables) extent.now)) }
        ensures form { IfOk result IsLayerName }
    {
        is_time(extent.full);
        is_time(extent.start);
        is_time(extent.end);
        Ok(LayerName {
            collection: extent.collection.copy(self.alloc)?,
            cluster: self.name.copy(self.alloc)?,
            full: extent.full,
            start: extent.start,
            end: extent.end,
            job: self.jobs.len() as u32 + 1,
        })
    }

    /// A job for a layer that goes on after the last end.
    fn backup_job(&self, extent: Extent, last: Hlc) -> Result<BackupJob, Halt>
        requires next { IsNext extent last }
        requires room { length self.now.jobs < 4294967295 }
        ensures job { IfOk result (λ job. (tables : List Table) → Keeps self.now tables → IsBackupJob (machine_of self.now tables) extent last job) }
        ensures refused { IfErr result (λ e. (tables : List Table) → Keeps self.now tables → RefusedBy e (layer_refusal (machine_of self.now tables) extent last)) }
    {
        let plan = self.layer_plan(&extent, last)?;
        let name = self.layer_name(&extent)?;
        let Extent { history, scope, .. } = extent;
        let job = BackupJob::start(self.alloc, name, history, scope, plan, &self.catalog)?;
        are_counted(job.manifest().tables.as_slice());
        Ok(job)
    }

    /// Adds a job that is done, and its layer.
    fn keep_layer(&mut self, job: BackupJob) -> Result<(), Memory>
        requires room { length self.old.jobs < self.old.steps }
        ensures kept { OnOk result (self.new ≡ with_backup self.old job) }
        ensures steps { self.new.steps ≡ self.old.steps }
    {
        let (layer, manifest) = copy_layer(self.alloc, &job)?;
        push_job(&mut self.jobs, Job::Backup(job))?;
        Ok(self.book.add(layer, manifest)?)
    }

    /// Keeps a job that is done, and its layer, and answers it.
    fn keep_backup(&mut self, job: BackupJob) -> Result<Answer, Memory>
        requires few { chunk_count job.manifest.tables ≤ 1000000 }
        requires room { length self.old.jobs < self.old.steps }
        ensures kept { OnOk result (self.new ≡ with_backup self.old job) }
        ensures answer { IfOk result (λ a. a ≡ done_of job.name job.manifest) }
        ensures steps { self.new.steps ≡ self.old.steps }
    {
        let answer = backup_done(self.alloc, job.layer(), job.manifest())?;
        self.keep_layer(job)?;
        Ok(answer)
    }

    /// Keeps a job that failed, unless no command follows.
    fn keep_failed(&mut self, job: BackupJob, fault: DirFault) -> Halt
        requires room { length self.old.jobs < self.old.steps }
        ensures of_disk { IsDiskFault fault → result ≡ halt_of_dir fault }
        ensures kept { (refusal : Refusal) → result ≡ Halt.Refused refusal → self.new ≡ with_job self.old job }
        ensures counts { (before now : ℕ) → CountsAs fault before now → HaltCounts result before now }
        ensures steps { self.new.steps ≡ self.old.steps }
    {
        match fault {
            DirFault::Failed => Halt::Disk,
            DirFault::Memory => Halt::Memory,
            fault => match push_job(&mut self.jobs, Job::Backup(job)) {
                Ok(()) => Halt::from(fault),
                Err(Memory) => Halt::Memory,
            },
        }
    }

    /// Makes a layer that goes on after the last end. A job that meets another layer's manifest
    /// under its name keeps its number, and the drawn time stands.
    fn back_up<D: Disk>(
        &mut self,
        disk: &mut D,
        extent: Extent,
        last: Hlc,
        clock: Hlc,
    ) -> Result<Answer, Halt>
        requires next { IsNext extent last }
        requires scopes { time_lt last extent.end ≡ true → IsOfScopeOf self.old.book extent }
        requires within { (time_le extent.end clock ≡ true) × (time_le self.old.clock clock ≡ true) }
        requires room { length self.old.jobs < self.old.steps }
        requires stands { (m : Machine) × StandsFor self.old m }
        ensures step { (m to : Machine) → MayStep self.old m (backup m [] extent last clock) to (D.view disk.old)
            → Runs self.new (backup m [] extent last clock) to result (D.view disk.old) (D.view disk.new) }
        ensures stays { StandsStill result self.new }
        ensures changes { ChangesOnly (IsOwnName self.old.name) (IsOwnName self.old.name) (D.view disk.old) (D.view disk.new) }
        ensures steps { self.new.steps ≡ self.old.steps }
        ensures cause { HaltHasCause (D.view disk.old).faults (D.view disk.new).faults result }
    {
        let mut job = self.backup_job(extent, last)?;
        self.clock = clock;
        match job.run_to_end(self.rows.store(), disk) {
            Ok(()) => Ok(self.keep_backup(job)?),
            Err(fault) => Err(self.keep_failed(job, fault)),
        }
    }

    /// Makes a full layer.
    fn back_up_full<D: Disk>(
        &mut self,
        disk: &mut D,
        collection: &Name,
        scope: Scope,
        history: bool,
        times: (Hlc, Hlc),
    ) -> Result<Answer, Halt>
        requires scope { IsProperScope scope }
        requires within { (time_le times.0 times.1 ≡ true) × (time_le self.old.clock times.1 ≡ true) }
        requires room { length self.old.jobs < self.old.steps }
        requires stands { (m : Machine) × StandsFor self.old m }
        ensures step { (m to : Machine) → MayStep self.old m (full_backup m [] collection.now scope history times.0 times.1) to (D.view disk.old)
            → Runs self.new (full_backup m [] collection.now scope history times.0 times.1) to result (D.view disk.old) (D.view disk.new) }
        ensures stays { StandsStill result self.new }
        ensures changes { ChangesOnly (IsOwnName self.old.name) (IsOwnName self.old.name) (D.view disk.old) (D.view disk.new) }
        ensures steps { self.new.steps ≡ self.old.steps }
        ensures cause { HaltHasCause (D.view disk.old).faults (D.view disk.new).faults result }
    {
        let (end, clock) = times;
        let last = self.book.last_full(collection);
        let extent = Extent {
            collection: collection.copy(self.alloc)?,
            full: end,
            start: Hlc::zero(),
            end,
            history,
            scope,
        };
        self.back_up(disk, extent, last, clock)
    }

    pub(crate) fn backup_database<D: Disk>(
        &mut self,
        disk: &mut D,
        database: &Name,
        collection: &Name,
        at: Option<Hlc>,
        history: bool,
    ) -> Result<Answer, Halt>
        requires room { length self.old.jobs < self.old.steps }
        requires stands { (m : Machine) × StandsFor self.old m }
        ensures step { (m to : Machine) → MayStep self.old m (backup_database m database.now collection.now at history) to (D.view disk.old)
            → Runs self.new (backup_database m database.now collection.now at history) to result (D.view disk.old) (D.view disk.new) }
        ensures stays { StandsStill result self.new }
        ensures changes { ChangesOnly (IsOwnName self.old.name) (IsOwnName self.old.name) (D.view disk.old) (D.view disk.new) }
        ensures steps { self.new.steps ≡ self.old.steps }
        ensures cause { HaltHasCause (D.view disk.old).faults (D.view disk.new).faults result }
    {
        let (end, clock) = end_of(self.clock, at)?;
        check_database(self.alloc, &self.catalog, database)?;
        let scope = Scope::Database(database.copy(self.alloc)?);
        self.back_up_full(disk, collection, scope, history, (end, clock))
    }

    pub(crate) fn backup_tables<D: Disk>(
        &mut self,
        disk: &mut D,
        tables: &[(Name, Name)],
        collection: &Name,
        at: Option<Hlc>,
        history: bool,
    ) -> Result<Answer, Halt>
        requires room { length self.old.jobs < self.old.steps }
        requires stands { (m : Machine) × StandsFor self.old m }
        ensures step { (m to : Machine) → MayStep self.old m (backup_tables m tables.now collection.now at history) to (D.view disk.old)
            → Runs self.new (backup_tables m tables.now collection.now at history) to result (D.view disk.old) (D.view disk.new) }
        ensures stays { StandsStill result self.new }
        ensures changes { ChangesOnly (IsOwnName self.old.name) (IsOwnName self.old.name) (D.view disk.old) (D.view disk.new) }
        ensures steps { self.new.steps ≡ self.old.steps }
        ensures cause { HaltHasCause (D.view disk.old).faults (D.view disk.new).faults result }
    {
        let (end, clock) = end_of(self.clock, at)?;
        check_names(&self.catalog, tables, end)?;
        check_states(&self.catalog, tables, end)?;
        let ids = ids_named(self.alloc, &self.catalog, tables, end)?;
        if ids.is_empty() {
            return Err(Halt::Memory);
        }
        let scope = Scope::Tables(Items::from_vec(ids));
        self.back_up_full(disk, collection, scope, history, (end, clock))
    }

    /// Makes a layer in a subdirectory, after those that are there.
    fn back_up_in<D: Disk>(
        &mut self,
        disk: &mut D,
        collection: &Name,
        subdirectory: &(Name, Hlc),
        history: bool,
        times: (Hlc, Hlc),
    ) -> Result<Answer, Halt>
        requires within { (time_le times.0 times.1 ≡ true) × (time_le self.old.clock times.1 ≡ true) }
        requires room { length self.old.jobs < self.old.steps }
        requires stands { (m : Machine) × StandsFor self.old m }
        ensures step { (m to : Machine) → MayStep self.old m (increment_in m collection.now subdirectory.now history times.0 times.1) to (D.view disk.old)
            → Runs self.new (increment_in m collection.now subdirectory.now history times.0 times.1) to result (D.view disk.old) (D.view disk.new) }
        ensures stays { StandsStill result self.new }
        ensures changes { ChangesOnly (IsOwnName self.old.name) (IsOwnName self.old.name) (D.view disk.old) (D.view disk.new) }
        ensures steps { self.new.steps ≡ self.old.steps }
        ensures cause { HaltHasCause (D.view disk.old).faults (D.view disk.new).faults result }
    {
        let (end, clock) = times;
        let (cluster, full) = subdirectory;
        let last = self.book.last_end(collection, cluster, *full);
        match self.book.first(collection, cluster, *full) {
            Some((layer, m)) => {
                let Manifest { scope, .. } = m.copy(self.alloc)?;
                let extent = Extent {
                    collection: collection.copy(self.alloc)?,
                    full: layer.full,
                    start: last,
                    end,
                    history,
                    scope,
                };
                self.back_up(disk, extent, last, clock)
            }
            None => Err(Halt::Refused(Refusal::NoSuchBackup)),
        }
    }

    pub(crate) fn backup_latest<D: Disk>(
        &mut self,
        disk: &mut D,
        collection: &Name,
        at: Option<Hlc>,
        history: bool,
    ) -> Result<Answer, Halt>
        requires room { length self.old.jobs < self.old.steps }
        requires stands { (m : Machine) × StandsFor self.old m }
        ensures step { (m to : Machine) → MayStep self.old m (backup_latest m collection.now at history) to (D.view disk.old)
            → Runs self.new (backup_latest m collection.now at history) to result (D.view disk.old) (D.view disk.new) }
        ensures stays { StandsStill result self.new }
        ensures changes { ChangesOnly (IsOwnName self.old.name) (IsOwnName self.old.name) (D.view disk.old) (D.view disk.new) }
        ensures steps { self.new.steps ≡ self.old.steps }
        ensures cause { HaltHasCause (D.view disk.old).faults (D.view disk.new).faults result }
    {
        let (end, clock) = end_of(self.clock, at)?;
        let subdirectories = self.book.subdirectories(collection, &[])?;
        match source_among(&Src::Latest, &subdirectories) {
            Some(subdirectory) => {
                self.back_up_in(disk, collection, subdirectory, history, (end, clock))
            }
            None => Err(Halt::Refused(Refusal::NoSuchBackup)),
        }
    }

    #[tactic(auto, unfolding(machine_model::specs::Backups::show_backups))]
    pub(crate) fn show_backups(&self, collection: &Name) -> Result<Answer, Halt>
        ensures { Does self.now self.now (λ m. show_backups m collection.now) result }
    {
        let subdirectories = self.book.subdirectories(collection, &[])?;
        Ok(Answer::BackupsShown {
            subdirectories: Items::from_vec(subdirectories),
        })
    }

    /// The layers of the subdirectory that a source names, by start, end, job.
    pub(crate) fn layers_from(
        &self,
        source: &Src,
        collection: &Name,
    ) -> Result<Vec<(LayerName, Manifest)>, Halt>
        ensures layers { IfOk result (λ v. AreLayersFrom self.now.book source.now collection.now v.items) }
        ensures fault { IfErr result (IsSourceFault self.now.book source.now collection.now) }
    {
        let subdirectories = self.book.subdirectories(collection, &[])?;
        match source_among(source, &subdirectories) {
            Some((cluster, full)) => Ok(self.book.layers(collection, cluster, *full, &[])?),
            None => Err(Halt::Refused(Refusal::NoSuchBackup)),
        }
    }

    pub(crate) fn forget<D: Disk>(
        &mut self,
        disk: &mut D,
        source: &Src,
        collection: &Name,
        start: Hlc,
        end: Hlc,
    ) -> Result<Answer, Halt>
        requires stands { (m : Machine) × StandsFor self.old m }
        ensures step { (m to : Machine) → MayStep self.old m (forget m source.now collection.now start end) to (D.view disk.old)
            → Runs self.new (forget m source.now collection.now start end) to result (D.view disk.old) (D.view disk.new) }
        ensures stays { StandsStill result self.new }
        ensures changes { ChangesOnly (IsOwnName self.old.name) (IsOwnName self.old.name) (D.view disk.old) (D.view disk.new) }
        ensures steps { self.new.steps ≡ self.old.steps }
        ensures cause { HaltHasCause (D.view disk.old).faults (D.view disk.new).faults result }
    {
        let layers = self.layers_from(source, collection)?;
        match layer_between(&layers, start, end) {
            Some((layer, m)) => {
                forget_layer(self.alloc, disk, layer, chunk_count(m.tables.as_slice()))?;
                self.book.remove(layer);
                Ok(Answer::Plain)
            }
            None => Err(Halt::Refused(Refusal::NoSuchLayer)),
        }
    }
}
