//! The job of a backup.
ghost use Rattle.std.specs.Prelude.{◌≡◌, ℕ, List, IfOk, IfErr, OnErr, OnOk};
ghost use Rattle.std.specs.List.{AllByRecursion};
ghost use Rattle.table_descriptors.specs.Descriptors.{IsProperSchema};
ghost use Rattle.version_store.specs.Tables.{Tables};
ghost use Rattle.outside_world.specs.Moments.{ChangesOnly, NoName};
ghost use Rattle.layer_manifest.specs.declared.manifest.TablePart.{TablePart};
ghost use Rattle.layer_model.specs.Layers.{LayerObjects};
ghost use Rattle.layer_model.specs.Stands.{Setting};
ghost use Rattle.collection_dir.specs.Faults.{DirHasCause};
ghost use Rattle.collection_dir.specs.Finishing.{IsFinishFault};
ghost use Rattle.backup_job.specs.Jobs.{IsAbout, IsSameJob, MayRun, completed, left, started};
ghost use Rattle.backup_job.specs.Units.{AtLayer, Steps, UnitWrites};
ghost use Rattle.backup_job.specs.Whole.{IsAmong, IsAsked, IsWriting, RunWrites, UnitLeaves};

use crate::pieces::next_piece;
use crate::starting::bare_manifest;
use collection_dir::DirFault;
use introduced_spans::{LayerPlan, TablePlan};
use layer_manifest::Manifest;
use layer_model::LayerName;
use mvcc_keys::{Items, Memory};
use outside_world::Disk;
use schema_catalog::Catalog;
use span_export::Cursor;
use std::alloc::Global;
use std::marker::Model;
use table_descriptors::Scope;
use version_store::Versions;

/// What a unit leaves: more to do, or nothing.
#[derive(Clone, Copy, Debug, PartialEq, Eq)]
pub enum Progress {
    Running,
    Done,
}

/// A backup that is under way. It holds no entries: each unit reads what it writes.
#[derive(Drop)]
pub struct BackupJob {
    pub(crate) alloc: Global,
    pub(crate) name: LayerName,
    pub(crate) plans: Items<TablePlan>,
    pub(crate) place: usize,
    pub(crate) cursor: Cursor,
    pub(crate) manifest: Manifest,
}

impl Model for BackupJob {
    ghost use Rattle.std.specs.Prelude.{◌≡◌, length};
    ghost use Rattle.backup_job.specs.Jobs.{Job};

    ghost Value = { Job };

    ghost view = { λ b. record { name = b.name; plans = b.plans; place = b.place; cursor = b.cursor; manifest = b.manifest } };

    ghost invariant = { λ b. length b.manifest.tables ≡ length b.plans };
}

impl BackupJob {
    /// A job for a layer of that name, by its plan. Nothing is read from a disk, and nothing from
    /// a store. The descriptors are copies.
    pub fn start(
        alloc: Global,
        layer: LayerName,
        history: bool,
        scope: Scope,
        plan: LayerPlan,
        catalog: &Catalog,
    ) -> Result<BackupJob, Memory>
        ensures job { IfOk result (λ job. job ≡ started layer history scope plan catalog.now) }
        ensures proper { IfOk result (λ job. AllByRecursion (λ (t : TablePart). AllByRecursion IsProperSchema t.descriptors) job.manifest.tables) }
    {
        let manifest = bare_manifest(alloc, &layer, history, scope, &plan, catalog)?;
        let LayerPlan { tables, .. } = plan;
        Ok(BackupJob {
            alloc,
            name: layer,
            plans: tables,
            place: 0,
            cursor: Cursor::start(),
            manifest,
        })
    }

    /// The name of the layer.
    pub fn layer(&self) -> &LayerName
        ensures { result.now ≡ self.now.name }
    {
        &self.name
    }

    /// The manifest with the chunks that were written so far, which is whole at Done.
    pub fn manifest(&self) -> &Manifest
        ensures { result.now ≡ self.now.manifest }
    {
        &self.manifest
    }

    /// Writes the next chunk, at most 256 entries of one table, and answers Running. Where no
    /// entries are left it finishes the layer and answers Done. At a fault the job is as it was,
    /// and may go on later.
    pub fn unit<V: Versions, D: Disk>(
        &mut self,
        store: &V,
        disk: &mut D,
    ) -> Result<Progress, DirFault>
        requires { (h : Tables) × V.stands store.now h × MayRun h self.old }
        ensures step { (h : Tables) → V.stands store.now h → MayRun h self.old → (w : LayerObjects) → IsAbout h self.old w → IfOk result (Steps h w self.old self.new) }
        ensures stays { OnErr result (self.new ≡ self.old) }
        ensures disk { (h : Tables) → V.stands store.now h → MayRun h self.old → (w : LayerObjects) → IsAbout h self.old w
            → UnitWrites h self.old (left h self.old) w result (D.view disk.old) (D.view disk.new) }
        ensures stands { (h : Tables) → V.stands store.now h → (older : LayerObjects → List ℕ) (s : Setting) (w : LayerObjects) → IsAsked s w (left h self.old) → IsWriting older s w h self.old (D.view disk.old)
            → UnitLeaves older s w h result self.new (D.view disk.old) (D.view disk.new) }
        ensures changes { ChangesOnly (AtLayer self.old.name) NoName (D.view disk.old) (D.view disk.new) }
        ensures fault { IfErr result (IsFinishFault self.old.name self.old.manifest) }
        ensures cause { DirHasCause (D.view disk.old).faults (D.view disk.new).faults result }
    {
        match next_piece(
            self.alloc,
            store,
            self.plans.as_slice(),
            self.place,
            &self.cursor,
        )? {
            Some(piece) => self.write(disk, piece),
            None => self.finish(disk),
        }
    }

    /// Runs all units that are left. At a fault the job is as far as it came, and may go on later.
    pub fn run_to_end<V: Versions, D: Disk>(
        &mut self,
        store: &V,
        disk: &mut D,
    ) -> Result<(), DirFault>
        requires { (h : Tables) × V.stands store.now h × MayRun h self.old }
        ensures kept { (h : Tables) → V.stands store.now h → MayRun h self.old → IsSameJob h self.old self.new }
        ensures whole { (h : Tables) → V.stands store.now h → MayRun h self.old → OnOk result (self.new.manifest ≡ completed h self.old) }
        ensures disk { (h : Tables) → V.stands store.now h → (older : LayerObjects → List ℕ) (s : Setting) (w : LayerObjects) → IsAmong s w → IsWriting older s w h self.old (D.view disk.old)
            → RunWrites older s w (completed h self.old) result self.new (D.view disk.old) (D.view disk.new) }
        ensures changes { ChangesOnly (AtLayer self.old.name) NoName (D.view disk.old) (D.view disk.new) }
        ensures fault { IfErr result (IsFinishFault self.old.name self.new.manifest) }
        ensures cause { DirHasCause (D.view disk.old).faults (D.view disk.new).faults result }
    {
        'units: loop {
            // Not `?`, which would pass the fault through `From`, of which the clauses on faults say nothing.
            match self.unit(store, disk) {
                Ok(Progress::Running) => {}
                Ok(Progress::Done) => return Ok(()),
                Err(fault) => return Err(fault),
            }
        }
    }
}
