//! The cluster, and one step for each command.
ghost use Rattle.std.specs.Prelude.{◌≡◌, ◌≢◌, ◌↔◌, ◌≤◌, ◌<◌, ◌+◌, true, false, length, List, IfOk, IfErr, IfSome, IsNone, OnOk, OnErr};
ghost use Rattle.mvcc_keys.specs.Times.{time_lt};
ghost use Rattle.outside_world.specs.Moments.{ChangesOnly};
ghost use Rattle.machine_model.specs.declared.limits.TheConstants.{EVENTS_MAX, SCRIPT_BYTES_MAX, TABLES_MAX};
ghost use Rattle.machine_model.specs.Machine.{World, Machine, empty_machine};
ghost use Rattle.machine_model.specs.Tables.{tick};
ghost use Rattle.machine_model.specs.Step.{step};
ghost use Rattle.cluster_core.specs.declared.fault.RunFault.TheVariants as fault;
ghost use Rattle.cluster_core.specs.declared.halts.Halt.TheVariants as halt;
ghost use Rattle.layer_model.specs.Names.{IsOwnName};
ghost use Rattle.cluster_core.specs.Standing.{Does, HaltHasCause, LeavesRest, MayStep, Runs, StandsFor};
ghost use Rattle.cluster_core.specs.Backing.{StandsStill};
ghost use Rattle.cluster_core.specs.Stepping.{RunHasCause, Steps, is_of_disk};

use crate::fault::RunFault;
use crate::halts::Halt;
use crate::jobs::Job;
use command_lang::Command;
use layer_book::LayerBook;
use mvcc_keys::{Hlc, Memory};
use outside_world::Disk;
use reply_texts::{Answer, Refusal, Reply, Response};
use schema_catalog::Catalog;
use std::alloc::Global;
use std::marker::Model;
use table_descriptors::{Change, Name};
use table_rows::TableRows;
use version_store::MvccMap;

/// How many facts may ever be accepted, and how many table ids given.
#[derive(Clone, Copy, Debug)]
pub struct Limits {
    pub events: u32,
    pub tables: u32,
}

/// A cluster. All its tables are in memory; the script that made them is their durable record.
#[derive(Drop)]
pub struct Cluster {
    pub(crate) alloc: Global,
    pub(crate) name: Name,
    pub(crate) most_events: u32,
    pub(crate) clock: Hlc,
    pub(crate) catalog: Catalog,
    pub(crate) rows: TableRows<MvccMap>,
    /// The own layers.
    pub(crate) book: LayerBook,
    pub(crate) jobs: Vec<Job>,
    /// How many facts were ever accepted.
    pub(crate) events: u32,
    /// How many commands were executed.
    pub(crate) steps: u32,
    /// How many descriptors were made.
    pub(crate) changes: u32,
    /// Whether a command gave no reply.
    ended: bool,
}

impl Model for Cluster {
    ghost use Rattle.cluster_core.specs.ClusterView.{ClusterState, view_of, IsSound};

    ghost Value = { ClusterState };

    ghost use Rattle.std.specs.Coded.{codes};
    ghost use Rattle.version_store.specs.contracts.mvcc_map.MvccMap as store;

    ghost coded = { Prim.hlevel (codes, store.the_row.coded) };

    ghost view = { view_of };

    ghost invariant = { IsSound };
}

fn is_before(s: Hlc, t: Hlc) -> bool
    ensures { result ≡ time_lt s t }
{
    s < t
}

impl Cluster {
    /// A cluster that has done nothing.
    pub fn new(alloc: Global, name: Name, clock: Hlc, limits: Limits) -> Result<Cluster, Memory>
        requires tables { limits.tables ≤ TABLES_MAX }
        requires events { limits.events ≤ EVENTS_MAX }
        ensures stands { IfOk result (λ c. StandsFor c (empty_machine name clock (record { events = limits.events; tables = limits.tables }))) }
        ensures steps { IfOk result (λ c. c.steps ≡ 0) }
        ensures ended { IfOk result (λ c. c.ended ≡ false) }
    {
        let book = LayerBook::new(alloc, name.copy(alloc)?);
        Ok(Cluster {
            alloc,
            name,
            most_events: limits.events,
            clock,
            catalog: Catalog::new(alloc, limits.tables),
            rows: TableRows::new(alloc, MvccMap::new(alloc)),
            book,
            jobs: Vec::new(alloc),
            events: 0,
            steps: 0,
            changes: 0,
            ended: false,
        })
    }

    /// How many commands were executed.
    pub fn steps(&self) -> u32
        ensures { result ≡ self.now.steps }
    {
        self.steps
    }

    #[tactic(auto, unfolding(machine_model::specs::Tables::tick))]
    fn tick(&mut self, wall: u64) -> Result<Answer, Halt>
        ensures step { Does self.old self.new (λ m. tick m wall) result }
        ensures rest { LeavesRest self.old self.new }
    {
        let start = Hlc::at_wall(wall);
        if is_before(self.clock, start) {
            self.clock = start;
            return Ok(Answer::ClockSet { now: start });
        }
        Err(Halt::Refused(Refusal::TickBack { now: self.clock }))
    }

    /// Executes a command that has nothing to do with the disk; None for every other.
    #[tactic(auto, unfolding(machine_model::specs::Step::step))]
    fn execute_here(&mut self, command: &Command) -> Option<Result<Answer, Halt>>
        requires { self.old.changes < self.old.steps }
        ensures step { IfSome result (λ done. (worlds : List World) → Does self.old self.new (λ m. step worlds m command.now) done) }
        ensures other { IsNone result → is_of_disk command.now ≡ true }
        ensures same { IsNone result → self.new ≡ self.old }
        ensures rest { LeavesRest self.old self.new }
    {
        match command {
            Command::Cluster { .. } => Some(Ok(Answer::Nothing)),
            Command::Tick { wall } => Some(self.tick(*wall)),
            Command::CreateDatabase { name } => Some(self.create_database(name)),
            Command::CreateTable {
                table,
                columns,
                key,
                references,
            } => Some(self.create_table(
                table,
                columns.as_slice(),
                key.as_slice(),
                references.as_slice(),
            )),
            Command::AddColumn { table, name, kind } => Some(self.add_column(table, name, *kind)),
            Command::DropColumn { table, name } => Some(self.drop_column(table, name)),
            Command::RenameColumn { table, name, to } => {
                Some(self.rename_column(table, name, to))
            }
            Command::RenameTable { table, to } => Some(self.rename_table(table, to)),
            Command::DropTable { table } => Some(self.drop_table(table)),
            Command::Upsert { table, rows } => Some(self.upsert(table, rows.as_slice())),
            Command::Delete { table, keys } => Some(self.delete(table, keys.as_slice())),
            Command::DeleteRange { table, lo, hi } => Some(self.delete_range(table, lo, hi)),
            Command::Select { table, at } => Some(self.select(table, *at)),
            Command::Gc { table, before } => Some(self.collect(table, *before)),
            Command::ShowBackups { collection } => Some(self.show_backups(collection)),
            Command::BackupDatabase { .. }
            | Command::BackupTables { .. }
            | Command::BackupLatest { .. }
            | Command::RestoreDatabase { .. }
            | Command::Forget { .. } => None,
        }
    }

    /// Executes a command that has to do with the disk.
    #[tactic(auto, unfolding(machine_model::specs::Step::step))]
    fn execute_on<D: Disk>(&mut self, command: &Command, disk: &mut D) -> Result<Answer, Halt>
        requires disk { is_of_disk command.now ≡ true }
        requires room { length self.old.jobs < self.old.steps }
        requires stands { (m : Machine) × StandsFor self.old m }
        ensures step { (worlds : List World) (m end : Machine) → MayStep self.old m (step worlds m command.now) end (D.view disk.old)
            → Runs self.new (step worlds m command.now) end result (D.view disk.old) (D.view disk.new) }
        ensures stays { StandsStill result self.new }
        ensures changes { ChangesOnly (IsOwnName self.old.name) (IsOwnName self.old.name) (D.view disk.old) (D.view disk.new) }
        ensures steps { self.new.steps ≡ self.old.steps }
        ensures cause { HaltHasCause (D.view disk.old).faults (D.view disk.new).faults result }
    {
        match command {
            Command::BackupDatabase {
                database,
                collection,
                at,
                history,
            } => self.backup_database(disk, database, collection, *at, *history),
            Command::BackupTables {
                tables,
                collection,
                at,
                history,
            } => self.backup_tables(disk, tables.as_slice(), collection, *at, *history),
            Command::BackupLatest {
                collection,
                at,
                history,
            } => self.backup_latest(disk, collection, *at, *history),
            Command::RestoreDatabase {
                database,
                source,
                collection,
                at,
                new_name,
            } => self.restore_database(disk, database, source, collection, *at, new_name),
            Command::Forget {
                source,
                collection,
                start,
                end,
            } => self.forget(disk, source, collection, *start, *end),
            // every other command is executed by `execute_here`
            _ => unreachable!(),
        }
    }

    /// Carries out a command.
    fn execute<D: Disk>(&mut self, command: &Command, disk: &mut D) -> Result<Answer, Halt>
        requires changes { self.old.changes < self.old.steps }
        requires jobs { length self.old.jobs < self.old.steps }
        requires stands { (m : Machine) × StandsFor self.old m }
        ensures step { (worlds : List World) (m end : Machine) → MayStep self.old m (step worlds m command.now) end (D.view disk.old)
            → Runs self.new (step worlds m command.now) end result (D.view disk.old) (D.view disk.new) }
        ensures stays { StandsStill result self.new }
        ensures changes { ChangesOnly (IsOwnName self.old.name) (IsOwnName self.old.name) (D.view disk.old) (D.view disk.new) }
        ensures steps { self.new.steps ≡ self.old.steps }
        ensures cause { HaltHasCause (D.view disk.old).faults (D.view disk.new).faults result }
        ensures disk { IfErr result (λ e. e ≡ halt.Disk → is_of_disk command.now ≡ true) }
    {
        match self.execute_here(command) {
            Some(done) => done,
            None => self.execute_on(command, disk),
        }
    }

    /// Carries out a command, and answers its reply.
    fn reply<D: Disk>(&mut self, command: &Command, disk: &mut D) -> Result<Reply, RunFault>
        requires changes { self.old.changes < self.old.steps }
        requires jobs { length self.old.jobs < self.old.steps }
        requires stands { (m : Machine) × StandsFor self.old m }
        ensures step { (worlds : List World) (m end : Machine) → MayStep self.old m (step worlds m command.now) end (D.view disk.old)
            → Steps self.new (step worlds m command.now) end result (D.view disk.old) (D.view disk.new) }
        ensures stays { OnOk result ((m : Machine) × StandsFor self.new m) }
        ensures changes { ChangesOnly (IsOwnName self.old.name) (IsOwnName self.old.name) (D.view disk.old) (D.view disk.new) }
        ensures steps { self.new.steps ≡ self.old.steps }
        ensures fault { IfErr result (λ e. e ≢ fault.Ended) }
        ensures cause { RunHasCause (D.view disk.old).faults (D.view disk.new).faults result }
        ensures disk { IfErr result (λ e. e ≡ fault.Disk → is_of_disk command.now ≡ true) }
    {
        let response = match self.execute(command, disk) {
            Ok(answer) => Response::Answered(answer),
            Err(Halt::Refused(refusal)) => Response::Refused(refusal),
            Err(Halt::Disk) => return Err(RunFault::Disk),
            Err(Halt::Memory) => return Err(RunFault::Memory),
        };
        Ok(Reply::new(self.alloc, response)?)
    }

    /// Executes a command. It is called for each line of a script at most once, so fewer times than
    /// a script may have bytes. The open layers of other clusters, the worlds, have no part in what
    /// is built so far.
    pub fn step<D: Disk>(&mut self, command: &Command, disk: &mut D) -> Result<Reply, RunFault>
        requires few { self.old.steps < SCRIPT_BYTES_MAX }
        requires stands { self.old.ended ≡ false → (m : Machine) × StandsFor self.old m }
        ensures step { (worlds : List World) (m end : Machine) → MayStep self.old m (step worlds m command.now) end (D.view disk.old)
            → Steps self.new (step worlds m command.now) end result (D.view disk.old) (D.view disk.new) }
        ensures stays { OnOk result ((m : Machine) × StandsFor self.new m) }
        ensures changes { ChangesOnly (IsOwnName self.old.name) (IsOwnName self.old.name) (D.view disk.old) (D.view disk.new) }
        ensures steps { self.new.steps ≡ self.old.steps + 1 }
        ensures going { OnOk result ((self.old.ended ≡ false) × (self.new.ended ≡ false)) }
        ensures ended { OnErr result (self.new.ended ≡ true) }
        ensures fault { IfErr result (λ e. (e ≡ fault.Ended) ↔ (self.old.ended ≡ true)) }
        ensures cause { RunHasCause (D.view disk.old).faults (D.view disk.new).faults result }
        ensures disk { IfErr result (λ e. e ≡ fault.Disk → is_of_disk command.now ≡ true) }
    {
        self.steps += 1;
        if self.ended {
            return Err(RunFault::Ended);
        }
        let done = self.reply(command, disk);
        self.ended = done.is_err();
        done
    }
}
