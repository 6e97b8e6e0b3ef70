//! The commands on databases and tables.
ghost use Rattle.std.specs.Prelude.{◌≡◌, ◌<◌, length};
ghost use Rattle.table_descriptors.specs.declared.changes.Change.TheVariants.{Add, Remove, RenameColumn, Rename};
ghost use Rattle.machine_model.specs.Tables.{create_database, create_table, alter, drop_table};
ghost use Rattle.cluster_core.specs.Standing.{Does, LeavesRest};

use crate::cluster::Cluster;
use crate::finding::{check_public, draw_time, find_table};
use crate::halts::Halt;
use reply_texts::Answer;
use row_codec::Kind;
use table_descriptors::{Change, Name};

impl Cluster {
    #[tactic(auto, unfolding(machine_model::specs::Tables::create_database))]
    pub(crate) fn create_database(&mut self, name: &Name) -> Result<Answer, Halt>
        ensures step { Does self.old self.new (λ m. create_database m name.now) result }
        ensures rest { LeavesRest self.old self.new }
    {
        self.catalog.create_database(name)?;
        Ok(Answer::Plain)
    }

    #[tactic(auto, unfolding(machine_model::specs::Tables::create_table))]
    pub(crate) fn create_table(
        &mut self,
        name: &(Name, Name),
        columns: &[(Name, Kind)],
        key: &[(Name, bool)],
        references: &[(Name, Name)],
    ) -> Result<Answer, Halt>
        requires key { 0 < length key.now }
        requires room { self.old.changes < self.old.steps }
        ensures step { Does self.old self.new (λ m. create_table m name.now columns.now key.now references.now) result }
        ensures rest { LeavesRest self.old self.new }
    {
        let at = draw_time(self.clock)?;
        let made = self
            .catalog
            .create_table(&name.0, &name.1, columns, key, references, at);
        let table = made?;
        self.clock = at;
        self.changes += 1;
        Ok(Answer::TableMade { table, at })
    }

    #[tactic(auto, unfolding(machine_model::specs::Tables::alter))]
    fn alter(&mut self, name: &(Name, Name), change: &Change) -> Result<Answer, Halt>
        requires { self.old.changes < self.old.steps }
        ensures step { Does self.old self.new (λ m. alter m name.now change.now) result }
        ensures rest { LeavesRest self.old self.new }
    {
        let at = draw_time(self.clock)?;
        let (table, d) = find_table(self.alloc, &self.catalog, name, at)?;
        check_public(self.alloc, name, d)?;
        let version = self.catalog.change(table, change, at)?;
        self.clock = at;
        self.changes += 1;
        Ok(Answer::TableChanged { table, version, at })
    }

    pub(crate) fn add_column(
        &mut self,
        table: &(Name, Name),
        name: &Name,
        kind: Kind,
    ) -> Result<Answer, Halt>
        requires { self.old.changes < self.old.steps }
        ensures step { Does self.old self.new (λ m. alter m table.now (Add name.now kind)) result }
        ensures rest { LeavesRest self.old self.new }
    {
        let name = name.copy(self.alloc)?;
        self.alter(table, &Change::Add { name, kind })
    }

    pub(crate) fn drop_column(&mut self, table: &(Name, Name), name: &Name) -> Result<Answer, Halt>
        requires { self.old.changes < self.old.steps }
        ensures step { Does self.old self.new (λ m. alter m table.now (Remove name.now)) result }
        ensures rest { LeavesRest self.old self.new }
    {
        let name = name.copy(self.alloc)?;
        self.alter(table, &Change::Remove { name })
    }

    pub(crate) fn rename_column(
        &mut self,
        table: &(Name, Name),
        from: &Name,
        to: &Name,
    ) -> Result<Answer, Halt>
        requires { self.old.changes < self.old.steps }
        ensures step { Does self.old self.new (λ m. alter m table.now (RenameColumn from.now to.now)) result }
        ensures rest { LeavesRest self.old self.new }
    {
        let from = from.copy(self.alloc)?;
        let to = to.copy(self.alloc)?;
        self.alter(table, &Change::RenameColumn { from, to })
    }

    pub(crate) fn rename_table(&mut self, table: &(Name, Name), to: &Name) -> Result<Answer, Halt>
        requires { self.old.changes < self.old.steps }
        ensures step { Does self.old self.new (λ m. alter m table.now (Rename to.now)) result }
        ensures rest { LeavesRest self.old self.new }
    {
        let to = to.copy(self.alloc)?;
        self.alter(table, &Change::Rename { to })
    }

    #[tactic(auto, unfolding(machine_model::specs::Tables::drop_table))]
    pub(crate) fn drop_table(&mut self, name: &(Name, Name)) -> Result<Answer, Halt>
        requires { self.old.changes < self.old.steps }
        ensures step { Does self.old self.new (λ m. drop_table m name.now) result }
        ensures rest { LeavesRest self.old self.new }
    {
        let at = draw_time(self.clock)?;
        let (table, d) = find_table(self.alloc, &self.catalog, name, at)?;
        let version = d.version() + 1;
        self.catalog.drop_tables(&[table], at)?;
        self.clock = at;
        self.changes += 1;
        Ok(Answer::TableChanged { table, version, at })
    }
}
