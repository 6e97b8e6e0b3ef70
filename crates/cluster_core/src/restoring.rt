//! What a restore adds to a cluster.
ghost use Rattle.std.specs.Prelude.{◌≡◌, ◌+◌, ◌-◌, ◌<◌, ◌≤◌, ◌∷◌, ◌++◌, [], true, None, Some, List, length, map, IfErr, IfOk, OnErr, OnOk};
ghost use Rattle.std.specs.List.{range_with_len};
ghost use Rattle.mvcc_keys.specs.Times.{next, time_lt};
ghost use Rattle.mvcc_keys.specs.declared.entries.Entry.{Entry};
ghost use Rattle.table_descriptors.specs.Descriptors.{Schema, changed_schema};
ghost use Rattle.table_descriptors.specs.declared.changes.Change.TheVariants.{Become};
ghost use Rattle.table_descriptors.specs.declared.columns.State.TheVariants.{Public};
ghost use Rattle.history_model.specs.Histories.{Table, in_force};
ghost use Rattle.history_model.specs.Rows.{RowItem};
ghost use Rattle.schema_catalog.specs.Catalogs.{IsChangeable, database_fault, history_of, next_id, with_database, with_descriptor, with_table};
ghost use Rattle.id_remap.specs.declared.targets.Target.TheVariants as target;
ghost use Rattle.id_remap.specs.Remapping.{ids_of, remapped_schema};
ghost use Rattle.cluster_core.specs.declared.halts.Halt.TheVariants.{Memory as no_memory};
ghost use Rattle.cluster_core.specs.Standing.{Keeps};
ghost use Rattle.cluster_core.specs.Restoring.{AreRowsOfEach, HasRoomFor, IsAdding, IsFirst, count_rows, entries_of, made_tables, with_added};

use crate::cluster::Cluster;
use crate::halts::Halt;
use key_rewriter::IdMap;
use mvcc_keys::{Entry, Hlc, Memory};
use restore_rows::put_rows;
use schema_catalog::Catalog;
use std::alloc::Global;
use table_descriptors::{Change, Descriptor, Name, State};

fn only(alloc: Global, d: Descriptor) -> Result<Vec<Descriptor>, Memory>
    ensures { IfOk result (λ v. v.items ≡ d ∷ []) }
{
    let mut tables = Vec::new(alloc);
    tables.push(d)?;
    Ok(tables)
}

/// Creates a database that isn't there.
fn create(catalog: &mut Catalog, database: &Name) -> Result<(), Memory>
    requires absent { database_fault catalog.old database.now ≡ None }
    ensures made { OnOk result (catalog.new ≡ with_database catalog.old database.now) }
    ensures kept { OnErr result (catalog.new ≡ catalog.old) }
{
    match catalog.create_database(database) {
        Ok(()) => Ok(()),
        Err(_) => Err(Memory),
    }
}

/// Publishes a table, whose name nobody else takes.
fn publish(catalog: &mut Catalog, id: u32, at: Hlc) -> Result<(), Memory>
    requires { IsChangeable catalog.old at id }
    ensures made { OnOk result ((d : Schema) → in_force (history_of catalog.old id) at ≡ Some d → catalog.new ≡ with_descriptor catalog.old (id - 100) (changed_schema d (Become Public) at)) }
    ensures kept { OnErr result (catalog.new ≡ catalog.old) }
{
    match catalog.change(id, &Change::Become(State::Public), at) {
        Ok(_) => Ok(()),
        Err(_) => Err(Memory),
    }
}

impl Cluster {
    /// Adds the first descriptor of a table, which has no rows yet.
    fn install(&mut self, d: Descriptor) -> Result<(), Memory>
        requires room { length self.old.schemas.tables < self.old.schemas.limit }
        requires version { d.version ≡ 1 }
        ensures made { OnOk result (self.new ≡ record self.old { schemas = with_table self.old.schemas d }) }
        ensures steps { self.new.steps ≡ self.old.steps }
    {
        let tables = only(self.alloc, d)?;
        self.catalog.install(tables)?;
        Ok(())
    }

    /// Adds a table with its rows, and publishes it.
    fn add_table(
        &mut self,
        ids: &IdMap,
        d: Descriptor,
        entries: &[Entry],
        made: Hlc,
        published: Hlc,
    ) -> Result<(), Memory>
        requires room { length self.old.schemas.tables < self.old.schemas.limit }
        requires events { self.old.events + length entries.now ≤ self.old.most_events }
        requires first { IsFirst made d }
        requires later { time_lt made published ≡ true }
        ensures added { (all : List Table) (others : List Schema) (rest : List (List Entry)) → IsAdding self.old ids.now made published (d ∷ others) (entries.now ∷ rest) all → OnOk result (IsAdding self.new ids.now made published others rest all) }
        ensures tables { OnOk result (length self.new.schemas.tables ≡ length self.old.schemas.tables + 1) }
        ensures rest { OnOk result (self.new ≡ with_added self.old (length entries.now) self.new.schemas.tables self.new.store) }
        ensures steps { self.new.steps ≡ self.old.steps }
    {
        let id = self.catalog.next_id();
        self.install(d)?;
        match put_rows(self.alloc, &mut self.rows, ids, entries, made) {
            Ok(()) => {}
            Err(_) => return Err(Memory),
        }
        self.events += entries.len() as u32;
        publish(&mut self.catalog, id, published)?;
        Ok(())
    }

    /// Adds tables, each with its rows.
    fn add_tables(
        &mut self,
        ids: &IdMap,
        tables: Vec<Descriptor>,
        rows: &[Vec<Entry>],
        made: Hlc,
        published: Hlc,
    ) -> Result<(), Memory>
        requires room { HasRoomFor self.old made tables.items (entries_of rows.now) }
        requires later { time_lt made published ≡ true }
        ensures added { (all : List Table) → IsAdding self.old ids.now made published tables.items (entries_of rows.now) all → OnOk result (Keeps self.new all) }
        ensures rest { OnOk result (self.new ≡ with_added self.old (count_rows (entries_of rows.now)) self.new.schemas.tables self.new.store) }
        ensures steps { self.new.steps ≡ self.old.steps }
    {
        let mut rest = rows;
        for d in tables {
            let Some((entries, others)) = rest.split_first() else {
                // there are as many lists of rows as tables
                unreachable!()
            };
            match self.add_table(ids, d, entries.as_slice(), made, published) {
                Ok(()) => {}
                // by cases and not by `?`, which would make the fault anew
                Err(Memory) => return Err(Memory),
            }
            rest = others;
        }
        Ok(())
    }

    /// Adds a new database with the tables of a restore and their rows: Offline from `made`, from
    /// which the rows are dated, and public from `published`, the clock afterwards. At want of
    /// memory the cluster is in between, and no command follows.
    pub(crate) fn add_restored(
        &mut self,
        database: &Name,
        made: Hlc,
        published: Hlc,
        ids: &IdMap,
        tables: Vec<Descriptor>,
        rows: &[Vec<Entry>],
    ) -> Result<(), Halt>
        requires absent { database_fault self.old.schemas database.now ≡ None }
        requires made { next self.old.clock ≡ Some made }
        requires published { next made ≡ Some published }
        requires room { HasRoomFor self.old made tables.items (entries_of rows.now) }
        ensures kept { (old : List Table) (chosen : List Schema) (items : List (List RowItem)) → Keeps self.old old
            → tables.items ≡ map (remapped_schema ids.now (target.Database database.now) made) chosen → ids_of tables.items ≡ range_with_len (next_id self.old.schemas) (length chosen) → AreRowsOfEach made chosen (entries_of rows.now) items
            → OnOk result (Keeps self.new (old ++ made_tables made published tables.items items)) }
        ensures rest { OnOk result (self.new ≡ with_added (record self.old { clock = published; schemas = with_database self.old.schemas database.now }) (count_rows (entries_of rows.now)) self.new.schemas.tables self.new.store) }
        ensures steps { self.new.steps ≡ self.old.steps }
        ensures fault { IfErr result (λ e. e ≡ no_memory) }
    {
        self.clock = published;
        create(&mut self.catalog, database)?;
        Ok(self.add_tables(ids, tables, rows, made, published)?)
    }
}
