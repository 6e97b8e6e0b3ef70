//! A catalog of databases and tables.
ghost use Rattle.std.specs.Prelude.{◌≡◌, ◌∷◌, ◌++◌, ◌+◌, ◌-◌, ◌<◌, ◌≤◌, ◌^◌, [], None, Some, ℕ, List, length, map, is_some, is_none, IfOk, IfErr, IfSome, OnOk, OnErr, slice_get, slice_set, filter_map, position, option_map, option_and_then, option_to_list};
ghost use Rattle.std.specs.List.{find, list_any};
ghost use Rattle.std.specs.Option.{option_copied};
ghost use Rattle.mvcc_keys.specs.Times.{Time};
ghost use Rattle.table_descriptors.specs.Descriptors.{Schema, repeats, changed_schema, bad_change, bad_schema};
ghost use Rattle.history_model.specs.Histories.{in_force, place_named};
ghost use Rattle.schema_catalog.specs.Catalogs.{no_schemas, history_of, id_named, has_database, database_fault, with_database, is_same_name, is_missing, missing_fault, offline_fault, is_offline_at, table_fault, reference_ids, next_id, first_schema, with_table, taken_name, change_fault, with_descriptor, drop_fault, drop_each, with_tables, IsTableId, FaultIs, Schemas, without_last, refers, drop_one, dropped, AreChangeable, IsChangeable};
ghost use Rattle.schema_catalog.specs.declared.faults.CatalogFault.TheVariants.{Referenced};

use crate::CatalogFault;
use crate::dated::Dated;
use mvcc_keys::{Hlc, Memory};
use row_codec::Kind;
use std::alloc::Global;
use std::marker::Model;
use table_descriptors::{Change, Descriptor, Name, SchemaFault, State, broken_rule};

/// The id of the first table.
pub const FIRST_TABLE_ID: u32 = 100;

/// The names of databases and the dated descriptors of tables. Table ids ascend from
/// `FIRST_TABLE_ID` and are never used again.
#[derive(Drop)]
pub struct Catalog {
    alloc: Global,
    databases: Vec<Name>,
    tables: Vec<Dated>,
    limit: u32,
}

impl Model for Catalog {
    ghost use Rattle.schema_catalog.specs.Catalogs.{Schemas};

    ghost Value = { Schemas };

    ghost use Rattle.schema_catalog.specs.CatalogView.{view_of, IsWithin};

    ghost view = { view_of };

    ghost invariant = { IsWithin };
}

fn copy_name(alloc: Global, database: &Name, name: &Name) -> Result<(Name, Name), Memory>
    ensures { IfOk result (λ n. n ≡ (database.now, name.now)) }
{
    Ok((database.copy(alloc)?, name.copy(alloc)?))
}

fn is_same_name(a: &(Name, Name), b: &(Name, Name)) -> bool
    ensures { result ≡ is_same_name a.now b.now }
{
    a.0.is_same(&b.0) && a.1.is_same(&b.1)
}

fn has_table_name(names: &[(Name, Name)], name: &(Name, Name)) -> bool
    ensures { result ≡ list_any (λ x. is_same_name x name.now) names.now }
{
    names.iter().any(|x| is_same_name(x, name))
}

/// Whether some name stands twice.
fn repeats_name(names: &[(Name, Name)]) -> bool
    ensures { result ≡ repeats is_same_name names.now }
{
    let mut rest = names;
    'all: while !rest.is_empty() {
        let others = rest.split_at(1).1;
        if has_table_name(others, &rest[0]) {
            return true;
        }
        rest = others;
    }
    false
}

/// Tables with one descriptor each.
fn all_dated(alloc: Global, descriptors: Vec<Descriptor>) -> Result<Vec<Dated>, Memory>
    ensures { IfOk result (λ v. v.items ≡ map (λ d. d ∷ []) descriptors.items) }
{
    let mut tables = Vec::new(alloc);
    for d in descriptors {
        tables.push(Dated::new(alloc, d)?)?;
    }
    Ok(tables)
}

/// The place of the first table that references one of some.
fn first_referring(tables: &[Dated], ids: &[u32], t: Hlc) -> Option<usize>
    ensures place { result ≡ position (refers ids.now t) tables.now }
    ensures within { IfSome result (λ i. i < length tables.now) }
{
    tables.iter().position(|table| table.refers(ids, t))
}

fn push_id(ids: &mut Vec<u32>, id: Option<u32>) -> Result<(), Memory>
    ensures { OnOk result (ids.new.items ≡ ids.old.items ++ option_to_list id) }
{
    match id {
        Some(id) => Ok(ids.push(id)?),
        None => Ok(()),
    }
}

impl Catalog {
    /// An empty catalog, which gives at most so many table ids.
    pub fn new(alloc: Global, tables: u32) -> Catalog
        requires { tables ≤ 4294967195 }
        ensures { result ≡ no_schemas tables }
    {
        Catalog {
            alloc,
            databases: Vec::new(alloc),
            tables: Vec::new(alloc),
            limit: tables,
        }
    }

    /// The id that the next table gets.
    pub fn next_id(&self) -> u32
        ensures { result ≡ next_id self.now }
    {
        FIRST_TABLE_ID + self.tables.len() as u32
    }

    pub fn table_limit(&self) -> u32
        ensures { result ≡ self.now.limit }
    {
        self.limit
    }

    pub fn has_database(&self, name: &Name) -> bool
        ensures { result ≡ has_database self.now name.now }
    {
        self.databases.iter().any(|x| x.is_same(name))
    }

    pub fn create_database(&mut self, name: &Name) -> Result<(), CatalogFault>
        ensures made { OnOk result ((database_fault self.old name.now ≡ None) × (self.new ≡ with_database self.old name.now)) }
        ensures fault { IfErr result (λ e. FaultIs e (database_fault self.old name.now)) }
        ensures kept { OnErr result (self.new ≡ self.old) }
    {
        let database = name.copy(self.alloc)?;
        if self.has_database(name) {
            return Err(CatalogFault::DatabaseExists { database });
        }
        Ok(self.push_database(database)?)
    }

    fn push_database(&mut self, name: Name) -> Result<(), Memory>
        ensures made { OnOk result (self.new ≡ with_database self.old name) }
        ensures kept { OnErr result (self.new ≡ self.old) }
    {
        Ok(self.databases.push(name)?)
    }

    /// The descriptors of a table by date, none where no table has the id.
    pub fn history(&self, id: u32) -> &[Descriptor]
        ensures { result.now ≡ history_of self.now id }
    {
        if id < FIRST_TABLE_ID {
            return &[];
        }
        match self.tables.get((id - FIRST_TABLE_ID) as usize) {
            Some(table) => table.as_slice(),
            None => &[],
        }
    }

    /// The descriptor of a table in force at t.
    pub fn at(&self, id: u32, t: Hlc) -> Option<&Descriptor>
        ensures { option_copied result ≡ in_force (history_of self.now id) t }
    {
        self.history(id).iter().rev().find(|d| d.modified() <= t)
    }

    fn place_named(&self, database: &Name, name: &Name, t: Hlc) -> Option<usize>
        ensures place { result ≡ place_named self.now.tables (database.now, name.now) t }
        ensures within { IfSome result (λ i. 100 + i < 2 ^ 32) }
    {
        self.tables
            .iter()
            .position(|table| table.is_named(database, name, t))
    }

    /// The descriptor in force at t of the table to which a name belongs at t.
    pub fn named_descriptor(&self, database: &Name, name: &Name, t: Hlc) -> Option<&Descriptor>
        ensures { option_copied result ≡ option_and_then (λ ds. in_force ds t) (option_and_then (slice_get self.now.tables) (place_named self.now.tables (database.now, name.now) t)) }
    {
        let Some(place) = self.place_named(database, name, t) else {
            return None;
        };
        match self.tables.get(place) {
            Some(table) => table.in_force(t),
            None => None,
        }
    }

    /// The table to which a name belongs at t.
    pub fn named(&self, database: &Name, name: &Name, t: Hlc) -> Option<u32>
        ensures { result ≡ id_named self.now (database.now, name.now) t }
    {
        match self.place_named(database, name, t) {
            Some(place) => Some(FIRST_TABLE_ID + place as u32),
            None => None,
        }
    }

    /// Whether a name belongs to no table at t.
    fn is_missing(&self, name: &(Name, Name), t: Hlc) -> bool
        ensures { result ≡ is_missing self.now t name.now }
    {
        self.place_named(&name.0, &name.1, t).is_none()
    }

    /// The fault of the first of the names that belongs to no table at t.
    pub fn missing(&self, names: &[(Name, Name)], t: Hlc) -> Result<Option<CatalogFault>, Memory>
        ensures { IfOk result (λ r. r ≡ missing_fault self.now t names.now) }
    {
        match names.iter().find(|name| self.is_missing(*name, t)) {
            Some(name) => Ok(Some(CatalogFault::NoSuchTable {
                table: copy_name(self.alloc, &name.0, &name.1)?,
            })),
            None => Ok(None),
        }
    }

    /// Whether the table of a name is Offline at t.
    fn is_offline_at(&self, name: &(Name, Name), t: Hlc) -> bool
        ensures { result ≡ is_offline_at self.now t name.now }
    {
        match self.named_descriptor(&name.0, &name.1, t) {
            Some(d) => d.state() == State::Offline,
            None => false,
        }
    }

    /// The fault of the first of the names whose table is Offline at t.
    pub fn offline(&self, names: &[(Name, Name)], t: Hlc) -> Result<Option<CatalogFault>, Memory>
        ensures { IfOk result (λ r. r ≡ offline_fault self.now t names.now) }
    {
        match names.iter().find(|name| self.is_offline_at(*name, t)) {
            Some(name) => Ok(Some(CatalogFault::NotPublic {
                table: copy_name(self.alloc, &name.0, &name.1)?,
            })),
            None => Ok(None),
        }
    }

    /// The first test that refuses a new table, by the names as of t.
    #[tactic(auto, unfolding(crate::specs::Catalogs::table_fault))]
    fn table_fault(
        &self,
        database: &Name,
        name: &Name,
        columns: &[(Name, Kind)],
        key: &[(Name, bool)],
        references: &[(Name, Name)],
        t: Hlc,
    ) -> Result<Option<CatalogFault>, Memory>
        ensures { IfOk result (λ r. r ≡ table_fault self.now t (database.now, name.now) columns.now key.now references.now) }
    {
        if !self.has_database(database) {
            let database = database.copy(self.alloc)?;
            return Ok(Some(CatalogFault::NoSuchDatabase { database }));
        }
        if self.place_named(database, name, t).is_some() {
            let table = copy_name(self.alloc, database, name)?;
            return Ok(Some(CatalogFault::NameTaken { table }));
        }
        if let Some(which) = broken_rule(columns, key, repeats_name(references)) {
            return Ok(Some(CatalogFault::BadSchema { which }));
        }
        if let Some(fault) = self.missing(references, t)? {
            return Ok(Some(fault));
        }
        if let Some(fault) = self.offline(references, t)? {
            return Ok(Some(fault));
        }
        if self.tables.len() >= self.limit as usize {
            return Ok(Some(CatalogFault::TooManyTables));
        }
        Ok(None)
    }

    /// The ids of referenced tables.
    fn reference_ids(&self, references: &[(Name, Name)], t: Hlc) -> Result<Vec<u32>, Memory>
        ensures { IfOk result (λ v. v.items ≡ reference_ids self.now t references.now) }
    {
        let mut ids = Vec::new(self.alloc);
        for name in references {
            push_id(&mut ids, self.named(&name.0, &name.1, t))?;
        }
        Ok(ids)
    }

    /// Refuses a new table by the first test that fails; what passes is a table that can be made.
    #[tactic(auto, using(crate::proofs::References::table_fits))]
    fn check_table(
        &self,
        database: &Name,
        name: &Name,
        columns: &[(Name, Kind)],
        key: &[(Name, bool)],
        references: &[(Name, Name)],
        t: Hlc,
    ) -> Result<(), CatalogFault>
        ensures fault { IfErr result (λ e. FaultIs e (table_fault self.now t (database.now, name.now) columns.now key.now references.now)) }
        ensures passed { OnOk result (table_fault self.now t (database.now, name.now) columns.now key.now references.now ≡ None) }
        ensures fits { OnOk result ((bad_schema columns.now key.now (reference_ids self.now t references.now) ≡ None) × (length self.now.tables < self.now.limit)) }
    {
        match self.table_fault(database, name, columns, key, references, t)? {
            Some(fault) => Err(fault),
            None => Ok(()),
        }
    }

    fn push_table(&mut self, d: Descriptor) -> Result<(), Memory>
        requires { length self.old.tables < self.old.limit }
        ensures made { OnOk result (self.new ≡ with_table self.old d) }
        ensures kept { OnErr result (self.new ≡ self.old) }
    {
        let table = Dated::new(self.alloc, d)?;
        Ok(self.tables.push(table)?)
    }

    /// Creates a table dated `at`, and answers its id. The names that it references are looked up
    /// as of that date.
    pub fn create_table(
        &mut self,
        database: &Name,
        name: &Name,
        columns: &[(Name, Kind)],
        key: &[(Name, bool)],
        references: &[(Name, Name)],
        at: Hlc,
    ) -> Result<u32, CatalogFault>
        requires { 0 < length key.now }
        ensures made { IfOk result (λ id. (table_fault self.old at (database.now, name.now) columns.now key.now references.now ≡ None) × (id ≡ next_id self.old)
            × (self.new ≡ with_table self.old (first_schema self.old at (database.now, name.now) columns.now key.now references.now))) }
        ensures fault { IfErr result (λ e. FaultIs e (table_fault self.old at (database.now, name.now) columns.now key.now references.now)) }
        ensures kept { OnErr result (self.new ≡ self.old) }
    {
        self.check_table(database, name, columns, key, references, at)?;
        let id = self.next_id();
        let ids = self.reference_ids(references, at)?;
        let made = Descriptor::create(self.alloc, id, database, name, columns, key, &ids, at);
        let d = match made {
            Ok(d) => d,
            // `check_table` found no rule that is broken.
            Err(SchemaFault::BadSchema { .. }) => unreachable!(),
            Err(SchemaFault::Memory) => return Err(CatalogFault::Memory),
        };
        self.push_table(d)?;
        Ok(id)
    }

    /// The fault of a change to a name that belongs to a table at t already.
    fn name_fault(
        &self,
        d: &Descriptor,
        change: &Change,
        t: Hlc,
    ) -> Result<Option<CatalogFault>, Memory>
        ensures { IfOk result (λ r. r ≡ taken_name self.now t d.now change.now) }
    {
        let Change::Rename { to } = change else {
            return Ok(None);
        };
        if self.place_named(d.database(), to, t).is_some() {
            let table = copy_name(self.alloc, d.database(), to)?;
            return Ok(Some(CatalogFault::NameTaken { table }));
        }
        Ok(None)
    }

    /// The descriptor that a change makes of one.
    #[tactic(auto, unfolding(crate::specs::Catalogs::change_fault))]
    fn make_changed(
        &self,
        d: &Descriptor,
        change: &Change,
        at: Hlc,
    ) -> Result<Descriptor, CatalogFault>
        requires { d.now.version < 4294967295 }
        ensures made { IfOk result (λ e. (change_fault self.now at d.now change.now ≡ None) × (e ≡ changed_schema d.now change.now at)) }
        ensures fault { IfErr result (λ e. FaultIs e (change_fault self.now at d.now change.now)) }
    {
        let next = match d.changed(self.alloc, change, at) {
            Ok(next) => next,
            Err(SchemaFault::BadSchema { which }) => return Err(CatalogFault::BadSchema { which }),
            Err(SchemaFault::Memory) => return Err(CatalogFault::Memory),
        };
        match self.name_fault(d, change, at)? {
            Some(fault) => Err(fault),
            None => Ok(next),
        }
    }

    /// Adds a descriptor to a table.
    fn push_descriptor(&mut self, id: u32, d: Descriptor) -> Result<(), Memory>
        requires { IsTableId self.old id }
        ensures made { OnOk result (self.new ≡ with_descriptor self.old (id - 100) d) }
        ensures kept { OnErr result (self.new ≡ self.old) }
    {
        self.tables[(id - FIRST_TABLE_ID) as usize].push(d)
    }

    /// Changes a table from a date on, and answers the new version. Publishing and taking offline
    /// are changes, too.
    pub fn change(&mut self, id: u32, change: &Change, at: Hlc) -> Result<u32, CatalogFault>
        requires { IsChangeable self.old at id }
        ensures made { IfOk result (λ v. (d : Schema) → in_force (history_of self.old id) at ≡ Some d → (change_fault self.old at d change.now ≡ None) × (v ≡ d.version + 1)
            × (self.new ≡ with_descriptor self.old (id - 100) (changed_schema d change.now at))) }
        ensures fault { IfErr result (λ e. (d : Schema) → in_force (history_of self.old id) at ≡ Some d → FaultIs e (change_fault self.old at d change.now)) }
        ensures kept { OnErr result (self.new ≡ self.old) }
    {
        let Some(d) = self.at(id, at) else {
            // The caller knows that the table has a descriptor in force.
            unreachable!()
        };
        let next = self.make_changed(d, change, at)?;
        let version = next.version();
        self.push_descriptor(id, next)?;
        Ok(version)
    }

    fn push_tables(&mut self, mut added: Vec<Dated>) -> Result<(), Memory>
        requires { length self.old.tables + length added.items ≤ self.old.limit }
        ensures made { OnOk result (self.new ≡ record self.old { tables = self.old.tables ++ added.items }) }
        ensures kept { OnErr result (self.new ≡ self.old) }
    {
        Ok(self.tables.append(&mut added)?)
    }

    /// Adds a restore's tables.
    pub fn install(&mut self, tables: Vec<Descriptor>) -> Result<(), Memory>
        requires { length self.old.tables + length tables.items ≤ self.old.limit }
        ensures made { OnOk result (self.new ≡ with_tables self.old tables.items) }
        ensures kept { OnErr result (self.new ≡ self.old) }
    {
        let added = all_dated(self.alloc, tables)?;
        self.push_tables(added)
    }

    fn pop_descriptor(&mut self, id: u32)
        requires { IsTableId self.old id }
        ensures { self.new ≡ without_last self.old (id - 100) }
    {
        self.tables[(id - FIRST_TABLE_ID) as usize].pop();
    }

    /// Drops a table.
    fn drop_first(&mut self, id: u32, at: Hlc) -> Result<(), Memory>
        requires { IsChangeable self.old at id }
        ensures made { OnOk result (self.new ≡ drop_one at self.old id) }
        ensures others { OnOk result ((ids : List ℕ) → AreChangeable self.old at (id ∷ ids) → AreChangeable self.new at ids) }
        ensures kept { OnErr result (self.new ≡ self.old) }
    {
        let d = self.make_dropped(id, at)?;
        self.push_descriptor(id, d)
    }

    /// Takes back that a table was dropped.
    fn take_back(&mut self, id: u32)
        requires { IsTableId self.old id }
        ensures { (s : Schemas) (t : Time) → self.old ≡ drop_one t s id → IsChangeable s t id → self.new ≡ s }
    {
        self.pop_descriptor(id);
    }

    /// Drops tables one after another; where memory is wanting, what was dropped is taken back.
    fn drop_from(&mut self, ids: &[u32], at: Hlc) -> Result<(), Memory>
        requires { AreChangeable self.old at ids.now }
        ensures made { OnOk result (self.new ≡ drop_each self.old at ids.now) }
        ensures kept { OnErr result (self.new ≡ self.old) }
    {
        let Some((id, rest)) = ids.split_first() else {
            return Ok(());
        };
        self.drop_first(*id, at)?;
        match self.drop_from(rest, at) {
            Ok(()) => Ok(()),
            Err(Memory) => {
                self.take_back(*id);
                Err(Memory)
            }
        }
    }

    /// The descriptor with which a table is dropped.
    fn make_dropped(&self, id: u32, at: Hlc) -> Result<Descriptor, Memory>
        requires { IsChangeable self.now at id }
        ensures { IfOk result (λ e. (d : Schema) → in_force (history_of self.now id) at ≡ Some d → e ≡ dropped d at) }
    {
        let Some(d) = self.at(id, at) else {
            // The caller knows that the table has a descriptor in force.
            unreachable!()
        };
        match d.changed(self.alloc, &Change::Become(State::Dropped), at) {
            Ok(next) => Ok(next),
            Err(_) => Err(Memory),
        }
    }

    /// Drops tables at one date, unless another table references one of them.
    pub fn drop_tables(&mut self, ids: &[u32], at: Hlc) -> Result<(), CatalogFault>
        requires { AreChangeable self.old at ids.now }
        ensures made { OnOk result ((drop_fault self.old at ids.now ≡ None) × (self.new ≡ drop_each self.old at ids.now)) }
        ensures fault { IfErr result (λ e. FaultIs e (drop_fault self.old at ids.now)) }
        ensures kept { OnErr result (self.new ≡ self.old) }
    {
        if let Some(by) = self.referring(ids, at) {
            return Err(CatalogFault::Referenced { by });
        }
        Ok(self.drop_from(ids, at)?)
    }

    /// The first table that references one of those to be dropped.
    #[tactic(auto, unfolding(crate::specs::Catalogs::drop_fault))]
    fn referring(&self, ids: &[u32], t: Hlc) -> Option<u32>
        ensures { option_map Referenced result ≡ drop_fault self.now t ids.now }
    {
        match first_referring(&self.tables, ids, t) {
            Some(place) => Some(FIRST_TABLE_ID + place as u32),
            None => None,
        }
    }
}
