//! Descriptors of tables.
ghost use Rattle.std.specs.Prelude.{◌≡◌, ◌+◌, ◌<◌, ◌≤◌, true, Some, None, length, IfOk, IfErr, IfSome, OnOk, map, filter};
ghost use Rattle.std.specs.List.{list_all};
ghost use Rattle.mvcc_keys.specs.Times.{IsTime};
ghost use Rattle.table_descriptors.specs.Names.{is_name};
ghost use Rattle.table_descriptors.specs.declared.limits.TheConstants.{COLUMNS_MAX};
ghost use Rattle.table_descriptors.specs.Descriptors.{upright, numbered, place_of, id_of, key_ids, down_ids, new_schema, bad_schema, FaultOf, turned, has_id, kind_of, key_kind, key_kinds, IsProperSchema};

use crate::columns::{Column, State};
use crate::faults::SchemaFault;
use crate::names::Name;
use crate::rules::{broken_rule, repeats_id};
use mvcc_keys::{Hlc, Memory};
use row_codec::Kind;
use std::alloc::Global;
use std::marker::Model;

/// A table as it is from its date on.
#[derive(Debug, Drop)]
pub struct Descriptor {
    pub(crate) id: u32,
    pub(crate) version: u32,
    pub(crate) database: Name,
    pub(crate) name: Name,
    pub(crate) state: State,
    pub(crate) columns: Vec<Column>,
    pub(crate) key_columns: Vec<u32>,
    pub(crate) references: Vec<u32>,
    pub(crate) next_column: u32,
    pub(crate) modified: Hlc,
    pub(crate) down: Vec<u32>,
}

impl Model for Descriptor {
    ghost use Rattle.table_descriptors.specs.Descriptors.{Schema};

    ghost Value = { Schema };

    ghost use Rattle.table_descriptors.specs.DescriptorView.{view_of};

    ghost view = { view_of };

    ghost use Rattle.table_descriptors.specs.Descriptors.{IsProperSchema};

    ghost invariant = { λ d. IsProperSchema (view_of d) };
}

/// A kind without its direction, which only key columns have.
pub(crate) fn upright(kind: Kind) -> Kind
    ensures { result ≡ upright kind }
{
    match kind {
        Kind::Int | Kind::IntDown => Kind::Int,
        Kind::Text | Kind::TextDown => Kind::Text,
        Kind::Bytes | Kind::BytesDown => Kind::Bytes,
        Kind::Bool | Kind::BoolDown => Kind::Bool,
    }
}

/// The columns of a new table, with ids from 1 on.
fn number_columns(alloc: Global, columns: &[(Name, Kind)]) -> Result<Vec<Column>, Memory>
    requires { length columns.now ≤ COLUMNS_MAX }
    ensures made { IfOk result (λ v. v.items ≡ numbered 1 columns.now) }
    ensures named { IfOk result (λ v. list_all (λ c. is_name c.name) v.items ≡ true) }
{
    let mut made = Vec::new(alloc);
    let mut id: u32 = 1;
    for column in columns {
        let name = column.0.copy(alloc)?;
        let kind = upright(column.1);
        made.push(Column { id, name, kind })?;
        id += 1;
    }
    Ok(made)
}

fn place_of(columns: &[(Name, Kind)], name: &Name) -> Option<usize>
    ensures place { result ≡ place_of columns.now name.now }
    ensures within { IfSome result (λ i. i < length columns.now) }
{
    columns.iter().position(|(column, _)| column.is_same(name))
}

/// The id of the first column of that name in a new table, 0 where there is none.
fn id_of(columns: &[(Name, Kind)], name: &Name) -> u32
    requires { length columns.now ≤ COLUMNS_MAX }
    ensures { result ≡ id_of columns.now name.now }
{
    match place_of(columns, name) {
        Some(place) => place as u32 + 1,
        None => 0,
    }
}

fn key_ids(
    alloc: Global,
    columns: &[(Name, Kind)],
    key: &[(Name, bool)],
) -> Result<Vec<u32>, Memory>
    requires { length columns.now ≤ COLUMNS_MAX }
    ensures { IfOk result (λ v. v.items ≡ key_ids columns.now key.now) }
{
    let ids = key.iter().map(|(name, _)| id_of(columns, name));
    Ok(ids.collect(alloc)?)
}

/// The ids of the key columns that descend, in key order.
fn down_ids(
    alloc: Global,
    columns: &[(Name, Kind)],
    key: &[(Name, bool)],
) -> Result<Vec<u32>, Memory>
    requires { length columns.now ≤ COLUMNS_MAX }
    ensures { IfOk result (λ v. v.items ≡ down_ids columns.now key.now) }
{
    let down = key.iter().filter(|(_, is_down)| *is_down);
    Ok(down.map(|(name, _)| id_of(columns, name)).collect(alloc)?)
}

/// The kind of a descending column.
fn descending_kind(kind: Kind) -> Kind
    ensures { result ≡ turned kind }
{
    match kind {
        Kind::Int | Kind::IntDown => Kind::IntDown,
        Kind::Text | Kind::TextDown => Kind::TextDown,
        Kind::Bytes | Kind::BytesDown => Kind::BytesDown,
        Kind::Bool | Kind::BoolDown => Kind::BoolDown,
    }
}

fn kind_of(columns: &[Column], id: u32) -> Kind
    ensures { result ≡ kind_of columns.now id }
{
    match columns.iter().find(|column| column.id == id) {
        Some(column) => column.kind,
        None => Kind::Int,
    }
}

/// A time as it is, of which its type is told.
pub(crate) fn a_time(t: Hlc) -> Hlc
    ensures same { result ≡ t }
    ensures form { IsTime result }
{
    let _wall = t.wall();
    let _counter = t.logical();
    t
}

/// The first descriptor of a table that breaks no rule.
#[tactic(auto, unfolding(crate::specs::Descriptors::new_schema))]
fn first_descriptor(
    alloc: Global,
    id: u32,
    database: &Name,
    name: &Name,
    columns: &[(Name, Kind)],
    key: &[(Name, bool)],
    references: &[u32],
    at: Hlc,
) -> Result<Descriptor, Memory>
    requires allowed { bad_schema columns.now key.now references.now ≡ None }
    requires few { length columns.now ≤ COLUMNS_MAX }
    requires some { 0 < length key.now }
    ensures { IfOk result (λ d. d ≡ new_schema id database.now name.now columns.now key.now references.now at) }
{
    Ok(Descriptor {
        id,
        version: 1,
        database: database.copy(alloc)?,
        name: name.copy(alloc)?,
        state: State::Public,
        columns: number_columns(alloc, columns)?,
        key_columns: key_ids(alloc, columns, key)?,
        references: Vec::from_slice(alloc, references)?,
        next_column: columns.len() as u32 + 1,
        modified: a_time(at),
        down: down_ids(alloc, columns, key)?,
    })
}

impl Descriptor {
    /// The first descriptor of a new table, Public and of version 1. A name of the key comes with
    /// whether its column descends.
    pub fn create(
        alloc: Global,
        id: u32,
        database: &Name,
        name: &Name,
        columns: &[(Name, Kind)],
        key: &[(Name, bool)],
        references: &[u32],
        at: Hlc,
    ) -> Result<Descriptor, SchemaFault>
        requires { 0 < length key.now }
        ensures made { IfOk result (λ d. d ≡ new_schema id database.now name.now columns.now key.now references.now at) }
        ensures allowed { OnOk result (bad_schema columns.now key.now references.now ≡ None) }
        ensures fault { IfErr result (λ e. FaultOf e (bad_schema columns.now key.now references.now)) }
    {
        if let Some(which) = broken_rule(columns, key, repeats_id(references)) {
            return Err(SchemaFault::BadSchema { which });
        }
        Ok(first_descriptor(alloc, id, database, name, columns, key, references, at)?)
    }

    /// A fact for whoever holds a descriptor: it is a proper one.
    pub fn proper(&self)
        ensures { IsProperSchema self.now }
    {
        let _id = self.id;
    }

    pub fn id(&self) -> u32
        ensures { result ≡ self.now.id }
    {
        self.id
    }

    pub fn version(&self) -> u32
        ensures { result ≡ self.now.version }
    {
        self.version
    }

    pub fn database(&self) -> &Name
        ensures { result.now ≡ self.now.database }
    {
        &self.database
    }

    pub fn name(&self) -> &Name
        ensures { result.now ≡ self.now.name }
    {
        &self.name
    }

    pub fn state(&self) -> State
        ensures { result ≡ self.now.state }
    {
        self.state
    }

    pub fn columns(&self) -> &[Column]
        ensures { result.now ≡ self.now.columns }
    {
        self.columns.as_slice()
    }

    /// The ids of the key columns, in key order.
    pub fn key_columns(&self) -> &[u32]
        ensures { result.now ≡ self.now.key_columns }
    {
        self.key_columns.as_slice()
    }

    pub fn references(&self) -> &[u32]
        ensures { result.now ≡ self.now.references }
    {
        self.references.as_slice()
    }

    /// The id that the next added column takes.
    pub fn next_column(&self) -> u32
        ensures { result ≡ self.now.next_column }
    {
        self.next_column
    }

    /// The date from which on the table is as described here.
    pub fn modified(&self) -> Hlc
        ensures { result ≡ self.now.modified }
    {
        self.modified
    }

    /// The ids of the descending key columns, in key order.
    pub fn down(&self) -> &[u32]
        ensures { result.now ≡ self.now.down }
    {
        self.down.as_slice()
    }

    fn key_kind(&self, id: u32) -> Kind
        ensures { result ≡ key_kind self.now id }
    {
        let kind = kind_of(self.columns.as_slice(), id);
        if self.down.contains(&id) {
            descending_kind(kind)
        } else {
            kind
        }
    }

    /// The kinds of the key columns in order, with their directions.
    pub fn key_kinds(&self, alloc: Global) -> Result<Vec<Kind>, Memory>
        ensures { IfOk result (λ v. v.items ≡ key_kinds self.now) }
    {
        let ids = self.key_columns.as_slice();
        Ok(ids.iter().map(|id| self.key_kind(*id)).collect(alloc)?)
    }
}
