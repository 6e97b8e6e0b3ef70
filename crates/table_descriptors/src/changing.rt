//! How a descriptor is changed.
ghost use Rattle.std.specs.Prelude.{◌≡◌, ◌<◌, ◌&&◌, ◌++◌, true, not, None, length, map, filter, IfOk, IfErr, OnOk, OnErr};
ghost use Rattle.std.specs.List.{list_all};
ghost use Rattle.std.specs.Str.{bytes_eq};
ghost use Rattle.table_descriptors.specs.Names.{is_name};
ghost use Rattle.table_descriptors.specs.Descriptors.{has_column, is_key_name, bad_change, renamed, columns_after, name_after, state_after, next_after, changed_schema, FaultOf};

use crate::changes::Change;
use crate::columns::{Column, State};
use crate::descriptors::{Descriptor, a_time, upright};
use crate::faults::SchemaFault;
use crate::limits::{COLUMNS_MAX, NEXT_COLUMN_ID_MAX};
use crate::names::Name;
use mvcc_keys::{Hlc, Memory};
use std::alloc::Global;

pub(crate) fn has_column(columns: &[Column], name: &Name) -> bool
    ensures { result ≡ has_column name.now columns.now }
{
    columns.iter().any(|column| column.name.is_same(name))
}

pub(crate) fn copies(alloc: Global, columns: &[Column]) -> Result<Vec<Column>, Memory>
    ensures made { IfOk result (λ v. v.items ≡ columns.now) }
    ensures named { IfOk result (λ v. list_all (λ c. is_name c.name) v.items ≡ true) }
{
    let mut made = Vec::new(alloc);
    for column in columns {
        made.push(column.copy(alloc)?)?;
    }
    Ok(made)
}

/// The columns without the one of a name.
fn others(alloc: Global, columns: &[Column], name: &Name) -> Result<Vec<Column>, Memory>
    ensures made { IfOk result (λ v. v.items ≡ filter (λ c. not (bytes_eq c.name name.now)) columns.now) }
    ensures named { IfOk result (λ v. list_all (λ c. is_name c.name) v.items ≡ true) }
{
    let mut made = Vec::new(alloc);
    for column in columns {
        if column.name.is_same(name) {
            continue;
        }
        made.push(column.copy(alloc)?)?;
    }
    Ok(made)
}

/// The column, under another name if it has this one.
fn rename_column(alloc: Global, column: &Column, from: &Name, to: &Name) -> Result<Column, Memory>
    ensures made { IfOk result (λ c. c ≡ renamed from.now to.now column.now) }
    ensures named { IfOk result (λ c. is_name c.name ≡ true) }
{
    if !column.name.is_same(from) {
        return column.copy(alloc);
    }
    Ok(Column {
        id: column.id,
        name: to.copy(alloc)?,
        kind: column.kind,
    })
}

/// The columns, the one of a name under another one.
fn rename_columns(
    alloc: Global,
    columns: &[Column],
    from: &Name,
    to: &Name,
) -> Result<Vec<Column>, Memory>
    ensures made { IfOk result (λ v. v.items ≡ map (renamed from.now to.now) columns.now) }
    ensures named { IfOk result (λ v. list_all (λ c. is_name c.name) v.items ≡ true) }
{
    let mut made = Vec::new(alloc);
    for column in columns {
        made.push(rename_column(alloc, column, from, to)?)?;
    }
    Ok(made)
}

impl Descriptor {
    fn is_key_name(&self, name: &Name) -> bool
        ensures { result ≡ is_key_name self.now name.now }
    {
        let key = self.key_columns.as_slice();
        let mut columns = self.columns.iter();
        columns.any(|column| column.name.is_same(name) && key.contains(&column.id))
    }

    /// The least number of a rule that a change breaks.
    fn bad_change(&self, change: &Change) -> Option<u8>
        ensures { result ≡ bad_change self.now change.now }
    {
        let columns = self.columns.as_slice();
        match change {
            Change::Add { .. } if columns.len() >= COLUMNS_MAX => Some(4),
            Change::Add { name, .. } if has_column(columns, name) => Some(6),
            Change::Add { .. } if self.next_column >= NEXT_COLUMN_ID_MAX => Some(9),
            Change::Remove { name } if self.is_key_name(name) => Some(5),
            Change::Remove { name } if !has_column(columns, name) => Some(7),
            Change::RenameColumn { to, .. } if has_column(columns, to) => Some(6),
            Change::RenameColumn { from, .. } if !has_column(columns, from) => Some(7),
            _ => None,
        }
    }

    fn columns_after(&self, alloc: Global, change: &Change) -> Result<Vec<Column>, Memory>
        ensures made { IfOk result (λ v. v.items ≡ columns_after self.now change.now) }
        ensures named { IfOk result (λ v. list_all (λ c. is_name c.name) v.items ≡ true) }
    {
        let columns = self.columns.as_slice();
        match change {
            Change::Add { name, kind } => {
                let name = name.copy(alloc)?;
                let mut made = copies(alloc, columns)?;
                made.push(Column {
                    id: self.next_column,
                    name,
                    kind: upright(*kind),
                })?;
                Ok(made)
            }
            Change::Remove { name } => others(alloc, columns, name),
            Change::RenameColumn { from, to } => rename_columns(alloc, columns, from, to),
            _ => copies(alloc, columns),
        }
    }

    fn name_after(&self, alloc: Global, change: &Change) -> Result<Name, Memory>
        ensures made { IfOk result (λ n. n ≡ name_after self.now change.now) }
        ensures named { IfOk result (λ n. is_name n ≡ true) }
    {
        match change {
            Change::Rename { to } => to.copy(alloc),
            _ => self.name.copy(alloc),
        }
    }

    fn state_after(&self, change: &Change) -> State
        ensures { result ≡ state_after self.now change.now }
    {
        match change {
            Change::Become(state) => *state,
            _ => self.state,
        }
    }

    fn next_after(&self, change: &Change) -> u32
        requires { bad_change self.now change.now ≡ None }
        ensures { result ≡ next_after self.now change.now }
    {
        match change {
            Change::Add { .. } => self.next_column + 1,
            _ => self.next_column,
        }
    }

    /// The descriptor that follows, where a change breaks no rule.
    #[tactic(auto, unfolding(crate::specs::Descriptors::changed_schema))]
    fn next_descriptor(&self, alloc: Global, change: &Change, at: Hlc) -> Result<Descriptor, Memory>
        requires version { self.now.version < 4294967295 }
        requires allowed { bad_change self.now change.now ≡ None }
        ensures { IfOk result (λ d. d ≡ changed_schema self.now change.now at) }
    {
        Ok(Descriptor {
            id: self.id,
            version: self.version + 1,
            database: self.database.copy(alloc)?,
            name: self.name_after(alloc, change)?,
            state: self.state_after(change),
            columns: self.columns_after(alloc, change)?,
            key_columns: Vec::from_slice(alloc, self.key_columns.as_slice())?,
            references: Vec::from_slice(alloc, self.references.as_slice())?,
            next_column: self.next_after(change),
            modified: a_time(at),
            down: Vec::from_slice(alloc, self.down.as_slice())?,
        })
    }

    /// The descriptor from a date on, of the next version. Whether a new name of the table is taken
    /// is for whoever knows all tables.
    pub fn changed(
        &self,
        alloc: Global,
        change: &Change,
        at: Hlc,
    ) -> Result<Descriptor, SchemaFault>
        requires { self.now.version < 4294967295 }
        ensures made { IfOk result (λ d. d ≡ changed_schema self.now change.now at) }
        ensures allowed { OnOk result (bad_change self.now change.now ≡ None) }
        ensures fault { IfErr result (λ e. FaultOf e (bad_change self.now change.now)) }
    {
        if let Some(which) = self.bad_change(change) {
            return Err(SchemaFault::BadSchema { which });
        }
        Ok(self.next_descriptor(alloc, change, at)?)
    }
}
