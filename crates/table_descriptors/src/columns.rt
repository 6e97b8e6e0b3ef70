//! Columns, and the states of tables.
ghost use Rattle.std.specs.Prelude.{◌≡◌, true, IfOk};
ghost use Rattle.table_descriptors.specs.Names.{is_name};

use crate::Name;
use mvcc_keys::Memory;
use row_codec::Kind;
use std::alloc::Global;

/// Whether a table can be read and written.
#[derive(Clone, Copy, Debug, PartialEq, Eq)]
pub enum State {
    Public,
    Offline,
    Dropped,
}

/// A column. Its id is kept for good, and is never given to another column of its table.
#[derive(Debug, Drop)]
pub struct Column {
    pub id: u32,
    pub name: Name,
    pub kind: Kind,
}

impl Column {
    pub fn copy(&self, alloc: Global) -> Result<Column, Memory>
        ensures made { IfOk result (λ c. c ≡ self.now) }
        ensures named { IfOk result (λ c. is_name c.name ≡ true) }
    {
        Ok(Column {
            id: self.id,
            name: self.name.copy(alloc)?,
            kind: self.kind,
        })
    }
}
