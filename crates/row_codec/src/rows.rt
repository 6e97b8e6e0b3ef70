//! The values of tables.
ghost use Rattle.std.specs.Prelude.{◌≡◌, IfOk};

use mvcc_keys::{Blob, Memory, Text};
use std::alloc::Global;
use std::marker::Model;

/// The type of a column. The last four are those of descending key columns, and stand only in
/// lists of key kinds.
#[derive(Clone, Copy, Debug, PartialEq, Eq)]
pub enum Kind {
    Int,
    Text,
    Bytes,
    Bool,
    IntDown,
    TextDown,
    BytesDown,
    BoolDown,
}

/// A value of a column.
#[derive(Debug, Drop)]
pub enum Datum {
    Int(i64),
    Text(Text),
    Bytes(Blob),
    Bool(bool),
    Null,
}

impl Datum {
    pub fn copy(&self, alloc: Global) -> Result<Datum, Memory>
        ensures { IfOk result (λ x. x ≡ self.now) }
    {
        match self {
            Datum::Int(n) => Ok(Datum::Int(*n)),
            Datum::Text(text) => Ok(Datum::Text(text.copy(alloc)?)),
            Datum::Bytes(bytes) => Ok(Datum::Bytes(bytes.copy(alloc)?)),
            Datum::Bool(b) => Ok(Datum::Bool(*b)),
            Datum::Null => Ok(Datum::Null),
        }
    }
}

fn copy_all(alloc: Global, values: &[Datum]) -> Result<Vec<Datum>, Memory>
    ensures { IfOk result (λ v. v.items ≡ values.now) }
{
    let mut copies = Vec::new(alloc);
    for value in values {
        copies.push(value.copy(alloc)?)?;
    }
    Ok(copies)
}

/// A row as a command gives it or a scan shows it, or a key: the values of its columns in order.
#[derive(Debug, Drop)]
pub struct Row {
    values: Vec<Datum>,
}

impl Model for Row {
    ghost use Rattle.std.specs.Prelude.{List};
    ghost use Rattle.row_codec.specs.declared.rows.Datum.{Datum};

    ghost Value = { List Datum };

    ghost view = { λ r. r.values.items };
}

impl Row {
    pub fn from_vec(values: Vec<Datum>) -> Row
        ensures { result ≡ values.items }
    {
        Row { values }
    }

    pub fn as_slice(&self) -> &[Datum]
        ensures { result.now ≡ self.now }
    {
        self.values.as_slice()
    }

    pub fn copy(&self, alloc: Global) -> Result<Row, Memory>
        ensures { IfOk result (λ r. r ≡ self.now) }
    {
        Ok(Row {
            values: copy_all(alloc, self.values.as_slice())?,
        })
    }
}

/// A stored value of a column that isn't in the key.
#[derive(Debug, Drop)]
pub struct Cell {
    pub column: u32,
    pub datum: Datum,
}
