//! Rows by their columns: as they are given, as they are stored, as they are shown.
ghost use Rattle.std.specs.Prelude.{◌≡◌, ◌+◌, ◌<◌, ◌^◌, ◌++◌, ◌∷◌, [], length, IfOk, OnOk};
ghost use Rattle.std.specs.Option.{option_copied};
ghost use Rattle.history_model.specs.Rows.{is_null, is_of, fits, misfit_from, wrong_column, value_in, or_null, key_of, cell_in, cells_in, key_value, cell_value, stored_value, shown_value, shown_row};
ghost use Rattle.table_descriptors.specs.Descriptors.{has_id};
ghost use Rattle.mvcc_keys.specs.Times.{Time};

use mvcc_keys::Memory;
use row_codec::{Cell, Datum, Kind, Row};
use std::alloc::Global;
use table_descriptors::{Column, Descriptor};

fn is_null(x: &Datum) -> bool
    ensures { result ≡ is_null x.now }
{
    matches!(x, Datum::Null)
}

fn is_of(kind: Kind, x: &Datum) -> bool
    ensures { result ≡ is_of kind x.now }
{
    match (kind, x) {
        (Kind::Int, Datum::Int(_)) => true,
        (Kind::Text, Datum::Text(_)) => true,
        (Kind::Bytes, Datum::Bytes(_)) => true,
        (Kind::Bool, Datum::Bool(_)) => true,
        _ => false,
    }
}

fn has_id(id: u32, ids: &[u32]) -> bool
    ensures { result ≡ has_id id ids.now }
{
    ids.contains(&id)
}

/// Whether the value may stand in the column: NULL only outside the key.
fn fits(key: &[u32], column: &Column, x: &Datum) -> bool
    ensures { result ≡ fits key.now column.now x.now }
{
    if is_null(x) {
        !has_id(column.id, key)
    } else {
        is_of(column.kind, x)
    }
}

/// The place, from a number on, of the first value that doesn't fit its column.
fn misfit_from(key: &[u32], place: usize, columns: &[Column], values: &[Datum]) -> Option<usize>
    requires { place + length columns.now < 2 ^ 64 }
    ensures { result ≡ misfit_from key.now place columns.now values.now }
{
    let Some((column, columns)) = columns.split_first() else {
        return None;
    };
    let Some((value, values)) = values.split_first() else {
        return None;
    };
    if !fits(key, column, value) {
        return Some(place);
    }
    misfit_from(key, place + 1, columns, values)
}

/// Where a row doesn't fit the columns: 0 for a wrong count of values, else the place from 1.
pub fn wrong_column(d: &Descriptor, row: &Row) -> Option<usize>
    ensures { result ≡ wrong_column d.now row.now }
{
    if row.as_slice().len() != d.columns().len() {
        return Some(0);
    }
    misfit_from(d.key_columns(), 1, d.columns(), row.as_slice())
}

/// The value of the column of an id, in a row of these columns.
fn value_in<'a>(columns: &[Column], values: &'a [Datum], id: u32) -> Option<&'a Datum>
    ensures { option_copied result ≡ value_in columns.now values.now id }
{
    let Some((column, columns)) = columns.split_first() else {
        return None;
    };
    let Some((value, values)) = values.split_first() else {
        return None;
    };
    if column.id == id {
        return Some(value);
    }
    value_in(columns, values, id)
}

fn copy_or_null(alloc: Global, value: Option<&Datum>) -> Result<Datum, Memory>
    ensures { IfOk result (λ x. x ≡ or_null (option_copied value.entry)) }
{
    match value {
        Some(x) => x.copy(alloc),
        None => Ok(Datum::Null),
    }
}

fn push<T: Drop>(items: &mut Vec<T>, item: T) -> Result<(), Memory>
    ensures { OnOk result (items.new.items ≡ items.old.items ++ item ∷ []) }
{
    Ok(items.push(item)?)
}

/// The values of the key columns, in key order.
pub fn key_of(alloc: Global, d: &Descriptor, row: &Row) -> Result<Row, Memory>
    ensures { IfOk result (λ k. k ≡ key_of d.now row.now) }
{
    let columns = d.columns();
    let values = row.as_slice();
    let mut key = Vec::new(alloc);
    for id in d.key_columns() {
        let value = copy_or_null(alloc, value_in(columns, values, *id))?;
        push(&mut key, value)?;
    }
    Ok(Row::from_vec(key))
}

/// Adds the cell of a value, unless it stands in the key or is NULL.
fn add_cell(
    alloc: Global,
    key: &[u32],
    column: &Column,
    x: &Datum,
    cells: &mut Vec<Cell>,
) -> Result<(), Memory>
    ensures { OnOk result (cells.new.items ≡ cells.old.items ++ cell_in key.now column.now x.now) }
{
    if has_id(column.id, key) || is_null(x) {
        return Ok(());
    }
    let cell = Cell {
        column: column.id,
        datum: x.copy(alloc)?,
    };
    push(cells, cell)
}

/// Adds the values that are stored beside the key, by column.
fn add_cells(
    alloc: Global,
    key: &[u32],
    columns: &[Column],
    values: &[Datum],
    cells: &mut Vec<Cell>,
) -> Result<(), Memory>
    ensures { OnOk result (cells.new.items ≡ cells.old.items ++ cells_in key.now columns.now values.now) }
{
    let Some((column, columns)) = columns.split_first() else {
        return Ok(());
    };
    let Some((value, values)) = values.split_first() else {
        return Ok(());
    };
    add_cell(alloc, key, column, value, cells)?;
    add_cells(alloc, key, columns, values, cells)
}

/// The cells beside the key, by column.
pub fn cells_of(alloc: Global, d: &Descriptor, row: &Row) -> Result<Vec<Cell>, Memory>
    ensures { IfOk result (λ v. v.items ≡ cells_in d.now.key_columns d.now.columns row.now) }
{
    let mut cells = Vec::new(alloc);
    add_cells(
        alloc,
        d.key_columns(),
        d.columns(),
        row.as_slice(),
        &mut cells,
    )?;
    Ok(cells)
}

/// The value at the place of an id among the key columns.
fn key_value<'a>(ids: &[u32], key: &'a [Datum], id: u32) -> Option<&'a Datum>
    ensures { option_copied result ≡ key_value ids.now key.now id }
{
    let Some((first, ids)) = ids.split_first() else {
        return None;
    };
    let Some((value, key)) = key.split_first() else {
        return None;
    };
    if *first == id {
        return Some(value);
    }
    key_value(ids, key, id)
}

fn cell_value(cells: &[Cell], id: u32) -> Option<&Datum>
    ensures { option_copied result ≡ cell_value cells.now id }
{
    match cells.iter().find(|cell| cell.column == id) {
        Some(cell) => Some(&cell.datum),
        None => None,
    }
}

/// What a column shows of a key and the cells beside it.
fn shown_value<'a>(d: &Descriptor, key: &'a Row, cells: &'a [Cell], id: u32) -> Option<&'a Datum>
    ensures { option_copied result ≡ stored_value (key_value d.now.key_columns key.now id) (cell_value cells.now id) }
{
    match key_value(d.key_columns(), key.as_slice(), id) {
        Some(value) => Some(value),
        None => cell_value(cells, id),
    }
}

/// A key and the cells beside it, in the columns of a descriptor.
pub fn shown_row(alloc: Global, d: &Descriptor, key: &Row, cells: &[Cell]) -> Result<Row, Memory>
    ensures { IfOk result (λ r. (at : Time) → r ≡ shown_row d.now (record { key = key.now; value = cells.now; at = at })) }
{
    let mut values = Vec::new(alloc);
    for column in d.columns() {
        let value = copy_or_null(alloc, shown_value(d, key, cells, column.id))?;
        push(&mut values, value)?;
    }
    Ok(Row::from_vec(values))
}
