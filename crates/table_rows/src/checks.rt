//! The tests of rows and keys that commands give.
ghost use Rattle.std.specs.Prelude.{◌≡◌, ◌+◌, ◌++◌, ◌<◌, ◌^◌, ◌∷◌, [], None, true, not, nat_lt, length, map, IfOk};
ghost use Rattle.std.specs.List.{list_all};
ghost use Rattle.std.specs.Ordering.{is_lt};
ghost use Rattle.row_codec.specs.RowOrder.{row_cmp};
ghost use Rattle.row_codec.specs.RowKeys.{row_key, are_of_kinds};
ghost use Rattle.row_codec.specs.RowValues.{row_value, are_cells};
ghost use Rattle.table_descriptors.specs.Descriptors.{key_kinds};
ghost use Rattle.history_model.specs.Rows.{key_of, cells_in, wrong_column};
ghost use Rattle.history_model.specs.RowTests.{first_wrong, wrong_row, key_misfit_from, wrong_key_column, columns_len, is_large_key, is_large_row, large_row, first_number, repeated_after};

use crate::columns::{cells_of, key_of, wrong_column};
use crate::values::prove_values_fit;
use mvcc_keys::Memory;
use row_codec::{
    Cell, Datum, Kind, ROW_KEY_BYTES_MAX, ROW_VALUE_BYTES_MAX, Row, is_of_kind, row_cmp, row_key,
    row_value,
};
use std::alloc::Global;
use std::collections::BTreeSet;
use table_descriptors::Descriptor;

/// The number, from 1, and the column of the first row that doesn't fit the columns.
pub fn wrong_row(d: &Descriptor, rows: &[Row]) -> Option<(usize, usize)>
    ensures { result ≡ wrong_row d.now rows.now }
{
    let mut number: usize = 1;
    for row in rows {
        if let Some(column) = wrong_column(d, row) {
            return Some((number, column));
        }
        number += 1;
    }
    None
}

/// The place, from a number on, of the first value of a key that doesn't have its column's type.
fn key_misfit_from(place: usize, kinds: &[Kind], values: &[Datum]) -> Option<usize>
    requires { place + length kinds.now < 2 ^ 64 }
    ensures { result ≡ key_misfit_from place kinds.now values.now }
{
    let Some((kind, kinds)) = kinds.split_first() else {
        return None;
    };
    let Some((value, values)) = values.split_first() else {
        return None;
    };
    if !is_of_kind(*kind, value) {
        return Some(place);
    }
    key_misfit_from(place + 1, kinds, values)
}

fn wrong_key_column(kinds: &[Kind], key: &Row) -> Option<usize>
    ensures { result ≡ wrong_key_column kinds.now key.now }
{
    if key.as_slice().len() != kinds.len() {
        return Some(0);
    }
    key_misfit_from(1, kinds, key.as_slice())
}

/// The number, from 1, and the column of the first key that doesn't fit the key columns.
pub fn wrong_key(kinds: &[Kind], keys: &[Row]) -> Option<(usize, usize)>
    ensures { result ≡ first_wrong (wrong_key_column kinds.now) 1 keys.now }
{
    let mut number: usize = 1;
    for key in keys {
        if let Some(column) = wrong_key_column(kinds, key) {
            return Some((number, column));
        }
        number += 1;
    }
    None
}

/// A key of a table in bytes.
pub fn key_bytes(alloc: Global, table: u32, kinds: &[Kind], key: &Row) -> Result<Vec<u8>, Memory>
    requires { are_of_kinds kinds.now key.now ≡ true }
    ensures { IfOk result (λ v. v.items ≡ row_key table kinds.now key.now) }
{
    let mut bytes = Vec::new(alloc);
    row_key(table, kinds, key, &mut bytes)?;
    Ok(bytes)
}

/// Cells in bytes.
pub fn value_bytes(alloc: Global, cells: &[Cell]) -> Result<Vec<u8>, Memory>
    requires { are_cells 0 cells.now ≡ true }
    ensures { IfOk result (λ v. v.items ≡ row_value cells.now) }
{
    let mut bytes = Vec::new(alloc);
    row_value(cells, &mut bytes)?;
    Ok(bytes)
}

/// The bytes of a key of table 0 around its columns: the table's id, the index, the column family.
const KEY_FRAME_BYTES: usize = 3;

/// Whether the key columns take more bytes than they may.
fn is_large_key(alloc: Global, kinds: &[Kind], key: &Row) -> Result<bool, Memory>
    requires { are_of_kinds kinds.now key.now ≡ true }
    ensures { IfOk result (λ r. r ≡ is_large_key kinds.now key.now) }
{
    Ok(key_bytes(alloc, 0, kinds, key)?.as_slice().len() > ROW_KEY_BYTES_MAX + KEY_FRAME_BYTES)
}

fn is_large_value(alloc: Global, d: &Descriptor, row: &Row) -> Result<bool, Memory>
    requires { are_cells 0 (cells_in d.now.key_columns d.now.columns row.now) ≡ true }
    ensures { IfOk result (λ r. r ≡ nat_lt ROW_VALUE_BYTES_MAX (length (row_value (cells_in d.now.key_columns d.now.columns row.now)))) }
{
    let cells = cells_of(alloc, d, row)?;
    Ok(value_bytes(alloc, &cells)?.as_slice().len() > ROW_VALUE_BYTES_MAX)
}

fn is_large_row(alloc: Global, d: &Descriptor, kinds: &[Kind], row: &Row) -> Result<bool, Memory>
    requires kinds { kinds.now ≡ key_kinds d.now }
    requires fits { wrong_column d.now row.now ≡ None }
    ensures { IfOk result (λ r. r ≡ is_large_row d.now row.now) }
{
    d.proper();
    let key = key_of(alloc, d, row)?;
    if is_large_key(alloc, kinds, &key)? {
        return Ok(true);
    }
    is_large_value(alloc, d, row)
}

/// The number, from 1, of the first row that is too large.
pub fn large_row(
    alloc: Global,
    d: &Descriptor,
    kinds: &[Kind],
    rows: &[Row],
) -> Result<Option<usize>, Memory>
    requires kinds { kinds.now ≡ key_kinds d.now }
    requires fit { wrong_row d.now rows.now ≡ None }
    ensures { IfOk result (λ r. r ≡ large_row d.now rows.now) }
{
    let mut number: usize = 1;
    for row in rows {
        if is_large_row(alloc, d, kinds, row)? {
            return Ok(Some(number));
        }
        number += 1;
    }
    Ok(None)
}

/// The number, from 1, of the first key that is too large.
pub fn large_key(alloc: Global, kinds: &[Kind], keys: &[Row]) -> Result<Option<usize>, Memory>
    requires { list_all (are_of_kinds kinds.now) keys.now ≡ true }
    ensures { IfOk result (λ r. r ≡ first_number (is_large_key kinds.now) 1 keys.now) }
{
    let mut number: usize = 1;
    for key in keys {
        if is_large_key(alloc, kinds, key)? {
            return Ok(Some(number));
        }
        number += 1;
    }
    Ok(None)
}

/// The number, from 1, of the first key that came earlier.
pub fn repeated_key(alloc: Global, kinds: &[Kind], keys: &[Row]) -> Result<Option<usize>, Memory>
    requires { list_all (are_of_kinds kinds.now) keys.now ≡ true }
    ensures { IfOk result (λ r. r ≡ repeated_after (row_cmp kinds.now) [] keys.now) }
{
    let mut seen: BTreeSet<Vec<u8>> = BTreeSet::new(alloc);
    let mut number: usize = 1;
    for key in keys {
        prove_values_fit(key);
        let bytes = key_bytes(alloc, 0, kinds, key)?;
        if !seen.insert(bytes)? {
            return Ok(Some(number));
        }
        number += 1;
    }
    Ok(None)
}

/// The keys of rows.
pub fn keys_of(alloc: Global, d: &Descriptor, rows: &[Row]) -> Result<Vec<Row>, Memory>
    ensures { IfOk result (λ v. v.items ≡ map (key_of d.now) rows.now) }
{
    let mut keys = Vec::new(alloc);
    for row in rows {
        keys.push(key_of(alloc, d, row)?)?;
    }
    Ok(keys)
}

/// Whether the first key isn't before the second.
pub fn is_empty_range(kinds: &[Kind], lo: &Row, hi: &Row) -> bool
    ensures { result ≡ not (is_lt (row_cmp kinds.now lo.now hi.now)) }
{
    !row_cmp(kinds, lo.as_slice(), hi.as_slice()).is_lt()
}
