//! Row keys and row values.
use crate::words::{bytes_of, first_word, id_of, kinds_of, order_text, put_bytes};
use mvcc_keys::Memory;
use row_codec::{
    Cell, Datum, Kind, Row, RowFault, are_cells, are_of_kinds, check_row_key, check_row_value,
    datum_cmp, read_row_key, read_row_value, row_cmp, row_key, row_value,
};
use std::alloc::Global;

/// Appends a blank and a value.
fn put_datum(datum: &Datum, out: &mut String) -> Result<(), Memory> {
    match datum {
        Datum::Int(n) => Ok(write!(out, " {n}")?),
        Datum::Text(text) => Ok(write!(out, " [{}]", text.as_str())?),
        Datum::Bytes(bytes) => put_digits(bytes.as_slice(), out),
        Datum::Bool(truth) => Ok(write!(out, " {truth}")?),
        Datum::Null => Ok(out.push_str(" null")?),
    }
}

fn put_digits(bytes: &[u8], out: &mut String) -> Result<(), Memory> {
    out.push_str(" x")?;
    put_bytes(bytes, out)
}

fn put_row(row: &Row, out: &mut String) -> Result<(), Memory> {
    out.push_str(" (")?;
    for datum in row.as_slice() {
        put_datum(datum, out)?;
    }
    Ok(out.push_str(" )")?)
}

pub fn put_row_fault(fault: RowFault, out: &mut String) -> Result<(), Memory> {
    match fault {
        RowFault::At { offset } => Ok(write!(out, "fault {offset}")?),
        RowFault::Memory => Err(Memory),
    }
}

/// Appends a key, and the bytes that a copy of it is written as.
fn put_read_key(
    table: u32,
    kinds: &[Kind],
    row: &Row,
    alloc: Global,
    out: &mut String,
) -> Result<(), Memory> {
    write!(out, "{table}")?;
    let copy = row.copy(alloc)?;
    put_row(&copy, out)?;
    let mut spelling = Vec::new(alloc);
    if are_of_kinds(kinds, copy.as_slice()) {
        row_key(table, kinds, &copy, &mut spelling)?;
    }
    put_bytes(&spelling, out)
}

/// Reads a key of the kinds, whatever its table.
fn put_key_of(alloc: Global, kinds: &[Kind], bytes: &[u8], out: &mut String) -> Result<(), Memory> {
    match read_row_key(alloc, bytes, kinds) {
        Ok((table, row)) => put_read_key(table, kinds, &row, alloc, out),
        Err(fault) => put_row_fault(fault, out),
    }
}

/// Reads a key, and tells whether it is found to be one of the table.
pub fn put_key(
    alloc: Global,
    parameters: &str,
    bytes: &[u8],
    out: &mut String,
) -> Result<(), Memory> {
    let (table, kinds) = first_word(parameters);
    let kinds = kinds_of(alloc, kinds)?;
    put_key_of(alloc, &kinds, bytes, out)?;
    if check_row_key(bytes, id_of(table), &kinds) {
        out.push_str(" checked")?;
    }
    Ok(())
}

fn put_row_order(
    kinds: &[Kind],
    (row, bytes): (&Row, &[u8]),
    (other, other_bytes): (&Row, &[u8]),
    out: &mut String,
) -> Result<(), Memory> {
    let of_rows = order_text(row_cmp(kinds, row.as_slice(), other.as_slice()));
    let of_bytes = order_text(bytes.cmp(other_bytes));
    Ok(write!(out, "{of_rows}, in bytes {of_bytes}")?)
}

fn put_order_of(
    alloc: Global,
    kinds: &[Kind],
    first: &[u8],
    second: &[u8],
    out: &mut String,
) -> Result<(), Memory> {
    let Ok((_, row)) = read_row_key(alloc, first, kinds) else {
        return Err(Memory);
    };
    let Ok((_, other)) = read_row_key(alloc, second, kinds) else {
        return Err(Memory);
    };
    put_row_order(kinds, (&row, first), (&other, second), out)
}

/// Appends the order of two keys as rows, and that of their bytes.
pub fn put_order(alloc: Global, words: &str, out: &mut String) -> Result<(), Memory> {
    let (kinds, rest) = first_word(words);
    let (first, second) = first_word(rest);
    let kinds = kinds_of(alloc, kinds)?;
    let first = bytes_of(alloc, first)?;
    let second = bytes_of(alloc, second)?;
    put_order_of(alloc, &kinds, &first, &second, out)
}

fn put_cells(cells: &[Cell], out: &mut String) -> Result<(), Memory> {
    out.push('(')?;
    for cell in cells {
        write!(out, " {}", cell.column)?;
        put_datum(&cell.datum, out)?;
    }
    Ok(out.push_str(" )")?)
}

/// Appends cells, and the bytes that they are written as.
fn put_read_cells(cells: &[Cell], alloc: Global, out: &mut String) -> Result<(), Memory> {
    put_cells(cells, out)?;
    let mut spelling = Vec::new(alloc);
    if are_cells(cells) {
        row_value(cells, &mut spelling)?;
    }
    put_bytes(&spelling, out)
}

fn put_read_value(alloc: Global, bytes: &[u8], out: &mut String) -> Result<(), Memory> {
    match read_row_value(alloc, bytes) {
        Ok(cells) => put_read_cells(&cells, alloc, out),
        Err(fault) => put_row_fault(fault, out),
    }
}

/// Reads a row value, and tells whether it is found to be one.
pub fn put_value(alloc: Global, bytes: &[u8], out: &mut String) -> Result<(), Memory> {
    put_read_value(alloc, bytes, out)?;
    if check_row_value(bytes) {
        out.push_str(" checked")?;
    }
    Ok(())
}

/// Appends the order of each cell's value and the one after it, and at last of NULL and the first.
fn put_cell_orders(cells: &[Cell], out: &mut String) -> Result<(), Memory> {
    for pair in cells.windows(2) {
        if let [first, second] = pair {
            let order = order_text(datum_cmp(&first.datum, &second.datum));
            write!(out, "{order} ")?;
        }
    }
    let Some(first) = cells.first() else {
        return Ok(());
    };
    let order = order_text(datum_cmp(&Datum::Null, &first.datum));
    Ok(write!(out, "null {order}")?)
}

/// Appends the orders of the values in a row value.
pub fn put_orders(alloc: Global, bytes: &[u8], out: &mut String) -> Result<(), Memory> {
    match read_row_value(alloc, bytes) {
        Ok(cells) => put_cell_orders(&cells, out),
        Err(fault) => put_row_fault(fault, out),
    }
}
