//! Calls on the rows of a table, over both stores of versions.
use crate::descriptors::table;
use crate::words::{after, bytes, cut, number, put_bytes, put_time, time};
use mvcc_keys::{Blob, Memory, Text};
use row_codec::{Datum, Row};
use std::alloc::Global;
use table_descriptors::Descriptor;
use table_rows::{RowsFault, SelectFault, TableRows};
use version_store::{FactList, MvccMap, Versions};

/// `5`, `'text`, `x00ff`, `true`, `false` or `null`
fn datum(alloc: Global, text: &str) -> Result<Datum, Memory> {
    if let Some(text) = text.strip_prefix('\'') {
        return Ok(Datum::Text(Text::copy_of(alloc, text)?));
    }
    if let Some(digits) = text.strip_prefix('x') {
        return Ok(Datum::Bytes(Blob::from_vec(bytes(alloc, digits)?)));
    }
    match text {
        "true" => Ok(Datum::Bool(true)),
        "false" => Ok(Datum::Bool(false)),
        "null" => Ok(Datum::Null),
        _ => Ok(Datum::Int(text.parse::<i64>().unwrap_or(0))),
    }
}

/// The row `5,'text`.
fn row(alloc: Global, text: &str) -> Result<Row, Memory> {
    let mut values = Vec::new(alloc);
    for word in text.split(',') {
        values.push(datum(alloc, word)?)?;
    }
    Ok(Row::from_vec(values))
}

/// The rows `1,'x 2,'y`.
fn rows(alloc: Global, text: &str) -> Result<Vec<Row>, Memory> {
    let mut rows = Vec::new(alloc);
    for word in text.split(' ') {
        if !word.is_empty() {
            rows.push(row(alloc, word)?)?;
        }
    }
    Ok(rows)
}

fn put_datum(datum: &Datum, out: &mut String) -> Result<(), Memory> {
    match datum {
        Datum::Int(n) => Ok(write!(out, "{n}")?),
        Datum::Text(text) => Ok(write!(out, "'{}", text.as_str())?),
        Datum::Bytes(bytes) => {
            out.push('x')?;
            put_bytes(bytes.as_slice(), out)
        }
        Datum::Bool(truth) => Ok(write!(out, "{truth}")?),
        Datum::Null => Ok(out.push_str("null")?),
    }
}

fn put_row(row: &Row, out: &mut String) -> Result<(), Memory> {
    for (place, datum) in row.as_slice().iter().enumerate() {
        if place > 0 {
            out.push(',')?;
        }
        put_datum(datum, out)?;
    }
    Ok(out.push('\n')?)
}

fn put_fault(fault: RowsFault, out: &mut String) -> Result<(), Memory> {
    match fault {
        RowsFault::WrongRow { row, column } => Ok(write!(out, "WrongRow {row} {column}\n")?),
        RowsFault::TooLarge { row } => Ok(write!(out, "TooLarge {row}\n")?),
        RowsFault::DuplicateKey { row } => Ok(write!(out, "DuplicateKey {row}\n")?),
        RowsFault::EmptyRange => Ok(out.push_str("EmptyRange\n")?),
        RowsFault::Memory => Err(Memory),
    }
}

fn put_ok(out: &mut String) -> Result<(), Memory> {
    Ok(out.push_str("ok\n")?)
}

/// `upsert 2 1,'x 2,'y`
fn upsert<V: Versions>(
    alloc: Global,
    store: &mut TableRows<V>,
    d: &Descriptor,
    line: &str,
    out: &mut String,
) -> Result<(), Memory> {
    let (at, words) = cut(line);
    let rows = rows(alloc, words)?;
    match store.check_rows(d, &rows) {
        Ok(()) => {
            store.upsert(d, &rows, time(at))?;
            put_ok(out)
        }
        Err(fault) => put_fault(fault, out),
    }
}

/// `delete 5 7`
fn delete<V: Versions>(
    alloc: Global,
    store: &mut TableRows<V>,
    d: &Descriptor,
    line: &str,
    out: &mut String,
) -> Result<(), Memory> {
    let (at, words) = cut(line);
    let keys = rows(alloc, words)?;
    match store.check_keys(d, &keys) {
        Ok(()) => {
            store.delete(d, &keys, time(at))?;
            put_ok(out)
        }
        Err(fault) => put_fault(fault, out),
    }
}

/// `delete-range 3 3 7`
fn delete_range<V: Versions>(
    alloc: Global,
    store: &mut TableRows<V>,
    d: &Descriptor,
    line: &str,
    out: &mut String,
) -> Result<(), Memory> {
    let (at, words) = cut(line);
    let (lo, hi) = cut(words);
    let (lo, hi) = (row(alloc, lo)?, row(alloc, hi)?);
    match store.check_range(d, &lo, &hi) {
        Ok(()) => {
            store.delete_range(d, &lo, &hi, time(at))?;
            put_ok(out)
        }
        Err(fault) => put_fault(fault, out),
    }
}

/// `put 4 ec898988 8a0289..`: a row as it is stored, by its bytes
fn put_stored<V: Versions>(
    alloc: Global,
    store: &mut TableRows<V>,
    line: &str,
    out: &mut String,
) -> Result<(), Memory> {
    let (at, words) = cut(line);
    let (key, value) = cut(words);
    let (key, value) = (bytes(alloc, key)?, bytes(alloc, value)?);
    store.put_stored(&key, time(at), &value)?;
    put_ok(out)
}

fn put_selected(selected: &Result<Vec<Row>, SelectFault>, out: &mut String) -> Result<(), Memory> {
    match selected {
        Ok(rows) => {
            for row in rows {
                put_row(row, out)?;
            }
            let count = rows.len();
            Ok(write!(out, "{count} rows\n")?)
        }
        Err(SelectFault::Collected { threshold }) => {
            out.push_str("Collected ")?;
            put_time(*threshold, out)?;
            Ok(out.push('\n')?)
        }
        Err(SelectFault::Memory) => Err(Memory),
    }
}

/// Appends the rows of a table as of a time.
pub fn select<V: Versions>(
    store: &TableRows<V>,
    d: &Descriptor,
    at: &str,
    out: &mut String,
) -> Result<(), Memory> {
    put_selected(&store.select(d, time(at)), out)
}

/// `collect 100 4`
fn collect<V: Versions>(
    store: &mut TableRows<V>,
    line: &str,
    out: &mut String,
) -> Result<(), Memory> {
    let (id, at) = cut(line);
    let id = number(id);
    store.collect(id, time(at))?;
    put_time(store.store().threshold(id), out)?;
    Ok(out.push('\n')?)
}

fn call<V: Versions>(
    alloc: Global,
    store: &mut TableRows<V>,
    d: &Descriptor,
    line: &str,
    out: &mut String,
) -> Result<(), Memory> {
    let (call, words) = cut(line);
    match call {
        "upsert" => upsert(alloc, store, d, words, out),
        "delete" => delete(alloc, store, d, words, out),
        "delete-range" => delete_range(alloc, store, d, words, out),
        "put" => put_stored(alloc, store, words, out),
        "select" => select(store, d, words, out),
        "collect" => collect(store, words, out),
        _ => Err(Memory),
    }
}

/// Appends what both stores answer; twice, where they answer otherwise.
pub fn put_both(first: &str, second: &str, out: &mut String) -> Result<(), Memory> {
    out.push_str(first)?;
    if first != second {
        out.push_str("and the other store ")?;
        out.push_str(second)?;
    }
    Ok(())
}

/// The rows of a table over both stores.
#[derive(Drop)]
struct Both {
    list: TableRows<FactList>,
    map: TableRows<MvccMap>,
}

fn call_both(
    alloc: Global,
    both: &mut Both,
    d: &Descriptor,
    line: &str,
    out: &mut String,
) -> Result<(), Memory> {
    let mut first = String::new(alloc);
    let mut second = String::new(alloc);
    call(alloc, &mut both.list, d, line, &mut first)?;
    call(alloc, &mut both.map, d, line, &mut second)?;
    put_both(first.as_str(), second.as_str(), out)
}

/// Answers the calls on the rows of a new table of the id 100. In `again d.t ..` the columns are
/// others from there on.
pub fn answer(alloc: Global, words: &str, lines: &str, out: &mut String) -> Result<(), Memory> {
    let mut both = Both {
        list: TableRows::new(alloc, FactList::new(alloc)),
        map: TableRows::new(alloc, MvccMap::new(alloc)),
    };
    let mut d = table(alloc, 100, words)?;
    for line in lines.split('\n') {
        if let Some(words) = line.strip_prefix("again ") {
            d = table(alloc, 100, words)?;
        } else if !line.is_empty() {
            call_both(alloc, &mut both, &d, line, out)?;
        }
    }
    Ok(())
}
