//! Answers by their names and fields, with rows, links of a chain, tables and subdirectories in
//! the lines after them.
use crate::fields::{count, field, id, name, size, table, time};
use mvcc_keys::{Blob, Hlc, Items, Memory, Text};
use reply_texts::{Answer, RestoredTable};
use row_codec::{Datum, Row};
use std::alloc::Global;
use table_descriptors::Name;

/// The bytes that hexadecimal digits spell.
fn blob(alloc: Global, digits: &str) -> Result<Blob, Memory> {
    match hex::decode(alloc, digits) {
        Ok(bytes) => Ok(Blob::from_vec(bytes)),
        Err(_) => Err(Memory),
    }
}

/// A value: a number, a text after `'`, bytes after `x`, or a word.
fn datum(alloc: Global, value: &str) -> Result<Datum, Memory> {
    if let Some(text) = value.strip_prefix('\'') {
        return Ok(Datum::Text(Text::copy_of(alloc, text)?));
    }
    if let Some(digits) = value.strip_prefix('x') {
        return Ok(Datum::Bytes(blob(alloc, digits)?));
    }
    Ok(match value {
        "true" => Datum::Bool(true),
        "false" => Datum::Bool(false),
        "null" => Datum::Null,
        number => Datum::Int(number.parse::<i64>().unwrap_or(0)),
    })
}

/// A row: values between bars, or `()` for none.
fn row(alloc: Global, line: &str) -> Result<Row, Memory> {
    let mut values = Vec::new(alloc);
    if line == "()" {
        return Ok(Row::from_vec(values));
    }
    for value in line.split('|') {
        values.push(datum(alloc, value)?)?;
    }
    Ok(Row::from_vec(values))
}

fn rows(alloc: Global, items: &str) -> Result<Items<Row>, Memory> {
    let mut rows = Vec::new(alloc);
    for line in items.split('\n') {
        if !line.is_empty() {
            rows.push(row(alloc, line)?)?;
        }
    }
    Ok(Items::from_vec(rows))
}

fn put_restored(alloc: Global, line: &str, tables: &mut Vec<RestoredTable>) -> Result<(), Memory> {
    let Some(table) = table(alloc, line, 3)? else {
        return Ok(());
    };
    Ok(tables.push(RestoredTable {
        old: id(line, 1),
        new: id(line, 2),
        table,
    })?)
}

fn restored_tables(alloc: Global, items: &str) -> Result<Items<RestoredTable>, Memory> {
    let mut tables = Vec::new(alloc);
    for line in items.split('\n') {
        if line.starts_with("table ") {
            put_restored(alloc, line, &mut tables)?;
        }
    }
    Ok(Items::from_vec(tables))
}

fn chain(alloc: Global, items: &str) -> Result<Items<(Hlc, Hlc)>, Memory> {
    let mut links = Vec::new(alloc);
    for line in items.split('\n') {
        if line.starts_with("link ") {
            links.push((time(line, 1), time(line, 2)))?;
        }
    }
    Ok(Items::from_vec(links))
}

fn put_subdirectory(
    alloc: Global,
    line: &str,
    subdirectories: &mut Vec<(Name, Hlc)>,
) -> Result<(), Memory> {
    let Some(cluster) = name(alloc, line, 0)? else {
        return Ok(());
    };
    Ok(subdirectories.push((cluster, time(line, 1)))?)
}

fn subdirectories(alloc: Global, items: &str) -> Result<Items<(Name, Hlc)>, Memory> {
    let mut subdirectories = Vec::new(alloc);
    for line in items.split('\n') {
        put_subdirectory(alloc, line, &mut subdirectories)?;
    }
    Ok(Items::from_vec(subdirectories))
}

fn backup(alloc: Global, line: &str) -> Result<Option<Answer>, Memory> {
    let Some(cluster) = name(alloc, line, 2)? else {
        return Ok(None);
    };
    Ok(Some(Answer::BackupDone {
        job: id(line, 1),
        cluster,
        full: time(line, 3),
        start: time(line, 4),
        end: time(line, 5),
        entries: count(line, 6),
        chunks: id(line, 7),
    }))
}

fn restore(alloc: Global, line: &str, items: &str) -> Result<Option<Answer>, Memory> {
    let chain = chain(alloc, items)?;
    Ok(Some(Answer::RestoreDone {
        job: id(line, 1),
        time: time(line, 2),
        at: time(line, 3),
        rows: count(line, 4),
        chain,
        tables: restored_tables(alloc, items)?,
    }))
}

fn of_one_line(line: &str) -> Option<Answer> {
    match field(line, 0) {
        "Nothing" => Some(Answer::Nothing),
        "Plain" => Some(Answer::Plain),
        "ClockSet" => Some(Answer::ClockSet { now: time(line, 1) }),
        "TableMade" => Some(Answer::TableMade {
            table: id(line, 1),
            at: time(line, 2),
        }),
        "TableChanged" => Some(Answer::TableChanged {
            table: id(line, 1),
            version: id(line, 2),
            at: time(line, 3),
        }),
        "RowsWritten" => Some(Answer::RowsWritten {
            rows: size(line, 1),
            at: time(line, 2),
        }),
        "RangeDeleted" => Some(Answer::RangeDeleted { at: time(line, 1) }),
        "ThresholdRaised" => Some(Answer::ThresholdRaised {
            threshold: time(line, 1),
        }),
        _ => None,
    }
}

/// The answer of a line, with items in the lines after it.
pub fn answer(alloc: Global, line: &str, items: &str) -> Result<Option<Answer>, Memory> {
    match field(line, 0) {
        "RowsShown" => Ok(Some(Answer::RowsShown {
            rows: rows(alloc, items)?,
        })),
        "BackupDone" => backup(alloc, line),
        "RestoreDone" => restore(alloc, line, items),
        "BackupsShown" => Ok(Some(Answer::BackupsShown {
            subdirectories: subdirectories(alloc, items)?,
        })),
        _ => Ok(of_one_line(line)),
    }
}
