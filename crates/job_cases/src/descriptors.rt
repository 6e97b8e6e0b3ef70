//! Descriptors as texts.
use crate::words::{after, name, numbers, put_time, table_name, time};
use mvcc_keys::Memory;
use row_codec::Kind;
use std::alloc::Global;
use table_descriptors::{Column, Descriptor, Name, State};

fn kind(text: &str) -> Kind {
    match text {
        "INT" => Kind::Int,
        "STRING" => Kind::Text,
        "BYTES" => Kind::Bytes,
        _ => Kind::Bool,
    }
}

fn kind_text(kind: Kind) -> &'static str {
    match kind {
        Kind::Int => "INT",
        Kind::Text => "STRING",
        Kind::Bytes => "BYTES",
        Kind::Bool => "BOOL",
        _ => "?",
    }
}

/// The column `k:INT`.
pub fn column(alloc: Global, text: &str) -> Result<(Name, Kind), Memory> {
    let (text, type_name) = text.split_once(':').unwrap_or((text, ""));
    Ok((name(alloc, text)?, kind(type_name)))
}

/// The columns `k:INT,v:STRING`.
pub fn columns(alloc: Global, text: &str) -> Result<Vec<(Name, Kind)>, Memory> {
    let mut columns = Vec::new(alloc);
    for word in text.split(',') {
        columns.push(column(alloc, word)?)?;
    }
    Ok(columns)
}

/// The column `k` of a key, or `k-` if it descends.
fn key_column(alloc: Global, text: &str) -> Result<(Name, bool), Memory> {
    match text.strip_suffix('-') {
        Some(text) => Ok((name(alloc, text)?, true)),
        None => Ok((name(alloc, text)?, false)),
    }
}

/// The key `k,v-`.
pub fn key(alloc: Global, text: &str) -> Result<Vec<(Name, bool)>, Memory> {
    let mut key = Vec::new(alloc);
    for word in text.split(',') {
        key.push(key_column(alloc, word)?)?;
    }
    Ok(key)
}

/// The first descriptor of the table `d.t columns k:INT key k references 100 at 1`, of this id.
pub fn table(alloc: Global, id: u32, line: &str) -> Result<Descriptor, Memory> {
    let (database, name) = table_name(alloc, line.split(' ').next().unwrap_or(""))?;
    let columns = columns(alloc, after(line, "columns"))?;
    let key = key(alloc, after(line, "key"))?;
    let references = numbers(alloc, after(line, "references"))?;
    if key.is_empty() {
        return Err(Memory);
    }
    let at = time(after(line, "at"));
    let made = Descriptor::create(alloc, id, &database, &name, &columns, &key, &references, at);
    made.map_err(|_| Memory)
}

pub fn state(text: &str) -> State {
    match text {
        "offline" => State::Offline,
        "dropped" => State::Dropped,
        _ => State::Public,
    }
}

fn state_text(state: State) -> &'static str {
    match state {
        State::Public => "public",
        State::Offline => "offline",
        State::Dropped => "dropped",
    }
}

fn put_column(column: &Column, out: &mut String) -> Result<(), Memory> {
    let id = column.id;
    let name = &column.name;
    let kind = kind_text(column.kind);
    Ok(write!(out, " {id}:{name}:{kind}")?)
}

pub fn put_numbers(word: &str, numbers: &[u32], out: &mut String) -> Result<(), Memory> {
    out.push_str(word)?;
    for number in numbers {
        write!(out, " {number}")?;
    }
    Ok(())
}

fn put_layout(d: &Descriptor, out: &mut String) -> Result<(), Memory> {
    out.push_str(" columns")?;
    for column in d.columns() {
        put_column(column, out)?;
    }
    put_numbers(" key", d.key_columns(), out)?;
    put_numbers(" down", d.down(), out)?;
    put_numbers(" references", d.references(), out)
}

/// Appends a line of all that a descriptor has.
pub fn put_descriptor(d: &Descriptor, out: &mut String) -> Result<(), Memory> {
    let id = d.id();
    let database = d.database();
    let name = d.name();
    let version = d.version();
    let state = state_text(d.state());
    write!(out, "{id} {database}.{name} version {version} {state} at ")?;
    put_time(d.modified(), out)?;
    put_layout(d, out)?;
    let next = d.next_column();
    Ok(write!(out, " next {next}\n")?)
}
