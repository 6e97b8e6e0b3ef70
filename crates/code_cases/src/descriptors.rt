//! Names and descriptors, read, made and changed.
use crate::rows::put_row_fault;
use crate::words::{
    bytes_of, first_word, id_of, ids_of, kind_of, kind_text, put_again, put_bytes, put_id_list,
    time_of,
};
use mvcc_keys::{Hlc, Memory};
use row_codec::Kind;
use std::alloc::Global;
use table_descriptors::{
    Change, Column, Descriptor, KeyNames, Name, SchemaFault, State, read_descriptor, repeats_id,
    write_descriptor,
};

/// Reads a name.
pub fn put_name(alloc: Global, bytes: &[u8], out: &mut String) -> Result<(), Memory> {
    let Some(name) = Name::parse(alloc, bytes)? else {
        return Ok(out.push_str("no name")?);
    };
    let copy = name.copy(alloc)?;
    Ok(write!(out, "{copy}")?)
}

/// The name that a word of a case is.
fn name_of(alloc: Global, word: &str) -> Result<Name, Memory> {
    let Some(name) = Name::parse(alloc, word.as_bytes())? else {
        return Err(Memory);
    };
    Ok(name)
}

fn state_text(state: State) -> &'static str {
    match state {
        State::Public => "Public",
        State::Offline => "Offline",
        State::Dropped => "Dropped",
    }
}

fn state_of(word: &str) -> State {
    match word {
        "Offline" => State::Offline,
        "Dropped" => State::Dropped,
        _ => State::Public,
    }
}

fn put_columns(columns: &[Column], out: &mut String) -> Result<(), Memory> {
    for column in columns {
        let kind = kind_text(column.kind);
        write!(out, " {}:{}:{kind}", column.id, column.name)?;
    }
    Ok(())
}

fn put_kinds(kinds: &[Kind], out: &mut String) -> Result<(), Memory> {
    for kind in kinds {
        write!(out, " {}", kind_text(*kind))?;
    }
    Ok(())
}

fn put_ids(word: &str, ids: &[u32], out: &mut String) -> Result<(), Memory> {
    if ids.is_empty() {
        return Ok(());
    }
    out.push_str(word)?;
    put_id_list(ids, out)
}

fn put_front(descriptor: &Descriptor, out: &mut String) -> Result<(), Memory> {
    let id = descriptor.id();
    let version = descriptor.version();
    let state = state_text(descriptor.state());
    write!(
        out,
        "{id} version {version} {}.{} {state}",
        descriptor.database(),
        descriptor.name()
    )?;
    put_columns(descriptor.columns(), out)
}

fn put_back(descriptor: &Descriptor, out: &mut String) -> Result<(), Memory> {
    put_ids(" key", descriptor.key_columns(), out)?;
    put_ids(" down", descriptor.down(), out)?;
    put_ids(" references", descriptor.references(), out)?;
    let next = descriptor.next_column();
    let modified = descriptor.modified();
    Ok(write!(out, " next {next} at {modified}")?)
}

/// Appends what a descriptor says, and the kinds of its key.
pub fn put_fields(alloc: Global, descriptor: &Descriptor, out: &mut String) -> Result<(), Memory> {
    put_front(descriptor, out)?;
    put_back(descriptor, out)?;
    let kinds = descriptor.key_kinds(alloc)?;
    out.push_str(" kinds")?;
    put_kinds(&kinds, out)
}

/// Appends what a descriptor says, and whether it is written as the bytes that it was read from.
fn put_read(
    alloc: Global,
    descriptor: &Descriptor,
    bytes: &[u8],
    out: &mut String,
) -> Result<(), Memory> {
    put_fields(alloc, descriptor, out)?;
    let mut again = Vec::new(alloc);
    write_descriptor(descriptor, &mut again)?;
    put_again(&again, bytes, out)
}

/// Reads a descriptor.
pub fn put_descriptor(alloc: Global, bytes: &[u8], out: &mut String) -> Result<(), Memory> {
    match read_descriptor(alloc, bytes) {
        Ok(descriptor) => put_read(alloc, &descriptor, bytes, out),
        Err(fault) => put_row_fault(fault, out),
    }
}

// ---- descriptors that are made

/// Columns as `k:INT,v:STRING`.
fn columns_of(alloc: Global, list: &str) -> Result<Vec<(Name, Kind)>, Memory> {
    let mut columns = Vec::new(alloc);
    for word in list.split(',') {
        let (name, kind) = word.split_once(':').unwrap_or((word, ""));
        columns.push((name_of(alloc, name)?, kind_of(kind)))?;
    }
    Ok(columns)
}

/// Key columns as `k,v-`, of which the second descends.
fn key_of(alloc: Global, list: &str) -> Result<Vec<(Name, bool)>, Memory> {
    let mut key = Vec::new(alloc);
    for word in list.split(',') {
        let name = name_of(alloc, word.strip_suffix('-').unwrap_or(word))?;
        key.push((name, word.ends_with('-')))?;
    }
    Ok(key)
}

fn put_schema_fault(fault: SchemaFault, out: &mut String) -> Result<(), Memory> {
    match fault {
        SchemaFault::BadSchema { which } => Ok(write!(out, "rule {which}")?),
        SchemaFault::Memory => Err(Memory),
    }
}

/// Appends what a descriptor that was made says and its bytes, or the rule that it breaks.
fn put_made(
    alloc: Global,
    made: &Result<Descriptor, SchemaFault>,
    out: &mut String,
) -> Result<Vec<u8>, Memory> {
    let mut bytes = Vec::new(alloc);
    match made {
        Ok(descriptor) => {
            put_fields(alloc, descriptor, out)?;
            write_descriptor(descriptor, &mut bytes)?;
            out.push_str(" is")?;
            put_bytes(&bytes, out)?;
        }
        Err(fault) => put_schema_fault(*fault, out)?,
    }
    Ok(bytes)
}

/// The table of a case, its name, its columns, its key, its references and its date.
fn create(alloc: Global, words: &str) -> Result<Descriptor, SchemaFault> {
    let (id, rest) = first_word(words);
    let (database, rest) = first_word(rest);
    let (name, rest) = first_word(rest);
    let (columns, rest) = first_word(rest);
    let (key, rest) = first_word(rest);
    let (references, at) = first_word(rest);
    let columns = columns_of(alloc, columns)?;
    let key = key_of(alloc, key)?;
    let references = ids_of(alloc, references)?;
    let database = name_of(alloc, database)?;
    let name = name_of(alloc, name)?;
    if key.is_empty() {
        return Err(SchemaFault::Memory);
    }
    let key = KeyNames::from_vec(key);
    Descriptor::create(
        alloc,
        id_of(id),
        &database,
        &name,
        &columns,
        key.as_slice(),
        &references,
        time_of(at),
    )
}

/// The change that words name: `add w BOOL`, `remove w`, `column v u`, `rename s`, `become Offline`.
fn change_of(alloc: Global, words: &str) -> Result<Change, Memory> {
    let (word, rest) = first_word(words);
    let (from, to) = first_word(rest);
    match word {
        "add" => Ok(Change::Add {
            name: name_of(alloc, from)?,
            kind: kind_of(to),
        }),
        "remove" => Ok(Change::Remove {
            name: name_of(alloc, from)?,
        }),
        "column" => Ok(Change::RenameColumn {
            from: name_of(alloc, from)?,
            to: name_of(alloc, to)?,
        }),
        "rename" => Ok(Change::Rename {
            to: name_of(alloc, from)?,
        }),
        _ => Ok(Change::Become(state_of(from))),
    }
}

fn read(alloc: Global, bytes: &[u8]) -> Result<Descriptor, Memory> {
    read_descriptor(alloc, bytes).map_err(|_| Memory)
}

/// The descriptor in bytes, changed at a date.
fn alter(alloc: Global, bytes: &[u8], words: &str) -> Result<Descriptor, SchemaFault> {
    let (at, rest) = first_word(words);
    let change = change_of(alloc, rest)?;
    let descriptor = read(alloc, bytes)?;
    if descriptor.version() >= u32::MAX {
        return Err(SchemaFault::BadSchema { which: 0 });
    }
    descriptor.changed(alloc, &change, time_of(at))
}

fn restored(
    alloc: Global,
    descriptor: &Descriptor,
    id: u32,
    database: &Name,
    references: &[u32],
    at: Hlc,
) -> Result<Descriptor, Memory> {
    if repeats_id(references) {
        return Err(Memory);
    }
    descriptor.restored(alloc, id, database, references, at)
}

/// The descriptor in bytes, restored under an id in a database, with references, at a date.
fn restore(alloc: Global, bytes: &[u8], words: &str) -> Result<Descriptor, SchemaFault> {
    let (id, rest) = first_word(words);
    let (database, rest) = first_word(rest);
    let (references, at) = first_word(rest);
    let database = name_of(alloc, database)?;
    let references = ids_of(alloc, references)?;
    let descriptor = read(alloc, bytes)?;
    Ok(restored(
        alloc,
        &descriptor,
        id_of(id),
        &database,
        &references,
        time_of(at),
    )?)
}

fn described(alloc: Global, bytes: &[u8], line: &str) -> Result<Descriptor, SchemaFault> {
    let (word, rest) = first_word(line);
    match word {
        "create" => create(alloc, rest),
        "alter" => alter(alloc, bytes, rest),
        _ => restore(alloc, bytes, rest),
    }
}

/// Makes a descriptor, of words alone or of the bytes of another one, and answers its bytes.
pub fn put_described(
    alloc: Global,
    bytes: &[u8],
    line: &str,
    out: &mut String,
) -> Result<Vec<u8>, Memory> {
    let made = described(alloc, bytes, line);
    put_made(alloc, &made, out)
}
