//! Calls on a catalog, and on what is planned over one.
use crate::descriptors::{columns, key, put_descriptor, table};
use crate::words::{after, cut, name, number, table_name, table_names, time};
use crate::{changes, manifests, plans, remaps};
use mvcc_keys::Memory;
use schema_catalog::{Catalog, CatalogFault};
use std::alloc::Global;
use table_descriptors::{Descriptor, Name};

/// A catalog, and the tables of a backup that are to be restored into it.
#[derive(Drop)]
pub struct Catalogs {
    pub catalog: Catalog,
    pub chosen: Vec<Descriptor>,
}

pub fn put_table(table: &(Name, Name), out: &mut String) -> Result<(), Memory> {
    let (database, name) = table;
    Ok(write!(out, " {database}.{name}\n")?)
}

pub fn put_fault(fault: &CatalogFault, out: &mut String) -> Result<(), Memory> {
    match fault {
        CatalogFault::NoSuchDatabase { database } => {
            Ok(write!(out, "NoSuchDatabase {database}\n")?)
        }
        CatalogFault::DatabaseExists { database } => {
            Ok(write!(out, "DatabaseExists {database}\n")?)
        }
        CatalogFault::NoSuchTable { table } => put_named("NoSuchTable", table, out),
        CatalogFault::NameTaken { table } => put_named("NameTaken", table, out),
        CatalogFault::NotPublic { table } => put_named("NotPublic", table, out),
        CatalogFault::BadSchema { which } => Ok(write!(out, "BadSchema {which}\n")?),
        CatalogFault::Referenced { by } => Ok(write!(out, "Referenced {by}\n")?),
        CatalogFault::TooManyTables => Ok(out.push_str("TooManyTables\n")?),
        CatalogFault::Memory => Err(Memory),
    }
}

fn put_named(fault: &str, table: &(Name, Name), out: &mut String) -> Result<(), Memory> {
    out.push_str(fault)?;
    put_table(table, out)
}

pub fn put_done(done: &Result<(), CatalogFault>, out: &mut String) -> Result<(), Memory> {
    match done {
        Ok(()) => Ok(out.push_str("ok\n")?),
        Err(fault) => put_fault(fault, out),
    }
}

/// Appends an id or a version, or the fault.
pub fn put_number(
    word: &str,
    done: &Result<u32, CatalogFault>,
    out: &mut String,
) -> Result<(), Memory> {
    match done {
        Ok(number) => Ok(write!(out, "{word} {number}\n")?),
        Err(fault) => put_fault(fault, out),
    }
}

fn put_truth(truth: bool, out: &mut String) -> Result<(), Memory> {
    Ok(write!(out, "{truth}\n")?)
}

fn put_found(found: Option<&Descriptor>, out: &mut String) -> Result<(), Memory> {
    match found {
        Some(d) => put_descriptor(d, out),
        None => Ok(out.push_str("none\n")?),
    }
}

/// `create d.t columns k:INT key k references d.u at 1`
fn create(
    alloc: Global,
    catalog: &mut Catalog,
    line: &str,
    out: &mut String,
) -> Result<(), Memory> {
    let (database, name) = table_name(alloc, cut(line).0)?;
    let columns = columns(alloc, after(line, "columns"))?;
    let key = key(alloc, after(line, "key"))?;
    let references = table_names(alloc, after(line, "references"))?;
    if key.is_empty() {
        return Err(Memory);
    }
    let at = time(after(line, "at"));
    let done = catalog.create_table(&database, &name, &columns, &key, &references, at);
    put_number("table", &done, out)
}

fn create_database(
    alloc: Global,
    catalog: &mut Catalog,
    text: &str,
    out: &mut String,
) -> Result<(), Memory> {
    let name = name(alloc, text)?;
    put_done(&catalog.create_database(&name), out)
}

/// `install 100 d.t columns k:INT key k at 3`
fn install(
    alloc: Global,
    catalog: &mut Catalog,
    line: &str,
    out: &mut String,
) -> Result<(), Memory> {
    let (id, line) = cut(line);
    let mut tables = Vec::new(alloc);
    tables.push(table(alloc, number(id), line)?)?;
    if catalog.next_id() - 100 >= catalog.table_limit() {
        return Ok(out.push_str("no room\n")?);
    }
    catalog.install(tables)?;
    Ok(out.push_str("ok\n")?)
}

/// `named d.t at 3`
fn named(alloc: Global, catalog: &Catalog, line: &str, out: &mut String) -> Result<(), Memory> {
    let (database, name) = table_name(alloc, cut(line).0)?;
    let t = time(after(line, "at"));
    put_found(catalog.named_descriptor(&database, &name, t), out)?;
    match catalog.named(&database, &name, t) {
        Some(id) => Ok(write!(out, "table {id}\n")?),
        None => Ok(out.push_str("no table\n")?),
    }
}

fn put_first(found: &Option<CatalogFault>, out: &mut String) -> Result<(), Memory> {
    match found {
        Some(fault) => put_fault(fault, out),
        None => Ok(out.push_str("none\n")?),
    }
}

/// `missing d.t,d.u at 3`
fn missing(alloc: Global, catalog: &Catalog, line: &str, out: &mut String) -> Result<(), Memory> {
    let names = table_names(alloc, cut(line).0)?;
    put_first(&catalog.missing(&names, time(after(line, "at")))?, out)
}

/// `offline d.t,d.u at 3`
fn offline(alloc: Global, catalog: &Catalog, line: &str, out: &mut String) -> Result<(), Memory> {
    let names = table_names(alloc, cut(line).0)?;
    put_first(&catalog.offline(&names, time(after(line, "at")))?, out)
}

fn history(catalog: &Catalog, id: u32, out: &mut String) -> Result<(), Memory> {
    for d in catalog.history(id) {
        put_descriptor(d, out)?;
    }
    let count = catalog.history(id).len();
    Ok(write!(out, "{count} descriptors\n")?)
}

fn put_size(catalog: &Catalog, out: &mut String) -> Result<(), Memory> {
    let next = catalog.next_id();
    let limit = catalog.table_limit();
    Ok(write!(out, "next {next} limit {limit}\n")?)
}

fn ask(alloc: Global, catalog: &Catalog, line: &str, out: &mut String) -> Result<(), Memory> {
    let (call, words) = cut(line);
    let t = time(after(line, "at"));
    match call {
        "named" => named(alloc, catalog, words, out),
        "missing" => missing(alloc, catalog, words, out),
        "offline" => offline(alloc, catalog, words, out),
        "history" => history(catalog, number(words), out),
        "descriptor" => put_found(catalog.at(number(cut(words).0), t), out),
        "has" => put_truth(catalog.has_database(&name(alloc, words)?), out),
        "size" => put_size(catalog, out),
        "plan" => plans::answer(alloc, catalog, words, out),
        "manifest" => manifests::answer(alloc, catalog, words, out),
        _ => Err(Memory),
    }
}

fn call(alloc: Global, it: &mut Catalogs, line: &str, out: &mut String) -> Result<(), Memory> {
    let (call, words) = cut(line);
    match call {
        "database" => create_database(alloc, &mut it.catalog, words, out),
        "create" => create(alloc, &mut it.catalog, words, out),
        "change" => changes::change(alloc, &mut it.catalog, words, out),
        "drop" => changes::drop(&mut it.catalog, words, out),
        "install" => install(alloc, &mut it.catalog, words, out),
        "chosen" => remaps::choose(alloc, &mut it.chosen, words),
        "remap" => remaps::answer(alloc, &it.catalog, &it.chosen, words, out),
        _ => ask(alloc, &it.catalog, line, out),
    }
}

/// Answers the calls on a new catalog with room for so many tables.
pub fn answer(alloc: Global, limit: &str, lines: &str, out: &mut String) -> Result<(), Memory> {
    let mut it = Catalogs {
        catalog: Catalog::new(alloc, number(limit).min(4096)),
        chosen: Vec::new(alloc),
    };
    for line in lines.split('\n') {
        if !line.is_empty() {
            call(alloc, &mut it, line, out)?;
        }
    }
    Ok(())
}
