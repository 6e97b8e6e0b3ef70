//! Changes of a catalog's tables.
use crate::catalogs::{put_done, put_number};
use crate::descriptors::{column, state};
use crate::words::{after, cut, name, number, time};
use mvcc_keys::{Hlc, Memory};
use schema_catalog::Catalog;
use std::alloc::Global;
use table_descriptors::Change;

/// `add v:STRING`, `remove v`, `rename-column v w`, `rename u`, `become offline`
fn read_change(alloc: Global, line: &str) -> Result<Change, Memory> {
    let (call, words) = cut(line);
    let (word, rest) = cut(words);
    match call {
        "add" => {
            let (name, kind) = column(alloc, word)?;
            Ok(Change::Add { name, kind })
        }
        "remove" => Ok(Change::Remove {
            name: name(alloc, word)?,
        }),
        "rename-column" => {
            let from = name(alloc, word)?;
            let to = name(alloc, cut(rest).0)?;
            Ok(Change::RenameColumn { from, to })
        }
        "rename" => Ok(Change::Rename {
            to: name(alloc, word)?,
        }),
        _ => Ok(Change::Become(state(word))),
    }
}

fn change_at(
    catalog: &mut Catalog,
    id: u32,
    change: &Change,
    t: Hlc,
    out: &mut String,
) -> Result<(), Memory> {
    match catalog.at(id, t) {
        Some(d) if d.version() < 1000 => put_number("version", &catalog.change(id, change, t), out),
        _ => Ok(out.push_str("not in force\n")?),
    }
}

/// `change 100 add v:STRING at 6`
pub fn change(
    alloc: Global,
    catalog: &mut Catalog,
    line: &str,
    out: &mut String,
) -> Result<(), Memory> {
    let (id, words) = cut(line);
    let change = read_change(alloc, words)?;
    change_at(catalog, number(id), &change, time(after(line, "at")), out)
}

fn drop_one(catalog: &mut Catalog, id: u32, t: Hlc, out: &mut String) -> Result<(), Memory> {
    match catalog.at(id, t) {
        Some(d) if d.version() < 1000 => put_done(&catalog.drop_tables(&[id], t), out),
        _ => Ok(out.push_str("not in force\n")?),
    }
}

fn drop_two(
    catalog: &mut Catalog,
    first: u32,
    second: u32,
    t: Hlc,
    out: &mut String,
) -> Result<(), Memory> {
    let Some(a) = catalog.at(first, t) else {
        return Ok(out.push_str("not in force\n")?);
    };
    let Some(b) = catalog.at(second, t) else {
        return Ok(out.push_str("not in force\n")?);
    };
    if a.version() >= 1000 || b.version() >= 1000 || first == second {
        return Ok(out.push_str("not in force\n")?);
    }
    put_done(&catalog.drop_tables(&[first, second], t), out)
}

/// `drop 100 at 9` or `drop 102,100 at 9`
pub fn drop(catalog: &mut Catalog, line: &str, out: &mut String) -> Result<(), Memory> {
    let (ids, _) = cut(line);
    let t = time(after(line, "at"));
    match ids.split_once(',') {
        Some((first, second)) => drop_two(catalog, number(first), number(second), t, out),
        None => drop_one(catalog, number(ids), t, out),
    }
}
