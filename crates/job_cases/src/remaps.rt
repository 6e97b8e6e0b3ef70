//! Tables of a backup under new ids.
ghost use Rattle.std.specs.Prelude.{◌≡◌, IfOk};
ghost use Rattle.id_remap.specs.Remapping.{ids_of};

use crate::catalogs::put_table;
use crate::descriptors::{put_descriptor, table};
use crate::words::{after, cut, has, name, number, time};
use id_remap::{RemapFault, Target, remap};
use key_rewriter::{IdMap, are_ascending};
use mvcc_keys::Memory;
use schema_catalog::Catalog;
use std::alloc::Global;
use table_descriptors::{Change, Descriptor, State};

/// The table in version 2.
fn republish(alloc: Global, d: &Descriptor) -> Result<Descriptor, Memory> {
    if d.version() > 1 {
        return Err(Memory);
    }
    let changed = d.changed(alloc, &Change::Become(State::Public), d.modified());
    changed.map_err(|_| Memory)
}

/// `chosen 102 d.u columns k:INT key k- references 100 at 1 again`
pub fn choose(alloc: Global, chosen: &mut Vec<Descriptor>, line: &str) -> Result<(), Memory> {
    let (id, words) = cut(line);
    let d = table(alloc, number(id), words)?;
    if has(line, "again") {
        return Ok(chosen.push(republish(alloc, &d)?)?);
    }
    Ok(chosen.push(d)?)
}

fn target(alloc: Global, line: &str) -> Result<Target, Memory> {
    let (word, rest) = cut(line);
    match word {
        "database" => Ok(Target::Database {
            name: name(alloc, cut(rest).0)?,
        }),
        "into" => Ok(Target::Tables {
            into: Some(name(alloc, cut(rest).0)?),
        }),
        _ => Ok(Target::Tables { into: None }),
    }
}

fn ids_of(alloc: Global, chosen: &[Descriptor]) -> Result<Vec<u32>, Memory>
    ensures { IfOk result (λ v. v.items ≡ ids_of chosen.now) }
{
    Ok(chosen.iter().map(|d| d.id()).collect(alloc)?)
}

fn put_fault(fault: &RemapFault, out: &mut String) -> Result<(), Memory> {
    match fault {
        RemapFault::MissingReference { table, referenced } => {
            Ok(write!(out, "MissingReference {table} {referenced}\n")?)
        }
        RemapFault::NoSuchDatabase { database } => Ok(write!(out, "NoSuchDatabase {database}\n")?),
        RemapFault::DatabaseExists { database } => Ok(write!(out, "DatabaseExists {database}\n")?),
        RemapFault::NameTaken { table } => {
            out.push_str("NameTaken")?;
            put_table(table, out)
        }
        RemapFault::TooManyTables => Ok(out.push_str("TooManyTables\n")?),
        RemapFault::Memory => Err(Memory),
    }
}

fn put_remapped(ids: &IdMap, made: &[Descriptor], out: &mut String) -> Result<(), Memory> {
    for (old, new) in ids.pairs() {
        write!(out, "{old} becomes {new}\n")?;
    }
    for d in made {
        put_descriptor(d, out)?;
    }
    Ok(())
}

/// `remap into e at 5`, `remap database z at 5`, `remap back at 5`, each with `skip` or without
pub fn answer(
    alloc: Global,
    catalog: &Catalog,
    chosen: &[Descriptor],
    line: &str,
    out: &mut String,
) -> Result<(), Memory> {
    let target = target(alloc, line)?;
    let ids = ids_of(alloc, chosen)?;
    if !are_ascending(&ids) {
        return Ok(out.push_str("not ascending\n")?);
    }
    let (skip, at) = (has(line, "skip"), time(after(line, "at")));
    match remap(alloc, chosen, catalog, &target, skip, at) {
        Ok((ids, made)) => put_remapped(&ids, &made, out),
        Err(fault) => put_fault(&fault, out),
    }
}
