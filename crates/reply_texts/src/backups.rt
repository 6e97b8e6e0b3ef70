//! The lines of restored tables and of subdirectories, and the texts of layers and of chains.
ghost use Rattle.std.specs.Prelude.{◌≡◌, ◌++◌, IfOk, OnOk, string_bytes};
ghost use Rattle.reply_texts.specs.Texts.{layer_text, link_text, links_text, chain_text, restored_text, tables_text, subdirectory_text, subdirectories_text};

use crate::RestoredTable;
use crate::rows::put_bytes;
use mvcc_keys::{Hlc, Memory};
use std::alloc::{AllocError, Global};
use table_descriptors::Name;

/// A layer: its subdirectory, its start and its end.
pub fn layer_text(
    alloc: Global,
    cluster: &Name,
    full: &Hlc,
    start: &Hlc,
    end: &Hlc,
) -> Result<String, AllocError>
    ensures { IfOk result (λ s. string_bytes s ≡ layer_text cluster.now full.now start.now end.now) }
{
    format!(in alloc; "{cluster}/{full} start={start} end={end}")
}

/// Appends a layer of a chain, after some text.
fn put_link(before: &str, link: &(Hlc, Hlc), text: &mut String) -> Result<(), AllocError>
    ensures { OnOk result (string_bytes text.new ≡ string_bytes text.old ++ (before.now ++ link_text link.now)) }
{
    let alloc = *text.allocator();
    let (start, end) = link;
    let link = format!(in alloc; "{before}{start}-{end}")?;
    text.push_str(link.as_str())
}

/// Appends further layers of a chain, each after a comma.
fn put_links(links: &[(Hlc, Hlc)], text: &mut String) -> Result<(), AllocError>
    ensures { OnOk result (string_bytes text.new ≡ string_bytes text.old ++ links_text links.now) }
{
    for link in links {
        put_link(",", link, text)?;
    }
    Ok(())
}

/// The layers of a chain, with commas.
pub fn chain_text(alloc: Global, chain: &[(Hlc, Hlc)]) -> Result<String, AllocError>
    ensures { IfOk result (λ s. string_bytes s ≡ chain_text chain.now) }
{
    let mut text = String::new(alloc);
    let Some((first, others)) = chain.split_first() else {
        return Ok(text);
    };
    put_link("", first, &mut text)?;
    put_links(others, &mut text)?;
    Ok(text)
}

fn put_table(restored: &RestoredTable, text: &mut Vec<u8>) -> Result<(), Memory>
    ensures { OnOk result (text.new.items ≡ text.old.items ++ restored_text restored.now) }
{
    let alloc = *text.allocator();
    let RestoredTable {
        old,
        new,
        table: (database, name),
    } = restored;
    let line = format!(in alloc; "  {old} -> {new} {database}.{name}\n")?;
    put_bytes(line.as_bytes(), text)
}

/// Appends the lines of restored tables.
pub fn put_tables(tables: &[RestoredTable], text: &mut Vec<u8>) -> Result<(), Memory>
    ensures { OnOk result (text.new.items ≡ text.old.items ++ tables_text tables.now) }
{
    for table in tables {
        put_table(table, text)?;
    }
    Ok(())
}

fn put_subdirectory(subdirectory: &(Name, Hlc), text: &mut Vec<u8>) -> Result<(), Memory>
    ensures { OnOk result (text.new.items ≡ text.old.items ++ subdirectory_text subdirectory.now) }
{
    let alloc = *text.allocator();
    let (cluster, time) = subdirectory;
    let line = format!(in alloc; "  {cluster}/{time}\n")?;
    put_bytes(line.as_bytes(), text)
}

/// Appends the lines of subdirectories.
pub fn put_subdirectories(subdirectories: &[(Name, Hlc)], text: &mut Vec<u8>) -> Result<(), Memory>
    ensures { OnOk result (text.new.items ≡ text.old.items ++ subdirectories_text subdirectories.now) }
{
    for subdirectory in subdirectories {
        put_subdirectory(subdirectory, text)?;
    }
    Ok(())
}
